//! Leaves on the ways of edges.

use graph_draft::{Draft, Element, End, Side, Size, text_value};
use std::alloc::{AllocError, Global};

/// A leaf on the way of an edge.
#[derive(Clone, Copy, Debug, Drop)]
pub struct Leaf {
    pub node: usize,
    /// The port where the edge arrives.
    pub entry: End,
    /// The port where the edge goes on.
    pub exit: End,
}

/// The form of a leaf.
#[derive(Clone, Copy, Drop)]
pub struct Shape {
    pub size: Size,
    /// How far from the leaf's corner the line passes, across the direction of the level.
    pub line: f64,
}

impl Shape {
    /// A leaf without a size.
    pub const POINT: Shape = Shape {
        size: Size::NONE,
        line: 0.0,
    };
}

fn add_stop(
    alloc: Global,
    draft: &mut Draft,
    node: usize,
    side: Side,
    shape: Shape,
) -> Result<End, AllocError> {
    let place = side.place_at(Size::NONE, shape.line, 0.0, shape.size);
    let port = draft.add_port(alloc, node, Size::NONE, place)?;
    let name = text_value(alloc, side.name())?;
    draft.ask(Element::Port(port), "port.side", name)?;
    let port = Some(port);
    Ok(End { node, port })
}

/// Adds a leaf to a level, with a port where an edge arrives and one where it goes on.
pub fn leaf_on(
    alloc: Global,
    draft: &mut Draft,
    level: usize,
    shape: Shape,
) -> Result<Leaf, AllocError> {
    let direction = draft.direction_of(level);
    let node = draft.add_leaf(alloc, level, shape.size)?;
    let fixed = text_value(alloc, "FIXED_POS")?;
    draft.ask(Element::Node(node), "portConstraints", fixed)?;
    let entry = add_stop(alloc, draft, node, direction.behind(), shape)?;
    let exit = add_stop(alloc, draft, node, direction.ahead(), shape)?;
    Ok(Leaf { node, entry, exit })
}
