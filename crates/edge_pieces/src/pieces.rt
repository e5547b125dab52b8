//! The pieces of an edge that is led through leaves.

use crate::leaves::Leaf;
use edge_stages::copied_options;
use graph_draft::{Draft, Element, Mark};
use std::alloc::{AllocError, Global};

/// An edge that is led through leaves.
#[derive(Drop)]
pub struct Led {
    before: Mark,
    mark: Mark,
    edge: usize,
    pieces: Vec<usize>,
}

impl Led {
    /// The pieces, from the source to the target. The first of them is the edge itself.
    pub fn pieces(&self) -> &[usize] {
        self.pieces.as_slice()
    }
}

fn home_of(draft: &Draft, edge: usize) -> usize {
    match draft.edges.get(edge) {
        Some(edge) => edge.home,
        None => 0,
    }
}

/// Leads an edge through leaves of its level, in their order. Its pieces have its options.
pub fn lead_through(
    alloc: Global,
    draft: &mut Draft,
    edge: usize,
    leaves: &[Leaf],
) -> Result<Led, AllocError> {
    let before = draft.mark();
    let home = home_of(draft, edge);
    let mut pieces = vec![in alloc; edge]?;
    if let (Some((source, target)), Some(first)) = (draft.ends_of(edge), leaves.first()) {
        draft.change_ends(alloc, edge, source, first.entry)?;
        for (at, leaf) in leaves.iter().enumerate() {
            let next = match leaves.get(at.saturating_add(1)) {
                Some(next) => next.entry,
                None => target,
            };
            let options = copied_options(alloc, draft, edge)?;
            let piece = draft.add_edge(alloc, home, leaf.exit, next, options)?;
            for made in [Element::Node(leaf.node), Element::Edge(piece)] {
                draft.set_owner(made, Element::Edge(edge));
            }
            pieces.push(piece)?;
        }
    }
    Ok(Led {
        before,
        mark: draft.mark(),
        edge,
        pieces,
    })
}

/// Joins the routes of the pieces of a placed edge, which gets its ends back.
pub fn join_pieces(alloc: Global, draft: &mut Draft, led: &Led) -> Result<(), AllocError> {
    draft.undo_to(led.mark)?;
    let mut points = Vec::new(alloc);
    for piece in led.pieces.iter() {
        for point in draft.route_of(*piece) {
            points.push(*point)?;
        }
    }
    draft.route(alloc, led.edge, points.as_slice())?;
    draft.undo_to(led.before)
}
