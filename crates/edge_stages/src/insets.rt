//! A pinned port may lie a little inside its node, as the pins of curved gates do. It is sent at the border, and the lines are drawn
//! on to it afterwards.

use graph_draft::{Draft, Element, End, Kind, Mark, Point, Side, Size, joined_edges};
use std::alloc::{AllocError, Global};
use std::collections::BTreeMap;

// A port that lies as deep inside is taken for a mistake, and refused.
const TOO_DEEP: f64 = 0.25;

// A port that was moved to the border.
#[derive(Clone, Copy, Drop)]
struct Inset {
    node: usize,
    side: Side,
    depth: f64,
}

/// The ports that were moved to the borders of their nodes.
#[derive(Drop)]
pub struct Insets {
    mark: Mark,
    moved: BTreeMap<usize, Inset>,
}

// How far a port lies inside of a side.
fn depth_of(side: Side, place: Point, size: Size, node: Size) -> f64 {
    match side {
        Side::North => place.y,
        Side::West => place.x,
        Side::East => node.width - place.x - size.width,
        Side::South => node.height - place.y - size.height,
    }
}

// The side at which an inner port is sent: the one that it asks for, or the nearest; nothing if it touches that side.
fn side_of_inner(asked: Option<Side>, place: Point, size: Size, node: Size) -> Option<Side> {
    let depth = |side: Side| depth_of(side, place, size, node);
    let nearest = || {
        let mut best = Side::North;
        for side in Side::ALL {
            if depth(side) < depth(best) {
                best = side;
            }
        }
        best
    };
    let side = asked.unwrap_or_else(nearest);
    if depth(side) > 0.0 { Some(side) } else { None }
}

// Moves a port to the border if it lies a little inside.
fn move_inset(draft: &mut Draft, node: usize, port: usize) -> Option<Inset> {
    let element = Element::Port(port);
    let (size, around) = (draft.size_of(element), draft.size_of(Element::Node(node)));
    let place = draft.place_of(element);
    let side = side_of_inner(draft.side_asked(port), place, size, around)?;
    let depth = depth_of(side, place, size, around);
    if depth >= side.outward(around) * TOO_DEEP {
        return None;
    }
    let border = side.place_at(size, 0.0, -side.outward(size), around);
    draft.put(element, side.with_back(place, side.back(border)));
    Some(Inset { node, side, depth })
}

/// Moves pinned ports that lie a little inside their nodes to the borders.
pub fn move_insets(alloc: Global, draft: &mut Draft) -> Result<Insets, AllocError> {
    let mut moved = BTreeMap::new(alloc);
    for node in 0..draft.given_nodes {
        if draft.is_pinned(node) {
            for port in Vec::from_slice(alloc, draft.ports_of(node))?.iter() {
                if let Some(inset) = move_inset(draft, node, *port) {
                    moved.insert(*port, inset)?;
                }
            }
        }
    }
    let mark = draft.mark();
    Ok(Insets { mark, moved })
}

impl Insets {
    /// How far inside its node each of the ports lies that were moved to the border, by their numbers.
    pub fn depths(&self, alloc: Global) -> Result<BTreeMap<usize, f64>, AllocError> {
        let mut depths = BTreeMap::new(alloc);
        for (port, inset) in self.moved.iter() {
            depths.insert(*port, inset.depth)?;
        }
        Ok(depths)
    }
}

// Draws an edge on to the port at one of its ends, if that was moved.
fn draw_end(
    alloc: Global,
    draft: &mut Draft,
    edge: usize,
    end: End,
    kind: Kind,
    moved: &BTreeMap<usize, Inset>,
) -> Result<(), AllocError> {
    let inset = match end.port {
        Some(port) => moved.get(&port).copied(),
        None => None,
    };
    match inset {
        Some(inset) => draft.draw_on(alloc, edge, kind, inset.node, inset.side, -inset.depth),
        None => Ok(()),
    }
}

/// Moves ports back inside their nodes, and draws the edges on to them. It answers these ports and how far each is moved.
pub fn draw_insets(
    alloc: Global,
    draft: &mut Draft,
    insets: Insets,
) -> Result<Vec<(usize, Point)>, AllocError> {
    let Insets { mark, moved } = insets;
    draft.undo_to(mark)?;
    let mut moves = Vec::new(alloc);
    if moved.is_empty() {
        return Ok(moves);
    }
    for joined in joined_edges(alloc, draft)? {
        draw_end(
            alloc,
            draft,
            joined.edge,
            joined.source,
            Kind::Source,
            &moved,
        )?;
        draw_end(
            alloc,
            draft,
            joined.edge,
            joined.target,
            Kind::Target,
            &moved,
        )?;
    }
    for (port, inset) in moved.iter() {
        let element = Element::Port(*port);
        let by = inset
            .side
            .place_at(Size::NONE, 0.0, -inset.depth, Size::NONE);
        draft.put(element, draft.place_of(element).moved(by));
        moves.push((*port, by))?;
    }
    Ok(moves)
}
