//! What stands at a node with an open level, as the level around is laid out: declared ports, borders that edges cross, and ends of
//! edges at the node itself. Each has its own place, since an end that is spread may fall on the place of a pinned port.

use border_levels::{Dock, Model, PieceEnd};
use graph_draft::{Direction, Side};
use std::alloc::{AllocError, Global};

/// What stands at a node.
#[derive(Clone, Copy, Debug, Drop, PartialEq, Eq, PartialOrd, Ord)]
pub enum SpotKey {
    /// A declared port, by its number in the draft.
    Port(usize),
    /// A border that edges cross away from ports, by the number of the crossing.
    Border(usize),
    /// An end of edges at the node itself.
    End(Dock),
}

/// Something at a side of a node.
#[derive(Clone, Copy, Debug, Drop)]
pub struct PinnedSpot {
    pub key: SpotKey,
    pub side: Side,
    /// The declared port, if it is one.
    pub port: Option<usize>,
    /// The crossing of the node's border, if edges cross it there.
    pub crossing: Option<usize>,
}

/// What stands at a node where edges cross its border.
pub fn spot_key(model: &Model, crossing: usize) -> SpotKey {
    match model.crossing(crossing) {
        Some(found) if found.is_inner => dock_key(found.dock),
        _ => SpotKey::Border(crossing),
    }
}

// What stands at a node where edges of a dock end.
pub(crate) fn dock_key(dock: Dock) -> SpotKey {
    match dock {
        Dock::Port(port) => SpotKey::Port(port),
        Dock::Stem(_) | Dock::End(_, _) | Dock::Merged(_, _) => SpotKey::End(dock),
    }
}

// The crossing at which edges end at a dock of a node from within.
pub(crate) fn crossing_at(model: &Model, node: usize, dock: Dock) -> Option<(usize, Side)> {
    for crossing in model.crossings_of(node) {
        if let Some(found) = model.crossing(*crossing) {
            if found.is_inner && found.dock == dock {
                return Some((*crossing, found.side));
            }
        }
    }
    None
}

fn add_ports(spots: &mut Vec<PinnedSpot>, model: &Model, node: usize) -> Result<(), AllocError> {
    for port in model.draft.ports_of(node) {
        spots.push(PinnedSpot {
            key: SpotKey::Port(*port),
            side: model.port(*port).side,
            port: Some(*port),
            crossing: match crossing_at(model, node, Dock::Port(*port)) {
                Some((crossing, _)) => Some(crossing),
                None => None,
            },
        })?;
    }
    Ok(())
}

// An edge that leads from the border inwards has no spot around.
fn add_borders(spots: &mut Vec<PinnedSpot>, model: &Model, node: usize) -> Result<(), AllocError> {
    for crossing in model.crossings_of(node) {
        if let Some(found) = model.crossing(*crossing) {
            if found.port.is_none() && !found.is_inner {
                spots.push(PinnedSpot {
                    key: SpotKey::Border(*crossing),
                    side: found.side,
                    port: None,
                    crossing: Some(*crossing),
                })?;
            }
        }
    }
    Ok(())
}

// Where edges of a dock end from within as well, they meet those from outside.
fn add_end(
    spots: &mut Vec<PinnedSpot>,
    model: &Model,
    node: usize,
    end: PieceEnd,
    asked: Side,
) -> Result<(), AllocError> {
    if let PieceEnd::Own(own) = end {
        let key = dock_key(own.dock);
        let is_here = own.node == node && own.port.is_none();
        if is_here && !spots.iter().any(|spot| spot.key == key) {
            let (crossing, side) = match crossing_at(model, node, own.dock) {
                Some((crossing, side)) => (Some(crossing), side),
                None => (None, asked),
            };
            spots.push(PinnedSpot {
                key,
                side,
                port: None,
                crossing,
            })?;
        }
    }
    Ok(())
}

fn add_ends(
    spots: &mut Vec<PinnedSpot>,
    model: &Model,
    node: usize,
    direction: Direction,
    pieces: &[usize],
) -> Result<(), AllocError> {
    for at in pieces {
        if let Some(piece) = model.piece(*at) {
            let is_loop = piece.from.node(model) == piece.to.node(model);
            let entered = if is_loop {
                direction.ahead()
            } else {
                direction.behind()
            };
            add_end(spots, model, node, piece.from, direction.ahead())?;
            add_end(spots, model, node, piece.to, entered)?;
        }
    }
    Ok(())
}

/// All that stands at a node with an open level, as far as some pieces of the level around are concerned: its ports in their order,
/// then borders that edges cross, then ends of the pieces.
pub fn spots_of(
    alloc: Global,
    model: &Model,
    node: usize,
    level: usize,
    pieces: &[usize],
) -> Result<Vec<PinnedSpot>, AllocError> {
    let mut spots = Vec::new(alloc);
    add_ports(&mut spots, model, node)?;
    add_borders(&mut spots, model, node)?;
    let direction = model.direction_of(level);
    add_ends(&mut spots, model, node, direction, pieces)?;
    Ok(spots)
}
