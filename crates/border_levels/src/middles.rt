//! The pieces of pairs at the levels to which these belong.

use crate::crossings::{Piece, PieceEnd};
use crate::model::Model;
use crate::pairs::{Dock, Pair, PairEnd, Step};
use graph_draft::{Element, Side};
use std::alloc::{AllocError, Global};

/// Adds a piece to its level.
pub(crate) fn add_piece(model: &mut Model, piece: Piece) -> Result<usize, AllocError> {
    let at = model.pieces.len();
    if let Some(level) = model.nodes.get_mut(piece.level) {
        level.pieces.push(at)?;
    }
    model.pieces.push(piece)?;
    Ok(at)
}

// The side of its own level to which a piece is led that ends at the level's border.
fn exit_at(model: &Model, end: PieceEnd) -> Option<Side> {
    match end {
        PieceEnd::Frame(at) => match model.crossings.get(at) {
            Some(crossing) => Some(crossing.exit),
            None => None,
        },
        _ => None,
    }
}

// Whether a pair shares docks with the others of its level, which may ask for it.
fn is_merged(model: &Model, pair: &Pair) -> bool {
    let is_plain = pair.stem.is_none() && !pair.is_across() && !pair.is_loop();
    let level = Element::Node(pair.level);
    is_plain && model.draft.asks(level, "layered.mergeEdges", "TRUE")
}

// An end at a node without a port, at the dock that it shares with the others of its kind.
fn merged(end: PieceEnd, is_tail: bool) -> PieceEnd {
    match end {
        PieceEnd::Own(own) if own.port.is_none() => PieceEnd::Own(PairEnd {
            dock: Dock::Merged(own.node, is_tail),
            ..own
        }),
        end => end,
    }
}

/// The step of a pair at its own level, sent the other way round if it closes a cycle or leads against the layers.
pub(crate) fn middle_of(
    alloc: Global,
    model: &mut Model,
    pair: &Pair,
    from: PieceEnd,
    to: PieceEnd,
) -> Result<Step, AllocError> {
    let direction = model.direction_of(pair.level);
    let is_tail_last = exit_at(model, from) == Some(direction.ahead());
    let is_head_first = exit_at(model, to) == Some(direction.behind());
    let is_flipped = pair.is_turned || is_tail_last || is_head_first;
    let (mut from, mut to) = if is_flipped { (to, from) } else { (from, to) };
    if is_merged(model, pair) {
        from = merged(from, true);
        to = merged(to, false);
    }
    let piece = Piece {
        level: pair.level,
        edge: pair.edge,
        from,
        to,
        is_turned: is_flipped,
        labels: Vec::new(alloc),
    };
    let piece = add_piece(model, piece)?;
    Ok(Step { piece, is_flipped })
}
