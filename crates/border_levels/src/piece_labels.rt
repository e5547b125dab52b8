//! Labels of edges, each with the piece with which it is sent.

use crate::crossings::SentLabel;
use crate::model::Model;
use crate::pairs::{Pair, PieceLabel};
use edge_labels::{Spot, spot_of};
use graph_draft::Element;
use std::alloc::{AllocError, Global};

fn swapped(spot: Spot) -> Spot {
    match spot {
        Spot::Tail => Spot::Head,
        Spot::Center => Spot::Center,
        Spot::Head => Spot::Tail,
    }
}

// Where a label of a pair is sent, and with which of its steps: those at an end go with the piece there, all others with the piece at
// the level of the pair. The border at which a pair ends from within is no node that a label could stand at.
fn place_for(spot: Spot, pair: &Pair, middle: usize) -> (Spot, usize) {
    let last = pair.pieces.len().saturating_sub(1);
    match spot {
        Spot::Tail if !pair.up.is_empty() => (Spot::Tail, 0),
        Spot::Head if !pair.down.is_empty() => (Spot::Head, last),
        _ => (Spot::Center, middle),
    }
}

/// Shares out the labels of a pair's edge among the pair's pieces.
pub(crate) fn share_labels(
    alloc: Global,
    model: &mut Model,
    pair: &mut Pair,
    middle: usize,
) -> Result<(), AllocError> {
    for label in Vec::from_slice(alloc, model.draft.labels_of(Element::Edge(pair.edge)))? {
        let asked = spot_of(&model.draft, label, pair.edge);
        let (spot, at) = place_for(asked, pair, middle);
        if let Some(step) = pair.pieces.get(at).copied() {
            let spot = if step.is_flipped { swapped(spot) } else { spot };
            if let Some(piece) = model.pieces.get_mut(step.piece) {
                pair.labels.push(PieceLabel {
                    label,
                    piece: step.piece,
                    at: piece.labels.len(),
                })?;
                piece.labels.push(SentLabel { label, spot })?;
            }
        }
    }
    Ok(())
}
