//! The gaps between the layers of levels whose routes are slanted or curved.

use crate::drawings::{Drawing, Drawings, Placement};
use border_levels::{Model, Piece};
use route_curves::{Frame, Gaps, Layered, gaps_between};
use serde_json::Value;
use std::alloc::{AllocError, Global};
use std::collections::BTreeMap;

/// The gaps of a level as it stands in its node.
#[derive(Drop)]
pub(crate) struct LevelGaps {
    pub(crate) gaps: Gaps,
    // The parts of the children that no edges join, by their places.
    parts: Vec<usize>,
}

// A whole number in a list of a level's certificate.
fn number_at(layering: &Value, key: &str, at: usize) -> Option<usize> {
    match layering.get(key) {
        Some(Value::Array(items)) => match items.get(at)?.as_u64() {
            Some(number) => usize::try_from(number).ok(),
            None => None,
        },
        _ => None,
    }
}

fn gaps_of(
    alloc: Global,
    frame: Frame,
    drawing: &Drawing,
    placement: &Placement,
) -> Result<LevelGaps, AllocError> {
    let mut nodes = Vec::new(alloc);
    let mut parts = Vec::new(alloc);
    if let Some(layering) = drawing.level.layering.as_ref() {
        for (at, (place, size)) in drawing.level.outlines.iter().enumerate() {
            let part = number_at(layering, "parts", at).unwrap_or(0);
            parts.push(part)?;
            if let (Some(layer), false) = (
                number_at(layering, "layers", at),
                drawing.is_border(at),
            ) {
                let span = frame.span_of(place.moved(placement.shift), *size);
                nodes.push(Layered { span, layer, part })?;
            }
        }
    }
    let gaps = gaps_between(alloc, nodes.as_slice())?;
    Ok(LevelGaps { gaps, parts })
}

/// The gaps of all open levels, if some routes are slanted or curved.
pub(crate) fn all_gaps(
    alloc: Global,
    model: &Model,
    drawings: &Drawings,
) -> Result<BTreeMap<usize, LevelGaps>, AllocError> {
    let mut all = BTreeMap::new(alloc);
    if !model.is_bent {
        return Ok(all);
    }
    for level in model.levels.iter() {
        if let (Some(drawing), Some(placement)) = (
            drawings.drawing_of(*level),
            drawings.placement_of(*level),
        ) {
            let frame = Frame(model.direction_of(*level));
            all.insert(*level, gaps_of(alloc, frame, drawing, placement)?)?;
        }
    }
    Ok(all)
}

impl LevelGaps {
    /// The part of a level to which a piece belongs: that of the first of its nodes.
    pub(crate) fn part_of(&self, model: &Model, piece: &Piece) -> usize {
        let node = match piece.from.node(model) {
            Some(node) => Some(node),
            None => piece.to.node(model),
        };
        // Children stand in the order of their numbers.
        let at = match node {
            Some(node) => model
                .draft
                .children_of(piece.level)
                .binary_search(&node)
                .ok(),
            None => None,
        };
        match at {
            Some(at) => self.parts.get(at).copied().unwrap_or(0),
            None => 0,
        }
    }
}
