//! The pairs that are turned round at their level.

use crate::model::Model;
use layer_stages::{LevelArc, arcs_against, ranks_of};
use std::alloc::{AllocError, Global};
use std::collections::BTreeMap;

// The pairs of a level that join two of its children, or what is in them, as arcs between these.
fn arcs_at(alloc: Global, model: &Model, level: usize) -> Result<Vec<LevelArc>, AllocError> {
    // Numbers of children ascend.
    let children = model.draft.children_of(level);
    let place_of = |child: usize| children.partition_point(|other| *other < child);
    let mut arcs = Vec::new(alloc);
    for at in model.pairs_of(level) {
        if let Some(pair) = model.pairs.get(*at) {
            match (pair.up.last(), pair.down.last()) {
                (Some(tail), Some(head)) if tail != head => arcs.push(LevelArc {
                    edge: *at,
                    tail: place_of(*tail),
                    head: place_of(*head),
                })?,
                _ => {}
            }
        }
    }
    Ok(arcs)
}

fn pairs_against(alloc: Global, model: &Model, level: usize) -> Result<Vec<usize>, AllocError> {
    let arcs = arcs_at(alloc, model, level)?;
    let ranks = ranks_of(alloc, &model.draft, level, &BTreeMap::new(alloc))?;
    let count = model.draft.children_of(level).len();
    arcs_against(alloc, count, arcs.as_slice(), ranks.as_ref())
}

/// Turns pairs that close cycles or run against the layers that are asked for. A piece to a border closes none, so the children that
/// pairs join tell enough.
pub(crate) fn turn_pairs(alloc: Global, model: &mut Model) -> Result<(), AllocError> {
    for level in Vec::from_slice(alloc, model.levels.as_slice())? {
        for at in pairs_against(alloc, model, level)? {
            if let Some(pair) = model.pairs.get_mut(at) {
                pair.is_turned = true;
            }
        }
    }
    Ok(())
}
