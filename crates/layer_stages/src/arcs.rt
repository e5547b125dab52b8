//! The edges of levels as arcs between their children.

use graph_draft::{Draft, joined_edges};
use std::alloc::{AllocError, Global};
use std::collections::{BTreeMap, BTreeSet};

/// An edge from one child of a level to another, by their places among the children.
#[derive(Clone, Copy, Debug, Drop)]
pub struct LevelArc {
    /// The number of the edge.
    pub edge: usize,
    pub tail: usize,
    pub head: usize,
}

// The arcs of some levels, in the order of the document.
pub(crate) type Arcs = BTreeMap<usize, Vec<LevelArc>>;

// For each child of some levels its place there, by its number.
fn places_in(
    alloc: Global,
    draft: &Draft,
    levels: &BTreeSet<usize>,
) -> Result<Vec<usize>, AllocError> {
    let mut places = vec![in alloc; 0; draft.nodes.len()]?;
    for level in levels.iter() {
        for (at, child) in draft.children_of(*level).iter().enumerate() {
            if let Some(place) = places.get_mut(*child) {
                *place = at;
            }
        }
    }
    Ok(places)
}

pub(crate) fn arcs_in(
    alloc: Global,
    draft: &Draft,
    levels: &BTreeSet<usize>,
) -> Result<Arcs, AllocError> {
    let places = places_in(alloc, draft, levels)?;
    let place_of = |node: usize| places.get(node).copied().unwrap_or(0);
    let mut arcs = BTreeMap::new(alloc);
    for level in levels.iter() {
        arcs.insert(*level, Vec::new(alloc))?;
    }
    for found in joined_edges(alloc, draft)? {
        match arcs.get_mut(&found.level) {
            Some(list) if !found.is_loop() => list.push(LevelArc {
                edge: found.edge,
                tail: place_of(found.source.node),
                head: place_of(found.target.node),
            })?,
            _ => {}
        }
    }
    Ok(arcs)
}
