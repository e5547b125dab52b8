//! What binds the nodes of a part to the layers that the engine found for them.

use crate::bars::DEAREST;
use crate::parts::{Part, PartArc};
use disjoint_sets::DisjointSets;
use serde_json::Value;
use std::alloc::{AllocError, Global};
use std::collections::BTreeMap;
use std::num::nearest_usize_to_f64;

// An edge of a part, and by how many layers its ends lie apart.
#[derive(Clone, Copy, Drop)]
pub(crate) struct Spanning {
    pub(crate) arc: PartArc,
    pub(crate) length: usize,
}

// What binds nodes to their layers.
#[derive(Drop)]
pub(crate) struct Bindings {
    // Edges that are to be dear, each led through a leaf in each layer that it passes.
    pub(crate) dear: Vec<Spanning>,
    // Pairs of nodes in neighbouring layers that are to be joined, by their places in the part.
    pub(crate) links: Vec<(usize, usize)>,
    pub(crate) weight: f64,
}

// The layers of the nodes of a part, without those in which only bars stand.
pub(crate) fn layers_from(
    alloc: Global,
    part: &Part,
    level: Option<&Value>,
) -> Result<Vec<usize>, AllocError> {
    let told = level
        .and_then(|level| level.get("layering"))
        .and_then(|layering| layering.get("layers"));
    let mut found = Vec::new(alloc);
    let mut places = BTreeMap::new(alloc);
    for at in 0..part.nodes.len() {
        let layer = match told {
            Some(Value::Array(items)) => items.get(at).and_then(Value::as_u64),
            _ => None,
        };
        found.push(layer.unwrap_or(0))?;
        places.insert(layer.unwrap_or(0), 0)?;
    }
    let mut count: usize = 0;
    for (_, place) in places.iter_mut() {
        *place = count;
        count = count.saturating_add(1);
    }
    let mut layers = Vec::new(alloc);
    for layer in found.iter() {
        layers.push(places.get(layer).copied().unwrap_or(0))?;
    }
    Ok(layers)
}

// The nodes of each layer.
fn rows_of(alloc: Global, layers: &[usize]) -> Result<Vec<Vec<usize>>, AllocError> {
    let mut rows: Vec<Vec<usize>> = Vec::new(alloc);
    for _ in layers {
        rows.push(Vec::new(alloc))?;
    }
    for (at, layer) in layers.iter().enumerate() {
        if let Some(row) = rows.get_mut(*layer) {
            row.push(at)?;
        }
    }
    Ok(rows)
}

// A pair of nodes, if it joins two sets.
fn link(
    sets: &mut DisjointSets,
    links: &mut Vec<(usize, usize)>,
    tail: Option<&usize>,
    head: Option<&usize>,
) -> Result<(), AllocError> {
    if let (Some(tail), Some(head)) = (tail, head) {
        if sets.join(*tail, *head) {
            links.push((*tail, *head))?;
        }
    }
    Ok(())
}

// Pairs of nodes in two neighbouring layers that join sets: first those at equal places, and then each node with the one behind
// that. So nodes that no edge joins stand beside each other in their order.
fn link_rows(
    sets: &mut DisjointSets,
    links: &mut Vec<(usize, usize)>,
    row: &[usize],
    next: &[usize],
) -> Result<(), AllocError> {
    let count = row.len().max(next.len());
    for step in 0..2_usize {
        for at in 0..count {
            let tail = row.get(at).or(row.last());
            let head = next.get(at.saturating_add(step)).or(next.last());
            link(sets, links, tail, head)?;
        }
    }
    Ok(())
}

// Pairs of nodes in neighbouring layers that join all sets.
fn links_between(
    alloc: Global,
    layers: &[usize],
    sets: &mut DisjointSets,
) -> Result<Vec<(usize, usize)>, AllocError> {
    let rows = rows_of(alloc, layers)?;
    let mut links = Vec::new(alloc);
    for (row, next) in rows.iter().zip(rows.iter().skip(1)) {
        link_rows(sets, &mut links, row.as_slice(), next.as_slice())?;
    }
    Ok(links)
}

fn spanning_arcs(
    alloc: Global,
    part: &Part,
    layers: &[usize],
) -> Result<Vec<Spanning>, AllocError> {
    let layer_of = |at: usize| layers.get(at).copied().unwrap_or(0);
    let mut arcs = Vec::new(alloc);
    for arc in part.arcs.iter() {
        let length = layer_of(arc.head).saturating_sub(layer_of(arc.tail));
        arcs.push(Spanning { arc: *arc, length })?;
    }
    arcs.sort_by_key(|it| it.length)?;
    Ok(arcs)
}

// What binds the nodes of a part to their layers. The leaves are no more than the nodes.
pub(crate) fn bindings_of(
    alloc: Global,
    part: &Part,
    layers: &[usize],
) -> Result<Bindings, AllocError> {
    let mut sets = DisjointSets::singletons(alloc, part.nodes.len())?;
    let mut room = part.nodes.len();
    let mut dear = Vec::new(alloc);
    // No other edge gains as much by other layers as one of the dear ones loses.
    let mut loose: f64 = 0.0;
    for it in spanning_arcs(alloc, part, layers)? {
        let passed = it.length.saturating_sub(1);
        if passed <= room && sets.join(it.arc.tail, it.arc.head) {
            room = room.saturating_sub(passed);
            dear.push(it)?;
        } else {
            loose += it.arc.weight * nearest_usize_to_f64(passed);
        }
    }
    Ok(Bindings {
        dear,
        links: links_between(alloc, layers, &mut sets)?,
        weight: (loose + 1.0).min(DEAREST),
    })
}
