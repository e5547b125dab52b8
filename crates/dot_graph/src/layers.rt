//! Layers of least length.

use crate::walks::places_of;
use network_laws::{NetEdge, Network, is_sorted_network};
use network_parts::solve_parts;
use std::alloc::{AllocError, Global};

/// An arc of a graph, whose head is to be in a later layer than its tail.
#[derive(Clone, Copy, Debug, Drop)]
pub(crate) struct Arc {
    pub(crate) tail: usize,
    pub(crate) head: usize,
    /// How dear its length is.
    pub(crate) weight: u32,
}

// An arc as an edge of the network in which vertices have the numbers of their places. One that closes a cycle is turned round.
fn edge_of(places: &[usize], arc: Arc) -> Option<NetEdge> {
    let tail = *places.get(arc.tail)?;
    let head = *places.get(arc.head)?;
    if tail == head {
        return None;
    }
    Some(NetEdge {
        tail: u32::try_from(tail.min(head)).ok()?,
        head: u32::try_from(tail.max(head)).ok()?,
        least: 1,
        weight: arc.weight,
    })
}

fn network_of(
    alloc: Global,
    count: u32,
    places: &[usize],
    arcs: &[Arc],
) -> Result<Network, AllocError> {
    let mut edges = Vec::new(alloc);
    for arc in arcs {
        if let Some(edge) = edge_of(places, *arc) {
            edges.push(edge)?;
        }
    }
    Ok(Network {
        nodes: count,
        edges,
    })
}

// The layers of a network's nodes; nothing if it is too large.
fn solved(alloc: Global, network: &Network) -> Result<Option<Vec<i64>>, AllocError> {
    if !is_sorted_network(network.nodes, network.edges.as_slice()) {
        return Ok(None);
    }
    let solution = solve_parts(alloc, network)?;
    Ok(Some(solution.layer))
}

/// The layers of the vertices below a count, so that arcs are as short as can be. There is nothing if the graph is too large.
pub(crate) fn layers_of(
    alloc: Global,
    count: usize,
    mut arcs: Vec<Arc>,
) -> Result<Option<Vec<usize>>, AllocError> {
    let Ok(nodes) = u32::try_from(count) else {
        return Ok(None);
    };
    arcs.sort_by_key(|arc| arc.tail)?;
    let places = places_of(alloc, count, arcs.as_slice())?;
    let network = network_of(alloc, nodes, places.as_slice(), arcs.as_slice())?;
    let Some(solution) = solved(alloc, &network)? else {
        return Ok(None);
    };
    let mut layers = Vec::new(alloc);
    for place in places {
        let layer = solution.get(place).copied().unwrap_or(0);
        layers.push(usize::try_from(layer).unwrap_or(0))?;
    }
    Ok(Some(layers))
}
