//! Orders and ways of a graph, asked by functions that promise nothing.
use cycle_break::{orient, path, topological};
use graph_arena::{Arena, EdgeKey, NodeKey};
use std::alloc::{AllocError, Global};

// A way between two nodes, if both are live.
fn way(
    alloc: Global,
    arena: &Arena,
    from: NodeKey,
    to: NodeKey,
) -> Result<Option<Vec<EdgeKey>>, AllocError> {
    if !arena.is_live_node(from) || !arena.is_live_node(to) {
        return Ok(None);
    }
    path(alloc, arena, from, to)
}

/// How many nodes are in an order by the edges, if there is one.
pub fn sorted(alloc: Global, arena: &Arena) -> Result<Option<usize>, AllocError> {
    match topological(alloc, arena)? {
        None => Ok(None),
        Some(order) => Ok(Some(order.len())),
    }
}

/// How many edges are reversed so that there is one.
pub fn reversed_count(alloc: Global, arena: &mut Arena) -> Result<usize, AllocError> {
    let reversed = orient(alloc, arena)?;
    Ok(reversed.edges.len())
}

fn are_same(edges: &[EdgeKey], wanted: &[EdgeKey]) -> bool {
    if edges.len() != wanted.len() {
        return false;
    }
    edges
        .iter()
        .zip(wanted)
        .all(|(edge, other)| edge.at == other.at)
}

/// Whether there is a way between two nodes, and it is by these edges, if any are given.
pub fn is_way(
    alloc: Global,
    arena: &Arena,
    from: NodeKey,
    to: NodeKey,
    edges: &[EdgeKey],
) -> Result<bool, AllocError> {
    match way(alloc, arena, from, to)? {
        None => Ok(false),
        Some(found) => Ok(edges.is_empty() || are_same(found.as_slice(), edges)),
    }
}
