//! What a graph says of a node or an edge, asked without knowing that it is live, and changes of it that promise nothing: a
//! test that makes them knows little of the graph, and is proved the sooner.
use graph_arena::{Arena, EdgeKey, NodeKey};
use std::alloc::{AllocError, Global};

/// A graph with nothing in it.
pub fn empty(alloc: Global) -> Arena {
    Arena::new(alloc)
}

/// Makes room for so many nodes and edges.
pub fn reserve(arena: &mut Arena, nodes: usize, edges: usize) -> Result<(), AllocError> {
    arena.reserve(nodes, edges)
}

/// The same graph once more.
pub fn copied(arena: &Arena) -> Result<Arena, AllocError> {
    arena.copy()
}

/// Adds a node.
pub fn add_node(arena: &mut Arena) -> Result<NodeKey, AllocError> {
    arena.add_node()
}

pub fn is_node(arena: &Arena, node: NodeKey) -> bool {
    arena.is_live_node(node)
}

pub fn is_edge(arena: &Arena, edge: EdgeKey) -> bool {
    arena.is_live_edge(edge)
}

/// Splits an edge, if it is live, by a node of which its farther part leads on.
pub fn split(arena: &mut Arena, edge: EdgeKey) -> Result<Option<(NodeKey, EdgeKey)>, AllocError> {
    if !arena.is_live_edge(edge) {
        return Ok(None);
    }
    let parts = arena.split(edge)?;
    Ok(Some(parts))
}

/// Turns an edge round, if it is live.
pub fn reverse(arena: &mut Arena, edge: EdgeKey) {
    if arena.is_live_edge(edge) {
        arena.reverse(edge);
    }
}

/// Removes an edge, if it is live.
pub fn remove_edge(arena: &mut Arena, edge: EdgeKey) {
    if arena.is_live_edge(edge) {
        arena.remove_edge(edge);
    }
}

/// Removes a node with its edges, if it is live.
pub fn remove_node(arena: &mut Arena, node: NodeKey) {
    if arena.is_live_node(node) {
        arena.remove_node(node);
    }
}

/// Whether the bounds of nodes and edges are no lower than these.
pub fn reaches(arena: &Arena, nodes: usize, edges: usize) -> bool {
    arena.node_bound() >= nodes && arena.edge_bound() >= edges
}

/// Adds an edge between two nodes, if both are live.
pub fn connect(
    arena: &mut Arena,
    tail: NodeKey,
    head: NodeKey,
) -> Result<Option<EdgeKey>, AllocError> {
    if !arena.is_live_node(tail) || !arena.is_live_node(head) {
        return Ok(None);
    }
    let edge = arena.add_edge(tail, head)?;
    Ok(Some(edge))
}

/// Whether a live edge leads from the node.
pub fn leads_from(arena: &Arena, edge: EdgeKey, node: NodeKey) -> bool {
    if !arena.is_live_edge(edge) {
        return false;
    }
    arena.tail(edge).at == node.at
}

/// Whether a live edge leads to the node.
pub fn leads_to(arena: &Arena, edge: EdgeKey, node: NodeKey) -> bool {
    if !arena.is_live_edge(edge) {
        return false;
    }
    arena.head(edge).at == node.at
}

/// Whether a live edge leads from one node to the other.
pub fn joins(arena: &Arena, edge: EdgeKey, tail: NodeKey, head: NodeKey) -> bool {
    leads_from(arena, edge, tail) && leads_to(arena, edge, head)
}

/// Whether the edges that leave a live node are these, in this order.
pub fn leave(arena: &Arena, node: NodeKey, edges: &[EdgeKey]) -> bool {
    if !arena.is_live_node(node) {
        return false;
    }
    let mut next = arena.first_out(node);
    for wanted in edges {
        match next {
            Some(edge) => {
                if edge.at != wanted.at || !arena.is_live_edge(edge) {
                    return false;
                }
                next = arena.next_out(edge);
            }
            None => return false,
        }
    }
    next.is_none()
}

/// Whether the edges that enter a live node are these, in this order.
pub fn enter(arena: &Arena, node: NodeKey, edges: &[EdgeKey]) -> bool {
    if !arena.is_live_node(node) {
        return false;
    }
    let mut next = arena.first_in(node);
    for wanted in edges {
        match next {
            Some(edge) => {
                if edge.at != wanted.at || !arena.is_live_edge(edge) {
                    return false;
                }
                next = arena.next_in(edge);
            }
            None => return false,
        }
    }
    next.is_none()
}

/// Whether so many ends of edges lie at a live node.
pub fn has_degree(arena: &Arena, node: NodeKey, degree: usize) -> bool {
    if !arena.is_live_node(node) {
        return false;
    }
    arena.degree(node) == degree
}
