//! The names of nodes and edges.

/// A node of an arena.
#[derive(Clone, Copy)]
pub struct NodeKey {
    pub at: usize,
}

/// An edge of an arena.
#[derive(Clone, Copy)]
pub struct EdgeKey {
    pub at: usize,
}
