//! A directed graph with cycles, whose nodes and edges are named by keys and which is changed in place.
//!
//! Nodes and edges live in two slabs. Each edge stands in two doubly linked lists, that of the edges that leave its
//! tail and that of the edges that enter its head, so that an edge is added, reversed, split or removed in constant
//! time and each list keeps its order. A contract sees the arena as a `Graph`: the ends of each edge, and two
//! lists of edges for each node.
#![tactic(auto)]

mod arena;
mod keys;
mod links;
mod relink;
mod slots;

pub use arena::Arena;
pub use keys::{EdgeKey, NodeKey};
