//! The chains of the long edges.

ghost use Rattle.std.specs.Prelude.{◌≡◌, ◌≢◌, []};
ghost use Rattle.long_edges.specs.Chains.{edge_keys, chain_at};

use graph_arena::{EdgeKey, NodeKey};
use std::marker::Model;

/// A new node on a long edge.
#[derive(Clone, Copy)]
pub struct Lane {
    pub node: NodeKey,
    /// The layer of the node.
    pub layer: u32,
    /// The old edge on whose chain the node stands.
    pub edge: EdgeKey,
}

/// The part of a list that holds one chain.
#[derive(Clone, Copy)]
pub(crate) struct Span {
    pub(crate) start: usize,
    pub(crate) end: usize,
}

/// The chains of all edges that an arena had, one after the other, and the new nodes on them.
#[derive(Drop)]
pub struct Chains {
    pub(crate) lanes: Vec<Lane>,
    pub(crate) edges: Vec<EdgeKey>,
    pub(crate) spans: Vec<Span>,
}

impl Model for Chains {
    ghost use Rattle.long_edges.specs.Chains.{Table};

    ghost Value = { Table };

    ghost use Rattle.long_edges.specs.Spans.{table_of, AreWithin};

    ghost view = { λ c. table_of c.lanes.items c.edges.items c.spans.items };

    ghost invariant = { λ c. AreWithin c.edges.items c.spans.items };
}

impl Chains {
    /// The new nodes, those of one edge from its tail on.
    pub fn lanes(&self) -> &[Lane]
        ensures { result.now ≡ self.now.lanes }
    {
        self.lanes.as_slice()
    }

    /// The edges that an old edge consists of now, from its tail on.
    pub fn chain_of(&self, edge: EdgeKey) -> &[EdgeKey]
        requires { chain_at self.now edge.at ≢ [] }
        ensures { edge_keys result.now ≡ chain_at self.now edge.at }
    {
        let span = self.spans[edge.at];
        &self.edges[span.start..span.end]
    }
}
