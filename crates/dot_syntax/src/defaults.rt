//! The attributes that new elements get. Each subgraph has those of what holds it, and its own.

use crate::attributes::Entry;
use std::alloc::Global;

/// What an attribute statement speaks of.
#[derive(Clone, Copy, Debug, Drop, PartialEq, Eq)]
pub(crate) enum Sort {
    Graph,
    Node,
    Edge,
}

/// The numbers of the sets that new elements get where a text is read.
#[derive(Clone, Copy, Debug, Drop)]
pub(crate) struct Defaults {
    pub(crate) graph: usize,
    pub(crate) node: usize,
    pub(crate) edge: usize,
}

impl Defaults {
    pub(crate) const NONE: Defaults = Defaults {
        graph: 0,
        node: 0,
        edge: 0,
    };

    pub(crate) fn of(self, sort: Sort) -> usize {
        match sort {
            Sort::Graph => self.graph,
            Sort::Node => self.node,
            Sort::Edge => self.edge,
        }
    }

    pub(crate) fn with(self, sort: Sort, set: usize) -> Defaults {
        match sort {
            Sort::Graph => Defaults { graph: set, ..self },
            Sort::Node => Defaults { node: set, ..self },
            Sort::Edge => Defaults { edge: set, ..self },
        }
    }
}

/// What the statements of one subgraph set, in order. A subgraph that the text opens again still has them.
#[derive(Drop)]
pub(crate) struct Settings {
    graph: Vec<Entry>,
    node: Vec<Entry>,
    edge: Vec<Entry>,
}

impl Settings {
    pub(crate) fn new(alloc: Global) -> Settings {
        Settings {
            graph: Vec::new(alloc),
            node: Vec::new(alloc),
            edge: Vec::new(alloc),
        }
    }

    pub(crate) fn of(&self, sort: Sort) -> &[Entry] {
        match sort {
            Sort::Graph => self.graph.as_slice(),
            Sort::Node => self.node.as_slice(),
            Sort::Edge => self.edge.as_slice(),
        }
    }

    pub(crate) fn of_mut(&mut self, sort: Sort) -> &mut Vec<Entry> {
        match sort {
            Sort::Graph => &mut self.graph,
            Sort::Node => &mut self.node,
            Sort::Edge => &mut self.edge,
        }
    }
}
