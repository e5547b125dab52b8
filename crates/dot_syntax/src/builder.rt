//! A graph that grows while its text is read.

use crate::attributes::{Attributes, Entry};
use crate::defaults::Settings;
use crate::edges::EdgeIndex;
use crate::fault::DotFault;
use crate::graph::Graph;
use crate::place::Place;
use std::alloc::{AllocError, Global};
use std::collections::BTreeMap;

/// The most nodes, edges and subgraphs, each.
pub(crate) const MOST_ELEMENTS: usize = 1 << 16;

/// The graph, and what finds its elements.
#[derive(Drop)]
pub(crate) struct Builder {
    pub(crate) alloc: Global,
    pub(crate) graph: Graph,
    pub(crate) edge_index: EdgeIndex,
    pub(crate) nodes: BTreeMap<String, usize>,
    // By the number of what holds it and that of its name.
    pub(crate) subgraphs: BTreeMap<(usize, usize), usize>,
    pub(crate) settings: Vec<Settings>,
    // How many nodes all subgraphs together have.
    pub(crate) members: usize,
}

impl Builder {
    pub(crate) fn new(alloc: Global, strict: bool, directed: bool) -> Result<Builder, AllocError> {
        Ok(Builder {
            alloc,
            graph: Graph {
                directed,
                strict,
                nodes: Vec::new(alloc),
                edges: Vec::new(alloc),
                subgraphs: Vec::new(alloc),
                attributes: Attributes::new(alloc)?,
                warnings: Vec::new(alloc),
            },
            edge_index: EdgeIndex::new(alloc),
            nodes: BTreeMap::new(alloc),
            subgraphs: BTreeMap::new(alloc),
            settings: Vec::new(alloc),
            members: 0,
        })
    }

    /// The fault of a graph that is larger than may be.
    pub(crate) fn too_large(&self, place: Place, what: &str) -> DotFault {
        DotFault::told(place, format!(in self.alloc; "the graph has {what}"))
    }

    /// The set of attributes that comes from another one by a list.
    pub(crate) fn merged(
        &mut self,
        base: usize,
        list: &[Entry],
        place: Place,
    ) -> Result<usize, DotFault> {
        match self.graph.attributes.merged(self.alloc, base, list)? {
            Some(set) => Ok(set),
            None => Err(self.too_large(place, "too many attributes")),
        }
    }
}
