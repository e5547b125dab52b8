//! What a text describes.

use crate::attributes::Attributes;
use crate::fault::Warning;
use crate::place::Place;
use std::alloc::Global;
use std::collections::BTreeSet;

/// A graph. Nodes, edges and subgraphs have numbers, which are their places in these lists.
#[derive(Drop)]
pub struct Graph {
    pub directed: bool,
    pub strict: bool,
    /// In the order in which the text first names them.
    pub nodes: Vec<Node>,
    /// In the order in which the text makes them.
    pub edges: Vec<Edge>,
    /// The first is the graph itself. Each stands behind the one that holds it.
    pub subgraphs: Vec<Subgraph>,
    pub attributes: Attributes,
    pub warnings: Vec<Warning>,
}

/// A node, with the number of its set of attributes.
#[derive(Drop)]
pub struct Node {
    pub name: String,
    pub place: Place,
    pub set: usize,
}

/// An edge with the nodes at its ends. In an undirected graph the tail is the end that is written first.
#[derive(Drop)]
pub struct Edge {
    pub tail: usize,
    pub head: usize,
    /// The numbers of the texts of ports that the edge names after its nodes.
    pub tail_port: Option<usize>,
    pub head_port: Option<usize>,
    pub place: Place,
    pub set: usize,
}

/// The graph itself or a subgraph, which is anonymous if it has no name.
#[derive(Drop)]
pub struct Subgraph {
    pub name: Option<String>,
    pub parent: Option<usize>,
    pub place: Place,
    pub set: usize,
    /// All nodes in it, with those of subgraphs that it holds. The graph itself has no list, since it holds all nodes.
    pub nodes: BTreeSet<usize>,
    /// The edges that are written in it, and not within a subgraph that it holds.
    pub edges: Vec<usize>,
}

impl Subgraph {
    pub(crate) fn new(
        alloc: Global,
        name: Option<String>,
        parent: Option<usize>,
        place: Place,
        set: usize,
    ) -> Subgraph {
        Subgraph {
            name,
            parent,
            place,
            set,
            nodes: BTreeSet::new(alloc),
            edges: Vec::new(alloc),
        }
    }
}
