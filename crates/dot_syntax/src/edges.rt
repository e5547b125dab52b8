//! Edges, and what stands at their ends in a statement.

use crate::attributes::Entry;
use crate::builder::{Builder, MOST_ELEMENTS};
use crate::fault::DotFault;
use crate::graph::Edge;
use crate::place::Place;
use std::alloc::{AllocError, Global};
use std::collections::BTreeMap;

/// A node and the number of the port that is named with it.
#[derive(Clone, Copy, Debug, Drop)]
pub(crate) struct End {
    pub(crate) node: usize,
    pub(crate) port: Option<usize>,
}

/// What stands at one side of an edge operator.
#[derive(Drop)]
pub(crate) enum Operand {
    Nodes(Vec<End>),
    Subgraph(usize),
}

/// What all edges of one statement share.
#[derive(Drop)]
pub(crate) struct EdgeStatement {
    pub(crate) subgraph: usize,
    pub(crate) place: Place,
    pub(crate) list: Vec<Entry>,
    // The attributes of edges that the statement makes.
    pub(crate) set: usize,
    // The number of the key, by which another statement may name the same edge.
    pub(crate) key: Option<usize>,
    // Whether the list names ports, which then count more than those after the nodes.
    pub(crate) names_tail_port: bool,
    pub(crate) names_head_port: bool,
}

/// Finds edges by their ends: in a strict graph all, and else those that have a key.
#[derive(Drop)]
pub(crate) struct EdgeIndex {
    by_ends: BTreeMap<(usize, usize), usize>,
    by_key: BTreeMap<(usize, usize, usize), usize>,
    // How many edges the text has asked for, those that exist already among them.
    written: usize,
}

impl EdgeIndex {
    pub(crate) fn new(alloc: Global) -> EdgeIndex {
        EdgeIndex {
            by_ends: BTreeMap::new(alloc),
            by_key: BTreeMap::new(alloc),
            written: 0,
        }
    }
}

// What a graph has of an edge that a statement asks for.
#[derive(Clone, Copy, Debug, Drop)]
enum Known {
    Nothing,
    Same(usize),
    // A strict graph has one with another key.
    Other,
}

impl Builder {
    fn count_of(&self, operand: &Operand) -> usize {
        match operand {
            Operand::Nodes(ends) => ends.len(),
            Operand::Subgraph(number) => match self.graph.subgraphs.get(*number) {
                Some(subgraph) => subgraph.nodes.len(),
                None => 0,
            },
        }
    }

    fn ends_of(&self, operand: &Operand) -> Result<Vec<End>, AllocError> {
        let mut ends = Vec::new(self.alloc);
        match operand {
            Operand::Nodes(given) => {
                for end in given {
                    ends.push(*end)?;
                }
            }
            Operand::Subgraph(number) => {
                if let Some(subgraph) = self.graph.subgraphs.get(*number) {
                    for node in subgraph.nodes.iter() {
                        let (node, port) = (*node, None);
                        ends.push(End { node, port })?;
                    }
                }
            }
        }
        Ok(ends)
    }

    /// Makes an edge from each node at one side to each node at the other.
    pub(crate) fn connect(
        &mut self,
        tails: &Operand,
        heads: &Operand,
        statement: &EdgeStatement,
        place: Place,
    ) -> Result<(), DotFault> {
        let count = self.count_of(tails).saturating_mul(self.count_of(heads));
        if count == 0 {
            return Ok(());
        }
        let written = self.edge_index.written.saturating_add(count);
        if written > MOST_ELEMENTS {
            return Err(self.too_large(place, "more than 65,536 edges"));
        }
        self.edge_index.written = written;
        let (tails, heads) = (self.ends_of(tails)?, self.ends_of(heads)?);
        for tail in tails.iter() {
            for head in heads.iter() {
                self.edge(*tail, *head, statement, place)?;
            }
        }
        Ok(())
    }

    fn edge(
        &mut self,
        tail: End,
        head: End,
        statement: &EdgeStatement,
        place: Place,
    ) -> Result<(), DotFault> {
        let edge = match self.known_edge(tail.node, head.node, statement.key) {
            Known::Other => return Ok(()),
            Known::Same(edge) => {
                self.change_edge(edge, tail, head, statement)?;
                edge
            }
            Known::Nothing => self.new_edge(tail, head, statement, place)?,
        };
        if let Some(subgraph) = self.graph.subgraphs.get_mut(statement.subgraph) {
            subgraph.edges.push(edge)?;
        }
        Ok(())
    }

    fn known_edge(&self, tail: usize, head: usize, key: Option<usize>) -> Known {
        let there = self.edge_from(tail, head, key);
        match there {
            Known::Nothing if !self.graph.directed => self.edge_from(head, tail, key),
            _ => there,
        }
    }

    fn edge_from(&self, tail: usize, head: usize, key: Option<usize>) -> Known {
        let same = match key {
            Some(key) => self.edge_index.by_key.get(&(tail, head, key)),
            None => self.edge_index.by_ends.get(&(tail, head)),
        };
        match same {
            Some(edge) => Known::Same(*edge),
            None if self.edge_index.by_ends.contains_key(&(tail, head)) => Known::Other,
            None => Known::Nothing,
        }
    }

    fn new_edge(
        &mut self,
        tail: End,
        head: End,
        statement: &EdgeStatement,
        place: Place,
    ) -> Result<usize, DotFault> {
        let number = self.graph.edges.len();
        let ends = (tail.node, head.node);
        if self.graph.strict {
            self.edge_index.by_ends.insert(ends, number)?;
        }
        if let Some(key) = statement.key {
            self.edge_index
                .by_key
                .insert((ends.0, ends.1, key), number)?;
        }
        self.graph.edges.push(Edge {
            tail: tail.node,
            head: head.node,
            tail_port: tail.port.filter(|_| !statement.names_tail_port),
            head_port: head.port.filter(|_| !statement.names_head_port),
            place,
            set: statement.set,
        })?;
        Ok(number)
    }

    // An edge that exists already gets the attributes and ports of another statement.
    fn change_edge(
        &mut self,
        number: usize,
        tail: End,
        head: End,
        statement: &EdgeStatement,
    ) -> Result<(), DotFault> {
        let old = match self.graph.edges.get(number) {
            Some(edge) => edge.set,
            None => 0,
        };
        let set = self.merged(old, statement.list.as_slice(), statement.place)?;
        let Some(edge) = self.graph.edges.get_mut(number) else {
            return Ok(());
        };
        let is_turned = edge.tail != edge.head && edge.head == tail.node;
        let (tail, head) = if is_turned {
            (head, tail)
        } else {
            (tail, head)
        };
        edge.set = set;
        edge.tail_port = if statement.names_tail_port {
            None
        } else {
            tail.port.or(edge.tail_port)
        };
        edge.head_port = if statement.names_head_port {
            None
        } else {
            head.port.or(edge.head_port)
        };
        Ok(())
    }
}
