//! The edges that join nodes of one level.

use crate::draft::Draft;
use crate::element::{Edge, End};
use std::alloc::{AllocError, Global};

/// An edge between two nodes of one level.
#[derive(Clone, Copy, Debug, Drop)]
pub struct Joined {
    pub edge: usize,
    /// The node that declares the edge.
    pub home: usize,
    /// The node whose children the edge joins.
    pub level: usize,
    pub source: End,
    pub target: End,
}

impl Joined {
    /// Whether the edge leads from a node to itself.
    pub fn is_loop(&self) -> bool {
        self.source.node == self.target.node
    }
}

fn first_ends(edge: &Edge) -> Option<(End, End)> {
    match (edge.sources.first(), edge.targets.first()) {
        (Some(source), Some(target)) => Some((*source, *target)),
        _ => None,
    }
}

impl Draft {
    /// The first source and the first target of an edge.
    pub fn ends_of(&self, edge: usize) -> Option<(End, End)> {
        match self.edges.get(edge) {
            Some(edge) => first_ends(edge),
            None => None,
        }
    }

    /// An edge, by its first two ends, if it joins nodes of one level.
    pub fn joined(&self, edge: usize) -> Option<Joined> {
        let found = self.edges.get(edge)?;
        let home = found.home;
        let (source, target) = first_ends(found)?;
        let level = self.parent_of(source.node)?;
        if self.parent_of(target.node) != Some(level) {
            return None;
        }
        Some(Joined {
            edge,
            home,
            level,
            source,
            target,
        })
    }
}

impl Draft {
    // The nearest node that holds both, or that is one of them and holds the other.
    fn common_holder(&self, one: usize, other: usize) -> Option<usize> {
        let (mut one, mut other) = (one, other);
        for _ in 0..self.nodes.len().saturating_mul(2) {
            if one == other {
                return Some(one);
            }
            // Each node stands behind its parent.
            if one < other {
                other = self.parent_of(other)?;
            } else {
                one = self.parent_of(one)?;
            }
        }
        None
    }

    // The node to whose content an edge between two nodes belongs: the nearest one that holds both. One that holds the other is that
    // node itself.
    fn level_between(&self, one: usize, other: usize) -> Option<usize> {
        if one == other {
            self.parent_of(one)
        } else {
            self.common_holder(one, other)
        }
    }

    /// The node to whose content the points of an edge are relative: the nearest one that holds all its ends. A node that holds the
    /// others is that node itself, but a loop is relative to the node around it.
    pub fn container_of(&self, edge: usize) -> Option<usize> {
        let (source, target) = self.ends_of(edge)?;
        let found = self.edges.get(edge)?;
        let mut around = self.level_between(source.node, target.node)?;
        for end in found.targets.iter() {
            around = self.common_holder(around, self.level_between(source.node, end.node)?)?;
        }
        for end in found.sources.iter() {
            around = self.common_holder(around, self.level_between(end.node, target.node)?)?;
        }
        Some(around)
    }
}

/// The edges that join nodes of one level, in document order: those of a node before those of its children, and those that stages
/// made behind the others of the same node.
pub fn joined_edges(alloc: Global, draft: &Draft) -> Result<Vec<Joined>, AllocError> {
    let mut joined = Vec::new(alloc);
    for node in draft.nodes.iter().take(draft.given_nodes) {
        for edge in node.edges.iter() {
            if let Some(found) = draft.joined(*edge) {
                joined.push(found)?;
            }
        }
    }
    Ok(joined)
}
