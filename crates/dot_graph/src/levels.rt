//! The levels of a graph: the graph itself and its clusters.

use dot_looks::{Given, Notes};
use dot_syntax::{Graph, Subgraph};
use std::alloc::{AllocError, Global};
use std::collections::BTreeMap;

/// A level.
#[derive(Clone, Copy, Debug, Drop)]
pub(crate) struct Level {
    /// The number of its subgraph.
    pub(crate) subgraph: usize,
    /// The level that holds it; the graph holds itself.
    pub(crate) holder: usize,
    /// Whether a node stands in it, or in a cluster that it holds.
    pub(crate) is_filled: bool,
}

/// All levels. The first is the graph itself, and each stands behind the one that holds it.
#[derive(Drop)]
pub(crate) struct Levels {
    pub(crate) all: Vec<Level>,
    // By subgraph, the level of it or around it.
    of: Vec<usize>,
    // By node, the level in which it stands.
    homes: Vec<usize>,
    // The first cluster of each name.
    names: BTreeMap<String, usize>,
}

/// Whether the graph has clusters that are drawn.
fn has_clusters(graph: &Graph) -> bool {
    let Some(root) = graph.subgraphs.first() else {
        return false;
    };
    let attributes = &graph.attributes;
    let set = root.set;
    let given = Given { attributes, set };
    !given.is_value("clusterrank", "global") && !given.is_value("clusterrank", "none")
}

fn is_cluster(graph: &Graph, subgraph: &Subgraph) -> bool {
    let is_named = match &subgraph.name {
        Some(name) => name.as_str().starts_with("cluster"),
        None => false,
    };
    let attributes = &graph.attributes;
    let set = subgraph.set;
    let given = Given { attributes, set };
    is_named || given.is_true("cluster")
}

impl Levels {
    fn new(alloc: Global, nodes: usize) -> Result<Levels, AllocError> {
        let mut levels = Levels {
            all: Vec::new(alloc),
            of: Vec::new(alloc),
            homes: vec![in alloc; 0; nodes]?,
            names: BTreeMap::new(alloc),
        };
        levels.all.push(Level {
            subgraph: 0,
            holder: 0,
            is_filled: true,
        })?;
        Ok(levels)
    }

    /// The level of a subgraph, or around it.
    pub(crate) fn of_subgraph(&self, subgraph: usize) -> usize {
        self.of.get(subgraph).copied().unwrap_or(0)
    }

    /// The level in which a node stands.
    pub(crate) fn home(&self, node: usize) -> usize {
        self.homes.get(node).copied().unwrap_or(0)
    }

    /// The level that holds another one.
    pub(crate) fn holder(&self, level: usize) -> usize {
        match self.all.get(level) {
            Some(level) => level.holder,
            None => 0,
        }
    }

    /// The cluster of a name, if a node stands in it.
    pub(crate) fn named(&self, name: &str) -> Option<usize> {
        let level = *self.names.get(name)?;
        match self.all.get(level) {
            Some(found) if found.is_filled => Some(level),
            _ => None,
        }
    }

    /// Whether a node stands in a level, or in a cluster that it holds.
    pub(crate) fn holds(&self, level: usize, node: usize) -> bool {
        let mut at = self.home(node);
        for _ in 0..self.all.len() {
            if at <= level {
                return at == level;
            }
            at = self.holder(at);
        }
        false
    }

    // Adds the level of a cluster. The nodes in it that no other cluster has stand in it from now on.
    fn add(
        &mut self,
        alloc: Global,
        graph: &Graph,
        number: usize,
        notes: &mut Notes,
    ) -> Result<(), AllocError> {
        let Some(subgraph) = graph.subgraphs.get(number) else {
            return Ok(());
        };
        let holder = self.of_subgraph(subgraph.parent.unwrap_or(0));
        let level = self.all.len();
        self.all.push(Level {
            subgraph: number,
            holder,
            is_filled: false,
        })?;
        self.of.push(level)?;
        if let Some(name) = &subgraph.name {
            if !self.names.contains_key(name.as_str()) {
                self.names.insert(name.clone()?, level)?;
            }
        }
        let mut lost = None;
        for node in subgraph.nodes.iter() {
            match self.homes.get_mut(*node) {
                Some(home) if *home == holder => *home = level,
                _ => lost = lost.or(Some(*node)),
            }
        }
        match lost {
            Some(node) => tell_lost(alloc, graph, subgraph, node, notes),
            None => Ok(()),
        }
    }

    // Marks the level of each node, and all that hold it, as filled.
    fn fill(&mut self) {
        for home in self.homes.iter() {
            let mut at = *home;
            for _ in 0..self.all.len() {
                match self.all.get_mut(at) {
                    Some(level) if !level.is_filled => {
                        level.is_filled = true;
                        at = level.holder;
                    }
                    _ => break,
                }
            }
        }
    }
}

fn tell_lost(
    alloc: Global,
    graph: &Graph,
    subgraph: &Subgraph,
    node: usize,
    notes: &mut Notes,
) -> Result<(), AllocError> {
    let Some(node) = graph.nodes.get(node) else {
        return Ok(());
    };
    let name = node.name.as_str();
    let message = format!(in alloc; "the node \"{name}\" stays in a cluster that has it already")?;
    notes.add(subgraph.place, message.as_str())
}

/// The levels of a graph. A node that is in several clusters stands in the first, or in one that this one holds.
pub(crate) fn levels_of(
    alloc: Global,
    graph: &Graph,
    notes: &mut Notes,
) -> Result<Levels, AllocError> {
    let mut levels = Levels::new(alloc, graph.nodes.len())?;
    let has_clusters = has_clusters(graph);
    for (number, subgraph) in graph.subgraphs.iter().enumerate() {
        if number > 0 && has_clusters && is_cluster(graph, subgraph) {
            levels.add(alloc, graph, number, notes)?;
        } else {
            let around = levels.of_subgraph(subgraph.parent.unwrap_or(0));
            levels.of.push(around)?;
        }
    }
    levels.fill();
    Ok(levels)
}
