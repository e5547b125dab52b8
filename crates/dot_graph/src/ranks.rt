//! Ranks: what subgraphs ask for their nodes, and which nodes stand in one layer.
//!
//! Where a level has nodes that are to be in one layer, or edges that don't count for layers, each of its nodes and clusters gets the
//! number of a layer. The layers are those of least length (Gansner, Koutsofios, North, Vo 1993).

use crate::joints::{Joint, joints_of};
use crate::known::{own_value, tell_value};
use crate::layers::{Arc, layers_of};
use crate::levels::Levels;
use crate::nodes::Standing;
use disjoint_sets::DisjointSets;
use dot_looks::{Given, Notes, line_of};
use dot_syntax::Graph;
use std::alloc::{AllocError, Global};

// A larger graph isn't drawn anyhow.
const MOST: usize = 1 << 13;

/// The ranks of all nodes and levels. A level is an item behind all nodes, by its number.
#[derive(Drop)]
pub(crate) struct Ranks {
    // By node, the layer that it asks for.
    constraints: Vec<Option<&'static str>>,
    // By item.
    partitions: Vec<Option<usize>>,
    // By level.
    is_asked: Vec<bool>,
    // By edge, whether it is left out.
    is_left_out: Vec<bool>,
}

// What a subgraph asks for its nodes.
#[derive(Clone, Copy, Debug, Drop)]
enum Rank {
    Same,
    Extreme(&'static str),
}

fn rank_named(name: &str) -> Option<Rank> {
    match name {
        "same" => Some(Rank::Same),
        "min" => Some(Rank::Extreme("FIRST")),
        "source" => Some(Rank::Extreme("FIRST_SEPARATE")),
        "max" => Some(Rank::Extreme("LAST")),
        "sink" => Some(Rank::Extreme("LAST_SEPARATE")),
        _ => None,
    }
}

// What all subgraphs ask for.
#[derive(Drop)]
struct Asking {
    ranks: Ranks,
    // Items that are to be in one layer are in one set.
    sets: DisjointSets,
}

fn mark(flags: &mut [bool], at: usize) {
    if let Some(flag) = flags.get_mut(at) {
        *flag = true;
    }
}

fn is_marked(flags: &[bool], at: usize) -> bool {
    flags.get(at).copied().unwrap_or(false)
}

// Whether a subgraph is a cluster.
fn is_cluster(levels: &Levels, number: usize) -> bool {
    match levels.all.get(levels.of_subgraph(number)) {
        Some(level) => level.subgraph == number,
        None => false,
    }
}

// The rank that a subgraph asks for.
fn rank_of(
    alloc: Global,
    graph: &Graph,
    levels: &Levels,
    number: usize,
    notes: &mut Notes,
) -> Result<Option<Rank>, AllocError> {
    let Some(subgraph) = graph.subgraphs.get(number) else {
        return Ok(None);
    };
    let Some(written) = graph.attributes.value(subgraph.set, "rank") else {
        return Ok(None);
    };
    if is_cluster(levels, number) {
        if let Some(own) = own_value(graph, number, "rank") {
            notes.add(own.place, "the rank of a cluster has no effect")?;
        }
        return Ok(None);
    }
    let rank = rank_named(written.text.as_str());
    if rank.is_none() && !written.text.is_empty() {
        tell_value(
            alloc,
            written,
            "rank",
            "same, min, max, source or sink",
            notes,
        )?;
    }
    Ok(rank)
}

impl Asking {
    // Asks for a rank of a node.
    fn ask(&mut self, rank: Rank, node: usize, first: Option<usize>, level: usize) {
        match rank {
            Rank::Extreme(constraint) => {
                if let Some(place) = self.ranks.constraints.get_mut(node) {
                    *place = Some(constraint);
                }
            }
            Rank::Same => {
                if let Some(first) = first {
                    self.sets.join(first, node);
                    mark(self.ranks.is_asked.as_mut_slice(), level);
                }
            }
        }
    }

    // Asks for the rank of a subgraph's nodes. Those that stand in clusters of their own are left out.
    fn add(
        &mut self,
        alloc: Global,
        graph: &Graph,
        levels: &Levels,
        number: usize,
        notes: &mut Notes,
    ) -> Result<(), AllocError> {
        let Some(rank) = rank_of(alloc, graph, levels, number, notes)? else {
            return Ok(());
        };
        let Some(subgraph) = graph.subgraphs.get(number) else {
            return Ok(());
        };
        let level = levels.of_subgraph(number);
        let mut first = None;
        let mut is_whole = true;
        for node in subgraph.nodes.iter() {
            if levels.home(*node) == level {
                self.ask(rank, *node, first, level);
                first = first.or(Some(*node));
            } else {
                is_whole = false;
            }
        }
        match own_value(graph, number, "rank") {
            Some(written) if !is_whole => notes.add(
                written.place,
                "a rank has no effect on nodes in other clusters",
            ),
            _ => Ok(()),
        }
    }

    // The arcs of levels that ask for layers, between sets of items.
    fn arcs(&mut self, alloc: Global, joints: &[Joint]) -> Result<Vec<Arc>, AllocError> {
        let mut arcs = Vec::new(alloc);
        for joint in joints {
            let is_asked = is_marked(self.ranks.is_asked.as_slice(), joint.level);
            if is_asked && joint.counts {
                arcs.push(Arc {
                    tail: self.sets.find(joint.tail),
                    head: self.sets.find(joint.head),
                    weight: joint.weight,
                })?;
            }
        }
        Ok(arcs)
    }

    // Gives each item of a level that asks for layers the number of one.
    fn divide(
        &mut self,
        alloc: Global,
        levels: &Levels,
        joints: &[Joint],
    ) -> Result<(), AllocError> {
        let nodes = self.ranks.constraints.len();
        let count = nodes.saturating_add(levels.all.len());
        if count > MOST || joints.len() > MOST {
            return Ok(());
        }
        let arcs = self.arcs(alloc, joints)?;
        let Some(layers) = layers_of(alloc, count, arcs)? else {
            return Ok(());
        };
        for item in 0..count {
            let level = match item.checked_sub(nodes) {
                Some(level) => levels.holder(level),
                None => levels.home(item),
            };
            let layer = layers.get(self.sets.find(item)).copied();
            let is_asked = is_marked(self.ranks.is_asked.as_slice(), level);
            self.ranks
                .partitions
                .push(if is_asked { layer } else { None })?;
        }
        Ok(())
    }
}

// Edges can't lead from a layer to itself. Those that nobody sees are left out, so that their ends stay in one layer.
fn tell_joints(
    graph: &Graph,
    ranks: &mut Ranks,
    joints: &[Joint],
    notes: &mut Notes,
) -> Result<(), AllocError> {
    for joint in joints {
        let (tail, head) = (ranks.of_item(joint.tail), ranks.of_item(joint.head));
        let (true, Some(edge)) = (tail.is_some() && tail == head, graph.edges.get(joint.edge))
        else {
            continue;
        };
        let attributes = &graph.attributes;
        let set = edge.set;
        let message = if line_of(Given { attributes, set }).is_invisible {
            mark(ranks.is_left_out.as_mut_slice(), joint.edge);
            "an invisible edge between nodes of one rank is left out"
        } else {
            "an edge between nodes of one rank leads to the next layer"
        };
        notes.add(edge.place, message)?;
    }
    Ok(())
}

/// The ranks of a graph.
pub(crate) fn ranks_of(
    alloc: Global,
    graph: &Graph,
    levels: &Levels,
    notes: &mut Notes,
) -> Result<Ranks, AllocError> {
    let (nodes, count) = (graph.nodes.len(), levels.all.len());
    let mut asking = Asking {
        ranks: Ranks {
            constraints: vec![in alloc; None; nodes]?,
            partitions: Vec::new(alloc),
            is_asked: vec![in alloc; false; count]?,
            is_left_out: vec![in alloc; false; graph.edges.len()]?,
        },
        sets: DisjointSets::singletons(alloc, nodes.saturating_add(count))?,
    };
    for number in 1..graph.subgraphs.len() {
        asking.add(alloc, graph, levels, number, notes)?;
    }
    let joints = joints_of(alloc, graph, levels)?;
    for joint in joints.iter() {
        if !joint.counts {
            mark(asking.ranks.is_asked.as_mut_slice(), joint.level);
        }
    }
    asking.divide(alloc, levels, joints.as_slice())?;
    tell_joints(graph, &mut asking.ranks, joints.as_slice(), notes)?;
    Ok(asking.ranks)
}

impl Ranks {
    fn of_item(&self, item: usize) -> Option<usize> {
        self.partitions.get(item).copied().flatten()
    }

    /// What a node is asked to stand in.
    pub(crate) fn of_node(&self, node: usize) -> Standing {
        Standing {
            constraint: self.constraints.get(node).copied().flatten(),
            partition: self.of_item(node),
        }
    }

    /// What a cluster is asked to stand in.
    pub(crate) fn of_level(&self, level: usize) -> Standing {
        Standing {
            constraint: None,
            partition: self.of_item(self.constraints.len().saturating_add(level)),
        }
    }

    /// Whether an edge isn't drawn.
    pub(crate) fn is_left_out(&self, edge: usize) -> bool {
        is_marked(self.is_left_out.as_slice(), edge)
    }

    /// Whether the children of a level have the numbers of layers.
    pub(crate) fn is_divided(&self, level: usize) -> bool {
        !self.partitions.is_empty() && is_marked(self.is_asked.as_slice(), level)
    }
}
