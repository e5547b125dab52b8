//! Edges as they join nodes and clusters of one level.

use crate::levels::Levels;
use dot_looks::Given;
use dot_syntax::{Edge, Graph};
use std::alloc::{AllocError, Global};
use std::num::saturating_f64_to_u32;

// The greatest weight.
const HEAVIEST: f64 = 1048576.0;

/// An edge between two items of a level. A node is an item by its number, and a level by its number behind all nodes.
#[derive(Clone, Copy, Debug, Drop)]
pub(crate) struct Joint {
    /// The number of the edge.
    pub(crate) edge: usize,
    pub(crate) level: usize,
    pub(crate) tail: usize,
    pub(crate) head: usize,
    /// Whether it counts for layers.
    pub(crate) counts: bool,
    pub(crate) weight: u32,
}

// An item, and the level in which it stands.
#[derive(Clone, Copy, Debug, Drop)]
struct Item {
    number: usize,
    level: usize,
}

impl Item {
    fn of_node(levels: &Levels, node: usize) -> Item {
        Item {
            number: node,
            level: levels.home(node),
        }
    }

    // The level that holds it, as an item.
    fn above(self, levels: &Levels, nodes: usize) -> Item {
        Item {
            number: nodes.saturating_add(self.level),
            level: levels.holder(self.level),
        }
    }
}

// The items of the innermost level that holds two nodes, in which these are.
fn meet(levels: &Levels, nodes: usize, tail: usize, head: usize) -> (Item, Item) {
    let mut tail = Item::of_node(levels, tail);
    let mut head = Item::of_node(levels, head);
    for _ in 0..levels.all.len().saturating_mul(2) {
        if tail.level == head.level {
            break;
        }
        // Each level stands behind the one that holds it.
        if tail.level > head.level {
            tail = tail.above(levels, nodes);
        } else {
            head = head.above(levels, nodes);
        }
    }
    (tail, head)
}

fn weight_of(given: Given<'_>) -> u32 {
    let weight = given.number("weight").unwrap_or(1.0);
    saturating_f64_to_u32(weight.max(0.0).min(HEAVIEST).ceil())
}

// Whether an attribute is set to something that isn't true.
fn is_false(given: Given<'_>, name: &str) -> bool {
    given.text(name).is_some() && !given.is_true(name)
}

fn joint_of(graph: &Graph, levels: &Levels, number: usize, edge: &Edge) -> Joint {
    let attributes = &graph.attributes;
    let set = edge.set;
    let given = Given { attributes, set };
    let (tail, head) = meet(levels, graph.nodes.len(), edge.tail, edge.head);
    Joint {
        edge: number,
        level: tail.level,
        tail: tail.number,
        head: head.number,
        counts: !is_false(given, "constraint"),
        weight: weight_of(given),
    }
}

/// All edges but those from a node to itself.
pub(crate) fn joints_of(
    alloc: Global,
    graph: &Graph,
    levels: &Levels,
) -> Result<Vec<Joint>, AllocError> {
    let mut joints = Vec::new(alloc);
    for (number, edge) in graph.edges.iter().enumerate() {
        if edge.tail != edge.head {
            joints.push(joint_of(graph, levels, number, edge))?;
        }
    }
    Ok(joints)
}
