//! Blocks of labels, or of mere room, that stand beside lines.

use crate::labels::stack_of;
use graph_draft::{Draft, Element, Size};
use std::alloc::Global;

/// To which element the labels of a block are relative.
#[derive(Clone, Copy, Debug, Drop, PartialEq, Eq)]
pub enum Owner {
    /// The node's parent, as for labels of edges.
    Level,
    /// The port.
    Port,
}

/// Something that stands beside the lines of a port.
#[derive(Drop)]
pub struct Block {
    /// Its labels; none where it is mere room.
    pub labels: Vec<usize>,
    pub gap: f64,
    pub size: Size,
    /// The room before it, as seen from the node.
    pub out: f64,
    /// The room between it and the line.
    pub aside: f64,
    pub owner: Owner,
}

/// The room that labels keep beside lines.
#[derive(Clone, Copy, Drop)]
pub struct Beside {
    /// The room between two labels of a stack.
    pub gap: f64,
    pub out: f64,
    pub aside: f64,
}

/// The room that labels of edges of a level keep.
pub fn beside_edge(draft: &Draft, level: usize) -> Beside {
    let beside = draft.number(Element::Node(level), "spacing.edgeLabel", 2.0);
    Beside {
        gap: draft.number(Element::Node(level), "spacing.labelLabel", 0.0),
        out: beside,
        aside: beside,
    }
}

impl Block {
    /// A block of labels that stand one below the other.
    pub fn of_labels(draft: &Draft, labels: Vec<usize>, beside: Beside, owner: Owner) -> Block {
        let size = stack_of(draft, labels.as_slice(), beside.gap);
        Block {
            labels,
            gap: beside.gap,
            size,
            out: beside.out,
            aside: beside.aside,
            owner,
        }
    }

    /// A block without labels, next to the line.
    pub fn of_room(alloc: Global, size: Size) -> Block {
        Block {
            labels: Vec::new(alloc),
            gap: 0.0,
            size,
            out: 0.0,
            aside: 0.0,
            owner: Owner::Level,
        }
    }
}
