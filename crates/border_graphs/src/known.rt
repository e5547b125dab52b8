//! What earlier layouts tell of levels.

use crate::spots::SpotKey;
use graph_draft::{Side, Size};
use std::alloc::Global;
use std::collections::BTreeMap;

/// How the node of a level stands after a layout.
#[derive(Drop)]
pub struct Stand {
    pub size: Size,
    /// By crossing where its border is crossed, from the corner of the node on along the side.
    pub pins: BTreeMap<usize, f64>,
}

/// By the side of a node's own level to which edges are led the crossings of its border, in their order.
pub type Orders = BTreeMap<Side, Vec<usize>>;

/// A helper edge of the least weight, which keeps the border of a level in a layer of its own.
#[derive(Clone, Copy, Debug, Drop, PartialEq, Eq)]
pub struct Helper {
    /// Whether it leads to the border at the last layer, and not from that at the first.
    pub is_last: bool,
    /// The place of its other end among the children.
    pub at: usize,
}

/// Whether what stands at nodes with open levels has its places.
#[derive(Clone, Copy, Debug, Drop, PartialEq, Eq)]
pub enum Mode {
    /// All stands where edges cross borders.
    Pinned,
    /// All may take any order.
    Free,
    /// What stands at one node may take any order.
    FreeAt(usize),
}

impl Mode {
    // Whether what stands at a node may take any order.
    pub(crate) fn is_free_at(self, node: usize) -> bool {
        match self {
            Mode::Pinned => false,
            Mode::Free => true,
            Mode::FreeAt(free) => free == node,
        }
    }
}

/// What earlier layouts tell.
#[derive(Drop)]
pub struct Known {
    /// The open levels that are placed, by their nodes.
    pub placed: BTreeMap<usize, Stand>,
    /// By node the order in which its border is to be crossed, where one is asked for.
    pub orders: BTreeMap<usize, Orders>,
    /// By node where what stands at it would stand if it were free, from its corner on along the side.
    pub wishes: BTreeMap<usize, BTreeMap<SpotKey, f64>>,
    /// By level its helper edges.
    pub helpers: BTreeMap<usize, Vec<Helper>>,
}

impl Known {
    /// Nothing is known.
    pub fn nothing(alloc: Global) -> Known {
        Known {
            placed: BTreeMap::new(alloc),
            orders: BTreeMap::new(alloc),
            wishes: BTreeMap::new(alloc),
            helpers: BTreeMap::new(alloc),
        }
    }
}
