//! The spanning tree as it hangs from node 0, and what a walk over it tells.

ghost use Rattle.std.specs.Prelude.{◌≡◌, ◌<◌, length, slice_index, IfOk};
ghost use Rattle.net_simplex.specs.Grown.{IsBare};

use std::alloc::{AllocError, Global};

/// A spanning tree as it hangs from node 0: its edges, marked; the nodes in an order in which each comes after the one
/// that it hangs on; the place of each in it; and the edge on which each hangs.
#[derive(Drop)]
pub struct Tree {
    pub marks: Vec<bool>,
    pub order: Vec<u32>,
    pub place: Vec<u32>,
    pub parent: Vec<u32>,
}

/// What a walk over a tree tells: how many nodes hang on each, itself included; and room for the next order.
#[derive(Drop)]
pub struct Walk {
    pub size: Vec<u32>,
    pub next: Vec<u32>,
}

impl Tree {
    pub fn node_at(&self, p: u32) -> u32
        requires { p < length self.now.order.items }
        ensures { result ≡ slice_index self.now.order.items p }
    {
        self.order[p as usize]
    }

    pub fn place_of(&self, v: u32) -> u32
        requires { v < length self.now.place.items }
        ensures { result ≡ slice_index self.now.place.items v }
    {
        self.place[v as usize]
    }

    /// The edge on which a node hangs.
    pub fn parent_of(&self, v: u32) -> u32
        requires { v < length self.now.parent.items }
        ensures { result ≡ slice_index self.now.parent.items v }
    {
        self.parent[v as usize]
    }
}

impl Walk {
    pub fn size_of(&self, v: u32) -> u32
        requires { v < length self.now.size.items }
        ensures { result ≡ slice_index self.now.size.items v }
    {
        self.size[v as usize]
    }
}

/// A tree of no edges yet.
pub fn bare_tree(alloc: Global, nodes: usize, edges: usize) -> Result<Tree, AllocError>
    ensures { IfOk result (λ t. IsBare nodes edges t) }
{
    Ok(Tree {
        marks: vec![in alloc; false; edges]?,
        order: vec![in alloc; 0; nodes]?,
        place: vec![in alloc; 0; nodes]?,
        parent: vec![in alloc; 0; nodes]?,
    })
}
