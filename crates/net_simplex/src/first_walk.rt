//! The first walk over a tree: from an order in which each node comes after the one that it hangs on, sizes are summed from
//! the last node to the first, and places are given from the first to the last.

ghost use Rattle.std.specs.Prelude.{◌≡◌, ◌≢◌, ◌+◌, ◌<◌, ◌≤◌, ◌^◌, ℕ, length, replicate, set, slice_index, IfOk, OnOk};
ghost use Rattle.network_laws.specs.Network.{EndsBelow};
ghost use Rattle.net_simplex.specs.Rooted.{above, IsRooted, Hangs};
ghost use Rattle.net_simplex.specs.Walks.{AreSizes, AreWalkPlaces, TakesPlace, HasWalk};

use crate::rooted::{far_end, upper};
use crate::tree::{Tree, Walk};
use network_laws::NetEdge;
use std::alloc::{AllocError, Global};

/// Adds the size of a node to that of the one on which it hangs.
fn add_size(size: &mut [u32], v: u32, u: u32)
    requires node { v < length size.old }
    requires upper { u < length size.old }
    requires fits { slice_index size.old u + slice_index size.old v < 2 ^ 32 }
    ensures { size.new ≡ set size.old u (slice_index size.old u + slice_index size.old v) }
{
    size[u as usize] += size[v as usize];
}

/// Counts what hangs on each node, with itself, where each counts itself alone.
fn sum_sizes(edges: &[NetEdge], tree: &Tree, size: &mut [u32])
    requires few { length tree.now.order.items ≤ 2 ^ 23 }
    requires ends { EndsBelow (length tree.now.order.items) edges.now }
    requires rooted { Hangs (length tree.now.order.items) edges.now tree.now }
    requires ones { size.old ≡ replicate (length tree.now.order.items) 1 }
    ensures { AreSizes (length tree.now.order.items) tree.now.order.items (above edges.now tree.now.parent.items) size.new }
{
    let mut left = tree.order.len() as u32;
    while left > 1 {
        left -= 1;
        let v = tree.node_at(left);
        add_size(size, v, upper(edges, tree, v));
    }
}

/// A node takes the next place of the part of `u`, on which it hangs.
fn take_place(size: &[u32], v: u32, u: u32, place: &mut [u32], next: &mut [u32])
    requires node { v < length place.old }
    requires upper { u < length place.old }
    requires size { length size.now ≡ length place.old }
    requires next { length next.old ≡ length place.old }
    requires fits { slice_index next.old u + slice_index size.now v < 2 ^ 32 }
    requires more { slice_index next.old u + 1 < 2 ^ 32 }
    ensures { TakesPlace v u size.now place.old next.old place.new next.new }
{
    let at = next[u as usize];
    place[v as usize] = at;
    next[u as usize] = at + size[v as usize];
    next[v as usize] = at + 1;
}

/// Gives each node its place in the walk.
fn place_all(
    edges: &[NetEdge],
    tree: &[bool],
    order: &[u32],
    parent: &[u32],
    size: &[u32],
    place: &mut [u32],
    next: &mut [u32],
)
    requires few { length order.now ≤ 2 ^ 23 }
    requires ends { EndsBelow (length order.now) edges.now }
    requires rooted { IsRooted (length order.now) edges.now tree.now order.now place.old parent.now }
    requires sizes { AreSizes (length order.now) order.now (above edges.now parent.now) size.now }
    requires next { length next.old ≡ length order.now }
    ensures { AreWalkPlaces (length order.now) (above edges.now parent.now) size.now place.new }
{
    let _marks = tree.len();
    place[0] = 0;
    next[0] = 1;
    for i in 1..order.len() {
        let v = order[i];
        let u = far_end(edges, parent[v as usize], v);
        take_place(size, v, u, place, next);
    }
}

/// Tells the order of the places.
fn order_all(place: &[u32], order: &mut [u32])
    requires same { length place.now ≡ length order.old }
    requires there { (v : ℕ) → v < length place.now → slice_index place.now v < length order.old }
    requires apart { (u v : ℕ) → u < length place.now → v < length place.now → slice_index place.now u ≡ slice_index place.now v → u ≡ v }
    requires few { length place.now ≤ 2 ^ 23 }
    ensures { (v : ℕ) → v < length place.now → slice_index order.new (slice_index place.now v) ≡ v }
{
    for v in 0..place.len() {
        order[place[v] as usize] = v as u32;
    }
}

/// Walks over a tree: from an order in which each node comes after the one that it hangs on to one in which what hangs on
/// a node comes right behind it.
pub fn walk_tree(alloc: Global, edges: &[NetEdge], tree: &mut Tree) -> Result<Walk, AllocError>
    requires few { length tree.old.order.items ≤ 2 ^ 23 }
    requires ends { EndsBelow (length tree.old.order.items) edges.now }
    requires rooted { Hangs (length tree.old.order.items) edges.now tree.old }
    ensures marks { tree.new.marks.items ≡ tree.old.marks.items }
    ensures rooted { OnOk result (Hangs (length tree.old.order.items) edges.now tree.new) }
    ensures walk { IfOk result (λ walk. HasWalk (length tree.old.order.items) edges.now tree.new walk) }
{
    let nodes = tree.order.len();
    let mut size: Vec<u32> = vec![in alloc; 1; nodes]?;
    let mut next: Vec<u32> = vec![in alloc; 0; nodes]?;
    sum_sizes(edges, tree, &mut size);
    place_all(
        edges,
        &tree.marks,
        &tree.order,
        &tree.parent,
        &size,
        &mut tree.place,
        &mut next,
    );
    order_all(&tree.place, &mut tree.order);
    Ok(Walk { size, next })
}
