//! The edges that lead out of the tree while it grows, those that rise least beyond their least first.

ghost use Rattle.std.specs.Prelude.{◌≡◌, ◌+◌, ◌<◌, ◌≤◌, ◌^◌, ℕ, pos, ◌-ℤ◌, [], length, IfSome, IfNone, OnOk, true, false, slice_index_or};
ghost use Rattle.std.specs.BinaryHeap.{IsHeap, heap_items};
ghost use Rattle.network_laws.specs.Network.{EndsBelow, edge_at};
ghost use Rattle.network_laws.specs.Links.{AreLinks, far_of};
ghost use Rattle.net_simplex.specs.Pivots.{is_in};
ghost use Rattle.net_simplex.specs.Outward.{waiting_order, rise_of as rise, Adds, IsFirst, Loses, AreWaiting, IsNearest};

use network_laws::{End, Links, NetEdge, far_node, first_of, next_of};
use std::alloc::AllocError;
use std::cmp::Reverse;
use std::collections::BinaryHeap;

/// An edge that leads out of the tree, and how far it rises beyond its least by the layers that are kept.
#[derive(Clone, Copy, PartialEq, Eq, PartialOrd, Ord)]
pub struct Waiting {
    pub rise: Reverse<i128>,
    pub edge: Reverse<u32>,
}

/// The edges that lead out of the tree: those whose tail is in it, and those whose head is.
#[derive(Drop)]
pub struct Queues {
    pub rising: BinaryHeap<Waiting>,
    pub falling: BinaryHeap<Waiting>,
}

/// The edges by their tails, and by their heads.
#[derive(Drop)]
pub struct BothLinks {
    pub tails: Links,
    pub heads: Links,
}

/// The edge that rises least, ties by the number.
fn first_waiting(queue: &BinaryHeap<Waiting>) -> Option<Waiting>
    requires { IsHeap waiting_order (heap_items queue.now) }
    ensures some { IfSome result (λ t. IsFirst (heap_items queue.now) t) }
    ensures none { IfNone result (heap_items queue.now ≡ []) }
{
    match queue.peek() {
        Some(first) => Some(*first),
        None => None,
    }
}

/// Takes the first edge out.
fn drop_first(queue: &mut BinaryHeap<Waiting>)
    requires { IsHeap waiting_order (heap_items queue.old) }
    ensures heap { IsHeap waiting_order (heap_items queue.new) }
    ensures loses { Loses (heap_items queue.old) (heap_items queue.new) }
{
    let _first = queue.pop();
}

fn add_waiting(queue: &mut BinaryHeap<Waiting>, rise: i128, edge: u32) -> Result<(), AllocError>
    requires { IsHeap waiting_order (heap_items queue.old) }
    ensures heap { IsHeap waiting_order (heap_items queue.new) }
    ensures adds { OnOk result (Adds (heap_items queue.old) rise edge (heap_items queue.new)) }
{
    queue.push(Waiting {
        rise: Reverse(rise),
        edge: Reverse(edge),
    })?;
    Ok(())
}

fn rise_between(low: i64, high: i64, least: u64) -> i128
    ensures { result ≡ high -ℤ low -ℤ pos least }
{
    i128::from(high) - i128::from(low) - i128::from(least)
}

/// How far an edge rises beyond its least.
fn rise_of(layers: &[i64], e: NetEdge) -> i128
    requires tail { e.tail < length layers.now }
    requires head { e.head < length layers.now }
    ensures { result ≡ rise layers.now e }
{
    rise_between(layers[e.tail as usize], layers[e.head as usize], e.least)
}

/// Whether the node at the other end of the edge is not reached.
fn is_out(reached: &[bool], e: NetEdge, end: End) -> bool
    requires { far_of end e < length reached.now }
    ensures out { result ≡ true → is_in reached.now (far_of end e) ≡ false }
    ensures held { result ≡ false → is_in reached.now (far_of end e) ≡ true }
{
    !reached[far_node(e, end) as usize]
}

/// Adds the edges that lead from `v` out of the tree, `v` at this end of them.
pub fn add_edges(
    edges: &[NetEdge],
    links: &Links,
    end: End,
    layers: &[i64],
    reached: &[bool],
    v: u32,
    queue: &mut BinaryHeap<Waiting>,
) -> Result<(), AllocError>
    requires few { length edges.now ≤ 2 ^ 24 }
    requires ends { EndsBelow (length layers.now) edges.now }
    requires links { AreLinks (length layers.now) edges.now end links.now.first.items links.now.next.items }
    requires marks { length reached.now ≡ length layers.now }
    requires there { v < length layers.now }
    requires held { is_in reached.now v ≡ true }
    requires heap { IsHeap waiting_order (heap_items queue.old) }
    requires others { AreWaiting edges.now end reached.now layers.now v 0 (heap_items queue.old) }
    ensures heap { IsHeap waiting_order (heap_items queue.new) }
    ensures all { OnOk result (AreWaiting edges.now end reached.now layers.now v (length edges.now) (heap_items queue.new)) }
{
    let mut k = first_of(links, v);
    while (k as usize) < edges.len() {
        let e = edges[k as usize];
        if is_out(reached, e, end) {
            add_waiting(queue, rise_of(layers, e), k)?;
        }
        k = next_of(links, k);
    }
    Ok(())
}

/// Of the edges that lead out of the tree from this end the one that rises least, ties by the number.
pub fn nearest(
    edges: &[NetEdge],
    end: End,
    layers: &[i64],
    reached: &[bool],
    queue: &mut BinaryHeap<Waiting>,
) -> Option<u32>
    requires ends { EndsBelow (length reached.now) edges.now }
    requires heap { IsHeap waiting_order (heap_items queue.old) }
    requires waiting { AreWaiting edges.now end reached.now layers.now 0 (length edges.now) (heap_items queue.old) }
    ensures heap { IsHeap waiting_order (heap_items queue.new) }
    ensures waiting { AreWaiting edges.now end reached.now layers.now 0 (length edges.now) (heap_items queue.new) }
    ensures nearest { IsNearest edges.now end reached.now layers.now result }
{
    let _layers = layers.len();
    while let Some(first) = first_waiting(queue) {
        let k = first.edge.0;
        if is_out(reached, edges[k as usize], end) {
            return Some(k);
        }
        drop_first(queue);
    }
    None
}
