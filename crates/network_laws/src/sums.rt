//! The greatest sums of `least` over paths, by raising heads until none stands too low.

ghost use Rattle.std.specs.Prelude.{◌≡◌, ℕ, ◌+◌, ◌<◌, ◌^◌, ◌||◌, pos, map, length, IfOk};
ghost use Rattle.std.specs.List.{All};
ghost use Rattle.network_laws.specs.Network.{EndsBelow, IsAcyclic, IsNetwork};
ghost use Rattle.network_laws.specs.Layering.{IsLayering};
ghost use Rattle.network_laws.specs.Paths.{AreGreatestSums, sum_at, ArePathSums, KeepLeast, RaisesHead, RaisedOnce};

use crate::network::NetEdge;
use crate::order::passing_order;
use std::alloc::{AllocError, Global};

/// Raises the edge's head where it stands too low, and tells whether it did.
fn raise_head(sums: &mut [u64], e: NetEdge) -> bool
    requires tail { e.tail < length sums.old }
    requires head { e.head < length sums.old }
    requires fits { sum_at sums.old e.tail + e.least < 2 ^ 64 }
    ensures { RaisesHead sums.old e sums.new result }
{
    let low = sums[e.tail as usize] + e.least;
    if sums[e.head as usize] < low {
        sums[e.head as usize] = low;
        return true;
    }
    false
}

/// Whether one of the two holds.
pub(crate) fn either(a: bool, b: bool) -> bool
    ensures { result ≡ (a || b) }
{
    a || b
}

/// Passes all edges once, and tells whether a head was raised.
fn raise_once(edges: &[NetEdge], sums: &mut [u64]) -> bool
    requires network { IsNetwork (length sums.old) edges.now }
    requires paths { ArePathSums edges.now sums.old }
    ensures { RaisedOnce edges.now (length edges.now) sums.old sums.new result }
{
    let mut changed = false;
    for e in edges {
        let now = raise_head(sums, *e);
        changed = either(changed, now);
    }
    changed
}

fn raise_all(edges: &[NetEdge], sums: &mut [u64])
    requires network { IsNetwork (length sums.old) edges.now }
    requires paths { ArePathSums edges.now sums.old }
    ensures greatest { AreGreatestSums (length sums.old) edges.now (map pos sums.new) }
    ensures layering { IsLayering edges.now (map pos sums.new) }
{
    let mut changed = true;
    while changed {
        changed = raise_once(edges, sums);
    }
}

/// Passes the edges in a good order, and then until nothing changes.
fn raise_both(edges: &[NetEdge], order: &[u32], sums: &mut [u64])
    requires network { IsNetwork (length sums.old) edges.now }
    requires order { All (λ k. k < length edges.now) order.now }
    requires paths { ArePathSums edges.now sums.old }
    ensures greatest { AreGreatestSums (length sums.old) edges.now (map pos sums.new) }
    ensures layering { IsLayering edges.now (map pos sums.new) }
{
    raise_along(edges, order, sums);
    raise_all(edges, sums);
}

/// Passes the edges of a list in their order.
fn raise_along(edges: &[NetEdge], order: &[u32], sums: &mut [u64])
    requires network { IsNetwork (length sums.old) edges.now }
    requires order { All (λ k. k < length edges.now) order.now }
    requires paths { ArePathSums edges.now sums.old }
    ensures { ArePathSums edges.now sums.new }
{
    for k in order {
        let _now = raise_head(sums, edges[*k as usize]);
    }
}

/// For each node the greatest sum of `least` over the paths that end there.
///
/// Proved:
/// - The layering of greatest path sums.
pub fn greatest_sums(alloc: Global, nodes: u32, edges: &[NetEdge]) -> Result<Vec<u64>, AllocError>
    requires network { IsNetwork nodes edges.now }
    ensures greatest { IfOk result (λ sums. AreGreatestSums nodes edges.now (map pos sums.items)) }
    ensures layering { IfOk result (λ sums. IsLayering edges.now (map pos sums.items)) }
{
    let order = passing_order(alloc, nodes, edges)?;
    let mut sums: Vec<u64> = vec![in alloc; 0; nodes as usize]?;
    raise_both(edges, order.as_slice(), sums.as_mut_slice());
    Ok(sums)
}
