//! The state before the first search: flow on the tight edges of the first layering, and what each node is given more
//! than it asks.

ghost use Rattle.std.specs.Prelude.{◌≡◌, ◌+◌, ◌*◌, ◌≤◌, ◌<◌, ◌^◌, ℕ, pos, ◌≤ℤ◌, ◌<ℤ◌, ◌+ℤ◌, map, List, length, slice_index, IfOk};
ghost use Rattle.std.specs.List.{All};
ghost use Rattle.network_laws.specs.Network.{EndsBelow};
ghost use Rattle.network_laws.specs.Layering.{layer_of, IsLayering};
ghost use Rattle.flow_dual.specs.Start.{TalliesEdge, BeginsEdge, HasBegun};

use crate::steps::slack_of;
use network_laws::NetEdge;
use std::alloc::{AllocError, Global};

/// The sums as layers.
pub fn as_layers(alloc: Global, sums: &[u64]) -> Result<Vec<i64>, AllocError>
    requires { All (λ n. n < 2 ^ 63) sums.now }
    ensures { IfOk result (λ v. v.items ≡ map pos sums.now) }
{
    let mut layer = Vec::with_capacity(alloc, sums.len())?;
    for sum in sums {
        layer.push(*sum as i64)?;
    }
    Ok(layer)
}

fn given_more(excess: i64, by: u32) -> i64
    requires high { excess ≤ℤ pos (2 ^ 60) }
    ensures { result ≡ excess +ℤ pos by }
{
    excess + i64::from(by)
}

fn asked_more(excess: i64, by: u32) -> i64
    requires low { pos 0 ≤ℤ (excess +ℤ pos (2 ^ 60)) }
    ensures { result +ℤ pos by ≡ excess }
{
    excess - i64::from(by)
}

/// Moves the edge's weight from what its head is given to what its tail is.
fn tally_edge(excess: &mut [i64], e: NetEdge)
    requires tail { e.tail < length excess.old }
    requires head { e.head < length excess.old }
    requires low { (v : ℕ) → v < length excess.old → pos 0 ≤ℤ (layer_of excess.old v +ℤ pos (2 ^ 60)) }
    requires high { (v : ℕ) → v < length excess.old → layer_of excess.old v ≤ℤ pos (2 ^ 60) }
    ensures tallies { TalliesEdge excess.old e excess.new }
    ensures small { e.weight < 2 ^ 32 }
{
    excess[e.tail as usize] = given_more(excess[e.tail as usize], e.weight);
    excess[e.head as usize] = asked_more(excess[e.head as usize], e.weight);
}

/// Begins an edge: a tight one gets its weight as flow, and the weight of any other is counted at its ends.
fn begin_edge(layer: &[i64], e: NetEdge, k: usize, flow: &mut [u64], excess: &mut [i64])
    requires there { k < length flow.old }
    requires as_many { length excess.old ≡ length layer.now }
    requires tail { e.tail < length layer.now }
    requires head { e.head < length layer.now }
    requires from_zero { (v : ℕ) → v < length layer.now → pos 0 ≤ℤ layer_of layer.now v }
    requires up { (layer_of layer.now e.tail +ℤ pos e.least) ≤ℤ layer_of layer.now e.head }
    requires low { (v : ℕ) → v < length excess.old → pos 0 ≤ℤ (layer_of excess.old v +ℤ pos (2 ^ 60)) }
    requires high { (v : ℕ) → v < length excess.old → layer_of excess.old v ≤ℤ pos (2 ^ 60) }
    ensures begins { BeginsEdge layer.now e k flow.old excess.old flow.new excess.new }
    ensures small { e.weight < 2 ^ 32 }
{
    if slack_of(layer, e) == 0 {
        flow[k] = u64::from(e.weight);
    } else {
        tally_edge(excess, e);
    }
}

/// Gives each tight edge its weight as flow, and counts what each node is then given more than it asks.
pub fn begin(edges: &[NetEdge], layer: &[i64], flow: &mut [u64], excess: &mut [i64])
    requires few { length edges.now ≤ 2 ^ 24 }
    requires ends { EndsBelow (length layer.now) edges.now }
    requires layering { IsLayering edges.now layer.now }
    requires from_zero { (v : ℕ) → v < length layer.now → pos 0 ≤ℤ layer_of layer.now v }
    requires flow { length flow.old ≡ length edges.now }
    requires no_flow { (k : ℕ) → slice_index flow.old k ≡ 0 }
    requires as_many { length excess.old ≡ length layer.now }
    requires none { (v : ℕ) → layer_of excess.old v ≡ pos 0 }
    ensures { HasBegun edges.now layer.now (length edges.now) flow.new excess.new }
{
    for k in 0..edges.len() {
        begin_edge(layer, edges[k], k, flow, excess);
    }
}
