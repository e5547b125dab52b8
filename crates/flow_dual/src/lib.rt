//! Layerings of least cost, each with a flow that proves it.
#![tactic(auto)]

ghost use Rattle.std.specs.Prelude.{◌≡◌, ◌≢◌, ◌+◌, ◌≤◌, ◌<◌, ◌^◌, ◌*◌, ℕ, pos, ◌≤ℤ◌, ◌-ℤ◌, slice_index, length};
ghost use Rattle.network_laws.specs.Network.{EndsBelow};
ghost use Rattle.network_laws.specs.Layering.{IsLayering, layer_of, cost, natural, IsSolution};
ghost use Rattle.network_laws.specs.Tight.{IsDone};
ghost use Rattle.flow_dual.specs.Labels.{PushesOver, IsLabelled, IsPushed};

mod augment;
mod marks;
mod queue;
mod settle;
mod solving;
mod sources;
mod start;
mod steps;
mod turns;

pub use network_laws::{NetEdge, Network, Solution};
pub use solving::{parts, solve, solve_from};

/// The sum of weight times rise.
fn total_cost(edges: &[NetEdge], layer: &[i64]) -> u128
    requires few { length edges.now ≤ 2 ^ 24 }
    requires ends { EndsBelow (length layer.now) edges.now }
    requires layering { IsLayering edges.now layer.now }
    requires from_zero { (v : ℕ) → pos 0 ≤ℤ layer_of layer.now v }
    ensures { result ≡ cost edges.now layer.now }
{
    let mut total: u128 = 0;
    for e in edges {
        total += rise_cost(e.weight, layer[e.tail as usize], layer[e.head as usize]);
    }
    total
}

fn rise_cost(weight: u32, low: i64, high: i64) -> u128
    requires from_zero { pos 0 ≤ℤ low }
    requires up { low ≤ℤ high }
    ensures value { result ≡ weight * natural (high -ℤ low) }
    ensures small { result < 2 ^ 95 }
{
    u128::from(weight) * (high - low) as u128
}

/// A state whose flow balances is a solution: its cost is counted.
pub fn finish(nodes: u32, edges: &[NetEdge], layer: Vec<i64>, flow: Vec<u64>) -> Solution
    requires few { length edges.now ≤ 2 ^ 24 }
    requires ends { EndsBelow nodes edges.now }
    requires done { IsDone nodes edges.now layer.items flow.items }
    ensures solution { IsSolution nodes edges.now result.layer.items result.flow.items result.cost }
    ensures layer { result.layer.items ≡ layer.items }
    ensures flow { result.flow.items ≡ flow.items }
{
    let cost = total_cost(edges, layer.as_slice());
    Solution { layer, flow, cost }
}

/// How a node was reached: over which edge, at which turn (0 at the source), and with room for how much flow.
#[derive(Clone, Copy)]
struct Label {
    parent: u32,
    depth: u32,
    room: u64,
}

/// Moves the amount over an edge towards `v`, and gives the edge's other end.
fn push_over(flow: &mut [u64], k: usize, e: NetEdge, v: u32, amount: u64) -> u32
    requires there { k < length flow.old }
    requires fits { e.head ≡ v → slice_index flow.old k + amount < 2 ^ 64 }
    requires enough { e.head ≢ v → amount ≤ slice_index flow.old k }
    ensures { PushesOver flow.old k e v amount flow.new result }
{
    if e.head == v {
        flow[k] += amount;
        e.tail
    } else {
        flow[k] -= amount;
        e.head
    }
}

/// Moves the amount along the way that the labels tell, from its beginning to `to`.
fn push(edges: &[NetEdge], labels: &[Label], flow: &mut [u64], to: u32, amount: u64)
    requires few { length edges.now ≤ 2 ^ 24 }
    requires same { length flow.old ≡ length edges.now }
    requires ends { EndsBelow (length labels.now) edges.now }
    requires to { to < length labels.now }
    requires fits { (k : ℕ) → slice_index flow.old k + amount < 2 ^ 63 }
    requires labels { IsLabelled edges.now flow.old labels.now to amount }
    ensures { IsPushed edges.now flow.old labels.now to amount flow.new }
{
    let mut v = to;
    while labels[v as usize].depth > 0 {
        let k = labels[v as usize].parent as usize;
        v = push_over(flow, k, edges[k], v, amount);
    }
}
