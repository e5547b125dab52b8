//! Cut values: the weight that leaves a part less the weight that enters it is a sum over the part's nodes, so one pass
//! from the last node of the tree to the first gives all of them.

ghost use Rattle.std.specs.Prelude.{◌≡◌, ◌≢◌, ◌+◌, ◌*◌, ◌<◌, ◌≤◌, ◌^◌, ℕ, pos, ◌+ℤ◌, ◌-ℤ◌, length, set, slice_index, Bool, List, true, false, IfOk};
ghost use Rattle.std.specs.List.{sum_by};
ghost use Rattle.network_laws.specs.declared.network.NetEdge.{NetEdge as EdgeOf};
ghost use Rattle.network_laws.specs.Network.{EndsBelow, edge_at};
ghost use Rattle.network_laws.specs.Layering.{layer_of};
ghost use Rattle.net_simplex.specs.Tree.{IsSpanningTree};
ghost use Rattle.net_simplex.specs.Rooted.{beyond, Hangs};
ghost use Rattle.net_simplex.specs.Cuts.{size_of, sizes, tallied, TellsWeights, Lifts, AreCutValues};

use crate::rooted::other_end;
use crate::tree::Tree;
use network_laws::NetEdge;
use std::alloc::{AllocError, Global};

/// Writes one number.
pub fn put(numbers: &mut [i64], at: u32, number: i64)
    requires { at < length numbers.old }
    ensures { numbers.new ≡ set numbers.old at number }
{
    numbers[at as usize] = number;
}

/// Reads one number.
pub fn number_at(numbers: &[i64], at: u32) -> i64
    requires { at < length numbers.now }
    ensures { result ≡ layer_of numbers.now at }
{
    numbers[at as usize]
}

fn plus(a: i64, b: i64) -> i64
    requires { size_of a + size_of b < 2 ^ 63 }
    ensures { result ≡ a +ℤ b }
{
    a + b
}

pub fn opposite(a: i64) -> i64
    requires { size_of a < 2 ^ 63 }
    ensures { result ≡ pos 0 -ℤ a }
{
    -a
}

/// Moves the edge's weight from its head to its tail.
fn tally_edge(excess: &mut [i64], e: NetEdge)
    requires tail { e.tail < length excess.old }
    requires head { e.head < length excess.old }
    requires fits { sizes excess.old + 2 * e.weight < 2 ^ 63 }
    ensures { excess.new ≡ tallied excess.old e }
{
    let by = i64::from(e.weight);
    put(excess, e.tail, plus(number_at(excess, e.tail), by));
    put(
        excess,
        e.head,
        plus(number_at(excess, e.head), opposite(by)),
    );
}

/// What leaves each node by weight less what comes in.
fn tally(edges: &[NetEdge], excess: &mut [i64])
    requires ends { EndsBelow (length excess.old) edges.now }
    requires weights { sum_by (λ (e : EdgeOf). e.weight) edges.now < 2 ^ 62 }
    requires none { (v : ℕ) → layer_of excess.old v ≡ pos 0 }
    ensures same { length excess.new ≡ length excess.old }
    ensures tells { TellsWeights edges.now excess.new }
    ensures small { sizes excess.new ≤ 2 * sum_by (λ (e : EdgeOf). e.weight) edges.now }
{
    for e in edges {
        tally_edge(excess, *e);
    }
}

fn signed(kept_sign: bool, number: i64) -> i64
    requires { size_of number < 2 ^ 63 }
    ensures as_is { kept_sign ≡ true → result ≡ number }
    ensures opposite { kept_sign ≡ false → result ≡ pos 0 -ℤ number }
{
    if kept_sign {
        return number;
    }
    opposite(number)
}

/// Moves the number of `v` to the node on which it hangs; it is the cut value of the edge between.
fn lift(edges: &[NetEdge], tree: &Tree, v: u32, excess: &mut [i64], cut: &mut [i64])
    requires node { v < length tree.now.parent.items }
    requires there { slice_index tree.now.parent.items v < length edges.now }
    requires excess { length excess.old ≡ length tree.now.parent.items }
    requires ends { EndsBelow (length tree.now.parent.items) edges.now }
    requires cut { length cut.old ≡ length edges.now }
    requires other { beyond (edge_at edges.now (slice_index tree.now.parent.items v)) v ≢ v }
    requires small { sizes excess.old < 2 ^ 63 }
    ensures { Lifts (edge_at edges.now (slice_index tree.now.parent.items v)) (slice_index tree.now.parent.items v) v
        (beyond (edge_at edges.now (slice_index tree.now.parent.items v)) v) excess.old cut.old excess.new cut.new }
{
    let k = tree.parent_of(v);
    let e = edges[k as usize];
    let u = other_end(e, v);
    let more = number_at(excess, v);
    put(excess, v, 0);
    put(excess, u, plus(number_at(excess, u), more));
    put(cut, k, signed(e.tail == v, more));
}

fn lift_all(edges: &[NetEdge], tree: &Tree, excess: &mut [i64], cut: &mut [i64])
    requires few { length tree.now.order.items ≤ 2 ^ 23 }
    requires ends { EndsBelow (length tree.now.order.items) edges.now }
    requires weights { sum_by (λ (e : EdgeOf). e.weight) edges.now < 2 ^ 62 }
    requires excess { length excess.old ≡ length tree.now.order.items }
    requires cut { length cut.old ≡ length edges.now }
    requires tells { TellsWeights edges.now excess.old }
    requires small { sizes excess.old ≤ 2 * sum_by (λ (e : EdgeOf). e.weight) edges.now }
    requires spanning { IsSpanningTree (length tree.now.order.items) edges.now tree.now.marks.items }
    requires rooted { Hangs (length tree.now.order.items) edges.now tree.now }
    ensures { AreCutValues (length tree.now.order.items) edges.now tree.now.marks.items cut.new }
{
    let mut left = tree.order.len() as u32;
    while left > 1 {
        left -= 1;
        lift(edges, tree, tree.node_at(left), excess, cut);
    }
}

/// The cut values of a tree's edges.
pub fn sum_cuts(alloc: Global, edges: &[NetEdge], tree: &Tree) -> Result<Vec<i64>, AllocError>
    requires few { length tree.now.order.items ≤ 2 ^ 23 }
    requires ends { EndsBelow (length tree.now.order.items) edges.now }
    requires weights { sum_by (λ (e : EdgeOf). e.weight) edges.now < 2 ^ 62 }
    requires spanning { IsSpanningTree (length tree.now.order.items) edges.now tree.now.marks.items }
    requires rooted { Hangs (length tree.now.order.items) edges.now tree.now }
    ensures { IfOk result (λ cut. AreCutValues (length tree.now.order.items) edges.now tree.now.marks.items cut.items) }
{
    let mut excess: Vec<i64> = vec![in alloc; 0; tree.order.len()]?;
    let mut cut: Vec<i64> = vec![in alloc; 0; edges.len()]?;
    tally(edges, &mut excess);
    lift_all(edges, tree, &mut excess, &mut cut);
    Ok(cut)
}
