//! Cut values where one tree edge is exchanged for another: those of the edges on the way between the ends of the edge
//! that enters change by the cut value of the edge that leaves, and no other does.

ghost use Rattle.std.specs.Prelude.{◌≡◌, ◌+◌, ◌<◌, ◌≤◌, ◌^◌, ℕ, cond, pos, ◌+ℤ◌, ◌-ℤ◌, length, set, slice_index, true, false};
ghost use Rattle.std.specs.List.{sum_by};
ghost use Rattle.network_laws.specs.declared.network.NetEdge.{NetEdge as EdgeOf};
ghost use Rattle.network_laws.specs.Network.{EndsBelow, edge_at};
ghost use Rattle.network_laws.specs.Layering.{layer_of};
ghost use Rattle.network_laws.specs.Linked.{is_marked};
ghost use Rattle.net_simplex.specs.Tree.{IsSpanningTree, tail_part};
ghost use Rattle.net_simplex.specs.Rooted.{above, Hangs};
ghost use Rattle.net_simplex.specs.Cuts.{size_of, AreCutValues};
ghost use Rattle.net_simplex.specs.Changed.{gained, passed, CanPass, PassesLater};

use crate::cuts::{number_at, opposite, put};
use crate::rooted::other_end;
use crate::tree::Tree;
use network_laws::NetEdge;

fn changed(number: i64, from_tail: bool, by: i64) -> i64
    requires { size_of number + size_of by < 2 ^ 63 }
    ensures { result ≡ number +ℤ cond from_tail by (pos 0 -ℤ by) }
{
    if from_tail {
        return number + by;
    }
    number - by
}

/// Passes the edge on which `v` hangs, and gives its other end.
fn pass(edges: &[NetEdge], tree: &Tree, v: u32, by: i64, cut: &mut [i64]) -> u32
    requires node { v < length tree.now.parent.items }
    requires there { CanPass edges.now tree.now.parent.items v by cut.old }
    requires cut { length cut.old ≡ length edges.now }
    ensures up { result ≡ above edges.now tree.now.parent.items v }
    ensures passed { cut.new ≡ passed edges.now tree.now.parent.items v by cut.old }
{
    let k = tree.parent_of(v);
    let e = edges[k as usize];
    put(cut, k, changed(number_at(cut, k), e.tail == v, by));
    other_end(e, v)
}

/// Of two nodes the later one goes up.
fn pass_later(
    edges: &[NetEdge],
    tree: &Tree,
    from: u32,
    to: u32,
    by: i64,
    cut: &mut [i64],
) -> (u32, u32)
    requires from { from < length tree.now.parent.items }
    requires to { to < length tree.now.parent.items }
    requires place { length tree.now.place.items ≡ length tree.now.parent.items }
    requires cut { length cut.old ≡ length edges.now }
    requires small { size_of by < 2 ^ 63 }
    requires from_hangs { slice_index tree.now.place.items to < slice_index tree.now.place.items from
        → CanPass edges.now tree.now.parent.items from by cut.old }
    requires to_hangs { slice_index tree.now.place.items from ≤ slice_index tree.now.place.items to
        → CanPass edges.now tree.now.parent.items to (pos 0 -ℤ by) cut.old }
    ensures { PassesLater edges.now tree.now.place.items tree.now.parent.items by from to cut.old result.0 result.1 cut.new }
{
    if tree.place_of(to) < tree.place_of(from) {
        return (pass(edges, tree, from, by, cut), to);
    }
    (from, pass(edges, tree, to, opposite(by), cut))
}

/// Passes each tree edge on the way between two nodes.
fn pass_way(edges: &[NetEdge], tree: &Tree, begin: u32, end: u32, by: i64, cut: &mut [i64])
    requires begin { begin < length tree.now.order.items }
    requires end { end < length tree.now.order.items }
    requires ends { EndsBelow (length tree.now.order.items) edges.now }
    requires cut { length cut.old ≡ length edges.now }
    requires spanning { IsSpanningTree (length tree.now.order.items) edges.now tree.now.marks.items }
    requires rooted { Hangs (length tree.now.order.items) edges.now tree.now }
    requires small { size_of by < 2 ^ 63 }
    requires fits { (k : ℕ) → k < length edges.now → is_marked tree.now.marks.items k ≡ true → size_of (layer_of cut.old k) + size_of by < 2 ^ 63 }
    ensures same { length cut.new ≡ length edges.now }
    ensures gained { (k : ℕ) → k < length edges.now → is_marked tree.now.marks.items k ≡ true
        → layer_of cut.new k
        ≡ layer_of cut.old k +ℤ gained (tail_part (length tree.now.order.items) edges.now tree.now.marks.items k) begin end by }
{
    let mut from = begin;
    let mut to = end;
    'way: loop {
        if from == to {
            return;
        }
        let next = pass_later(edges, tree, from, to, by, cut);
        from = next.0;
        to = next.1;
    }
}

/// The cut values where `out` leaves the tree and `by` enters it.
pub fn change_cuts(edges: &[NetEdge], tree: &Tree, out: u32, by: u32, cut: &mut [i64])
    requires ends { EndsBelow (length tree.now.order.items) edges.now }
    requires weights { sum_by (λ (e : EdgeOf). e.weight) edges.now < 2 ^ 62 }
    requires spanning { IsSpanningTree (length tree.now.order.items) edges.now tree.now.marks.items }
    requires rooted { Hangs (length tree.now.order.items) edges.now tree.now }
    requires values { AreCutValues (length tree.now.order.items) edges.now tree.now.marks.items cut.old }
    requires out { out < length edges.now }
    requires marked { is_marked tree.now.marks.items out ≡ true }
    requires by { by < length edges.now }
    requires from { tail_part (length tree.now.order.items) edges.now tree.now.marks.items out (edge_at edges.now by).tail ≡ false }
    requires to { tail_part (length tree.now.order.items) edges.now tree.now.marks.items out (edge_at edges.now by).head ≡ true }
    ensures { AreCutValues (length tree.now.order.items) edges.now (set (set tree.now.marks.items out false) by true) cut.new }
{
    let e = edges[by as usize];
    let change = number_at(cut, out);
    pass_way(edges, tree, e.tail, e.head, change, cut);
    put(cut, by, opposite(change));
}
