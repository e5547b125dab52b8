//! The chain of pivots: a tree edge of negative cut value leaves, and the edge of least slack that leads back enters.

ghost use Rattle.std.specs.Prelude.{◌≡◌, ◌≢◌, ◌+◌, ◌<◌, ◌≤◌, ◌^◌, ℕ, pos, ◌≤ℤ◌, ◌<ℤ◌, ◌+ℤ◌, ◌-ℤ◌, true, false, ◌&&◌, int_lt, Some, None, length, set};
ghost use Rattle.network_laws.specs.Network.{EndsBelow, IsNetwork};
ghost use Rattle.network_laws.specs.Layering.{layer_of};
ghost use Rattle.network_laws.specs.Linked.{is_marked};
ghost use Rattle.net_simplex.specs.Pivots.{shifted, least_of, leaving_edge};
ghost use Rattle.net_simplex.specs.Tree.{IsSpanningTree};
ghost use Rattle.net_simplex.specs.Walks.{part, IsWalk, HasWalk};
ghost use Rattle.net_simplex.specs.Cuts.{AreCutValues};
ghost use Rattle.net_simplex.specs.Grown.{IsSmall};
ghost use Rattle.net_simplex.specs.Kept.{PivotsTo, kept_state, Keeps};
ghost use Rattle.net_simplex.specs.Rooted.{Hangs};

use crate::choice::lower;
use crate::entering::entering;
use crate::passing::change_cuts;
use crate::rerooting::reroot;
use crate::rooted::child_of;
use crate::tree::{Tree, Walk};
use network_laws::NetEdge;

fn is_negative(cut: i64) -> bool
    ensures { result ≡ int_lt cut (pos 0) }
{
    cut < 0
}

/// The lowest-numbered tree edge of negative cut value. Each tree edge is the one on which some node hangs.
pub fn leaving(edges: &[NetEdge], tree: &Tree, cut: &[i64]) -> Option<u32>
    requires few { length tree.now.parent.items ≤ 2 ^ 23 }
    requires same { length cut.now ≡ length tree.now.marks.items }
    requires ends { EndsBelow (length tree.now.parent.items) edges.now }
    requires spanning { IsSpanningTree (length tree.now.parent.items) edges.now tree.now.marks.items }
    requires rooted { Hangs (length tree.now.parent.items) edges.now tree.now }
    ensures { result ≡ least_of (λ k. is_marked tree.now.marks.items k && int_lt (layer_of cut.now k) (pos 0)) (λ k. 0) (length tree.now.marks.items) }
{
    let _edges = edges.len();
    let mut lowest: Option<u32> = None;
    for v in 1..tree.parent.len() as u32 {
        let k = tree.parent_of(v);
        lowest = lower(lowest, k, is_negative(cut[k as usize]));
    }
    lowest
}

fn moved(layer: i64, by: i64) -> i64
    requires { IsSmall (layer +ℤ by) }
    ensures { result ≡ layer +ℤ by }
{
    layer + by
}

/// Moves the nodes that hang on `child`, with itself.
fn shift(layers: &mut [i64], tree: &Tree, walk: &Walk, child: u32, by: i64)
    requires few { length layers.old ≤ 2 ^ 23 }
    requires walk { (up : ℕ → ℕ) × IsWalk (length layers.old) tree.now.order.items tree.now.place.items walk.now.size.items up }
    requires child { child < length layers.old }
    requires small { (v : ℕ) → v < length layers.old → part tree.now.place.items walk.now.size.items child v ≡ true → IsSmall (layer_of layers.old v +ℤ by) }
    ensures { layers.new ≡ shifted (part tree.now.place.items walk.now.size.items child) by layers.old }
{
    let first = tree.place_of(child);
    let last = first + walk.size_of(child);
    for i in first..last {
        let v = tree.node_at(i);
        layers[v as usize] = moved(layers[v as usize], by);
    }
}

/// By how much the part without the root moves: up where it is the head's, else down.
fn move_by(root_in: bool, slack: i128) -> i64
    requires from { pos 0 ≤ℤ slack }
    requires to { slack <ℤ pos (2 ^ 63) }
    ensures up { root_in ≡ true → result ≡ slack }
    ensures down { root_in ≡ false → result ≡ pos 0 -ℤ slack }
{
    if root_in {
        return slack as i64;
    }
    (-slack) as i64
}

fn lower_end(root_in: bool, e: NetEdge) -> u32
    ensures up { root_in ≡ true → result ≡ e.tail }
    ensures down { root_in ≡ false → result ≡ e.head }
{
    if root_in {
        return e.tail;
    }
    e.head
}

/// One pivot: `out` leaves the tree.
pub fn pivot(
    edges: &[NetEdge],
    out: u32,
    tree: &mut Tree,
    walk: &mut Walk,
    layers: &mut [i64],
    cut: &mut [i64],
)
    requires network { IsNetwork (length layers.old) edges.now }
    requires kept { Keeps (length layers.old) edges.now tree.old layers.old }
    requires leaves { leaving_edge (length layers.old) edges.now (kept_state tree.old.marks.items layers.old) ≡ Some out }
    requires values { AreCutValues (length layers.old) edges.now tree.old.marks.items cut.old }
    requires walk { HasWalk (length layers.old) edges.now tree.old walk.old }
    ensures kept { Keeps (length layers.old) edges.now tree.new layers.new }
    ensures walk { HasWalk (length layers.old) edges.now tree.new walk.new }
    ensures values { AreCutValues (length layers.old) edges.now tree.new.marks.items cut.new }
    ensures pivots { PivotsTo (length layers.old) edges.now tree.old.marks.items layers.old tree.new.marks.items layers.new }
{
    let e = edges[out as usize];
    let child = child_of(tree, e, out);
    let root_in = child == e.head;
    match entering(edges, layers, tree, walk, child, root_in) {
        Some(choice) => {
            let by = choice.edge;
            let from = lower_end(root_in, edges[by as usize]);
            change_cuts(edges, tree, out, by, cut);
            shift(layers, tree, walk, child, move_by(root_in, choice.slack));
            tree.marks[out as usize] = false;
            tree.marks[by as usize] = true;
            reroot(edges, tree, walk, child, from, by);
        }
        None => {}
    }
}
