//! The edge that enters the tree, and the one that joins it while it grows.

ghost use Rattle.std.specs.Prelude.{◌≡◌, ◌+◌, ◌<◌, ◌≤◌, ◌^◌, ℕ, pos, ◌+ℤ◌, ◌-ℤ◌, ◌≤ℤ◌, length, slice_index, true, false};
ghost use Rattle.network_laws.specs.Network.{EndsBelow, edge_at};
ghost use Rattle.network_laws.specs.Layering.{layer_of, IsLayering};
ghost use Rattle.net_simplex.specs.Pivots.{slack, is_in, borders, leads_back, least_slack_edge, shifted};
ghost use Rattle.net_simplex.specs.Rooted.{part_from};
ghost use Rattle.net_simplex.specs.Walks.{between, part};
ghost use Rattle.net_simplex.specs.Chosen.{Tells};
ghost use Rattle.net_simplex.specs.Outward.{IsNearest, AreQueues, nearer_of};
ghost use Rattle.std.specs.BinaryHeap.{heap_items};
ghost use Rattle.network_laws.specs.declared.links.End.TheVariants.{Tail, Head};

use crate::choice::{Choice, better};
use crate::rooted::is_between;
use crate::tree::{Tree, Walk};
use crate::waiting::{Queues, nearest};
use network_laws::{End, NetEdge};

fn slack_between(low: i128, high: i128, least: u64) -> i128
    requires low_from { pos 0 ≤ℤ (low +ℤ pos (2 ^ 100)) }
    requires low_to { low ≤ℤ pos (2 ^ 100) }
    requires high_from { pos 0 ≤ℤ (high +ℤ pos (2 ^ 100)) }
    requires high_to { high ≤ℤ pos (2 ^ 100) }
    ensures { result ≡ high -ℤ low -ℤ pos least }
{
    high - low - i128::from(least)
}

/// Whether the edge leads from the head's part to the tail's part, where the part without the root has the `many` places
/// from `first` on.
fn leads_back_to(tree: &Tree, first: u32, many: u32, root_in: bool, e: NetEdge) -> bool
    requires tail { e.tail < length tree.now.place.items }
    requires head { e.head < length tree.now.place.items }
    requires fits { first + many < 2 ^ 32 }
    ensures { result ≡ leads_back (part_from root_in (λ v. between first many (slice_index tree.now.place.items v))) e }
{
    if root_in {
        return is_between(first, many, tree.place_of(e.tail))
            && !is_between(first, many, tree.place_of(e.head));
    }
    !is_between(first, many, tree.place_of(e.tail))
        && is_between(first, many, tree.place_of(e.head))
}

/// Of the edges from the head's part to the tail's part the one of least slack, ties by the number. The part without the
/// root hangs on `child`.
pub fn entering(
    edges: &[NetEdge],
    layers: &[i64],
    tree: &Tree,
    walk: &Walk,
    child: u32,
    root_in: bool,
) -> Option<Choice>
    requires few { length edges.now ≤ 2 ^ 24 }
    requires place { length tree.now.place.items ≡ length layers.now }
    requires size { length walk.now.size.items ≡ length layers.now }
    requires child { child < length layers.now }
    requires fits { slice_index tree.now.place.items child + slice_index walk.now.size.items child < 2 ^ 32 }
    requires ends { EndsBelow (length layers.now) edges.now }
    requires layering { IsLayering edges.now layers.now }
    ensures { Tells (λ k. slack layers.now (edge_at edges.now k))
        (least_slack_edge edges.now layers.now (leads_back (part_from root_in (part tree.now.place.items walk.now.size.items child))))
        result }
{
    let first = tree.place_of(child);
    let many = walk.size_of(child);
    let mut best: Option<Choice> = None;
    for k in 0..edges.len() {
        let e = edges[k];
        if leads_back_to(tree, first, many, root_in, e) {
            let slack = slack_between(
                i128::from(layers[e.tail as usize]),
                i128::from(layers[e.head as usize]),
                e.least,
            );
            best = better(best, k as u32, slack);
        }
    }
    best
}

/// A node's layer where the tree's nodes stand higher by a number.
fn layer_in(reached: bool, layer: i64, by: i64) -> i128
    ensures held { reached ≡ true → result ≡ layer +ℤ by }
    ensures out { reached ≡ false → result ≡ layer }
    ensures from { pos 0 ≤ℤ (result +ℤ pos (2 ^ 100)) }
    ensures to { result ≤ℤ pos (2 ^ 100) }
{
    if reached {
        return i128::from(layer) + i128::from(by);
    }
    i128::from(layer)
}

/// An edge with its slack where the tree's nodes stand higher by `by` than their layers say.
fn with_slack(edges: &[NetEdge], layers: &[i64], reached: &[bool], by: i64, k: u32) -> Choice
    requires there { k < length edges.now }
    requires marks { length reached.now ≡ length layers.now }
    requires ends { EndsBelow (length layers.now) edges.now }
    requires layering { IsLayering edges.now (shifted (is_in reached.now) by layers.now) }
    ensures edge { result.edge ≡ k }
    ensures slack { result.slack ≡ pos (slack (shifted (is_in reached.now) by layers.now) (edge_at edges.now k)) }
{
    let e = edges[k as usize];
    let low = layer_in(reached[e.tail as usize], layers[e.tail as usize], by);
    let high = layer_in(reached[e.head as usize], layers[e.head as usize], by);
    let slack = slack_between(low, high, e.least);
    Choice { edge: k, slack }
}

/// The edge of less slack, ties by the number.
fn nearer(a: Choice, b: Choice) -> u32
    ensures { result ≡ nearer_of a b }
{
    if a.slack < b.slack {
        return a.edge;
    }
    if b.slack < a.slack {
        return b.edge;
    }
    if a.edge < b.edge {
        return a.edge;
    }
    b.edge
}

/// Of the nearest edge whose tail is in the tree and the nearest whose head is the one of less slack.
fn nearer_of_both(
    edges: &[NetEdge],
    layers: &[i64],
    reached: &[bool],
    by: i64,
    up: Option<u32>,
    down: Option<u32>,
) -> Option<u32>
    requires marks { length reached.now ≡ length layers.now }
    requires ends { EndsBelow (length layers.now) edges.now }
    requires layering { IsLayering edges.now (shifted (is_in reached.now) by layers.now) }
    requires up { IsNearest edges.now Tail reached.now layers.now up }
    requires down { IsNearest edges.now Head reached.now layers.now down }
    ensures { result ≡ least_slack_edge edges.now (shifted (is_in reached.now) by layers.now) (borders reached.now) }
{
    match up {
        Some(a) => match down {
            Some(b) => Some(nearer(
                with_slack(edges, layers, reached, by, a),
                with_slack(edges, layers, reached, by, b),
            )),
            None => Some(a),
        },
        None => down,
    }
}

/// Of the edges between the tree and the outside the one of least slack, ties by the number. The tree's nodes stand
/// higher by `by` than their layers say.
pub fn joining(
    edges: &[NetEdge],
    layers: &[i64],
    reached: &[bool],
    by: i64,
    queues: &mut Queues,
) -> Option<u32>
    requires marks { length reached.now ≡ length layers.now }
    requires ends { EndsBelow (length layers.now) edges.now }
    requires layering { IsLayering edges.now (shifted (is_in reached.now) by layers.now) }
    requires queues { AreQueues edges.now reached.now layers.now queues.old }
    ensures least { result ≡ least_slack_edge edges.now (shifted (is_in reached.now) by layers.now) (borders reached.now) }
    ensures queues { AreQueues edges.now reached.now layers.now queues.new }
{
    let up = nearest(edges, End::Tail, layers, reached, &mut queues.rising);
    let down = nearest(edges, End::Head, layers, reached, &mut queues.falling);
    nearer_of_both(edges, layers, reached, by, up, down)
}
