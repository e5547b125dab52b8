//! The first tree: it grows from node 0 by the edge of least slack to the outside, ties by the number. The layers of its
//! nodes are counted from node 0, and a number tells how much higher they stand.

ghost use Rattle.std.specs.Prelude.{◌≡◌, ◌≢◌, ◌+◌, ◌-◌, ◌<◌, ◌≤◌, ◌^◌, ℕ, pos, ◌≤ℤ◌, ◌<ℤ◌, ◌+ℤ◌, ◌-ℤ◌, true, false, length, replicate, slice_index, IfOk, OnOk};
ghost use Rattle.std.specs.BinaryHeap.{heap_items};
ghost use Rattle.network_laws.specs.Network.{IsNetwork, IsAcyclic, EndsBelow};
ghost use Rattle.network_laws.specs.Layering.{layer_of, IsLayering};
ghost use Rattle.network_laws.specs.Paths.{AreGreatestSums};
ghost use Rattle.net_simplex.specs.Pivots.{is_in, shifted, borders, least_slack_edge, first_state, grown_once as once};
ghost use Rattle.net_simplex.specs.Grown.{IsConnected, Joins, Attaches, IsSmall, ReachesOneMore, growing_of, IsBare, Grows};
ghost use Rattle.net_simplex.specs.Outward.{AreBothLinks, AreQueues, AreQueuesBut, IsEmptyHeap};
ghost use Rattle.net_simplex.specs.Kept.{StandsFor, Keeps};

use crate::cuts::{number_at, put};
use crate::entering::joining;
use crate::rooted::plant;
use crate::tree::Tree;
use crate::waiting::{BothLinks, Queues, add_edges};
use network_laws::{End, NetEdge, link_edges};
use std::alloc::{AllocError, Global};
use std::collections::BinaryHeap;

fn less(a: i64, b: i64) -> i64
    requires a { IsSmall a }
    requires b { IsSmall b }
    ensures { result ≡ a -ℤ b }
{
    a - b
}

fn stand_above(layer: i64, least: u64) -> i64
    requires small { IsSmall layer }
    requires least { least < 2 ^ 62 }
    ensures { result ≡ layer +ℤ pos least }
{
    layer + least as i64
}

fn stand_below(layer: i64, least: u64) -> i64
    requires small { IsSmall layer }
    requires least { least < 2 ^ 62 }
    ensures { result ≡ layer -ℤ pos least }
{
    layer - least as i64
}

/// A node joins the tree where its edge is tight. Gives how much higher the tree's nodes stand now than their layers say.
fn join(v: u32, k: u32, at: i64, filled: u32, tree: &mut Tree, layers: &mut [i64]) -> i64
    requires node { v < length layers.old }
    requires small { IsSmall (layer_of layers.old v) }
    requires small_at { IsSmall at }
    requires order { filled < length tree.old.order.items }
    requires place { v < length tree.old.place.items }
    requires parent { v < length tree.old.parent.items }
    ensures joins { Joins v k at filled layers.old tree.old.order.items tree.old.place.items tree.old.parent.items layers.new
        tree.new.order.items tree.new.place.items tree.new.parent.items result }
    ensures marks { tree.new.marks.items ≡ tree.old.marks.items }
{
    let start = number_at(layers, v);
    put(layers, v, at);
    tree.parent[v as usize] = k;
    plant(v, filled, &mut tree.order, &mut tree.place);
    less(start, at)
}

/// The outer end of the edge joins the tree.
fn attach(
    e: NetEdge,
    k: u32,
    filled: u32,
    tree: &mut Tree,
    reached: &mut [bool],
    layers: &mut [i64],
) -> i64
    requires tail { e.tail < length layers.old }
    requires head { e.head < length layers.old }
    requires marks { k < length tree.old.marks.items }
    requires reached { length reached.old ≡ length layers.old }
    requires order { filled < length tree.old.order.items }
    requires place { length tree.old.place.items ≡ length layers.old }
    requires parent { length tree.old.parent.items ≡ length layers.old }
    requires least { e.least < 2 ^ 62 }
    requires small { (v : ℕ) → v < length layers.old → IsSmall (layer_of layers.old v) }
    requires above { is_in reached.old e.tail ≡ true → IsSmall (layer_of layers.old e.tail +ℤ pos e.least) }
    requires below { is_in reached.old e.tail ≡ false → IsSmall (layer_of layers.old e.head -ℤ pos e.least) }
    ensures { Attaches e k filled tree.old.marks.items reached.old layers.old tree.old.order.items tree.old.place.items
        tree.old.parent.items tree.new.marks.items reached.new layers.new tree.new.order.items tree.new.place.items
        tree.new.parent.items result }
{
    let inside = reached[e.tail as usize];
    tree.marks[k as usize] = true;
    reached[e.tail as usize] = true;
    reached[e.head as usize] = true;
    if inside {
        let at = stand_above(number_at(layers, e.tail), e.least);
        return join(e.head, k, at, filled, tree, layers);
    }
    let at = stand_below(number_at(layers, e.head), e.least);
    join(e.tail, k, at, filled, tree, layers)
}

/// The chosen edge joins the tree. The answer tells how much higher its nodes stand then.
fn grow_by(
    edges: &[NetEdge],
    choice: Option<u32>,
    filled: u32,
    by: i64,
    tree: &mut Tree,
    reached: &mut [bool],
    layers: &mut [i64],
) -> i64
    requires network { IsNetwork (length layers.old) edges.now }
    requires connected { IsConnected (length layers.old) edges.now }
    requires choice { choice ≡ least_slack_edge edges.now (shifted (is_in reached.old) by layers.old) (borders reached.old) }
    requires room { filled < length layers.old }
    requires grown { Grows (length layers.old) edges.now filled tree.old reached.old by layers.old }
    ensures grown { Grows (length layers.old) edges.now (filled + 1) tree.new reached.new result layers.new }
    ensures once { growing_of tree.new.marks.items reached.new result layers.new ≡ once edges.now (growing_of tree.old.marks.items reached.old by layers.old) }
    ensures joined { ReachesOneMore (length layers.old) filled reached.old layers.old tree.new.order.items reached.new layers.new }
{
    match choice {
        Some(k) => attach(edges[k as usize], k, filled, tree, reached, layers),
        None => by,
    }
}

/// Adds the edges that lead from `v` out of the tree.
fn add_both(
    edges: &[NetEdge],
    links: &BothLinks,
    layers: &[i64],
    reached: &[bool],
    v: u32,
    queues: &mut Queues,
) -> Result<(), AllocError>
    requires few { length edges.now ≤ 2 ^ 24 }
    requires ends { EndsBelow (length layers.now) edges.now }
    requires links { AreBothLinks (length layers.now) edges.now links.now }
    requires marks { length reached.now ≡ length layers.now }
    requires there { v < length layers.now }
    requires held { is_in reached.now v ≡ true }
    requires queues { AreQueuesBut edges.now reached.now layers.now v queues.old }
    ensures { OnOk result (AreQueues edges.now reached.now layers.now queues.new) }
{
    add_edges(
        edges,
        &links.tails,
        End::Tail,
        layers,
        reached,
        v,
        &mut queues.rising,
    )?;
    add_edges(
        edges,
        &links.heads,
        End::Head,
        layers,
        reached,
        v,
        &mut queues.falling,
    )?;
    Ok(())
}

/// How far the first tree has grown: how many nodes it has, and how much higher they stand than their layers say.
#[derive(Clone, Copy)]
struct Extent {
    filled: u32,
    by: i64,
}

/// One more edge joins the tree. The answer tells how much higher its nodes stand then.
fn grow_once(
    edges: &[NetEdge],
    links: &BothLinks,
    grown: Extent,
    tree: &mut Tree,
    reached: &mut [bool],
    layers: &mut [i64],
    queues: &mut Queues,
) -> Result<i64, AllocError>
    requires network { IsNetwork (length layers.old) edges.now }
    requires connected { IsConnected (length layers.old) edges.now }
    requires links { AreBothLinks (length layers.old) edges.now links.now }
    requires room { grown.filled < length layers.old }
    requires grown { Grows (length layers.old) edges.now grown.filled tree.old reached.old grown.by layers.old }
    requires queues { AreQueues edges.now reached.old layers.old queues.old }
    ensures grown { IfOk result (λ now. Grows (length layers.old) edges.now (grown.filled + 1) tree.new reached.new now layers.new) }
    ensures once { IfOk result
        (λ now. growing_of tree.new.marks.items reached.new now layers.new
        ≡ once edges.now (growing_of tree.old.marks.items reached.old grown.by layers.old)) }
    ensures queues { OnOk result (AreQueues edges.now reached.new layers.new queues.new) }
{
    let filled = grown.filled;
    let choice = joining(edges, layers, reached, grown.by, queues);
    let now = grow_by(edges, choice, filled, grown.by, tree, reached, layers);
    add_both(edges, links, layers, reached, tree.node_at(filled), queues)?;
    Ok(now)
}

/// The first tree, by edges that wait in queues.
fn grow_from(
    edges: &[NetEdge],
    links: &BothLinks,
    tree: &mut Tree,
    reached: &mut [bool],
    layers: &mut [i64],
    queues: &mut Queues,
) -> Result<(), AllocError>
    requires network { IsNetwork (length layers.old) edges.now }
    requires some { 0 < length layers.old }
    requires connected { IsConnected (length layers.old) edges.now }
    requires greatest { AreGreatestSums (length layers.old) edges.now layers.old }
    requires layering { IsLayering edges.now layers.old }
    requires links { AreBothLinks (length layers.old) edges.now links.now }
    requires bare { IsBare (length layers.old) (length edges.now) tree.old }
    requires none_reached { reached.old ≡ replicate (length layers.old) false }
    requires rising { IsEmptyHeap (heap_items queues.old.rising) }
    requires falling { IsEmptyHeap (heap_items queues.old.falling) }
    ensures kept { OnOk result (Keeps (length layers.old) edges.now tree.new layers.new) }
    ensures first { OnOk result (StandsFor (length layers.old) (first_state (length layers.old) edges.now layers.old) tree.new.marks.items layers.new) }
{
    let mut by = number_at(layers, 0);
    put(layers, 0, 0);
    reached[0] = true;
    tree.parent[0] = edges.len() as u32;
    plant(0, 0, &mut tree.order, &mut tree.place);
    add_both(edges, links, layers, reached, 0, queues)?;
    for i in 1..layers.len() {
        let grown = Extent {
            filled: i as u32,
            by,
        };
        by = grow_once(edges, links, grown, tree, reached, layers, queues)?;
    }
    Ok(())
}

/// The first tree, from the start layering on.
pub fn grow(
    alloc: Global,
    edges: &[NetEdge],
    tree: &mut Tree,
    layers: &mut [i64],
) -> Result<(), AllocError>
    requires network { IsNetwork (length layers.old) edges.now }
    requires some { 0 < length layers.old }
    requires connected { IsConnected (length layers.old) edges.now }
    requires greatest { AreGreatestSums (length layers.old) edges.now layers.old }
    requires layering { IsLayering edges.now layers.old }
    requires bare { IsBare (length layers.old) (length edges.now) tree.old }
    ensures kept { OnOk result (Keeps (length layers.old) edges.now tree.new layers.new) }
    ensures first { OnOk result (StandsFor (length layers.old) (first_state (length layers.old) edges.now layers.old) tree.new.marks.items layers.new) }
{
    let nodes = layers.len() as u32;
    let links = BothLinks {
        tails: link_edges(alloc, nodes, edges, End::Tail)?,
        heads: link_edges(alloc, nodes, edges, End::Head)?,
    };
    let mut queues = Queues {
        rising: BinaryHeap::new(alloc),
        falling: BinaryHeap::new(alloc),
    };
    let mut reached: Vec<bool> = vec![in alloc; false; layers.len()]?;
    grow_from(edges, &links, tree, &mut reached, layers, &mut queues)
}
