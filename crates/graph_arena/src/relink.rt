//! The changes of an arena, as changes of its two slabs.

ghost use Rattle.std.specs.Prelude.{◌≡◌, ◌≤◌, ◌<◌, ◌+◌, ◌^◌, ℕ, [], Some, IfOk, OnOk, OnErr, IsOk, IsSome};
ghost use Rattle.slab.specs.Slab.{ContainsKey, slab_len, HasRoomFor};
ghost use Rattle.graph_arena.specs.Graph.{Ends, ends_at};
ghost use Rattle.graph_arena.specs.Changes.{AddsEdge, IsSame, LeavesRoom, Peels, RemovesEdge, RemovesNode, Reverses, Splits};
ghost use Rattle.graph_arena.specs.declared.slots.Flank.TheVariants.{Outward, Inward};
ghost use Rattle.graph_arena.specs.Flanks.{owner, keys, Loosened, empty_node, loose_edge, IsSound, graph_of, HasEdgeRoom};

use crate::links::{attach, detach, hand_over};
use crate::slots::{EdgeList, EdgeSlot, Flank, NodeSlot, Place, place_at, row_at};
use slab::Slab;
use std::alloc::AllocError;

/// More edges than a machine can hold. Below it degrees can be added.
const MOST_EDGES: usize = 1 << 62;

pub(crate) fn new_node() -> NodeSlot
    ensures { result ≡ empty_node }
{
    let none = EdgeList {
        first: None,
        last: None,
        count: 0,
    };
    NodeSlot {
        outward: none,
        inward: none,
    }
}

fn new_edge() -> EdgeSlot
    ensures { result ≡ loose_edge }
{
    let loose = Place {
        node: None,
        next: None,
        prev: None,
    };
    EdgeSlot {
        outward: loose,
        inward: loose,
    }
}

/// The node in whose list on a side the edge stands.
pub(crate) fn end_at(edges: &Slab<EdgeSlot>, flank: Flank, edge: usize) -> usize
    requires live { ContainsKey edges.now edge }
    requires tied { IsSome (owner flank edges.now edge) }
    ensures { owner flank edges.now edge ≡ Some result }
{
    match place_at(edges, flank, edge).node {
        Some(node) => node,
        None => unreachable!(),
    }
}

/// Makes room for so many more edges.
pub(crate) fn reserve_edges(edges: &mut Slab<EdgeSlot>, more: usize) -> Result<(), AllocError>
    requires { slab_len edges.old ≤ 2 ^ 62 }
    ensures room { OnOk result (HasEdgeRoom edges.new more) }
    ensures succeeds { HasEdgeRoom edges.old more → IsOk result }
    ensures kept { edges.new ≡ record edges.old { capacity = edges.new.capacity } }
    ensures capacity { edges.old.capacity ≤ edges.new.capacity }
{
    if more > MOST_EDGES - edges.len() {
        return Err(AllocError);
    }
    edges.reserve(more)
}

/// Makes room for so many more nodes and edges.
pub(crate) fn reserve_both(
    nodes: &mut Slab<NodeSlot>,
    edges: &mut Slab<EdgeSlot>,
    more_nodes: usize,
    more_edges: usize,
) -> Result<(), AllocError>
    requires { IsSound nodes.old edges.old }
    ensures sound { IsSound nodes.new edges.new }
    ensures node_room { OnOk result (HasRoomFor nodes.new more_nodes) }
    ensures edge_room { OnOk result (HasEdgeRoom edges.new more_edges) }
    ensures same { IsSame (graph_of nodes.old edges.old) (graph_of nodes.new edges.new) }
    ensures room { LeavesRoom (graph_of nodes.old edges.old) (graph_of nodes.new edges.new) 0 0 }
{
    nodes.reserve(more_nodes)?;
    reserve_edges(edges, more_edges)
}

/// A new edge, last in both lists.
fn insert_reserved(
    nodes: &mut Slab<NodeSlot>,
    edges: &mut Slab<EdgeSlot>,
    tail: usize,
    head: usize,
) -> usize
    requires sound { IsSound nodes.old edges.old }
    requires tail { ContainsKey nodes.old tail }
    requires head { ContainsKey nodes.old head }
    requires room { HasEdgeRoom edges.old 1 }
    ensures sound { IsSound nodes.new edges.new }
    ensures added { AddsEdge (graph_of nodes.old edges.old) (graph_of nodes.new edges.new) result tail head }
    ensures room { LeavesRoom (graph_of nodes.old edges.old) (graph_of nodes.new edges.new) 0 1 }
{
    let edge = edges.insert_reserved(new_edge());
    attach(nodes, edges, Flank::Outward, tail, edge);
    attach(nodes, edges, Flank::Inward, head, edge);
    edge
}

/// A new edge, last in both lists.
pub(crate) fn insert_edge(
    nodes: &mut Slab<NodeSlot>,
    edges: &mut Slab<EdgeSlot>,
    tail: usize,
    head: usize,
) -> Result<usize, AllocError>
    requires sound { IsSound nodes.old edges.old }
    requires tail { ContainsKey nodes.old tail }
    requires head { ContainsKey nodes.old head }
    ensures sound { IsSound nodes.new edges.new }
    ensures added { IfOk result (λ e. AddsEdge (graph_of nodes.old edges.old) (graph_of nodes.new edges.new) e tail head) }
    ensures err { OnErr result (IsSame (graph_of nodes.old edges.old) (graph_of nodes.new edges.new)) }
    ensures room { LeavesRoom (graph_of nodes.old edges.old) (graph_of nodes.new edges.new) 0 1 }
    ensures succeeds { HasEdgeRoom edges.old 1 → IsOk result }
{
    reserve_edges(edges, 1)?;
    Ok(insert_reserved(nodes, edges, tail, head))
}

/// The edge leaves both its lists.
fn detach_both(
    nodes: &mut Slab<NodeSlot>,
    edges: &mut Slab<EdgeSlot>,
    tail: usize,
    head: usize,
    edge: usize,
)
    requires sound { IsSound nodes.old edges.old }
    requires tail { owner Outward edges.old edge ≡ Some tail }
    requires head { owner Inward edges.old edge ≡ Some head }
    ensures { Loosened nodes.old edges.old nodes.new edges.new edge tail head }
{
    detach(nodes, edges, Flank::Outward, tail, edge);
    detach(nodes, edges, Flank::Inward, head, edge);
}

/// The edge goes.
pub(crate) fn take_edge(nodes: &mut Slab<NodeSlot>, edges: &mut Slab<EdgeSlot>, edge: usize)
    requires sound { IsSound nodes.old edges.old }
    requires edge { ContainsKey edges.old edge }
    ensures sound { IsSound nodes.new edges.new }
    ensures removed { (x : Ends) → ends_at (graph_of nodes.old edges.old) edge ≡ Some x
        → RemovesEdge (graph_of nodes.old edges.old) (graph_of nodes.new edges.new) edge x.tail x.head }
    ensures room { LeavesRoom (graph_of nodes.old edges.old) (graph_of nodes.new edges.new) 0 0 }
{
    let tail = end_at(edges, Flank::Outward, edge);
    let head = end_at(edges, Flank::Inward, edge);
    detach_both(nodes, edges, tail, head, edge);
    edges.remove(edge);
}

/// The edge changes its ends.
pub(crate) fn turn_edge(nodes: &mut Slab<NodeSlot>, edges: &mut Slab<EdgeSlot>, edge: usize)
    requires sound { IsSound nodes.old edges.old }
    requires edge { ContainsKey edges.old edge }
    ensures sound { IsSound nodes.new edges.new }
    ensures is_reversed { (x : Ends) → ends_at (graph_of nodes.old edges.old) edge ≡ Some x
        → Reverses (graph_of nodes.old edges.old) (graph_of nodes.new edges.new) edge x.tail x.head }
    ensures room { LeavesRoom (graph_of nodes.old edges.old) (graph_of nodes.new edges.new) 0 0 }
{
    let tail = end_at(edges, Flank::Outward, edge);
    let head = end_at(edges, Flank::Inward, edge);
    detach_both(nodes, edges, tail, head, edge);
    attach(nodes, edges, Flank::Outward, head, edge);
    attach(nodes, edges, Flank::Inward, tail, edge);
}

/// The edge ends at a new node, and a new edge leads on from there in its place.
fn split_reserved(
    nodes: &mut Slab<NodeSlot>,
    edges: &mut Slab<EdgeSlot>,
    edge: usize,
) -> (usize, usize)
    requires sound { IsSound nodes.old edges.old }
    requires edge { ContainsKey edges.old edge }
    requires node_room { HasRoomFor nodes.old 1 }
    requires edge_room { HasEdgeRoom edges.old 1 }
    ensures sound { IsSound nodes.new edges.new }
    ensures parted { (x : Ends) → ends_at (graph_of nodes.old edges.old) edge ≡ Some x
        → Splits (graph_of nodes.old edges.old) (graph_of nodes.new edges.new) edge result.0 result.1 x.tail x.head }
    ensures room { LeavesRoom (graph_of nodes.old edges.old) (graph_of nodes.new edges.new) 1 1 }
{
    let head = end_at(edges, Flank::Inward, edge);
    let node = nodes.insert_reserved(new_node());
    let far = edges.insert_reserved(new_edge());
    hand_over(nodes, edges, Flank::Inward, head, edge, far);
    attach(nodes, edges, Flank::Inward, node, edge);
    attach(nodes, edges, Flank::Outward, node, far);
    (node, far)
}

/// The edge ends at a new node, and a new edge leads on from there in its place.
pub(crate) fn split_edge(
    nodes: &mut Slab<NodeSlot>,
    edges: &mut Slab<EdgeSlot>,
    edge: usize,
) -> Result<(usize, usize), AllocError>
    requires sound { IsSound nodes.old edges.old }
    requires edge { ContainsKey edges.old edge }
    ensures sound { IsSound nodes.new edges.new }
    ensures parted { IfOk result
        (λ r. (x : Ends) → ends_at (graph_of nodes.old edges.old) edge ≡ Some x
        → Splits (graph_of nodes.old edges.old) (graph_of nodes.new edges.new) edge r.0 r.1 x.tail x.head) }
    ensures err { OnErr result (IsSame (graph_of nodes.old edges.old) (graph_of nodes.new edges.new)) }
    ensures room { LeavesRoom (graph_of nodes.old edges.old) (graph_of nodes.new edges.new) 1 1 }
    ensures succeeds { HasRoomFor nodes.old 1 → HasEdgeRoom edges.old 1 → IsOk result }
{
    nodes.reserve(1)?;
    reserve_edges(edges, 1)?;
    Ok(split_reserved(nodes, edges, edge))
}

/// Takes out the node's edges on a side, one after the other.
fn clear_flank(nodes: &mut Slab<NodeSlot>, edges: &mut Slab<EdgeSlot>, flank: Flank, node: usize)
    requires sound { IsSound nodes.old edges.old }
    requires node { ContainsKey nodes.old node }
    ensures sound { IsSound nodes.new edges.new }
    ensures node { ContainsKey nodes.new node }
    ensures peeled { Peels (graph_of nodes.old edges.old) (graph_of nodes.new edges.new) node }
    ensures empty { keys flank nodes.new edges.new node ≡ [] }
    ensures room { LeavesRoom (graph_of nodes.old edges.old) (graph_of nodes.new edges.new) 0 0 }
{
    'edges: while let Some(edge) = row_at(nodes, flank, node).first {
        take_edge(nodes, edges, edge);
    }
}

/// The node goes, with its edges.
pub(crate) fn take_node(nodes: &mut Slab<NodeSlot>, edges: &mut Slab<EdgeSlot>, node: usize)
    requires sound { IsSound nodes.old edges.old }
    requires node { ContainsKey nodes.old node }
    ensures sound { IsSound nodes.new edges.new }
    ensures removed { RemovesNode (graph_of nodes.old edges.old) (graph_of nodes.new edges.new) node }
    ensures room { LeavesRoom (graph_of nodes.old edges.old) (graph_of nodes.new edges.new) 0 0 }
{
    clear_flank(nodes, edges, Flank::Outward, node);
    clear_flank(nodes, edges, Flank::Inward, node);
    nodes.remove(node);
}
