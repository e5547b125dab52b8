//! What the two slabs hold, and one read or write at a time.

ghost use Rattle.std.specs.Prelude.{◌≡◌, ◌≢◌, ℕ, ◌+◌, ◌<◌, ◌^◌, ◌↔◌, Some, IsTrue};
ghost use Rattle.slab.specs.Slab.{get, ContainsKey, with_value};
ghost use Rattle.graph_arena.specs.Flanks.{row_in, place_in, Sets, NextSet, PrevSet, IsLiveIfSome, pushed, pushed_row};

use slab::Slab;

/// One of the two kinds of lists: the edges that leave a node, or those that enter it.
#[derive(Clone, Copy)]
pub(crate) enum Flank {
    Outward,
    Inward,
}

/// One node's list of edges: its ends and its length.
#[derive(Clone, Copy)]
pub(crate) struct EdgeList {
    pub(crate) first: Option<usize>,
    pub(crate) last: Option<usize>,
    pub(crate) count: usize,
}

/// An edge's end on one side: the node in whose list it stands, and its neighbours there. An edge that is being
/// moved stands in no list.
#[derive(Clone, Copy)]
pub(crate) struct Place {
    pub(crate) node: Option<usize>,
    pub(crate) next: Option<usize>,
    pub(crate) prev: Option<usize>,
}

#[derive(Clone, Copy)]
pub(crate) struct NodeSlot {
    pub(crate) outward: EdgeList,
    pub(crate) inward: EdgeList,
}

#[derive(Clone, Copy)]
pub(crate) struct EdgeSlot {
    pub(crate) outward: Place,
    pub(crate) inward: Place,
}

fn node_slot(nodes: &Slab<NodeSlot>, node: usize) -> NodeSlot
    requires { ContainsKey nodes.now node }
    ensures { get nodes.now node ≡ Some result }
{
    nodes[node]
}

fn set_node_slot(nodes: &mut Slab<NodeSlot>, node: usize, slot: NodeSlot)
    requires { ContainsKey nodes.old node }
    ensures { nodes.new ≡ with_value nodes.old node slot }
{
    nodes[node] = slot;
}

fn edge_slot(edges: &Slab<EdgeSlot>, edge: usize) -> EdgeSlot
    requires { ContainsKey edges.now edge }
    ensures { get edges.now edge ≡ Some result }
{
    edges[edge]
}

fn set_edge_slot(edges: &mut Slab<EdgeSlot>, edge: usize, slot: EdgeSlot)
    requires { ContainsKey edges.old edge }
    ensures { edges.new ≡ with_value edges.old edge slot }
{
    edges[edge] = slot;
}

/// A node's list on a side.
pub(crate) fn row_at(nodes: &Slab<NodeSlot>, flank: Flank, node: usize) -> EdgeList
    requires { ContainsKey nodes.now node }
    ensures { row_in flank (get nodes.now node) ≡ Some result }
{
    let slot = node_slot(nodes, node);
    match flank {
        Flank::Outward => slot.outward,
        Flank::Inward => slot.inward,
    }
}

/// An edge's end on a side.
pub(crate) fn place_at(edges: &Slab<EdgeSlot>, flank: Flank, edge: usize) -> Place
    requires { ContainsKey edges.now edge }
    ensures { place_in flank (get edges.now edge) ≡ Some result }
{
    let slot = edge_slot(edges, edge);
    match flank {
        Flank::Outward => slot.outward,
        Flank::Inward => slot.inward,
    }
}

pub(crate) fn set_row(nodes: &mut Slab<NodeSlot>, flank: Flank, node: usize, row: EdgeList)
    requires { ContainsKey nodes.old node }
    ensures { Sets row_in flank node row nodes.old nodes.new }
{
    let slot = node_slot(nodes, node);
    match flank {
        Flank::Outward => {
            set_node_slot(
                nodes,
                node,
                NodeSlot {
                    outward: row,
                    ..slot
                },
            );
        }
        Flank::Inward => {
            set_node_slot(
                nodes,
                node,
                NodeSlot {
                    inward: row,
                    ..slot
                },
            );
        }
    }
}

pub(crate) fn set_place(edges: &mut Slab<EdgeSlot>, flank: Flank, edge: usize, place: Place)
    requires { ContainsKey edges.old edge }
    ensures { Sets place_in flank edge place edges.old edges.new }
{
    let slot = edge_slot(edges, edge);
    match flank {
        Flank::Outward => {
            set_edge_slot(
                edges,
                edge,
                EdgeSlot {
                    outward: place,
                    ..slot
                },
            );
        }
        Flank::Inward => {
            set_edge_slot(
                edges,
                edge,
                EdgeSlot {
                    inward: place,
                    ..slot
                },
            );
        }
    }
}

/// What follows the edge, if there is one, is now `next`.
pub(crate) fn set_next(
    edges: &mut Slab<EdgeSlot>,
    flank: Flank,
    edge: Option<usize>,
    next: Option<usize>,
)
    requires { IsLiveIfSome edges.old edge }
    ensures { NextSet flank edge next edges.old edges.new }
{
    match edge {
        None => {}
        Some(edge) => {
            let place = place_at(edges, flank, edge);
            set_place(edges, flank, edge, Place { next, ..place });
        }
    }
}

/// What precedes the edge, if there is one, is now `prev`.
pub(crate) fn set_prev(
    edges: &mut Slab<EdgeSlot>,
    flank: Flank,
    edge: Option<usize>,
    prev: Option<usize>,
)
    requires { IsLiveIfSome edges.old edge }
    ensures { PrevSet flank edge prev edges.old edges.new }
{
    match edge {
        None => {}
        Some(edge) => {
            let place = place_at(edges, flank, edge);
            set_place(edges, flank, edge, Place { prev, ..place });
        }
    }
}

/// The key, or another one in its stead where it is `old`.
pub(crate) fn replaced(key: Option<usize>, old: usize, by: Option<usize>) -> Option<usize>
    ensures moved { key ≡ Some old → result ≡ by }
    ensures kept { key ≢ Some old → result ≡ key }
{
    match key {
        None => None,
        Some(at) => { if at == old { by } else { Some(at) } }
    }
}

fn first_of(first: Option<usize>, edge: usize) -> Option<usize>
    ensures { result ≡ pushed first edge }
{
    match first {
        None => Some(edge),
        Some(first) => Some(first),
    }
}

/// The row with one more edge, which is its last.
pub(crate) fn push_row(row: EdgeList, edge: usize) -> EdgeList
    requires { row.count + 1 < 2 ^ 64 }
    ensures { result ≡ pushed_row row edge }
{
    EdgeList {
        first: first_of(row.first, edge),
        last: Some(edge),
        count: row.count + 1,
    }
}
