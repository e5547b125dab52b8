//! The arena and its calls.

ghost use Rattle.std.specs.Prelude.{◌≡◌, ◌≤◌, ◌<◌, ◌+◌, ◌↔◌, ℕ, [], Some, IfOk, OnOk, OnErr, IsOk, IsTrue, length};
ghost use Rattle.graph_arena.specs.Graph.{Ends, IsNode, IsEdge, IsIncidence, edge_key, front, after, out_list, in_list, ends_at, tail_in, head_in};
ghost use Rattle.graph_arena.specs.Changes.{AddsNode, AddsEdge, IsSame, LeavesRoom, RemovesEdge, RemovesNode, Reverses, Splits};

use crate::keys::{EdgeKey, NodeKey};
use crate::relink::{
    end_at, insert_edge, new_node, reserve_both, split_edge, take_edge, take_node, turn_edge,
};
use crate::slots::{EdgeSlot, Flank, NodeSlot, place_at, row_at};
use slab::Slab;
use std::alloc::{AllocError, Global};
use std::marker::Model;

/// A directed graph with cycles, parallel edges and self-loops. Each edge stands in two lists, that of the edges
/// that leave its tail and that of the edges that enter its head. A key is live from the call that gives it to the
/// call that removes it.
///
/// Proved:
/// - Each call on a cyclic graph says what changes, and that everything else stays in order.
/// - Each edge stands once in its tail's out-list, once in its head's in-list and nowhere else.
/// - Additions within reserved room succeed.
#[derive(Drop)]
pub struct Arena {
    nodes: Slab<NodeSlot>,
    edges: Slab<EdgeSlot>,
}

impl Model for Arena {
    ghost use Rattle.graph_arena.specs.Graph.{Graph};

    ghost Value = { Graph };

    ghost use Rattle.graph_arena.specs.Flanks.{graph_of, IsSound};

    ghost view = { λ a. graph_of a.nodes a.edges };

    ghost invariant = { λ a. IsSound a.nodes a.edges };
}

fn key_of(at: Option<usize>) -> Option<EdgeKey>
    ensures { result ≡ edge_key at }
{
    match at {
        None => None,
        Some(at) => Some(EdgeKey { at }),
    }
}

impl Arena {
    /// An arena with no nodes.
    pub fn new(alloc: Global) -> Self
        ensures nodes { result.nodes ≡ [] }
        ensures edges { result.edges ≡ [] }
    {
        Arena {
            nodes: Slab::new(alloc),
            edges: Slab::new(alloc),
        }
    }

    /// Makes room, so that so many more nodes and edges can be added without fail.
    pub fn reserve(&mut self, nodes: usize, edges: usize) -> Result<(), AllocError>
        ensures node_room { OnOk result (nodes ≤ self.new.node_room) }
        ensures edge_room { OnOk result (edges ≤ self.new.edge_room) }
        ensures same { IsSame self.old self.new }
        ensures room { LeavesRoom self.old self.new 0 0 }
    {
        reserve_both(&mut self.nodes, &mut self.edges, nodes, edges)
    }

    /// A node with no edges.
    pub fn add_node(&mut self) -> Result<NodeKey, AllocError>
        ensures added { IfOk result (λ key. AddsNode self.old self.new key.at) }
        ensures err { OnErr result (IsSame self.old self.new) }
        ensures room { LeavesRoom self.old self.new 1 0 }
        ensures succeeds { 0 < self.old.node_room → IsOk result }
    {
        let at = self.nodes.insert(new_node())?;
        Ok(NodeKey { at })
    }

    /// An edge, last in both lists.
    pub fn add_edge(&mut self, tail: NodeKey, head: NodeKey) -> Result<EdgeKey, AllocError>
        requires tail { IsNode self.old tail.at }
        requires head { IsNode self.old head.at }
        ensures added { IfOk result (λ key. AddsEdge self.old self.new key.at tail.at head.at) }
        ensures err { OnErr result (IsSame self.old self.new) }
        ensures room { LeavesRoom self.old self.new 0 1 }
        ensures succeeds { 0 < self.old.edge_room → IsOk result }
    {
        let at = insert_edge(&mut self.nodes, &mut self.edges, tail.at, head.at)?;
        Ok(EdgeKey { at })
    }

    /// The edge keeps its tail and ends at a new node. A new edge leads from there to the old head, in the old
    /// edge's place in the head's list.
    pub fn split(&mut self, edge: EdgeKey) -> Result<(NodeKey, EdgeKey), AllocError>
        requires { IsEdge self.old edge.at }
        ensures parted { IfOk result
            (λ keys. (x : Ends) → ends_at self.old edge.at ≡ Some x → Splits self.old self.new edge.at keys.0.at keys.1.at x.tail x.head) }
        ensures err { OnErr result (IsSame self.old self.new) }
        ensures room { LeavesRoom self.old self.new 1 1 }
        ensures succeeds { 0 < self.old.node_room → 0 < self.old.edge_room → IsOk result }
    {
        let (node, far) = split_edge(&mut self.nodes, &mut self.edges, edge.at)?;
        Ok((NodeKey { at: node }, EdgeKey { at: far }))
    }

    /// The edge is reversed. It becomes the last of its two new lists.
    pub fn reverse(&mut self, edge: EdgeKey)
        requires { IsEdge self.old edge.at }
        ensures is_reversed { (x : Ends) → ends_at self.old edge.at ≡ Some x → Reverses self.old self.new edge.at x.tail x.head }
        ensures room { LeavesRoom self.old self.new 0 0 }
    {
        turn_edge(&mut self.nodes, &mut self.edges, edge.at);
    }

    /// The edge goes.
    pub fn remove_edge(&mut self, edge: EdgeKey)
        requires { IsEdge self.old edge.at }
        ensures removed { (x : Ends) → ends_at self.old edge.at ≡ Some x → RemovesEdge self.old self.new edge.at x.tail x.head }
        ensures room { LeavesRoom self.old self.new 0 0 }
    {
        take_edge(&mut self.nodes, &mut self.edges, edge.at);
    }

    /// The node goes, with all its edges.
    pub fn remove_node(&mut self, node: NodeKey)
        requires { IsNode self.old node.at }
        ensures removed { RemovesNode self.old self.new node.at }
        ensures room { LeavesRoom self.old self.new 0 0 }
    {
        take_node(&mut self.nodes, &mut self.edges, node.at);
    }

    /// The same keys and lists, in another arena.
    pub fn copy(&self) -> Result<Arena, AllocError>
        ensures { IfOk result (λ copy. IsSame self.now copy) }
    {
        Ok(Arena {
            nodes: self.nodes.clone()?,
            edges: self.edges.clone()?,
        })
    }

    /// The first edge that leaves the node.
    pub fn first_out(&self, node: NodeKey) -> Option<EdgeKey>
        requires { IsNode self.now node.at }
        ensures { result ≡ edge_key (front (out_list self.now node.at)) }
    {
        key_of(row_at(&self.nodes, Flank::Outward, node.at).first)
    }

    /// The first edge that enters the node.
    pub fn first_in(&self, node: NodeKey) -> Option<EdgeKey>
        requires { IsNode self.now node.at }
        ensures { result ≡ edge_key (front (in_list self.now node.at)) }
    {
        key_of(row_at(&self.nodes, Flank::Inward, node.at).first)
    }

    /// The edge after this one among those that leave its tail.
    pub fn next_out(&self, edge: EdgeKey) -> Option<EdgeKey>
        requires { IsEdge self.now edge.at }
        ensures { (x : Ends) → ends_at self.now edge.at ≡ Some x → result ≡ edge_key (after (out_list self.now x.tail) edge.at) }
    {
        key_of(place_at(&self.edges, Flank::Outward, edge.at).next)
    }

    /// The edge after this one among those that enter its head.
    pub fn next_in(&self, edge: EdgeKey) -> Option<EdgeKey>
        requires { IsEdge self.now edge.at }
        ensures { (x : Ends) → ends_at self.now edge.at ≡ Some x → result ≡ edge_key (after (in_list self.now x.head) edge.at) }
    {
        key_of(place_at(&self.edges, Flank::Inward, edge.at).next)
    }

    /// The node that the edge leaves.
    pub fn tail(&self, edge: EdgeKey) -> NodeKey
        requires { IsEdge self.now edge.at }
        ensures { tail_in (ends_at self.now edge.at) ≡ Some result.at }
    {
        NodeKey {
            at: end_at(&self.edges, Flank::Outward, edge.at),
        }
    }

    /// The node that the edge enters.
    pub fn head(&self, edge: EdgeKey) -> NodeKey
        requires { IsEdge self.now edge.at }
        ensures { head_in (ends_at self.now edge.at) ≡ Some result.at }
    {
        NodeKey {
            at: end_at(&self.edges, Flank::Inward, edge.at),
        }
    }

    /// How many edges leave or enter the node. A self-loop counts twice.
    pub fn degree(&self, node: NodeKey) -> usize
        requires { IsNode self.now node.at }
        ensures { result ≡ length (out_list self.now node.at) + length (in_list self.now node.at) }
    {
        let outward = row_at(&self.nodes, Flank::Outward, node.at).count;
        let inward = row_at(&self.nodes, Flank::Inward, node.at).count;
        outward + inward
    }

    /// Whether the key is that of a node.
    pub fn is_live_node(&self, node: NodeKey) -> bool
        ensures { IsTrue result ↔ IsNode self.now node.at }
    {
        self.nodes.contains(node.at)
    }

    /// Whether the key is that of an edge.
    pub fn is_live_edge(&self, edge: EdgeKey) -> bool
        ensures { IsTrue result ↔ IsEdge self.now edge.at }
    {
        self.edges.contains(edge.at)
    }

    /// A number above the keys of all nodes, for lists with an entry for each key.
    pub fn node_bound(&self) -> usize
        ensures { (v : ℕ) → IsNode self.now v → v < result }
    {
        self.nodes.capacity()
    }

    /// A number above the keys of all edges.
    pub fn edge_bound(&self) -> usize
        ensures { (e : ℕ) → IsEdge self.now e → e < result }
    {
        self.edges.capacity()
    }

    /// Each edge stands once in its tail's list, once in its head's, and nowhere else.
    pub fn incidence(&self)
        ensures { IsIncidence self.now }
    {
        let _nodes = &self.nodes;
    }
}
