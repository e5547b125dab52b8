//! The chains of a level's long edges.
ghost use Rattle.std.specs.Prelude.{◌≡◌, ◌<◌, ℕ, None, Some, length, slice_index, slice_set, IfOk, IsFalse};
ghost use Rattle.graph_arena.specs.Graph.{Ends, ends_at, IsNode};
ghost use Rattle.level_model.specs.Conditions.{plain_level, IsLevel};
ghost use Rattle.level_model.specs.Level as plan;
ghost use Rattle.level_layout.specs.Marks.{AreNodes, node_of};
ghost use Rattle.level_layout.specs.Chained.{AddsLink, AreChained, AreLinks, HasChain, RisingEnds, head_by, tail_by};

use crate::networks::network_edge;
use crate::orienting::add_nodes;
use graph_arena::{Arena, EdgeKey, NodeKey};
use level_model::LevelIn;
use long_edges::{Chains, split_all};
use network_parts::NetEdge;
use std::alloc::{AllocError, Global};

/// The chains of a level's oriented edges, and by edge the key under which its chain is found. A self-loop has none.
#[derive(Drop)]
pub struct LevelChains {
    pub keys: Vec<Option<EdgeKey>>,
    pub chains: Chains,
}

// Adds an edge between the nodes of its children, if it is no self-loop.
fn add_link(
    arena: &mut Arena,
    nodes: &[NodeKey],
    ends: NetEdge,
) -> Result<Option<EdgeKey>, AllocError>
    requires tail { ends.tail < length nodes.now }
    requires head { ends.head < length nodes.now }
    requires live { (c : ℕ) → c < length nodes.now → IsNode arena.old (node_of nodes.now c) }
    ensures { IfOk result (λ key. AddsLink nodes.now ends arena.old arena.new key) }
{
    if ends.tail == ends.head {
        return Ok(None);
    }
    let key = arena.add_edge(nodes[ends.tail as usize], nodes[ends.head as usize])?;
    Ok(Some(key))
}

// Adds the oriented edges that are no self-loops.
fn add_links(
    alloc: Global,
    arena: &mut Arena,
    nodes: &[NodeKey],
    level: &LevelIn,
    is_reversed: &[bool],
) -> Result<Vec<Option<EdgeKey>>, AllocError>
    requires level { IsLevel (plain_level level.now) }
    requires is_reversed { length is_reversed.now ≡ length level.now.edges }
    requires nodes { AreNodes arena.old (length level.now.children) nodes.now }
    requires no_edges { (k : ℕ) → ends_at arena.old k ≡ None }
    ensures nodes { IfOk result (λ keys. AreNodes arena.new (length level.now.children) nodes.now) }
    ensures links { IfOk result (λ keys. AreLinks (plain_level level.now) is_reversed.now nodes.now arena.new (length level.now.edges) keys.items) }
{
    let mut keys = Vec::with_capacity(alloc, level.edges.len())?;
    for (e, edge) in level.edges.as_slice().iter().enumerate() {
        let ends = network_edge(*edge, is_reversed[e]);
        keys.push(add_link(arena, nodes, ends)?)?;
    }
    Ok(keys)
}

// Notes the layer of a node.
fn note_layer(by_node: &mut [u32], node: NodeKey, layer: u32)
    requires { node.at < length by_node.old }
    ensures { by_node.new ≡ slice_set by_node.old node.at layer }
{
    by_node[node.at] = layer;
}

// Notes the layer of each child at the key of its node.
fn note_layers(nodes: &[NodeKey], layers: &[u32], by_node: &mut [u32])
    requires as_many { length layers.now ≡ length nodes.now }
    requires within { (c : ℕ) → c < length nodes.now → node_of nodes.now c < length by_node.old }
    requires once { (b c : ℕ) → b < length nodes.now → c < length nodes.now → node_of nodes.now b ≡ node_of nodes.now c → b ≡ c }
    ensures long { length by_node.new ≡ length by_node.old }
    ensures each { (c : ℕ) → c < length nodes.now → slice_index by_node.new (node_of nodes.now c) ≡ slice_index layers.now c }
{
    for (c, node) in nodes.iter().enumerate() {
        note_layer(by_node, *node, layers[c]);
    }
}

// Splits the edges of a graph of children, for whose layers there is room by key.
fn split_by(
    alloc: Global,
    arena: &mut Arena,
    nodes: &[NodeKey],
    layers: &[u32],
    by_node: &mut [u32],
) -> Result<Chains, AllocError>
    requires nodes { AreNodes arena.old (length layers.now) nodes.now }
    requires room { (v : ℕ) → IsNode arena.old v → v < length by_node.old }
    requires rising { (k : ℕ) (x : Ends) → ends_at arena.old k ≡ Some x → RisingEnds nodes.now layers.now x }
    ensures { IfOk result
        (λ chains. (k a b : ℕ) → a < length layers.now → b < length layers.now
        → ends_at arena.old k ≡ Some (record { tail = node_of nodes.now a; head = node_of nodes.now b })
        → HasChain layers.now chains a b k) }
{
    note_layers(nodes, layers, by_node);
    let chains = split_all(alloc, arena, by_node)?;
    Ok(chains)
}

/// The chains of a level's edges: an oriented edge that is no self-loop becomes a chain of edges from its tail to its head, each of
/// which leads to the next layer. `layers` has the layer of each child, and `is_reversed` marks the edges that are reversed.
///
/// The only error is out of memory.
pub fn chains_of(
    alloc: Global,
    level: &LevelIn,
    layers: &[u32],
    is_reversed: &[bool],
) -> Result<LevelChains, AllocError>
    requires level { IsLevel (plain_level level.now) }
    requires layers { length layers.now ≡ length level.now.children }
    requires is_reversed { length is_reversed.now ≡ length level.now.edges }
    requires onward { (e : ℕ) → e < length level.now.edges → IsFalse (plan.is_loop (plain_level level.now) e)
        → slice_index layers.now (tail_by (plain_level level.now) is_reversed.now e)
        < slice_index layers.now (head_by (plain_level level.now) is_reversed.now e) }
    ensures { IfOk result (λ v. AreChained (plain_level level.now) layers.now is_reversed.now v.keys.items v.chains) }
{
    let mut arena = Arena::new(alloc);
    let nodes = add_nodes(alloc, &mut arena, level.children.len())?;
    let children = nodes.as_slice();
    let keys = add_links(alloc, &mut arena, children, level, is_reversed)?;
    let mut by_node: Vec<u32> = vec![in alloc; 0; arena.node_bound()]?;
    let room = by_node.as_mut_slice();
    let chains = split_by(alloc, &mut arena, children, layers, room)?;
    Ok(LevelChains { keys, chains })
}
