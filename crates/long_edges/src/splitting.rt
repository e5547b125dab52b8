//! Splitting long edges.

ghost use Rattle.std.specs.Prelude.{◌≡◌, ◌≤◌, ◌<◌, ◌+◌, ◌-◌, ◌^◌, ℕ, [], ◌∷◌, ◌++◌, Some, IfOk, OnOk, OnErr, length, slice_index, slice_index_or, drop, vec_len, vec_capacity};
ghost use Rattle.graph_arena.specs.Graph.{Graph, Ends, ends_at, IsEdge};
ghost use Rattle.graph_arena.specs.Changes.{IsSame, LeavesRoom, Splits};
ghost use Rattle.long_edges.specs.Chains.{chain_at, AreChains, AreInOne, AreLanes, KeepsOrders};
ghost use Rattle.long_edges.specs.Layers.{IsLayered, AreHeights, IsOneALayer};
ghost use Rattle.long_edges.specs.Growing.{Extended, AddsChain, HasRooms, IsEmpty, Reached};

use crate::chains::{Chains, Lane, Span};
use crate::heights::{heights_of, layer_of, total_of};
use graph_arena::{Arena, EdgeKey, NodeKey};
use std::alloc::{AllocError, Global};

/// What is known of the chains while edges are split.
#[derive(Drop)]
struct Found {
    lanes: Vec<Lane>,
    edges: Vec<EdgeKey>,
    spans: Vec<Span>,
}

/// One more item where there is room.
fn put<T: Drop>(items: &mut Vec<T>, value: T)
    requires { vec_len items.old < vec_capacity items.old }
    ensures items { items.new.items ≡ items.old.items ++ value ∷ [] }
    ensures len { vec_len items.new ≡ vec_len items.old + 1 }
    ensures capacity { vec_capacity items.old ≤ vec_capacity items.new }
{
    match items.push(value) {
        Ok(()) => {}
        Err(_full) => unreachable!(),
    }
}

/// Splits an edge where there is room.
fn split_in_room(arena: &mut Arena, edge: EdgeKey) -> (NodeKey, EdgeKey)
    requires edge { IsEdge arena.old edge.at }
    requires node_room { 0 < arena.old.node_room }
    requires edge_room { 0 < arena.old.edge_room }
    ensures parted { (x : Ends) → ends_at arena.old edge.at ≡ Some x → Splits arena.old arena.new edge.at result.0.at result.1.at x.tail x.head }
    ensures room { LeavesRoom arena.old arena.new 1 1 }
{
    match arena.split(edge) {
        Ok(keys) => keys,
        Err(_full) => unreachable!(),
    }
}

/// Splits an edge of a height into as many edges, the lowest of which is the edge itself.
fn climb(
    arena: &mut Arena,
    edge: EdgeKey,
    low: u32,
    height: u32,
    lanes: &mut Vec<Lane>,
    edges: &mut Vec<EdgeKey>,
)
    requires live { IsEdge arena.old edge.at }
    requires high { low + height < 2 ^ 32 }
    requires tall { 0 < height }
    requires node_room { height ≤ arena.old.node_room + 1 }
    requires edge_room { height ≤ arena.old.edge_room + 1 }
    requires lane_room { vec_len lanes.old + height ≤ vec_capacity lanes.old + 1 }
    requires chain_room { vec_len edges.old + height ≤ vec_capacity edges.old }
    ensures extended { (top : ℕ) × Extended arena.old arena.new edge.at top low height lanes.old.items lanes.new.items edges.old.items edges.new.items }
    ensures node_room { arena.old.node_room + 1 ≤ arena.new.node_room + height }
    ensures edge_room { arena.old.edge_room + 1 ≤ arena.new.edge_room + height }
    ensures lane_count { vec_len lanes.new + 1 ≡ vec_len lanes.old + height }
    ensures lane_capacity { vec_capacity lanes.old ≤ vec_capacity lanes.new }
    ensures chain_capacity { vec_capacity edges.old ≤ vec_capacity edges.new }
{
    put(edges, edge);
    let mut top = edge;
    for step in 1..height {
        let (node, far) = split_in_room(arena, top);
        let layer = low + step;
        put(lanes, Lane { node, layer, edge });
        put(edges, far);
        top = far;
    }
}

/// The edges of one key: a chain of its height, or none where there is no such edge.
fn climb_key(
    arena: &mut Arena,
    layer: &[u32],
    edge: EdgeKey,
    height: u32,
    lanes: &mut Vec<Lane>,
    edges: &mut Vec<EdgeKey>,
)
    requires live { 0 < height → IsEdge arena.old edge.at }
    requires listed { 0 < height → (x : Ends) → ends_at arena.old edge.at ≡ Some x → x.tail < length layer.now }
    requires high { 0 < height → (x : Ends) → ends_at arena.old edge.at ≡ Some x → slice_index layer.now x.tail + height < 2 ^ 32 }
    requires node_room { height ≤ arena.old.node_room + 1 }
    requires edge_room { height ≤ arena.old.edge_room + 1 }
    requires lane_room { vec_len lanes.old + height ≤ vec_capacity lanes.old + 1 }
    requires chain_room { vec_len edges.old + height ≤ vec_capacity edges.old }
    ensures added { AddsChain arena.old arena.new layer.now edge.at height lanes.old.items lanes.new.items edges.old.items edges.new.items }
    ensures node_room { arena.old.node_room ≤ arena.new.node_room + (height - 1) }
    ensures edge_room { arena.old.edge_room ≤ arena.new.edge_room + (height - 1) }
    ensures lane_count { vec_len lanes.new ≡ vec_len lanes.old + (height - 1) }
    ensures lane_capacity { vec_capacity lanes.old ≤ vec_capacity lanes.new }
    ensures chain_count { vec_len edges.new ≡ vec_len edges.old + height }
    ensures chain_capacity { vec_capacity edges.old ≤ vec_capacity edges.new }
{
    if height > 0 {
        let low = layer_of(layer, arena.tail(edge));
        climb(arena, edge, low, height, lanes, edges);
    }
}

/// Splits all edges that span several layers, where there is room.
fn climb_all(arena: &mut Arena, layer: &[u32], heights: &[u32], found: &mut Found)
    requires layered { IsLayered arena.old layer.now }
    requires heights { AreHeights arena.old layer.now heights.now }
    requires rooms { HasRooms arena.old found.old heights.now }
    requires empty { IsEmpty found.old }
    ensures reached { (old : Graph) → IsSame old arena.old → Reached old arena.new layer.now found.new.lanes.items found.new.edges.items found.new.spans.items }
    ensures count { vec_len found.new.spans ≡ length heights.now }
{
    arena.incidence();
    for at in 0..heights.len() {
        let edge = EdgeKey { at };
        let height = heights[at];
        let start = found.edges.len();
        climb_key(
            arena,
            layer,
            edge,
            height,
            &mut found.lanes,
            &mut found.edges,
        );
        let end = found.edges.len();
        put(&mut found.spans, Span { start, end });
    }
}

/// Takes all the memory that the splits need.
fn reserved(alloc: Global, arena: &mut Arena, heights: &[u32]) -> Result<Found, AllocError>
    ensures rooms { IfOk result (λ f. HasRooms arena.new f heights.now) }
    ensures empty { IfOk result IsEmpty }
    ensures same { IsSame arena.old arena.new }
{
    let Some(count) = total_of(heights, 0) else {
        return Err(AllocError);
    };
    let Some(added) = total_of(heights, 1) else {
        return Err(AllocError);
    };
    let lanes = Vec::with_capacity(alloc, added)?;
    let edges = Vec::with_capacity(alloc, count)?;
    let spans = Vec::with_capacity(alloc, heights.len())?;
    arena.reserve(added, added)?;
    Ok(Found {
        lanes,
        edges,
        spans,
    })
}

/// Splits each edge, so that it becomes a chain from its old tail to its old head with one new node on each layer
/// between them. `layer` has the layer of each node at its key; each edge leads to a higher layer, so that none is
/// a self-loop. An edge keeps its tail and is the first of its chain; at its head the last of the chain takes its
/// place. Where memory is wanting the arena stays as it was. (Sugiyama, Tagawa, Toda 1981.)
///
/// Proved:
/// - Each edge becomes a chain of edges from its old tail to its old head, through one new node for each layer between, in order.
/// - Nothing else changes.
pub fn split_all(alloc: Global, arena: &mut Arena, layer: &[u32]) -> Result<Chains, AllocError>
    requires { IsLayered arena.old layer.now }
    ensures chains { IfOk result (λ c. AreChains arena.old arena.new layer.now c.lanes (chain_at c)) }
    ensures heights { IfOk result (λ c. IsOneALayer arena.old layer.now (chain_at c)) }
    ensures once { IfOk result (λ c. AreInOne arena.new (chain_at c)) }
    ensures lanes { IfOk result (λ c. AreLanes arena.old arena.new c.lanes) }
    ensures orders { IfOk result (λ c. KeepsOrders arena.old arena.new (chain_at c)) }
    ensures err { OnErr result (IsSame arena.old arena.new) }
{
    let heights = heights_of(alloc, arena, layer)?;
    let mut found = reserved(alloc, arena, heights.as_slice())?;
    climb_all(arena, layer, heights.as_slice(), &mut found);
    Ok(Chains {
        lanes: found.lanes,
        edges: found.edges,
        spans: found.spans,
    })
}
