//! Edges over two layers and over four.
ghost use Rattle.std.specs.Prelude.{◌≡◌, ◌≢◌, ◌<◌, ℕ, [], Some, IfOk, IfSome, IsTrue, length, slice_index};
ghost use Rattle.graph_arena.specs.Graph.{Ends, ends_at, IsEdge, IsNode};
ghost use Rattle.long_edges.specs.Chains.{chain_at};
ghost use Rattle.long_edges.specs.Layers.{IsLayered};

use crate::incidence::leads_to;
use crate::steps::after;
use graph_arena::{Arena, EdgeKey, NodeKey};
use long_edges::{Chains, split_all};
use std::alloc::{AllocError, Global};
use std::test::Fail;

fn nodes_are_listed(arena: &Arena, layer: &[u32]) -> bool
    ensures { IsTrue result → (v : ℕ) → IsNode arena.now v → v < length layer.now }
{
    for at in layer.len()..arena.node_bound() {
        if arena.is_live_node(NodeKey { at }) {
            return false;
        }
    }
    true
}

fn layer_of(layer: &[u32], node: NodeKey) -> u32
    requires { node.at < length layer.now }
    ensures { result ≡ slice_index layer.now node.at }
{
    layer[node.at]
}

fn climbs(arena: &Arena, layer: &[u32], edge: EdgeKey) -> bool
    requires { (v : ℕ) → IsNode arena.now v → v < length layer.now }
    ensures { IsTrue result → (x : Ends) → ends_at arena.now edge.at ≡ Some x → slice_index layer.now x.tail < slice_index layer.now x.head }
{
    if !arena.is_live_edge(edge) {
        return true;
    }
    arena.incidence();
    let low = layer_of(layer, arena.tail(edge));
    let high = layer_of(layer, arena.head(edge));
    low < high
}

fn is_layered(arena: &Arena, layer: &[u32]) -> bool
    ensures { IsTrue result → IsLayered arena.now layer.now }
{
    if !nodes_are_listed(arena, layer) {
        return false;
    }
    for at in 0..arena.edge_bound() {
        if !climbs(arena, layer, EdgeKey { at }) {
            return false;
        }
    }
    true
}

/// Splits the edges if each node has a layer and each edge leads to a higher one.
fn split_if_layered(
    alloc: Global,
    arena: &mut Arena,
    layer: &[u32],
) -> Result<Option<Chains>, AllocError>
    ensures { IfOk result (λ r. IfSome r (λ c. (e : ℕ) → IsEdge arena.old e → chain_at c e ≢ [])) }
{
    if !is_layered(arena, layer) {
        return Ok(None);
    }
    Ok(Some(split_all(alloc, arena, layer)?))
}

#[test]
fn one_node_on_the_edge_over_two_layers(rt: HostRuntime) -> Result<(), Fail> {
    let mut arena = after(rt.alloc(), "node, node, node, edge 0 1, edge 1 2, edge 0 2")?;
    let long = EdgeKey { at: 2 };
    assert!(rt; arena.is_live_edge(long));
    let chains = split_if_layered(rt.alloc(), &mut arena, &[0, 1, 2])?.ok_or("no layers")?;
    let chain = chains.chain_of(long);
    assert_eq!(rt; chain.len(), 2);
    assert_eq!(rt; chain[0].at, long.at);
    assert_eq!(rt; chains.lanes().len(), 1);
    let lane = chains.lanes()[0];
    assert_eq!(rt; (lane.layer, lane.edge.at), (1, long.at));
    assert!(rt; leads_to(&arena, long, lane.node));
    Ok(())
}

#[test]
fn one_node_on_each_layer_between(rt: HostRuntime) -> Result<(), Fail> {
    let mut arena = after(rt.alloc(), "node, node, edge 0 1, edge 0 1")?;
    let chains = split_if_layered(rt.alloc(), &mut arena, &[3, 7])?.ok_or("no layers")?;
    let layers = [4, 5, 6, 4, 5, 6];
    assert_eq!(rt; chains.lanes().len(), layers.len());
    for (lane, layer) in chains.lanes().iter().zip(&layers) {
        assert_eq!(rt; lane.layer, *layer);
    }
    Ok(())
}
