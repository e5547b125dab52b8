//! Places for the nodes, by taking out sources and sinks in turn.

ghost use Rattle.std.specs.Prelude.{◌≡◌, ◌↔◌, ◌<◌, ℕ, IfOk, OnOk, length};
ghost use Rattle.graph_arena.specs.Graph.{IsNode};

use crate::ordering::take_out;
use crate::searching::take_edge as take_in_edge;
use graph_arena::{Arena, NodeKey};
use std::alloc::{AllocError, Global};

/// The places that are given next from either end.
#[derive(Drop)]
struct Free {
    low: usize,
    high: usize,
}

/// Takes out the edges that enter a node. Those of their tails that are sinks then are ready.
fn take_in(work: &mut Arena, node: NodeKey, ready: &mut Vec<NodeKey>) -> Result<(), AllocError>
    requires { IsNode work.old node.at }
    ensures { OnOk result ((v : ℕ) → IsNode work.new v ↔ IsNode work.old v) }
{
    'edges: while let Some(edge) = work.first_in(node) {
        work.incidence();
        let tail = take_in_edge(work, edge);
        if work.first_out(tail).is_none() {
            ready.push(tail)?;
        }
    }
    Ok(())
}

/// Gives a node its place: the highest that is free to a sink, else the lowest. Its edges are taken out.
fn place(
    work: &mut Arena,
    node: NodeKey,
    ready: &mut Vec<NodeKey>,
    free: &mut Free,
) -> Result<usize, AllocError>
    requires { IsNode work.old node.at }
    ensures { OnOk result ((v : ℕ) → IsNode work.new v ↔ IsNode work.old v) }
{
    let is_sink = work.first_in(node).is_some() && work.first_out(node).is_none();
    take_out(work, node, ready)?;
    take_in(work, node, ready)?;
    if is_sink {
        let at = free.high;
        free.high = free.high.saturating_sub(1);
        return Ok(at);
    }
    let at = free.low;
    free.low = free.low.saturating_add(1);
    Ok(at)
}

/// Places the nodes that are ready, and those that become sources or sinks thereby.
fn place_ready(
    work: &mut Arena,
    ready: &mut Vec<NodeKey>,
    free: &mut Free,
    places: &mut [Option<usize>],
) -> Result<(), AllocError>
    requires { (v : ℕ) → IsNode work.old v → v < length places.old }
    ensures { OnOk result ((v : ℕ) → IsNode work.new v ↔ IsNode work.old v) }
{
    'nodes: while let Some(node) = ready.pop() {
        if work.is_live_node(node) && places[node.at].is_none() {
            let at = place(work, node, ready, free)?;
            places[node.at] = Some(at);
            let _many = ready.len();
        }
    }
    Ok(())
}

/// The nodes that are sources or sinks.
fn sources_and_sinks(alloc: Global, work: &Arena) -> Result<Vec<NodeKey>, AllocError> {
    let mut ready = Vec::new(alloc);
    for at in 0..work.node_bound() {
        let node = NodeKey { at };
        if work.is_live_node(node)
            && (work.first_in(node).is_none() || work.first_out(node).is_none())
        {
            ready.push(node)?;
        }
    }
    Ok(ready)
}

/// Places all nodes. Where there are no sources and sinks, the first node that is left is placed as if it were one.
pub(crate) fn place_all(
    alloc: Global,
    arena: &Arena,
    places: &mut [Option<usize>],
) -> Result<(), AllocError>
    requires { (v : ℕ) → IsNode arena.now v → v < length places.old }
{
    let mut work = arena.copy()?;
    let mut ready = sources_and_sinks(alloc, &work)?;
    let mut free = Free {
        low: 0,
        high: usize::MAX,
    };
    place_ready(&mut work, &mut ready, &mut free, places)?;
    for at in 0..places.len() {
        ready.push(NodeKey { at })?;
        place_ready(&mut work, &mut ready, &mut free, places)?;
    }
    Ok(())
}
