//! An order of the nodes in which each edge leads forward.

ghost use Rattle.std.specs.Prelude.{◌≡◌, ◌≢◌, ◌↔◌, ℕ, ◌<◌, [], List, false, Some, IfOk, IfSome, OnOk, MatchOption, IsTrue, is_none};
ghost use Rattle.graph_arena.specs.Graph.{Graph, IsNode, IsEdge, Ends, ends_at, occurs, front, in_list};
ghost use Rattle.graph_arena.specs.Changes.{RemovesEdge, IsSame};
ghost use Rattle.cycle_break.specs.Ways.{HasCycle, node_keys};
ghost use Rattle.cycle_break.specs.Order.{IsTopological};
ghost use Rattle.cycle_break.specs.Search.{Sorted};

use graph_arena::{Arena, EdgeKey, NodeKey};
use std::alloc::{AllocError, Global};

/// The edge is removed; its head is given.
fn take_edge(work: &mut Arena, edge: EdgeKey) -> NodeKey
    requires { IsEdge work.old edge.at }
    ensures removed { (x : Ends) → ends_at work.old edge.at ≡ Some x → RemovesEdge work.old work.new edge.at x.tail x.head }
    ensures head { (x : Ends) → ends_at work.old edge.at ≡ Some x → result.at ≡ x.head }
{
    let head = work.head(edge);
    work.remove_edge(edge);
    head
}

/// Whether no edge enters the node.
fn is_source(work: &Arena, node: NodeKey) -> bool
    requires { IsNode work.now node.at }
    ensures { result ≡ is_none (front (in_list work.now node.at)) }
{
    work.first_in(node).is_none()
}

/// Takes out the edges that leave a node. Those of their heads that are sources then are ready.
pub(crate) fn take_out(
    work: &mut Arena,
    node: NodeKey,
    ready: &mut Vec<NodeKey>,
) -> Result<(), AllocError>
    requires { IsNode work.old node.at }
    ensures same { OnOk result ((v : ℕ) → IsNode work.new v ↔ IsNode work.old v) }
    ensures sorted { OnOk result
        ((g : Graph) (early late : List ℕ) → 0 < occurs node.at late
        → ((v : ℕ) → v ≢ node.at → occurs v late ≡ occurs v early)
        → Sorted g work.old early late (node_keys ready.old.items) → Sorted g work.new late late (node_keys ready.new.items)) }
{
    'edges: while let Some(edge) = work.first_out(node) {
        work.incidence();
        let head = take_edge(work, edge);
        work.incidence();
        if is_source(work, head) {
            ready.push(head)?;
        }
    }
    work.incidence();
    Ok(())
}

/// Whether the key is that of a node that no edge enters.
fn is_live_source(arena: &Arena, node: NodeKey) -> bool
    ensures yes { IsTrue result → IsNode arena.now node.at }
    ensures source { IsTrue result → in_list arena.now node.at ≡ [] }
    ensures no { result ≡ false → IsNode arena.now node.at → in_list arena.now node.at ≡ [] → ⊥ }
{
    if arena.is_live_node(node) {
        return is_source(arena, node);
    }
    false
}

/// The nodes that no edge enters.
fn sources(alloc: Global, arena: &Arena) -> Result<Vec<NodeKey>, AllocError>
    ensures { IfOk result (λ r. (work : Graph) → IsSame arena.now work → Sorted arena.now work [] [] (node_keys r.items)) }
{
    arena.incidence();
    let mut ready = Vec::new(alloc);
    for at in 0..arena.node_bound() {
        let node = NodeKey { at };
        if is_live_source(arena, node) {
            ready.push(node)?;
        }
    }
    Ok(ready)
}

/// Whether any edge is left.
fn has_edges(arena: &Arena) -> bool
    ensures { IsTrue result ↔ ((e : ℕ) × IsEdge arena.now e) }
{
    for at in 0..arena.edge_bound() {
        if arena.is_live_edge(EdgeKey { at }) {
            return true;
        }
    }
    false
}

/// Takes out sources, until there are none.
fn order_of(alloc: Global, arena: &Arena, work: &mut Arena) -> Result<Vec<NodeKey>, AllocError>
    requires { IsSame arena.now work.old }
    ensures { IfOk result (λ r. Sorted arena.now work.new (node_keys r.items) (node_keys r.items) []) }
{
    let mut ready = sources(alloc, arena)?;
    let mut order = Vec::new(alloc);
    'nodes: while let Some(node) = ready.pop() {
        order.push(node)?;
        take_out(work, node, &mut ready)?;
    }
    Ok(order)
}

/// All nodes, each once and tails before heads. There is no such order exactly where there is a cycle, of which a
/// self-loop is one. (Kahn 1962.)
///
/// Proved:
/// - An order of the nodes is found exactly if there is one.
pub fn topological(alloc: Global, arena: &Arena) -> Result<Option<Vec<NodeKey>>, AllocError>
    ensures answer { IfOk result (λ r. MatchOption r (HasCycle arena.now) (λ order. IsTopological arena.now (node_keys order.items))) }
    ensures acyclic { IfOk result (λ r. IfSome r (λ _. HasCycle arena.now → ⊥)) }
{
    let mut work = arena.copy()?;
    let order = order_of(alloc, arena, &mut work)?;
    arena.incidence();
    if has_edges(&work) {
        return Ok(None);
    }
    Ok(Some(order))
}
