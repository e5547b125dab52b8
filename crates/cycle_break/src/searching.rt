//! Ways from one node to another, found by a search backwards from the goal.

ghost use Rattle.std.specs.Prelude.{◌≡◌, ◌↔◌, ◌+◌, ◌<◌, ◌++◌, ℕ, List, Option, [], ◌∷◌, None, Some, IfOk, IfSome, IsSome, OnOk, MatchOption, length, replicate, slice_set, is_none, count_by};
ghost use Rattle.graph_arena.specs.Graph.{Graph, Ends, ends_at, IsNode, IsEdge};
ghost use Rattle.graph_arena.specs.Changes.{RemovesEdge};
ghost use Rattle.graph_arena.specs.Paths.{Reaches};
ghost use Rattle.cycle_break.specs.Ways.{Step, IsPath, edge_keys};
ghost use Rattle.cycle_break.specs.Search.{IsReady, Searched, WayOn, IsLinked, IsIndexed, place_of, reached_at};

use graph_arena::{Arena, EdgeKey, NodeKey};
use std::alloc::{AllocError, Global};

/// An edge towards the goal, and the entry of its head.
#[derive(Clone, Copy)]
pub(crate) struct Via {
    pub(crate) edge: EdgeKey,
    pub(crate) next: usize,
}

/// A node from which the goal can be reached. The goal itself needs no edge.
#[derive(Clone, Copy)]
pub(crate) struct Reached {
    pub(crate) node: NodeKey,
    pub(crate) via: Option<Via>,
}

/// The edge is removed; its tail is given.
pub(crate) fn take_edge(work: &mut Arena, edge: EdgeKey) -> NodeKey
    requires { IsEdge work.old edge.at }
    ensures removed { (x : Ends) → ends_at work.old edge.at ≡ Some x → RemovesEdge work.old work.new edge.at x.tail x.head }
    ensures tail { (x : Ends) → ends_at work.old edge.at ≡ Some x → result.at ≡ x.tail }
{
    let tail = work.tail(edge);
    work.remove_edge(edge);
    tail
}

/// As many places as asked, of which none is used.
pub(crate) fn no_places(alloc: Global, count: usize) -> Result<Vec<Option<usize>>, AllocError>
    ensures { IfOk result (λ r. r.items ≡ replicate count None) }
{
    let mut places = Vec::new(alloc);
    'places: for _ in 0..count {
        places.push(None)?;
    }
    Ok(places)
}

/// Whether the node was not reached yet.
fn is_free(index: &[Option<usize>], node: NodeKey) -> bool
    requires { node.at < length index.now }
    ensures { result ≡ is_none (place_of index.now node.at) }
{
    index[node.at].is_none()
}

/// One more node is reached.
fn reach(
    reached: &mut Vec<Reached>,
    index: &mut [Option<usize>],
    node: NodeKey,
    via: Option<Via>,
) -> Result<(), AllocError>
    requires { node.at < length index.old }
    ensures reached { OnOk result (reached.new.items ≡ reached.old.items ++ record { node = node; via = via } ∷ []) }
    ensures index { OnOk result (index.new ≡ slice_set index.old node.at (Some (length reached.old.items))) }
{
    let at = reached.len();
    reached.push(Reached { node, via })?;
    index[node.at] = Some(at);
    Ok(())
}

/// Takes out the edges into a reached node, and reaches their tails.
fn gather(
    work: &mut Arena,
    reached: &mut Vec<Reached>,
    index: &mut [Option<usize>],
    next: usize,
) -> Result<(), AllocError>
    requires ready { IsReady work.old reached.old.items index.old }
    requires next { next < length reached.old.items }
    ensures ready { OnOk result (IsReady work.new reached.new.items index.new) }
    ensures same { OnOk result ((v : ℕ) → IsNode work.new v ↔ IsNode work.old v) }
    ensures count { OnOk result (count_by is_none index.new + length reached.new.items ≡ count_by is_none index.old + length reached.old.items) }
    ensures searched { OnOk result
        ((g : Graph) (to : ℕ) → Searched g work.old to next reached.old.items index.old
        → Searched g work.new to (next + 1) reached.new.items index.new) }
{
    let node = reached.as_slice()[next].node;
    'edges: while let Some(edge) = work.first_in(node) {
        work.incidence();
        let tail = take_edge(work, edge);
        if is_free(index, tail) {
            let via = Via { edge, next };
            reach(reached, index, tail, Some(via))?;
        }
    }
    work.incidence();
    Ok(())
}

/// Reaches all nodes from which the goal can be reached.
fn search(
    alloc: Global,
    arena: &Arena,
    index: &mut [Option<usize>],
    to: NodeKey,
) -> Result<Vec<Reached>, AllocError>
    requires goal { IsNode arena.now to.at }
    requires fits { (v : ℕ) → IsNode arena.now v → v < length index.old }
    requires free { (v : ℕ) → place_of index.old v ≡ None }
    ensures links { IfOk result (λ r. (k : ℕ) → k < length r.items → IsLinked k (reached_at r.items k).via) }
    ensures ways { IfOk result (λ r. (k : ℕ) → k < length r.items → WayOn arena.now to.at r.items k (reached_at r.items k).node.at (reached_at r.items k).via) }
    ensures indexed { IfOk result (λ r. (v k : ℕ) → place_of index.new v ≡ Some k → (k < length r.items) × ((reached_at r.items k).node.at ≡ v)) }
    ensures root { OnOk result (IsSome (place_of index.new to.at)) }
    ensures back { IfOk result (λ r. IsIndexed r.items index.new) }
    ensures closed { OnOk result ((a b : ℕ) → Step arena.now a b → IsSome (place_of index.new b) → IsSome (place_of index.new a)) }
{
    let mut work = arena.copy()?;
    let mut reached = Vec::new(alloc);
    reach(&mut reached, index, to, None)?;
    let mut next = 0;
    'entries: while next < reached.as_slice().len() {
        gather(&mut work, &mut reached, index, next)?;
        next += 1;
    }
    Ok(reached)
}

/// The edges from an entry to the goal.
fn edges_from(alloc: Global, reached: &[Reached], from: usize) -> Result<Vec<EdgeKey>, AllocError>
    requires from { from < length reached.now }
    requires links { (k : ℕ) → k < length reached.now → IsLinked k (reached_at reached.now k).via }
    ensures path { IfOk result (λ p. (g : Graph) (to : ℕ) (index : List (Option ℕ))
        → ((k : ℕ) → k < length reached.now → WayOn g to reached.now k (reached_at reached.now k).node.at (reached_at reached.now k).via)
        → IsIndexed reached.now index
        → IsPath g (reached_at reached.now from).node.at (edge_keys p.items) to) }
{
    let mut edges = Vec::new(alloc);
    let mut at = from;
    'ways: while let Some(via) = reached[at].via {
        edges.push(via.edge)?;
        at = via.next;
    }
    Ok(edges)
}

fn path_by(
    alloc: Global,
    arena: &Arena,
    index: &mut [Option<usize>],
    from: NodeKey,
    to: NodeKey,
) -> Result<Option<Vec<EdgeKey>>, AllocError>
    requires from { IsNode arena.now from.at }
    requires to { IsNode arena.now to.at }
    requires fits { (v : ℕ) → IsNode arena.now v → v < length index.old }
    requires free { (v : ℕ) → place_of index.old v ≡ None }
    ensures { IfOk result (λ r. MatchOption r (Reaches (Step arena.now) from.at to.at → ⊥) (λ p. IsPath arena.now from.at (edge_keys p.items) to.at)) }
{
    let reached = search(alloc, arena, index, to)?;
    match index[from.at] {
        None => Ok(None),
        Some(at) => Ok(Some(edges_from(alloc, reached.as_slice(), at)?)),
    }
}

/// The edges of a path from one node to another, in order; none where they are the same node. It comes to no node
/// twice. There is no answer exactly where there is no path.
///
/// Proved:
/// - A path that visits no node twice is found exactly if there is a path.
pub fn path(
    alloc: Global,
    arena: &Arena,
    from: NodeKey,
    to: NodeKey,
) -> Result<Option<Vec<EdgeKey>>, AllocError>
    requires from { IsNode arena.now from.at }
    requires to { IsNode arena.now to.at }
    ensures answer { IfOk result (λ r. MatchOption r (Reaches (Step arena.now) from.at to.at → ⊥) (λ p. IsPath arena.now from.at (edge_keys p.items) to.at)) }
    ensures empty { IfOk result (λ r. IfSome r (λ p. from.at ≡ to.at → edge_keys p.items ≡ [])) }
{
    if from.at == to.at {
        return Ok(Some(Vec::new(alloc)));
    }
    let mut index = no_places(alloc, arena.node_bound())?;
    path_by(alloc, arena, index.as_mut_slice(), from, to)
}
