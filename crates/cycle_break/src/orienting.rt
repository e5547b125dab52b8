//! The edges to turn round.

ghost use Rattle.std.specs.Prelude.{◌≡◌, ◌≤◌, ◌<◌, ◌++◌, ℕ, [], ◌∷◌, List, IfOk, OnOk, OnErr, length, MatchBool};
ghost use Rattle.graph_arena.specs.Graph.{IsNode, IsEdge, occurs};
ghost use Rattle.graph_arena.specs.Changes.{IsSame};
ghost use Rattle.cycle_break.specs.Ways.{edge_keys};
ghost use Rattle.cycle_break.specs.Reversed.{IsReversed, ReversesListed, Settled, before};

use crate::placing::place_all;
use crate::searching::{no_places, path};
use graph_arena::{Arena, EdgeKey};
use std::alloc::{AllocError, Global};

/// The edges that were reversed, each once.
#[derive(Drop)]
pub struct Reversed {
    pub edges: Vec<EdgeKey>,
}

/// Whether a place is before another.
fn is_before(places: &[Option<usize>], tail: usize, head: usize) -> bool
    requires tail { tail < length places.now }
    requires head { head < length places.now }
    ensures { result ≡ before places.now tail head }
{
    match places[tail] {
        None => false,
        Some(first) => match places[head] {
            None => false,
            Some(second) => first < second,
        },
    }
}

/// Takes self-loops and the edges that don't lead forward out of the kept edges, and lists the latter.
fn list_backward(
    alloc: Global,
    arena: &Arena,
    kept: &mut Arena,
    places: &[Option<usize>],
) -> Result<Vec<EdgeKey>, AllocError>
    requires same { IsSame arena.now kept.old }
    requires fits { (v : ℕ) → IsNode arena.now v → v < length places.now }
    ensures { IfOk result (λ r. Settled arena.now kept.new [] (edge_keys r.items)) }
{
    let mut listed = Vec::new(alloc);
    'keys: for at in 0..arena.edge_bound() {
        let edge = EdgeKey { at };
        if arena.is_live_edge(edge) {
            arena.incidence();
            let tail = arena.tail(edge);
            let head = arena.head(edge);
            if !is_before(places, tail.at, head.at) {
                kept.remove_edge(edge);
                if tail.at != head.at {
                    listed.push(edge)?;
                }
            }
        }
    }
    Ok(listed)
}

/// Whether a listed edge stays listed: the kept edges lead from its head to its tail. Else it is kept.
fn stays_listed(
    alloc: Global,
    arena: &Arena,
    kept: &mut Arena,
    edge: EdgeKey,
) -> Result<bool, AllocError>
    requires edge { IsEdge arena.now edge.at }
    requires same { (v : ℕ) → IsNode arena.now v → IsNode kept.old v }
    ensures same { OnOk result ((v : ℕ) → IsNode arena.now v → IsNode kept.new v) }
    ensures settled { IfOk result
        (λ stays. (chosen rest : List ℕ) → Settled arena.now kept.old chosen (edge.at ∷ rest)
        → MatchBool stays (Settled arena.now kept.new (chosen ++ edge.at ∷ []) rest) (Settled arena.now kept.new chosen rest)) }
{
    arena.incidence();
    let tail = arena.tail(edge);
    let head = arena.head(edge);
    match path(alloc, kept, head, tail)? {
        Some(_way) => Ok(true),
        None => {
            kept.add_edge(tail, head)?;
            Ok(false)
        }
    }
}

/// The edges that stay listed.
fn settle(
    alloc: Global,
    arena: &Arena,
    kept: &mut Arena,
    listed: &[EdgeKey],
) -> Result<Vec<EdgeKey>, AllocError>
    requires { Settled arena.now kept.old [] (edge_keys listed.now) }
    ensures { IfOk result (λ r. Settled arena.now kept.new (edge_keys r.items) []) }
{
    let mut edges = Vec::new(alloc);
    'listed: for edge in listed {
        if stays_listed(alloc, arena, kept, *edge)? {
            edges.push(*edge)?;
        }
    }
    Ok(edges)
}

/// Turns the edges round.
fn turn_all(arena: &mut Arena, edges: &[EdgeKey])
    requires live { (e : ℕ) → 0 < occurs e (edge_keys edges.now) → IsEdge arena.old e }
    requires once { (e : ℕ) → occurs e (edge_keys edges.now) ≤ 1 }
    ensures { ReversesListed arena.old arena.new (edge_keys edges.now) }
{
    'edges: for edge in edges {
        arena.reverse(*edge);
    }
}

/// The edges to turn round, by the places of the nodes.
fn edges_to_turn(
    alloc: Global,
    arena: &Arena,
    places: &mut [Option<usize>],
) -> Result<Vec<EdgeKey>, AllocError>
    requires { (v : ℕ) → IsNode arena.now v → v < length places.old }
    ensures { IfOk result (λ r. IsReversed arena.now (edge_keys r.items)) }
{
    place_all(alloc, arena, places)?;
    let mut kept = arena.copy()?;
    let listed = list_backward(alloc, arena, &mut kept, places)?;
    settle(alloc, arena, &mut kept, listed.as_slice())
}

/// Reverses edges so that no cycle is left but self-loops, which stay. Each edge that is reversed closed a cycle
/// with edges that are not. Where memory is wanting the arena stays as it was. (Sugiyama, Tagawa, Toda 1981; Eades,
/// Lin, Smyth 1993.)
///
/// Proved:
/// - The listed edges close cycles with unlisted ones, which have no cycle, and exactly the listed edges are reversed.
pub fn orient(alloc: Global, arena: &mut Arena) -> Result<Reversed, AllocError>
    ensures reversed { IfOk result (λ r. IsReversed arena.old (edge_keys r.edges.items)) }
    ensures is_reversed { IfOk result (λ r. ReversesListed arena.old arena.new (edge_keys r.edges.items)) }
    ensures err { OnErr result (IsSame arena.old arena.new) }
{
    let mut places = no_places(alloc, arena.node_bound())?;
    let edges = edges_to_turn(alloc, arena, places.as_mut_slice())?;
    turn_all(arena, edges.as_slice());
    Ok(Reversed { edges })
}
