//! The whole search.
ghost use Rattle.std.specs.Prelude.{◌≡◌, ◌<◌, ◌≤◌, ◌^◌, ℕ, [], false, length, IfOk, OnOk};
ghost use Rattle.route_slots.specs.Links.{link_limit};
ghost use Rattle.route_slots.specs.Links.{EndsBelow, CutsOnCycles, LeadsLessDeep, AreLeast, number_at};
ghost use Rattle.route_slots.specs.Chains.{AreFirsts, AreNexts};
ghost use Rattle.route_slots.specs.Walks.{IsWalk, IsOver, KeepsDone, place_in};
ghost use Rattle.route_slots.specs.declared.walking.Place.TheVariants.{Done};

use crate::Link;
use crate::chains::chains_of;
use crate::links::Cuts;
use crate::walking::{Place, Walk, go_through};
use std::alloc::{AllocError, Global};

// The search before its first node.
fn no_walk(alloc: Global, first: Vec<u32>, links: &[Link], nodes: u32) -> Result<Walk, AllocError>
    requires ends { EndsBelow nodes links.now }
    requires first { AreFirsts nodes links.now 0 first.items }
    ensures walk { IfOk result (λ walk. IsWalk links.now walk) }
    ensures none { IfOk result (λ walk. walk.way.items ≡ []) }
    ensures as_many { IfOk result (λ walk. length walk.ahead.items ≡ nodes) }
{
    Ok(Walk {
        ahead: first,
        places: vec![in alloc; Place::New; nodes as usize]?,
        depths: vec![in alloc; 0; nodes as usize]?,
        cut: vec![in alloc; false; links.len()]?,
        way: Vec::new(alloc),
    })
}

// Goes through all that is reached from a node, unless it is done.
fn visit(walk: &mut Walk, links: &[Link], next: &[u32], root: u32) -> Result<(), AllocError>
    requires nodes { length walk.old.ahead.items < 2 ^ 32 }
    requires few { length links.now ≤ link_limit }
    requires ends { EndsBelow (length walk.old.ahead.items) links.now }
    requires next { AreNexts links.now 0 next.now }
    requires walk { IsWalk links.now walk.old }
    requires none { walk.old.way.items ≡ [] }
    requires root { root < length walk.old.ahead.items }
    ensures walk { OnOk result (IsWalk links.now walk.new) }
    ensures none { OnOk result (walk.new.way.items ≡ []) }
    ensures done { OnOk result (KeepsDone walk.old walk.new) }
    ensures root { OnOk result (place_in walk.new.places.items root ≡ Done) }
{
    match walk.places[root as usize] {
        Place::New => go_through(walk, links, next, root)?,
        Place::Open | Place::Done => {}
    }
    Ok(())
}

// The search, from each node in turn.
fn walk_all(alloc: Global, nodes: u32, links: &[Link]) -> Result<Walk, AllocError>
    requires few { length links.now ≤ link_limit }
    requires ends { EndsBelow nodes links.now }
    ensures { IfOk result (IsOver nodes links.now) }
{
    let chains = chains_of(alloc, nodes, links)?;
    let mut walk = no_walk(alloc, chains.first, links, nodes)?;
    'roots: for root in 0..nodes {
        visit(&mut walk, links, chains.next.as_slice(), root)?;
    }
    Ok(walk)
}

/// Links to cut so that no cycle is left, each of which closes a cycle as the links stand, and depths of the nodes: each
/// link that is not cut leads from a node to one that lies less deep, and no node lies deeper than that asks for. Nodes have
/// the numbers below `nodes`.
///
/// A search in depth; it takes time and memory in proportion to nodes and links. (Tarjan 1972.)
///
/// Proved:
/// - Links to cut until no cycle is left, each of them on a cycle, and the resulting depths of the nodes.
pub fn cut_cycles(alloc: Global, nodes: u32, links: &[Link]) -> Result<Cuts, AllocError>
    requires few { length links.now ≤ link_limit }
    requires ends { EndsBelow nodes links.now }
    ensures one_for_each_link { IfOk result (λ cuts. length cuts.cut.items ≡ length links.now) }
    ensures one_for_each_node { IfOk result (λ cuts. length cuts.depths.items ≡ nodes) }
    ensures on_cycles { IfOk result (λ cuts. CutsOnCycles links.now cuts.cut.items) }
    ensures less_deep { IfOk result (λ cuts. LeadsLessDeep links.now cuts.cut.items cuts.depths.items) }
    ensures least { IfOk result (λ cuts. AreLeast nodes links.now cuts.cut.items cuts.depths.items) }
    ensures below { IfOk result (λ cuts. (v : ℕ) → v < nodes → number_at cuts.depths.items v < nodes) }
{
    let walk = walk_all(alloc, nodes, links)?;
    Ok(Cuts {
        cut: walk.cut,
        depths: walk.depths,
    })
}
