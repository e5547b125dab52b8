//! The orientation of a level's edges.
ghost use Rattle.std.specs.Prelude.{◌≡◌, ◌<◌, ◌≤◌, ◌==◌, ℕ, None, Some, not, length, IfOk, OnOk};
ghost use Rattle.graph_arena.specs.Graph.{Ends, ends_at, lists_at, IsEdge, IsNode};
ghost use Rattle.level_model.specs.Conditions.{plain_level, IsLevel};
ghost use Rattle.level_layout.specs.Certificate.{AreReversed};
ghost use Rattle.layer_units.specs.Marks.{listed};
ghost use Rattle.level_layout.specs.Marks.{AreEdges, AreMarkedEdges, AreNodes, IsGraphOf, key_of, node_of};

use cycle_break::orient;
use graph_arena::{Arena, EdgeKey, NodeKey};
use level_model::{LevelEdge, LevelIn};
use std::alloc::{AllocError, Global};

/// Adds so many nodes.
pub(crate) fn add_nodes(
    alloc: Global,
    arena: &mut Arena,
    count: usize,
) -> Result<Vec<NodeKey>, AllocError>
    requires { (k : ℕ) → ends_at arena.old k ≡ None }
    ensures nodes { IfOk result (λ nodes. AreNodes arena.new count nodes.items) }
    ensures no_edges { OnOk result ((k : ℕ) → ends_at arena.new k ≡ None) }
{
    let mut nodes = Vec::with_capacity(alloc, count)?;
    for _ in 0..count {
        nodes.push(arena.add_node()?)?;
    }
    Ok(nodes)
}

// Adds the edges of the level between the nodes of its children.
fn add_edges(
    alloc: Global,
    arena: &mut Arena,
    nodes: &[NodeKey],
    level: &LevelIn,
) -> Result<Vec<EdgeKey>, AllocError>
    requires level { IsLevel (plain_level level.now) }
    requires nodes { AreNodes arena.old (length level.now.children) nodes.now }
    requires no_edges { (k : ℕ) → ends_at arena.old k ≡ None }
    ensures { IfOk result (λ keys. IsGraphOf (plain_level level.now) nodes.now keys.items arena.new) }
{
    let mut keys = Vec::with_capacity(alloc, level.edges.len())?;
    for edge in level.edges.as_slice() {
        let tail = nodes[edge.source.child as usize];
        let head = nodes[edge.target.child as usize];
        keys.push(arena.add_edge(tail, head)?)?;
    }
    Ok(keys)
}

// Whether an edge leaves another node than that of its source.
fn runs_reversed(arena: &Arena, nodes: &[NodeKey], key: EdgeKey, edge: LevelEdge) -> bool
    requires key { IsEdge arena.now key.at }
    requires source { edge.source.child < length nodes.now }
    ensures { (x : Ends) → ends_at arena.now key.at ≡ Some x → result ≡ not (x.tail == node_of nodes.now edge.source.child) }
{
    arena.tail(key).at != nodes[edge.source.child as usize].at
}

// Marks the edges that were reversed.
fn reversed_marks(
    alloc: Global,
    arena: &Arena,
    nodes: &[NodeKey],
    keys: &[EdgeKey],
    level: &LevelIn,
) -> Result<Vec<bool>, AllocError>
    requires level { IsLevel (plain_level level.now) }
    requires nodes { length nodes.now ≡ length level.now.children }
    requires keys { length keys.now ≡ length level.now.edges }
    requires live { (e : ℕ) → e < length keys.now → IsEdge arena.now (key_of keys.now e) }
    ensures { IfOk result (λ marks. AreMarkedEdges (plain_level level.now) nodes.now keys.now arena.now (length level.now.edges) marks.items) }
{
    let mut marks = Vec::with_capacity(alloc, keys.len())?;
    for (e, edge) in level.edges.as_slice().iter().enumerate() {
        marks.push(runs_reversed(arena, nodes, keys[e], *edge))?;
    }
    Ok(marks)
}

/// By edge, whether it is reversed.
pub(crate) fn orientation(alloc: Global, level: &LevelIn) -> Result<Vec<bool>, AllocError>
    requires { IsLevel (plain_level level.now) }
    ensures len { IfOk result (λ marks. length marks.items ≡ length level.now.edges) }
    ensures reversed { IfOk result (λ marks. AreReversed (plain_level level.now) (listed marks.items)) }
{
    let mut arena = Arena::new(alloc);
    let nodes = add_nodes(alloc, &mut arena, level.children.len())?;
    let keys = add_edges(alloc, &mut arena, nodes.as_slice(), level)?;
    let _reversed = orient(alloc, &mut arena)?;
    reversed_marks(alloc, &arena, nodes.as_slice(), keys.as_slice(), level)
}
