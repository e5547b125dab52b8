//! The children and edges of a part.
ghost use Rattle.std.specs.Prelude.{◌≡◌, ◌<◌, ℕ, map, length, slice_index, IfOk};
ghost use Rattle.level_model.specs.Conditions.{plain_level, IsLevel};
ghost use Rattle.level_model.specs.Level.{child_at, edge_at};
ghost use Rattle.level_parts.specs.Divided.{placed_at};

use drawing_types::list::Items;
use level_model::{EdgeEnd, LevelEdge, LevelIn};
use port_order::Child;
use std::alloc::{AllocError, Global};

// A child once more.
fn copy_of(alloc: Global, child: &Child) -> Result<Child, AllocError>
    ensures { IfOk result (λ v. v ≡ child.now) }
{
    let ports = child.ports.as_slice().to_vec(alloc)?;
    Ok(Child {
        size: child.size,
        compound: child.compound,
        rule: child.rule,
        direction: child.direction,
        position: child.position,
        ports: Items::from_vec(ports),
    })
}

/// The children with these numbers.
pub(crate) fn children_in(
    alloc: Global,
    level: &LevelIn,
    row: &[u32],
) -> Result<Vec<Child>, AllocError>
    requires { (i : ℕ) → i < length row.now → slice_index row.now i < length level.now.children }
    ensures { IfOk result (λ v. v.items ≡ map (child_at (plain_level level.now)) row.now) }
{
    let mut children = Vec::with_capacity(alloc, row.len())?;
    for number in row {
        let child = level.children.at(*number as usize);
        children.push(copy_of(alloc, child)?)?;
    }
    Ok(children)
}

// An end of an edge, by the place of its child.
fn placed_spoke(places: &[u32], spoke: EdgeEnd) -> EdgeEnd
    requires { spoke.child < length places.now }
    ensures { result ≡ record { child = slice_index places.now spoke.child; port = spoke.port } }
{
    EdgeEnd {
        child: places[spoke.child as usize],
        port: spoke.port,
    }
}

// An edge, by the places of its children.
fn placed_edge(places: &[u32], edge: LevelEdge) -> LevelEdge
    requires source { edge.source.child < length places.now }
    requires target { edge.target.child < length places.now }
    ensures { result ≡ placed_at (slice_index places.now) edge }
{
    LevelEdge {
        source: placed_spoke(places, edge.source),
        target: placed_spoke(places, edge.target),
        weight: edge.weight,
    }
}

/// The edges with these numbers, by the places of their children.
pub(crate) fn edges_in(
    alloc: Global,
    level: &LevelIn,
    places: &[u32],
    row: &[u32],
) -> Result<Vec<LevelEdge>, AllocError>
    requires level { IsLevel (plain_level level.now) }
    requires places { length places.now ≡ length level.now.children }
    requires row { (i : ℕ) → i < length row.now → slice_index row.now i < length level.now.edges }
    ensures { IfOk result (λ v. v.items ≡ map (λ e. placed_at (slice_index places.now) (edge_at (plain_level level.now) e)) row.now) }
{
    let mut edges = Vec::with_capacity(alloc, row.len())?;
    for number in row {
        let edge = *level.edges.at(*number as usize);
        edges.push(placed_edge(places, edge))?;
    }
    Ok(edges)
}
