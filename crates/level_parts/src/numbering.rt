//! The numbers of a level's connected parts.
ghost use Rattle.std.specs.Prelude.{◌≡◌, ◌<◌, map, length, IfOk};
ghost use Rattle.level_model.specs.Conditions.{plain_level, IsLevel};
ghost use Rattle.level_parts.specs.Divided.{edge_keys};
ghost use Rattle.level_parts.specs.Parts.{AreParts, join};

use level_model::{LevelEdge, LevelIn};
use network_laws::{NetEdge, part_numbers};
use std::alloc::{AllocError, Global};

// An edge as one of a network; only its ends count where parts are looked for.
fn join_of(edge: LevelEdge) -> NetEdge
    ensures { result ≡ join edge }
{
    NetEdge {
        tail: edge.source.child,
        head: edge.target.child,
        least: 1,
        weight: edge.weight,
    }
}

// All edges as those of a network.
fn joins_of(alloc: Global, edges: &[LevelEdge]) -> Result<Vec<NetEdge>, AllocError>
    ensures { IfOk result (λ found. found.items ≡ map join edges.now) }
{
    let mut found = Vec::with_capacity(alloc, edges.len())?;
    for edge in edges {
        found.push(join_of(*edge))?;
    }
    Ok(found)
}

/// The number of each child's part.
pub(crate) fn numbers_of(alloc: Global, level: &LevelIn) -> Result<Vec<u32>, AllocError>
    requires { IsLevel (plain_level level.now) }
    ensures { IfOk result (λ numbers. AreParts (plain_level level.now) numbers.items) }
{
    let joins = joins_of(alloc, level.edges.as_slice())?;
    part_numbers(alloc, level.children.len() as u32, joins.as_slice())
}

/// The number of each edge's part.
pub(crate) fn edge_numbers(
    alloc: Global,
    level: &LevelIn,
    numbers: &[u32],
) -> Result<Vec<u32>, AllocError>
    requires level { IsLevel (plain_level level.now) }
    requires numbers { length numbers.now ≡ length level.now.children }
    ensures { IfOk result (λ found. found.items ≡ edge_keys (plain_level level.now) numbers.now) }
{
    let mut found = Vec::with_capacity(alloc, level.edges.len())?;
    for edge in level.edges.as_slice() {
        found.push(numbers[edge.source.child as usize])?;
    }
    Ok(found)
}
