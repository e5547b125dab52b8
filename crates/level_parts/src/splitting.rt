//! A level split into its connected parts.
ghost use Rattle.std.specs.Prelude.{◌≡◌, ◌<◌, ℕ, length, slice_index, IfOk};
ghost use Rattle.level_model.specs.Conditions.{plain_level, IsLevel};
ghost use Rattle.level_parts.specs.Divided.{edge_keys};
ghost use Rattle.level_parts.specs.Groups.{AreGrouped};
ghost use Rattle.level_parts.specs.Parts.{AreParts};
ghost use Rattle.level_parts.specs.Split.{ArePartLevels, IsPartFrom, IsSplit, part_at};

use crate::copying::{children_in, edges_in};
use crate::grouping::{Groups, groups_of};
use crate::levels::{PartLevel, PartLevels, Seats};
use crate::numbering::{edge_numbers, numbers_of};
use drawing_types::list::Items;
use level_model::LevelIn;
use network_parts::count_parts;
use std::alloc::{AllocError, Global};

// A part from the numbers of its children and edges.
fn part_from(
    alloc: Global,
    level: &LevelIn,
    places: &[u32],
    children: &[u32],
    edges: &[u32],
) -> Result<PartLevel, AllocError>
    requires level { IsLevel (plain_level level.now) }
    requires places { length places.now ≡ length level.now.children }
    requires children { (i : ℕ) → i < length children.now → slice_index children.now i < length level.now.children }
    requires edges { (i : ℕ) → i < length edges.now → slice_index edges.now i < length level.now.edges }
    ensures { IfOk result (IsPartFrom level.now places.now children.now edges.now) }
{
    let level = LevelIn {
        children: Items::from_vec(children_in(alloc, level, children)?),
        edges: Items::from_vec(edges_in(alloc, level, places, edges)?),
        spacing: level.spacing,
        fixed: level.fixed,
        placing: level.placing,
        choices: level.choices,
    };
    Ok(PartLevel {
        level,
        children: Items::from_vec(children.to_vec(alloc)?),
        edges: Items::from_vec(edges.to_vec(alloc)?),
    })
}

// All parts, from the numbers of children and edges by their parts.
fn parts_from(
    alloc: Global,
    level: &LevelIn,
    children: &Groups,
    edges: &Groups,
) -> Result<Vec<PartLevel>, AllocError>
    requires level { IsLevel (plain_level level.now) }
    requires numbers { AreParts (plain_level level.now) children.now.keys.items }
    requires keys { edges.now.keys.items ≡ edge_keys (plain_level level.now) children.now.keys.items }
    requires children { AreGrouped children.now }
    requires edges { AreGrouped edges.now }
    requires as_many { length edges.now.rows.items ≡ length children.now.rows.items }
    ensures { IfOk result (λ v. ArePartLevels level.now children.now.keys.items (length children.now.rows.items) v.items) }
{
    let mut parts = Vec::with_capacity(alloc, children.rows.len())?;
    let places = children.places.as_slice();
    let edge_rows = edges.rows.as_slice();
    for (k, row) in children.rows.as_slice().iter().enumerate() {
        let part = part_from(
            alloc,
            level,
            places,
            row.as_slice(),
            edge_rows[k].as_slice(),
        )?;
        parts.push(part)?;
    }
    Ok(parts)
}

// Where things are in their parts.
fn seats(groups: Groups) -> Seats
    ensures parts { result.parts ≡ groups.keys.items }
    ensures places { result.places ≡ groups.places.items }
{
    Seats {
        parts: Items::from_vec(groups.keys),
        places: Items::from_vec(groups.places),
    }
}

/// The connected parts of a level, numbered from 0 by their least children. Each is a level of its own, with the children and
/// edges of the part in the order that they have in the whole, and the options of the whole.
///
/// The only error is out of memory.
///
/// Proved:
/// - The connected parts of a level, numbered by their least children.
/// - Each part is a level of its own, with its children and edges in their order. (`parts_are_levels`)
pub fn split(alloc: Global, level: &LevelIn) -> Result<PartLevels, AllocError>
    requires { IsLevel (plain_level level.now) }
    ensures split { IfOk result (IsSplit level.now) }
    ensures levels { IfOk result (λ v. (k : ℕ) → k < length v.parts → IsLevel (plain_level (part_at v.parts k).level)) }
{
    let numbers = numbers_of(alloc, level)?;
    let keys = edge_numbers(alloc, level, numbers.as_slice())?;
    let count = count_parts(numbers.as_slice());
    let children = groups_of(alloc, numbers, count)?;
    let edges = groups_of(alloc, keys, count)?;
    let parts = parts_from(alloc, level, &children, &edges)?;
    Ok(PartLevels {
        parts: Items::from_vec(parts),
        children: seats(children),
        edges: seats(edges),
    })
}
