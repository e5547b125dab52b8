//! Distances of units, as bounds on their blocks.

ghost use Rattle.std.specs.Prelude.{◌≡◌, ◌<◌, ◌≤◌, ◌^◌, ◌++◌, ◌+ℤ◌, ◌-ℤ◌, ◌≤ℤ◌, pos, length, IfOk, true};
ghost use Rattle.std.specs.List.{All};
ghost use Rattle.elk_layers.specs.Layered.{plain, rows_of, IsSound, AreRows};
ghost use Rattle.unit_blocks.specs.Constraints.{block_at, offset_at, bounds_along, row_bounds, all_bounds};
ghost use Rattle.unit_blocks.specs.Phases.{AreSmall, distance_of, CanBeApart};

use elk_layers::{Layered, Order, body_room, children_of, room};
use separation::Bound;
use std::alloc::{AllocError, Global};

/// The distance from top to top of two units, or of two children so that their outlines are apart.
fn distance(layered: &Layered, outlines: bool, upper: u32, lower: u32) -> i64
    requires sound { IsSound (plain layered.now) }
    requires upper { CanBeApart (plain layered.now) outlines upper }
    requires lower { CanBeApart (plain layered.now) outlines lower }
    ensures value { result ≡ distance_of (plain layered.now) outlines upper lower }
    ensures low { pos 0 ≤ℤ (result +ℤ pos (2 ^ 57)) }
    ensures high { result ≤ℤ pos (2 ^ 57) }
{
    if outlines {
        body_room(layered, upper, lower)
    } else {
        room(layered, upper, lower)
    }
}

/// A distance of two units, as a bound on their blocks.
fn bound_between(blocks: &[u32], offsets: &[i64], upper: u32, lower: u32, distance: i64) -> Bound
    requires in_blocks { length offsets.now ≡ length blocks.now }
    requires upper { upper < length blocks.now }
    requires lower { lower < length blocks.now }
    requires small { AreSmall offsets.now }
    requires low { pos 0 ≤ℤ (distance +ℤ pos (2 ^ 57)) }
    requires high { distance ≤ℤ pos (2 ^ 57) }
    ensures before { result.before ≡ block_at blocks.now upper }
    ensures after { result.after ≡ block_at blocks.now lower }
    ensures gap { result.gap ≡ offset_at offsets.now upper +ℤ distance -ℤ offset_at offsets.now lower }
{
    Bound {
        before: blocks[upper as usize],
        after: blocks[lower as usize],
        gap: offsets[upper as usize] + distance - offsets[lower as usize],
    }
}

/// Adds the bounds of a list's neighbours.
fn push_bounds(
    layered: &Layered,
    outlines: bool,
    units: &[u32],
    blocks: &[u32],
    offsets: &[i64],
    bounds: &mut Vec<Bound>,
) -> Result<(), AllocError>
    requires sound { IsSound (plain layered.now) }
    requires units { All (CanBeApart (plain layered.now) outlines) units.now }
    requires in_blocks { length offsets.now ≡ length blocks.now }
    requires as_many { length blocks.now ≡ length (plain layered.now).units }
    requires small { AreSmall offsets.now }
    ensures { IfOk result
        (λ _. bounds.new.items
        ≡ bounds.old.items ++ bounds_along (distance_of (plain layered.now) outlines) blocks.now offsets.now units.now) }
{
    for i in 1..units.len() {
        let upper = units[i - 1];
        let lower = units[i];
        let apart = distance(layered, outlines, upper, lower);
        bounds.push(bound_between(blocks, offsets, upper, lower, apart))?;
    }
    Ok(())
}

/// Adds the bounds of a row.
fn push_row_bounds(
    alloc: Global,
    layered: &Layered,
    row: &[u32],
    blocks: &[u32],
    offsets: &[i64],
    bounds: &mut Vec<Bound>,
) -> Result<(), AllocError>
    requires sound { IsSound (plain layered.now) }
    requires units { All (λ u. u < length (plain layered.now).units) row.now }
    requires in_blocks { length offsets.now ≡ length blocks.now }
    requires as_many { length blocks.now ≡ length (plain layered.now).units }
    requires small { AreSmall offsets.now }
    ensures { IfOk result (λ _. bounds.new.items ≡ bounds.old.items ++ row_bounds (plain layered.now) blocks.now offsets.now row.now) }
{
    push_bounds(layered, false, row, blocks, offsets, bounds)?;
    let inner = children_of(alloc, layered, row)?;
    push_bounds(layered, true, inner.as_slice(), blocks, offsets, bounds)
}

/// The bounds of all rows.
pub(crate) fn bounds_of(
    alloc: Global,
    layered: &Layered,
    order: &Order,
    blocks: &[u32],
    offsets: &[i64],
) -> Result<Vec<Bound>, AllocError>
    requires sound { IsSound (plain layered.now) }
    requires rows { AreRows (plain layered.now) (rows_of order.now) }
    requires in_blocks { length offsets.now ≡ length blocks.now }
    requires as_many { length blocks.now ≡ length (plain layered.now).units }
    requires small { AreSmall offsets.now }
    ensures { IfOk result (λ v. v.items ≡ all_bounds (plain layered.now) blocks.now offsets.now (rows_of order.now)) }
{
    let mut bounds = Vec::with_capacity(alloc, blocks.len())?;
    for row in order.rows.iter() {
        push_row_bounds(alloc, layered, row.as_slice(), blocks, offsets, &mut bounds)?;
    }
    Ok(bounds)
}
