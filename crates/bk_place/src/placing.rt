//! The lines of one sweep, and of the first sweep of least height.
ghost use Rattle.std.specs.Prelude.{◌≡◌, ℕ, ◌+◌, List, IfOk};
ghost use Rattle.elk_layers.specs.Layered.{plain, rows_of, IsSound, AreRows, Plain};
ghost use Rattle.elk_layers.specs.Lines.{AreLeastLines};
ghost use Rattle.bk_place.specs.Choosing.{IsMarked};
ghost use Rattle.bk_place.specs.Medians.{CanTake};
ghost use Rattle.unit_blocks.specs.Constraints.{EndsWithinStack};
ghost use Rattle.bk_place.specs.Placement.{AreLinesOf, IsFirstLowest, IsFirstAmong, rank_of};

use crate::align;
use crate::choosing::{Marked, align_by, marked_order};
use crate::heights::extent;
use crate::medians::{Medians, medians_by_unit};
use drawing_types::sweep::Sweep;
use elk_layers::{Layered, Lines, Order};
use std::alloc::{AllocError, Global};
use unit_blocks::place_links;

/// Lines with their height.
#[derive(Drop)]
struct Placement {
    lines: Lines,
    height: i64,
}

/// The least lines in which the links of a sweep are horizontal, where the medians to its side are known.
fn place_by(
    alloc: Global,
    layered: &Layered,
    order: &Order,
    table: &[Medians],
    sweep: Sweep,
) -> Result<Lines, AllocError>
    requires can { CanTake (plain layered.now) (rows_of order.now) sweep table.now }
    ensures least { IfOk result (λ lines. AreLeastLines (plain layered.now) (rows_of order.now) sweep lines.top.items) }
    ensures within { IfOk result (λ lines. EndsWithinStack (plain layered.now) lines.top.items) }
{
    let chosen = align_by(alloc, layered, order, table, sweep)?;
    place_links(alloc, layered, order, chosen.links.as_slice())
}

/// The least lines in which the links of a sweep are horizontal.
fn place_sweep(
    alloc: Global,
    layered: &Layered,
    order: &Order,
    sweep: Sweep,
) -> Result<Lines, AllocError>
    requires sound { IsSound (plain layered.now) }
    requires rows { AreRows (plain layered.now) (rows_of order.now) }
    ensures least { IfOk result (λ lines. AreLeastLines (plain layered.now) (rows_of order.now) sweep lines.top.items) }
    ensures within { IfOk result (λ lines. EndsWithinStack (plain layered.now) lines.top.items) }
{
    let chosen = align(alloc, layered, order, sweep)?;
    place_links(alloc, layered, order, chosen.links.as_slice())
}

/// The lines of a sweep with their height, where the medians to its side are known.
fn measured(
    alloc: Global,
    layered: &Layered,
    order: &Order,
    table: &[Medians],
    sweep: Sweep,
) -> Result<Placement, AllocError>
    requires can { CanTake (plain layered.now) (rows_of order.now) sweep table.now }
    ensures { IfOk result (λ p. IsFirstAmong (plain layered.now) (rows_of order.now) (rank_of sweep) (rank_of sweep + 1) p.lines.top.items p.height) }
{
    let lines = place_by(alloc, layered, order, table, sweep)?;
    let height = extent(layered, &lines);
    Ok(Placement { lines, height })
}

/// The second lines where they are lower, and else the first.
fn lower(first: Placement, second: Placement) -> Placement
    ensures { (l : Plain) (rows : List (List ℕ)) (a b c : ℕ) → IsFirstAmong l rows a b first.lines.top.items first.height
        → IsFirstAmong l rows b c second.lines.top.items second.height
        → IsFirstAmong l rows a c result.lines.top.items result.height }
{
    if second.height < first.height {
        second
    } else {
        first
    }
}

/// The lower lines of the two sweeps to the left.
fn place_left(
    alloc: Global,
    layered: &Layered,
    order: &Order,
    known: &Marked,
) -> Result<Placement, AllocError>
    requires sound { IsSound (plain layered.now) }
    requires rows { AreRows (plain layered.now) (rows_of order.now) }
    requires known { IsMarked (plain layered.now) (rows_of order.now) known.now.place.items known.now.marked.items }
    ensures { IfOk result (λ p. IsFirstAmong (plain layered.now) (rows_of order.now) 0 2 p.lines.top.items p.height) }
{
    let table = medians_by_unit(alloc, layered, known, Sweep::LeftUp)?;
    let up = measured(alloc, layered, order, table.as_slice(), Sweep::LeftUp)?;
    let down = measured(alloc, layered, order, table.as_slice(), Sweep::LeftDown)?;
    Ok(lower(up, down))
}

/// The lower lines of the two sweeps to the right.
fn place_right(
    alloc: Global,
    layered: &Layered,
    order: &Order,
    known: &Marked,
) -> Result<Placement, AllocError>
    requires sound { IsSound (plain layered.now) }
    requires rows { AreRows (plain layered.now) (rows_of order.now) }
    requires known { IsMarked (plain layered.now) (rows_of order.now) known.now.place.items known.now.marked.items }
    ensures { IfOk result (λ p. IsFirstAmong (plain layered.now) (rows_of order.now) 2 4 p.lines.top.items p.height) }
{
    let table = medians_by_unit(alloc, layered, known, Sweep::RightUp)?;
    let up = measured(alloc, layered, order, table.as_slice(), Sweep::RightUp)?;
    let down = measured(alloc, layered, order, table.as_slice(), Sweep::RightDown)?;
    Ok(lower(up, down))
}

/// The lines of the first sweep of least height.
fn place_lowest(alloc: Global, layered: &Layered, order: &Order) -> Result<Lines, AllocError>
    requires sound { IsSound (plain layered.now) }
    requires rows { AreRows (plain layered.now) (rows_of order.now) }
    ensures first { IfOk result (λ lines. IsFirstLowest (plain layered.now) (rows_of order.now) lines.top.items) }
    ensures within { IfOk result (λ lines. EndsWithinStack (plain layered.now) lines.top.items) }
{
    let known = marked_order(alloc, layered, order)?;
    let left = place_left(alloc, layered, order, &known)?;
    let right = place_right(alloc, layered, order, &known)?;
    let lowest = lower(left, right);
    Ok(lowest.lines)
}

/// The lines of the fixed sweep, or of the first of the four sweeps that needs the least height.
///
/// The links that the sweep chooses are horizontal, all tops are at least 0, neighbours of a row keep their room,
/// and the outlines of consecutive children of a row theirs; no lines that keep all of this have a lesser top
/// anywhere. No unit ends below the sum of all heights and, per unit, of the greatest of the three spacings.
/// Among sweeps of one height the order is that of `Sweep`. The only error is out of memory. (Placement by
/// Brandes and Köpf 2002; the best of the four in place of their median.)
///
/// Proved:
/// - The lines of the fixed sweep, or of the first sweep with the least height, and a bound on their height.
pub fn place(
    alloc: Global,
    layered: &Layered,
    order: &Order,
    fixed: Option<Sweep>,
) -> Result<Lines, AllocError>
    requires sound { IsSound (plain layered.now) }
    requires rows { AreRows (plain layered.now) (rows_of order.now) }
    ensures lines { IfOk result (λ lines. AreLinesOf (plain layered.now) (rows_of order.now) fixed lines.top.items) }
    ensures within { IfOk result (λ lines. EndsWithinStack (plain layered.now) lines.top.items) }
{
    match fixed {
        Some(sweep) => place_sweep(alloc, layered, order, sweep),
        None => place_lowest(alloc, layered, order),
    }
}
