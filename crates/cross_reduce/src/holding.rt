//! Rows in which the held units are put in the order of their keys.
ghost use Rattle.std.specs.Prelude.{◌≡◌, ℕ, ◌<◌, ℤ, Option, length, IfOk, OnOk};
ghost use Rattle.std.specs.List.Sorted.{IsPermutation};
ghost use Rattle.elk_layers.specs.Layered.{plain, rows_of, row_at, IsSound, AreRows};
ghost use Rattle.elk_layers.specs.Crossings.{HasSameRows};
ghost use Rattle.cross_reduce.specs.Exchanges.{KeepsOthers};
ghost use Rattle.cross_reduce.specs.Held.{IsHeldRow, AreHeldRows};
ghost use Rattle.cross_reduce.specs.Held as spec;
ghost use Rattle.cross_reduce.specs.HeldRows.{held_units, numbers_of, refilled_held};
ghost use Rattle.cross_reduce.specs.Means.{next_of, taken_then};

use crate::reordering::set_row;
use crate::sweeping::row_in;
use elk_layers::{Layered, Order};
use std::alloc::{AllocError, Global};

/// A held unit with its key.
#[derive(Clone, Copy)]
struct HeldUnit {
    unit: u32,
    key: i64,
}

/// The key of a unit, if it is held.
fn key_at(held: &[Option<i64>], unit: u32) -> Option<i64>
    ensures { result ≡ spec.key_at held.now unit }
{
    let unit = unit as usize;
    if unit < held.len() { held[unit] } else { None }
}

/// Whether a unit is held.
pub(crate) fn is_held(held: &[Option<i64>], unit: u32) -> bool
    ensures { result ≡ spec.is_held held.now unit }
{
    key_at(held, unit).is_some()
}

/// The held units of a row, as they stand there.
fn held_in(alloc: Global, held: &[Option<i64>], row: &[u32]) -> Result<Vec<HeldUnit>, AllocError>
    ensures { IfOk result (λ v. v.items ≡ held_units held.now row.now) }
{
    let mut units: Vec<HeldUnit> = Vec::new(alloc);
    for unit in row {
        if let Some(key) = key_at(held, *unit) {
            units.push(HeldUnit { unit: *unit, key })?;
        }
    }
    Ok(units)
}

/// The unit for a place of the row, and how many are taken from the list then.
fn next_unit(unit: u32, is_held: bool, from: &[HeldUnit], taken: usize) -> (u32, usize)
    ensures unit { result.0 ≡ next_of is_held unit (numbers_of from.now) taken }
    ensures taken { result.1 ≡ taken_then is_held (numbers_of from.now) taken }
{
    if is_held && taken < from.len() {
        (from[taken].unit, taken + 1)
    } else {
        (unit, taken)
    }
}

/// The row with the places of its held units filled from a list.
fn refill(
    alloc: Global,
    held: &[Option<i64>],
    row: &[u32],
    from: &[HeldUnit],
) -> Result<Vec<u32>, AllocError>
    ensures { IfOk result (λ v. v.items ≡ refilled_held held.now row.now from.now) }
{
    let mut list: Vec<u32> = Vec::with_capacity(alloc, row.len())?;
    let mut taken: usize = 0;
    for unit in row {
        let (next, then) = next_unit(*unit, is_held(held, *unit), from, taken);
        list.push(next)?;
        taken = then;
    }
    Ok(list)
}

/// The row with its held units in order, at the places of the held ones.
fn held_row(alloc: Global, held: &[Option<i64>], row: &[u32]) -> Result<Vec<u32>, AllocError>
    ensures permuted { IfOk result (λ v. IsPermutation row.now v.items) }
    ensures ascends { IfOk result (λ v. IsHeldRow held.now v.items) }
{
    let mut units = held_in(alloc, held, row)?;
    units.sort_by_key(|held| (held.key, held.unit))?;
    refill(alloc, held, row, units.as_slice())
}

/// Puts the held units of a row in order.
fn hold_row(
    alloc: Global,
    held: &[Option<i64>],
    order: &mut Order,
    r: usize,
) -> Result<(), AllocError>
    requires { r < length (rows_of order.old) }
    ensures same { OnOk result (HasSameRows (rows_of order.old) (rows_of order.new)) }
    ensures ascends { OnOk result (IsHeldRow held.now (row_at (rows_of order.new) r)) }
    ensures others { OnOk result (KeepsOthers (rows_of order.old) (rows_of order.new) r) }
{
    let row = held_row(alloc, held, row_in(order, r))?;
    set_row(order, r, row);
    Ok(())
}

/// Puts the held units of each row in order.
fn hold_rows(
    alloc: Global,
    held: &[Option<i64>],
    order: &mut Order,
    count: usize,
) -> Result<(), AllocError>
    requires { count ≡ length (rows_of order.old) }
    ensures same { OnOk result (HasSameRows (rows_of order.old) (rows_of order.new)) }
    ensures ascends { OnOk result (AreHeldRows held.now (rows_of order.new)) }
{
    for r in 0..count {
        hold_row(alloc, held, order, r)?;
    }
    Ok(())
}

/// An order in which the held units of each row stand in the order of their keys and numbers.
///
/// They take the places of the held ones in their row; the free units stay where they are.
pub(crate) fn hold(
    alloc: Global,
    layered: &Layered,
    held: &[Option<i64>],
    order: Order,
) -> Result<Order, AllocError>
    requires { AreRows (plain layered.now) (rows_of order) }
    ensures same_rows { IfOk result (λ o. HasSameRows (rows_of order) (rows_of o)) }
    ensures ascends { IfOk result (λ o. AreHeldRows held.now (rows_of o)) }
{
    let mut order = order;
    hold_rows(alloc, held, &mut order, layered.layers as usize)?;
    Ok(order)
}
