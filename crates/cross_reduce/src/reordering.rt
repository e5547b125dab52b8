//! The rows of an order by numbers of their units.
ghost use Rattle.std.specs.Prelude.{◌≡◌, ◌<◌, length, slice_set, IfOk, OnOk};
ghost use Rattle.elk_layers.specs.Layered.{plain, rows_of, IsSound, AreRows};
ghost use Rattle.elk_layers.specs.Crossings.{HasSameRows};

use crate::flat::{Flat, place_of};
use crate::ordering::by_keys;
use crate::sweeping::row_in;
use elk_layers::{Layered, Order, copy_of};
use std::alloc::{AllocError, Global};

/// Puts a row into the place of another.
pub(crate) fn set_row(order: &mut Order, r: usize, row: Vec<u32>)
    requires { r < length (rows_of order.old) }
    ensures { rows_of order.new ≡ slice_set (rows_of order.old) r row.items }
{
    order.rows[r] = row;
}

/// Orders a row by numbers of its units.
fn reorder_row(
    alloc: Global,
    layered: &Layered,
    order: &mut Order,
    r: usize,
    keys: &[u64],
) -> Result<(), AllocError>
    requires rows { AreRows (plain layered.now) (rows_of order.old) }
    requires row { r < length (rows_of order.old) }
    requires keys { length keys.now ≡ length (plain layered.now).units }
    ensures { OnOk result (HasSameRows (rows_of order.old) (rows_of order.new)) }
{
    let row = by_keys(alloc, row_in(order, r), keys)?;
    set_row(order, r, row);
    Ok(())
}

/// Orders each row by numbers of its units.
fn reorder(
    alloc: Global,
    layered: &Layered,
    order: &mut Order,
    keys: &[u64],
) -> Result<(), AllocError>
    requires sound { IsSound (plain layered.now) }
    requires rows { AreRows (plain layered.now) (rows_of order.old) }
    requires keys { length keys.now ≡ length (plain layered.now).units }
    ensures { OnOk result (HasSameRows (rows_of order.old) (rows_of order.new)) }
{
    for r in 0..layered.layers as usize {
        reorder_row(alloc, layered, order, r, keys)?;
    }
    Ok(())
}

/// The places of so many units.
fn places_in(alloc: Global, flat: &Flat, count: usize) -> Result<Vec<u64>, AllocError>
    ensures { IfOk result (λ v. length v.items ≡ count) }
{
    let mut places: Vec<u64> = Vec::with_capacity(alloc, count)?;
    for unit in 0..count {
        places.push(place_in(flat, unit))?;
    }
    Ok(places)
}

/// The place of a unit.
fn place_in(flat: &Flat, unit: usize) -> u64 {
    match u32::try_from(unit) {
        Ok(unit) => place_of(flat.place.as_slice(), unit) as u64,
        Err(_) => 0,
    }
}

/// The rows of an order as they stand in a list.
pub(crate) fn order_in(
    alloc: Global,
    layered: &Layered,
    order: &Order,
    flat: &Flat,
) -> Result<Order, AllocError>
    requires sound { IsSound (plain layered.now) }
    requires rows { AreRows (plain layered.now) (rows_of order.now) }
    ensures { IfOk result (λ o. HasSameRows (rows_of order.now) (rows_of o)) }
{
    let mut copy = copy_of(alloc, order)?;
    let places = places_in(alloc, flat, layered.units.len())?;
    reorder(alloc, layered, &mut copy, places.as_slice())?;
    Ok(copy)
}
