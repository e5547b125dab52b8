//! The places of units in their rows.
ghost use Rattle.std.specs.Prelude.{◌≡◌, ◌<◌, ◌^◌, ◌≤◌, length, IfOk};
ghost use Rattle.std.specs.List.{All};
ghost use Rattle.elk_layers.specs.Layered.{plain, rows_of, IsSound, AreRows};
ghost use Rattle.elk_layers.specs.Places.{IsOnce, NotesFirst, ArePlaces};

use crate::{Layered, Order};
use std::alloc::{AllocError, Global};

/// Notes, by number, the places of the numbers of a row, such as units. Others keep what is noted.
pub fn note_places(place: &mut [u32], row: &[u32])
    requires units { All (λ u. u < length place.old) row.now }
    requires once { IsOnce row.now }
    requires few { length row.now ≤ 2 ^ 24 }
    ensures { NotesFirst place.old row.now (length row.now) place.new }
{
    for (i, unit) in row.iter().enumerate() {
        place[*unit as usize] = i as u32;
    }
}

/// Notes the places of the units of all rows.
fn note_rows(layered: &Layered, order: &Order, place: &mut [u32])
    requires sound { IsSound (plain layered.now) }
    requires rows { AreRows (plain layered.now) (rows_of order.now) }
    requires as_long { length place.old ≡ length (plain layered.now).units }
    ensures { ArePlaces (plain layered.now) (rows_of order.now) place.new }
{
    for row in order.rows.iter() {
        note_places(place, row.as_slice());
    }
}

/// By unit, its place in its row, from 0.
///
/// The only error is out of memory.
///
/// Proved:
/// - The place of each unit in its row.
pub fn places(alloc: Global, layered: &Layered, order: &Order) -> Result<Vec<u32>, AllocError>
    requires sound { IsSound (plain layered.now) }
    requires rows { AreRows (plain layered.now) (rows_of order.now) }
    ensures { IfOk result (λ v. ArePlaces (plain layered.now) (rows_of order.now) v.items) }
{
    let mut place: Vec<u32> = vec![in alloc; 0; layered.units.len()]?;
    note_rows(layered, order, place.as_mut_slice());
    Ok(place)
}
