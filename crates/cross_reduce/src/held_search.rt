//! A search for an order with few crossings in which held units keep their order.
ghost use Rattle.std.specs.Prelude.{◌≡◌, ℕ, List, length, IfOk};
ghost use Rattle.elk_layers.specs.Layered.{plain, rows_of, IsSound, AreRows};
ghost use Rattle.elk_layers.specs.Crossings.{HasSameRows};

use crate::annealing::{Annealing, anneal};
use crate::flat::{Flat, flat_of};
use crate::held_starts::place_free;
use crate::reinserting::reinsert_anew;
use crate::reordering::order_in;
use crate::tallying::{crossings_in, has_ranks};
use elk_layers::{Layered, Order};
use std::alloc::{AllocError, Global};

/// By unit, whether it is held.
fn flags_of(alloc: Global, held: &[Option<i64>]) -> Result<Vec<bool>, AllocError> {
    let mut flags: Vec<bool> = Vec::with_capacity(alloc, held.len())?;
    for key in held {
        flags.push(key.is_some())?;
    }
    Ok(flags)
}

/// Anneals free units, if something seems to cross.
fn anneal_free_units(
    alloc: Global,
    layered: &Layered,
    flat: &mut Flat,
    held: &[bool],
    work: u64,
) -> Result<(), AllocError> {
    let crossings = crossings_in(alloc, flat)?;
    if crossings == 0 && !has_ranks(layered) {
        return Ok(());
    }
    let links = layered.links.len() as u64;
    let mut annealing = Annealing::of(crossings, links, work);
    annealing.forget_crossings();
    anneal(alloc, flat, &mut annealing, held)
}

/// An order of the same rows with few crossings, in which held units stand in the order in which they stand now; those that `held`
/// has no key for are free.
///
/// First each free unit goes to the mean height of what it is linked to. Then whole chains of free units are put where they cross
/// least, and in the end free units are annealed.
pub(crate) fn search_held(
    alloc: Global,
    layered: &Layered,
    held: &[Option<i64>],
    order: &Order,
    work: u64,
) -> Result<Order, AllocError>
    requires sound { IsSound (plain layered.now) }
    requires rows { AreRows (plain layered.now) (rows_of order.now) }
    requires held { length held.now ≡ length (plain layered.now).units }
    ensures same_rows { IfOk result (λ o. HasSameRows (rows_of order.now) (rows_of o)) }
{
    let flags = flags_of(alloc, held)?;
    let mut flat = flat_of(alloc, layered, order)?;
    place_free(alloc, &mut flat, flags.as_slice(), held)?;
    reinsert_anew(alloc, &mut flat, flags.as_slice(), work / 7 * 3)?;
    let crossings = crossings_in(alloc, &flat)?;
    let found = order_in(alloc, layered, order, &flat)?;
    anneal_free_units(alloc, layered, &mut flat, flags.as_slice(), work / 7 * 4)?;
    if crossings < crossings_in(alloc, &flat)? {
        return Ok(found);
    }
    order_in(alloc, layered, order, &flat)
}
