//! Orders in which some units are held.
ghost use Rattle.std.specs.Prelude.{◌≡◌, length, IfOk};
ghost use Rattle.elk_layers.specs.Layered.{plain, rows_of, IsSound, AreRows};
ghost use Rattle.elk_layers.specs.Crossings.{HasSameRows};
ghost use Rattle.cross_reduce.specs.Held.{AreHeldRows, NoBetterFreeSwap, IsHeldFrom};

use crate::budget::work_for;
use crate::exchanging::exchanged_free;
use crate::held_search::search_held;
use crate::holding::hold;
use crate::reducing::{Counted, fewer, with_count};
use elk_layers::{Layered, Order};
use std::alloc::{AllocError, Global};

/// The kept order, or one with fewer crossings that a search finds. Of what it finds the held units are put in order anew.
fn searched(
    alloc: Global,
    layered: &Layered,
    held: &[Option<i64>],
    kept: Counted,
    work: u64,
) -> Result<Counted, AllocError>
    requires sound { IsSound (plain layered.now) }
    requires held { length held.now ≡ length (plain layered.now).units }
    requires from { IsHeldFrom (plain layered.now) held.now (rows_of kept.order) kept }
    ensures { IfOk result (λ k. IsHeldFrom (plain layered.now) held.now (rows_of kept.order) k) }
{
    if kept.crossings == 0 || work == 0 {
        return Ok(kept);
    }
    let found = search_held(alloc, layered, held, &kept.order, work)?;
    let order = hold(alloc, layered, held, found)?;
    let best = fewer(alloc, layered, kept, order)?;
    Ok(best)
}

/// An order of the same rows with few crossings in which some units are held.
///
/// `held` has by unit its key, or `None` where the unit is free. In each row the held units stand in the order of their keys,
/// those of one key in the order of their numbers. Free units go where a search finds few crossings. No exchange of two
/// neighbours of a row lowers the crossings, unless both are held. The effort is a factor on the work of the search, as for
/// `reduce_with_effort`. The only error is out of memory, which drops the start.
///
/// Proved:
/// - An order of the same rows in which some units are held: in each row they stand in the order of their keys, those with equal keys
///   in the order of their numbers. Exchanging two neighbours never gives fewer crossings, unless both are held.
pub fn reduce_held(
    alloc: Global,
    layered: &Layered,
    start: Order,
    held: &[Option<i64>],
    effort: u32,
) -> Result<Order, AllocError>
    requires sound { IsSound (plain layered.now) }
    requires rows { AreRows (plain layered.now) (rows_of start) }
    requires held { length held.now ≡ length (plain layered.now).units }
    ensures same_rows { IfOk result (λ o. HasSameRows (rows_of start) (rows_of o)) }
    ensures held { IfOk result (λ o. AreHeldRows held.now (rows_of o)) }
    ensures settled { IfOk result (λ o. NoBetterFreeSwap (plain layered.now) held.now (rows_of o)) }
{
    let order = hold(alloc, layered, held, start)?;
    let kept = with_count(alloc, layered, order)?;
    let work = work_for(layered, effort);
    let best = searched(alloc, layered, held, kept, work)?;
    exchanged_free(alloc, layered, held, best.order)
}
