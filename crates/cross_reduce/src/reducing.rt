//! The sweep orders of a start, the best of them, and the exchanges after it.
ghost use Rattle.std.specs.Prelude.{◌≡◌, ◌<◌, ◌≤◌, ◌⊎◌, ◌++◌, ◌∷◌, [], ℕ, List, length, IfOk};
ghost use Rattle.std.specs.List.{All};
ghost use Rattle.elk_layers.specs.Layered.{plain, rows_of, IsSound, AreRows};
ghost use Rattle.elk_layers.specs.Crossings.{HasSameRows, NoBetterSwap};
ghost use Rattle.elk_layers.specs.Crossings as spec;
ghost use Rattle.cross_reduce.specs.declared.fans.Towards.TheVariants.{Left, Right};
ghost use Rattle.cross_reduce.specs.Fans.{fan_lists, AreFans};
ghost use Rattle.cross_reduce.specs.Reduced.{IsFirstOfFewest, IsReduced, SettlesTo};
ghost use Rattle.cross_reduce.specs.Candidates.{IsKeptOrFewer};
ghost use Rattle.elk_layers.specs.Sweeps.{sweep_orders, forward_sweep, backward_sweep};

use crate::budget::{USUAL, work_for};
use crate::counting::crossings;
use crate::exchanging::{exchanged, exchanged_by};
use crate::fans::{Fans, Towards};
use crate::searching::{search, search_on};
use crate::sweeping::{backward, fans_for, forward};
use elk_layers::{Layered, Order};
use std::alloc::{AllocError, Global};

/// An order and its crossings.
#[derive(Drop)]
pub(crate) struct Counted {
    pub(crate) order: Order,
    pub(crate) crossings: u64,
}

/// An order with its crossings.
pub(crate) fn with_count(
    alloc: Global,
    layered: &Layered,
    order: Order,
) -> Result<Counted, AllocError>
    requires sound { IsSound (plain layered.now) }
    requires rows { AreRows (plain layered.now) (rows_of order) }
    ensures order { IfOk result (λ k. k.order ≡ order) }
    ensures crossings { IfOk result (λ k. k.crossings ≡ spec.crossings (plain layered.now) (rows_of order)) }
{
    let crossings = crossings(alloc, layered, &order)?;
    Ok(Counted { order, crossings })
}

/// The kept order, or the new one where it has fewer crossings.
pub(crate) fn fewer(
    alloc: Global,
    layered: &Layered,
    kept: Counted,
    new: Order,
) -> Result<Counted, AllocError>
    requires sound { IsSound (plain layered.now) }
    requires kept_rows { AreRows (plain layered.now) (rows_of kept.order) }
    requires new_rows { AreRows (plain layered.now) (rows_of new) }
    requires counted { kept.crossings ≡ spec.crossings (plain layered.now) (rows_of kept.order) }
    ensures counted { IfOk result (λ k. k.crossings ≡ spec.crossings (plain layered.now) (rows_of k.order)) }
    ensures rows { IfOk result (λ k. AreRows (plain layered.now) (rows_of k.order)) }
    ensures first { IfOk result
        (λ k. (orders : List (List (List ℕ))) → IsFirstOfFewest (plain layered.now) orders (rows_of kept.order)
        → IsFirstOfFewest (plain layered.now) (orders ++ rows_of new ∷ []) (rows_of k.order)) }
    ensures either { IfOk result
        (λ k. (rows_of k.order ≡ rows_of kept.order)
        ⊎ (spec.crossings (plain layered.now) (rows_of k.order) < spec.crossings (plain layered.now) (rows_of kept.order))) }
    ensures one { IfOk result (λ k. (rows_of k.order ≡ rows_of kept.order) ⊎ (rows_of k.order ≡ rows_of new)) }
    ensures same { IfOk result
        (λ k. (start : List (List ℕ)) → HasSameRows start (rows_of kept.order) → HasSameRows start (rows_of new)
        → HasSameRows start (rows_of k.order)) }
{
    let new = with_count(alloc, layered, new)?;
    if new.crossings < kept.crossings {
        Ok(new)
    } else {
        Ok(kept)
    }
}

/// The orders after a forward sweep, and after a backward sweep of that.
fn two_sweeps(
    alloc: Global,
    layered: &Layered,
    order: &Order,
    left: &Fans,
    right: &Fans,
) -> Result<(Order, Order), AllocError>
    requires sound { IsSound (plain layered.now) }
    requires rows { AreRows (plain layered.now) (rows_of order.now) }
    requires left { AreFans Left (plain layered.now).links (length (plain layered.now).units) (fan_lists left.now) }
    requires right { AreFans Right (plain layered.now).links (length (plain layered.now).units) (fan_lists right.now) }
    ensures one { IfOk result (λ v. rows_of v.0 ≡ forward_sweep (plain layered.now) (rows_of order.now)) }
    ensures two { IfOk result (λ v. rows_of v.1 ≡ backward_sweep (plain layered.now) (forward_sweep (plain layered.now) (rows_of order.now))) }
    ensures one_rows { IfOk result (λ v. AreRows (plain layered.now) (rows_of v.0)) }
    ensures two_rows { IfOk result (λ v. AreRows (plain layered.now) (rows_of v.1)) }
    ensures one_same { IfOk result (λ v. HasSameRows (rows_of order.now) (rows_of v.0)) }
    ensures two_same { IfOk result (λ v. HasSameRows (rows_of order.now) (rows_of v.1)) }
{
    let one = forward(alloc, layered, order, left)?;
    let (one, two) = backward(alloc, layered, one, right)?;
    Ok((one, two))
}

/// The first of fewest crossings among an order and its four sweep orders.
///
/// One without crossings is the answer at once, since those behind it can't have fewer.
fn best_sweep(
    alloc: Global,
    layered: &Layered,
    start: Counted,
    left: &Fans,
    right: &Fans,
) -> Result<Counted, AllocError>
    requires sound { IsSound (plain layered.now) }
    requires rows { AreRows (plain layered.now) (rows_of start.order) }
    requires left { AreFans Left (plain layered.now).links (length (plain layered.now).units) (fan_lists left.now) }
    requires right { AreFans Right (plain layered.now).links (length (plain layered.now).units) (fan_lists right.now) }
    requires counted { start.crossings ≡ spec.crossings (plain layered.now) (rows_of start.order) }
    ensures same_rows { IfOk result (λ k. HasSameRows (rows_of start.order) (rows_of k.order)) }
    ensures first { IfOk result
        (λ k. IsFirstOfFewest (plain layered.now)
        (rows_of start.order ∷ sweep_orders (plain layered.now) (rows_of start.order)) (rows_of k.order)) }
    ensures counted { IfOk result (λ k. k.crossings ≡ spec.crossings (plain layered.now) (rows_of k.order)) }
{
    let (one, two) = two_sweeps(alloc, layered, &start.order, left, right)?;
    let best = fewer(alloc, layered, start, one)?;
    if best.crossings == 0 {
        return Ok(best);
    }
    let (three, four) = two_sweeps(alloc, layered, &two, left, right)?;
    let best = fewer(alloc, layered, best, two)?;
    if best.crossings == 0 {
        return Ok(best);
    }
    let best = fewer(alloc, layered, best, three)?;
    let best = fewer(alloc, layered, best, four)?;
    Ok(best)
}

/// What the exchanges of neighbours reach from an order. One without crossings stays as it is.
fn settled_from(
    alloc: Global,
    layered: &Layered,
    swept: Counted,
    left: Fans,
    right: Fans,
) -> Result<Order, AllocError>
    requires sound { IsSound (plain layered.now) }
    requires rows { AreRows (plain layered.now) (rows_of swept.order) }
    requires left { AreFans Left (plain layered.now).links (length (plain layered.now).units) (fan_lists left) }
    requires right { AreFans Right (plain layered.now).links (length (plain layered.now).units) (fan_lists right) }
    requires counted { swept.crossings ≡ spec.crossings (plain layered.now) (rows_of swept.order) }
    ensures same { IfOk result (λ o. HasSameRows (rows_of swept.order) (rows_of o)) }
    ensures settled { IfOk result (λ o. NoBetterSwap (plain layered.now) (rows_of o)) }
    ensures settles { IfOk result (λ o. SettlesTo (plain layered.now) (rows_of swept.order) (rows_of o)) }
{
    if swept.crossings == 0 {
        return Ok(swept.order);
    }
    exchanged_by(alloc, layered, swept.order, left, right)
}

/// What the search of an effort finds from a settled order: this, or a settled one with fewer crossings.
fn searched(
    alloc: Global,
    layered: &Layered,
    settled: Order,
    effort: u32,
) -> Result<Order, AllocError>
    requires sound { IsSound (plain layered.now) }
    requires rows { AreRows (plain layered.now) (rows_of settled) }
    requires settled { NoBetterSwap (plain layered.now) (rows_of settled) }
    ensures same { IfOk result (λ o. HasSameRows (rows_of settled) (rows_of o)) }
    ensures settled { IfOk result (λ o. NoBetterSwap (plain layered.now) (rows_of o)) }
    ensures fewer { IfOk result (λ o. IsKeptOrFewer (plain layered.now) (rows_of settled) (rows_of o)) }
{
    let kept = with_count(alloc, layered, settled)?;
    let before = kept.crossings;
    let best = search(alloc, layered, kept, work_for(layered, effort.min(USUAL)))?;
    if best.crossings == before {
        return Ok(best.order);
    }
    exchanged(alloc, layered, best.order)
}

/// Whether there is nothing to search for: nothing crosses, or the level is worth no work.
fn is_done(layered: &Layered, effort: u32, is_free: bool) -> bool {
    is_free || work_for(layered, effort) == 0
}

/// What more effort than the usual finds from there.
fn searched_on(
    alloc: Global,
    layered: &Layered,
    settled: Order,
    effort: u32,
) -> Result<Order, AllocError>
    requires sound { IsSound (plain layered.now) }
    requires rows { AreRows (plain layered.now) (rows_of settled) }
    requires settled { NoBetterSwap (plain layered.now) (rows_of settled) }
    ensures same { IfOk result (λ o. HasSameRows (rows_of settled) (rows_of o)) }
    ensures settled { IfOk result (λ o. NoBetterSwap (plain layered.now) (rows_of o)) }
    ensures fewer { IfOk result (λ o. IsKeptOrFewer (plain layered.now) (rows_of settled) (rows_of o)) }
{
    if effort <= USUAL {
        return Ok(settled);
    }
    let kept = with_count(alloc, layered, settled)?;
    let usual = work_for(layered, USUAL);
    let more = work_for(layered, effort).saturating_sub(usual);
    let best = search_on(alloc, layered, kept, usual / 7 * 3, more)?;
    Ok(best.order)
}

/// An order of the same rows with few crossings.
///
/// It has at most the crossings of the start, and of the orders after a forward sweep of it by the
/// barycentre rule, after a backward sweep of that order, and once more so. No exchange of two neighbours
/// of a row lowers its crossings. A start without crossings is given back, and of the orders after the sweeps
/// the first without crossings. The only error is out of memory, which drops the start.
///
/// The exchanges begin from the first of fewest crossings among these five orders, and go through the rows
/// from the top, again and again. What they reach is the answer, unless a search finds an order with fewer
/// crossings: by sweeps from other starts, and by simulated annealing of what is best then. By the usual
/// effort, 7, the search compares some 450 pairs of links for each unit and link of the level and at most 7 * 2^20, so
/// small levels are searched more thoroughly than large ones, and a level of more than 2^18 units and links
/// not at all. Nothing in it is chance or measured time: equal drawings have equal answers.
///
/// Proved:
/// - An order of the same rows with no more crossings than the start and each of its four sweep orders.
/// - It is the start itself if the start has none.
/// - No exchange of two neighbours gives fewer crossings.
/// - From the first of fewest among these five orders, exchanges lower the crossings, row by row from the top and again until none
///   does. The order is what they reach, or has fewer crossings than that.
pub fn reduce(alloc: Global, layered: &Layered, start: Order) -> Result<Order, AllocError>
    requires sound { IsSound (plain layered.now) }
    requires rows { AreRows (plain layered.now) (rows_of start) }
    ensures { IfOk result (λ o. IsReduced (plain layered.now) (rows_of start) (rows_of o)) }
{
    reduce_with_effort(alloc, layered, start, USUAL)
}

/// An order of the same rows with few crossings, with the contract of `reduce` and an effort of one's own.
///
/// The effort is a factor on the work of the search: 7 is that of `reduce`, 0 is no search, and what is
/// above 1,000 counts as 1,000. By more than 7 the answer of 7 is annealed again and again, first by three
/// more, then each time with half as much more. So from 7 on an answer has at most the crossings that it has
/// by less effort. For each one of effort the search compares at most 2^20 pairs of links, and by no effort more than 2^28.
///
/// Proved:
/// - The same for each effort of the search.
pub fn reduce_with_effort(
    alloc: Global,
    layered: &Layered,
    start: Order,
    effort: u32,
) -> Result<Order, AllocError>
    requires sound { IsSound (plain layered.now) }
    requires rows { AreRows (plain layered.now) (rows_of start) }
    ensures { IfOk result (λ o. IsReduced (plain layered.now) (rows_of start) (rows_of o)) }
{
    let start = with_count(alloc, layered, start)?;
    if start.crossings == 0 {
        return Ok(start.order);
    }
    let left = fans_for(alloc, layered, Towards::Left)?;
    let right = fans_for(alloc, layered, Towards::Right)?;
    let swept = best_sweep(alloc, layered, start, &left, &right)?;
    let is_free = swept.crossings == 0;
    let settled = settled_from(alloc, layered, swept, left, right)?;
    if is_done(layered, effort, is_free) {
        return Ok(settled);
    }
    let found = searched(alloc, layered, settled, effort)?;
    let best = searched_on(alloc, layered, found, effort)?;
    Ok(best)
}
