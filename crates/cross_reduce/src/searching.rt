//! A search for an order with few crossings: sweeps from other starts, and then exchanges by chance.
ghost use Rattle.std.specs.Prelude.{◌≡◌, ◌⊎◌, ℕ, List, IfOk, OnOk};
ghost use Rattle.elk_layers.specs.Layered.{plain, rows_of, IsSound, AreRows};
ghost use Rattle.elk_layers.specs.Crossings.{HasSameRows, NoBetterSwap};
ghost use Rattle.elk_layers.specs.Crossings as spec;
ghost use Rattle.cross_reduce.specs.Candidates.{IsBestFrom, IsKeptOrFewer, IsSettledFrom};

use crate::annealing::{Annealing, anneal};
use crate::budget::{Budget, size_of};
use crate::exchanging::exchanged;
use crate::fans::Towards;
use crate::flat::{Flat, flat_of};
use crate::neighbours::lower_rows;
use crate::reducing::{Counted, fewer};
use crate::reordering::order_in;
use crate::starts::{start_anew, sweep_again};
use crate::tallying::{crossings_in, has_ranks};
use elk_layers::{Layered, Order};
use std::alloc::{AllocError, Global};

/// The side to which a sweep looks: the one and the other in turn, beginning to the left at even starts.
fn side_of(start: u64, sweep: u64) -> Towards {
    if start % 2 == sweep % 2 {
        Towards::Left
    } else {
        Towards::Right
    }
}

/// A sweep, and the exchanges of neighbours after it that lower the crossings.
fn sweep_and_exchange(
    alloc: Global,
    flat: &mut Flat,
    towards: Towards,
    size: u64,
    budget: &mut Budget,
) -> Result<(), AllocError> {
    budget.spend(size.saturating_mul(3));
    sweep_again(alloc, flat, towards)?;
    lower_rows(flat, budget);
    Ok(())
}

/// The rows ordered anew, and then swept four times.
fn started_and_swept(
    alloc: Global,
    flat: &mut Flat,
    start: u64,
    size: u64,
    budget: &mut Budget,
) -> Result<(), AllocError> {
    budget.spend(size.saturating_mul(8));
    start_anew(alloc, flat, start)?;
    for sweep in 0..4_u64 {
        let towards = side_of(start, sweep);
        sweep_and_exchange(alloc, flat, towards, size, budget)?;
    }
    Ok(())
}

/// The kept order, or that of a list where it has fewer crossings.
fn fewer_of(
    alloc: Global,
    layered: &Layered,
    kept: Counted,
    flat: &Flat,
) -> Result<Counted, AllocError>
    requires sound { IsSound (plain layered.now) }
    requires best { IsBestFrom (plain layered.now) (rows_of kept.order) kept }
    ensures best { IfOk result (λ k. IsBestFrom (plain layered.now) (rows_of kept.order) k) }
    ensures fewer { IfOk result (λ k. IsKeptOrFewer (plain layered.now) (rows_of kept.order) (rows_of k.order)) }
{
    let new = order_in(alloc, layered, &kept.order, flat)?;
    let best = fewer(alloc, layered, kept, new)?;
    Ok(best)
}

/// The same, where a list that seems to have no fewer crossings isn't counted exactly, unless pins are ranked.
fn fewer_after(
    alloc: Global,
    layered: &Layered,
    kept: Counted,
    flat: &Flat,
    is_ranked: bool,
) -> Result<Counted, AllocError>
    requires sound { IsSound (plain layered.now) }
    requires best { IsBestFrom (plain layered.now) (rows_of kept.order) kept }
    ensures best { IfOk result (λ k. IsBestFrom (plain layered.now) (rows_of kept.order) k) }
    ensures fewer { IfOk result (λ k. IsKeptOrFewer (plain layered.now) (rows_of kept.order) (rows_of k.order)) }
{
    let counted = crossings_in(alloc, flat)?;
    if !is_ranked && kept.crossings <= counted {
        return Ok(kept);
    }
    fewer_of(alloc, layered, kept, flat)
}

/// The kept order, or one with fewer crossings that sweeps find from up to 32 starts.
fn best_start(
    alloc: Global,
    layered: &Layered,
    kept: Counted,
    work: u64,
) -> Result<Counted, AllocError>
    requires sound { IsSound (plain layered.now) }
    requires best { IsBestFrom (plain layered.now) (rows_of kept.order) kept }
    ensures best { IfOk result (λ k. IsBestFrom (plain layered.now) (rows_of kept.order) k) }
    ensures fewer { IfOk result (λ k. IsKeptOrFewer (plain layered.now) (rows_of kept.order) (rows_of k.order)) }
{
    let mut flat = flat_of(alloc, layered, &kept.order)?;
    let mut budget = Budget::of(work);
    let is_ranked = has_ranks(layered);
    let mut kept = kept;
    for start in 0..32_u64 {
        if kept.crossings == 0 || budget.is_spent() {
            return Ok(kept);
        }
        started_and_swept(alloc, &mut flat, start, size_of(layered), &mut budget)?;
        kept = fewer_after(alloc, layered, kept, &flat, is_ranked)?;
    }
    Ok(kept)
}

/// The kept order, or one with fewer crossings that this annealing finds.
fn annealed_by(
    alloc: Global,
    layered: &Layered,
    kept: Counted,
    annealing: &mut Annealing,
) -> Result<Counted, AllocError>
    requires sound { IsSound (plain layered.now) }
    requires best { IsBestFrom (plain layered.now) (rows_of kept.order) kept }
    ensures best { IfOk result (λ k. IsBestFrom (plain layered.now) (rows_of kept.order) k) }
    ensures fewer { IfOk result (λ k. IsKeptOrFewer (plain layered.now) (rows_of kept.order) (rows_of k.order)) }
{
    let mut flat = flat_of(alloc, layered, &kept.order)?;
    anneal(alloc, &mut flat, annealing, &[])?;
    let best = fewer_of(alloc, layered, kept, &flat)?;
    Ok(best)
}

/// The kept order, or one with fewer crossings that exchanges by chance find, once and again half as hot.
fn annealed_twice(
    alloc: Global,
    layered: &Layered,
    kept: Counted,
    work: u64,
) -> Result<Counted, AllocError>
    requires sound { IsSound (plain layered.now) }
    requires best { IsBestFrom (plain layered.now) (rows_of kept.order) kept }
    ensures best { IfOk result (λ k. IsBestFrom (plain layered.now) (rows_of kept.order) k) }
    ensures fewer { IfOk result (λ k. IsKeptOrFewer (plain layered.now) (rows_of kept.order) (rows_of k.order)) }
{
    let links = layered.links.len() as u64;
    let mut hot = Annealing::of(kept.crossings, links, work / 7 * 3);
    let once = annealed_by(alloc, layered, kept, &mut hot)?;
    if once.crossings == 0 {
        return Ok(once);
    }
    let mut warm = Annealing::warm(once.crossings, links, work / 11 * 2);
    let best = annealed_by(alloc, layered, once, &mut warm)?;
    Ok(best)
}

/// A level of up to so many units and links is annealed twice.
const FEW: u64 = 512;

/// The kept order, or one with fewer crossings that exchanges by chance find.
fn annealed(
    alloc: Global,
    layered: &Layered,
    kept: Counted,
    work: u64,
) -> Result<Counted, AllocError>
    requires sound { IsSound (plain layered.now) }
    requires best { IsBestFrom (plain layered.now) (rows_of kept.order) kept }
    ensures best { IfOk result (λ k. IsBestFrom (plain layered.now) (rows_of kept.order) k) }
    ensures fewer { IfOk result (λ k. IsKeptOrFewer (plain layered.now) (rows_of kept.order) (rows_of k.order)) }
{
    if size_of(layered) <= FEW {
        return annealed_twice(alloc, layered, kept, work);
    }
    let links = layered.links.len() as u64;
    let mut annealing = Annealing::of(kept.crossings, links, work / 14 * 9);
    annealed_by(alloc, layered, kept, &mut annealing)
}

/// The kept order, or one with fewer crossings that a search finds.
///
/// Two sevenths of the work go to sweeps from up to 32 starts, which are orders of depth-first searches. Each is swept four times,
/// forward and backward in turn, and after each sweep neighbours are exchanged where that lowers the crossings. With most of the rest
/// the best of these orders is annealed, that of a small level twice, and whole chains are moved with what is left. The search ends where nothing crosses.
/// The work is bounded by the units and links alone, and what seems to be chance has fixed seeds, so equal
/// drawings have equal answers.
pub(crate) fn search(
    alloc: Global,
    layered: &Layered,
    kept: Counted,
    work: u64,
) -> Result<Counted, AllocError>
    requires sound { IsSound (plain layered.now) }
    requires best { IsBestFrom (plain layered.now) (rows_of kept.order) kept }
    ensures best { IfOk result (λ k. IsBestFrom (plain layered.now) (rows_of kept.order) k) }
    ensures fewer { IfOk result (λ k. IsKeptOrFewer (plain layered.now) (rows_of kept.order) (rows_of k.order)) }
{
    if kept.crossings == 0 || work == 0 {
        return Ok(kept);
    }
    let swept = best_start(alloc, layered, kept, work / 7 * 2)?;
    if swept.crossings == 0 {
        return Ok(swept);
    }
    let best = annealed(alloc, layered, swept, work)?;
    Ok(best)
}

/// An order annealed by the chances of a seed, and then exchanged until no exchange lowers the crossings.
fn annealed_and_exchanged(
    alloc: Global,
    layered: &Layered,
    kept: &Counted,
    work: u64,
    seed: u64,
) -> Result<Order, AllocError>
    requires sound { IsSound (plain layered.now) }
    requires rows { AreRows (plain layered.now) (rows_of kept.now.order) }
    ensures same { IfOk result (λ o. HasSameRows (rows_of kept.now.order) (rows_of o)) }
    ensures settled { IfOk result (λ o. NoBetterSwap (plain layered.now) (rows_of o)) }
{
    let mut flat = flat_of(alloc, layered, &kept.order)?;
    let mut annealing = Annealing::again(kept.crossings, work, seed);
    anneal(alloc, &mut flat, &mut annealing, &[])?;
    let order = order_in(alloc, layered, &kept.order, &flat)?;
    exchanged(alloc, layered, order)
}

/// The kept order, or one with fewer crossings that another annealing finds.
fn annealed_again(
    alloc: Global,
    layered: &Layered,
    kept: Counted,
    work: u64,
    seed: u64,
) -> Result<Counted, AllocError>
    requires sound { IsSound (plain layered.now) }
    requires settled { IsSettledFrom (plain layered.now) (rows_of kept.order) kept }
    ensures { IfOk result (λ k. IsSettledFrom (plain layered.now) (rows_of kept.order) k) }
{
    let new = annealed_and_exchanged(alloc, layered, &kept, work, seed)?;
    let best = fewer(alloc, layered, kept, new)?;
    Ok(best)
}

/// The kept order, or one with fewer crossings that a longer search finds.
///
/// The best order is annealed again and again, the first time with the work that is told, then each time
/// with half as much more, as long as the work lasts for a whole annealing. So a search with more work
/// begins as one with less, and finds no more crossings.
pub(crate) fn search_on(
    alloc: Global,
    layered: &Layered,
    kept: Counted,
    first: u64,
    work: u64,
) -> Result<Counted, AllocError>
    requires sound { IsSound (plain layered.now) }
    requires settled { IsSettledFrom (plain layered.now) (rows_of kept.order) kept }
    ensures { IfOk result (λ k. IsSettledFrom (plain layered.now) (rows_of kept.order) k) }
{
    let mut kept = kept;
    let mut next = first;
    let mut left = work;
    for seed in 2..64_u64 {
        if kept.crossings == 0 || left < next {
            return Ok(kept);
        }
        kept = annealed_again(alloc, layered, kept, next, seed)?;
        left = left.saturating_sub(next);
        next = next.saturating_add(next / 2);
    }
    Ok(kept)
}
