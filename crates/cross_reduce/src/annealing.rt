//! Exchanges of neighbours in an order that is tried, some of them by chance.
//!
//! Simulated annealing by Kirkpatrick, Gelatt and Vecchi 1983: an exchange that adds no crossing is kept, and one that adds some
//! with a chance that falls as the work goes on.

use crate::budget::Budget;
use crate::flat::{Flat, Span, number_at};
use crate::held_starts::is_held;
use crate::joints::Joints;
use crate::lots::Lots;
use crate::neighbours::exchange_at;
use crate::pairs::{LOOK, Pairs, flip, more_by_exchange};
use crate::reinserting::{chains_for, reinsert};
use crate::shortening::shorten;
use std::alloc::{AllocError, Global};

/// An exchange that adds more crossings than this isn't kept.
const MOST: usize = 8;

/// By what an exchange is kept: the chance in 65,536 that one more crossing is at first, what a lot has to be below for each
/// number of more crossings, the crossings as they stand, and the work that is left.
#[derive(Drop)]
pub(crate) struct Annealing {
    hottest: u64,
    bounds: [u64; 9],
    crossings: u64,
    lots: Lots,
    budget: Budget,
}

/// The chance of one half.
const HALF: u64 = 32768;

/// The chance at first for an order of so many crossings of so many links: a quarter where nothing crosses, and more the more links
/// cross, up to a half.
fn hottest_for(crossings: u64, links: u64) -> u64 {
    let share = crossings.saturating_mul(32768) / links.max(1);
    share.saturating_add(16384).min(HALF)
}

impl Annealing {
    /// For an order of so many crossings of so many links, with so much work.
    pub(crate) fn of(crossings: u64, links: u64, work: u64) -> Annealing {
        Annealing {
            hottest: hottest_for(crossings, links),
            bounds: [0; 9],
            crossings,
            lots: Lots::of_seed(1),
            budget: Budget::of(work),
        }
    }

    /// Another that is half as hot at first.
    pub(crate) fn warm(crossings: u64, links: u64, work: u64) -> Annealing {
        Annealing {
            hottest: hottest_for(crossings, links) / 2,
            bounds: [0; 9],
            crossings,
            lots: Lots::of_seed(64),
            budget: Budget::of(work),
        }
    }

    /// Another by the chances of a seed, where one half is kept at first.
    pub(crate) fn again(crossings: u64, work: u64, seed: u64) -> Annealing {
        Annealing {
            hottest: HALF,
            bounds: [0; 9],
            crossings,
            lots: Lots::of_seed(seed),
            budget: Budget::of(work),
        }
    }

    /// Work was done.
    fn spend(&mut self, work: u64) {
        self.budget.spend(work);
    }

    /// Whether no work is left.
    fn is_spent(&self) -> bool {
        self.budget.is_spent()
    }

    /// Whether no more than so much work is left, or nothing crosses.
    fn is_done(&self, left: u64) -> bool {
        self.budget.left() <= left || self.crossings == 0
    }

    /// The chance that one more crossing is by the work that is left: at first two thirds of the hottest, then slowly more and
    /// soon less, and in the end none.
    fn chance(&self) -> u64 {
        let part = self.budget.part_left(self.hottest);
        let less = self.budget.part_left(part) / 3 * 2;
        part.saturating_sub(less).saturating_mul(2)
    }

    /// Lets the chances fall to none with the work that is left.
    fn cool(&mut self) {
        self.spend(1);
        let chance = self.chance();
        let mut bound: u64 = 2147483648;
        for at in 0..9_usize {
            self.bounds[at] = bound;
            bound = bound.saturating_mul(chance) / 65536;
        }
    }

    /// Whether an exchange is kept that adds so many crossings.
    fn keeps(&mut self, more: usize) -> bool {
        more <= MOST && self.lots.draw() < self.bounds[more]
    }

    /// Whether an exchange is kept that brings so many more crossings: where it adds none, and else by chance.
    fn accepts(&mut self, more: i32) -> bool {
        more <= 0 || self.keeps(more as usize)
    }

    /// An exchange was made.
    fn note(&mut self, more: i32) {
        self.crossings = self.crossings.saturating_add_signed(i64::from(more));
    }

    /// From now on it isn't known how many crossings there are, as where not all of them count alike.
    pub(crate) fn forget_crossings(&mut self) {
        self.crossings = u64::MAX;
    }
}

/// Exchanges a unit and the one below it, where that is accepted; tells the unit that is the lower one then.
fn consider(
    flat: &mut Flat,
    pairs: &mut Pairs,
    i: usize,
    upper: u32,
    annealing: &mut Annealing,
) -> u32 {
    let lower = number_at(flat.units.as_slice(), i.wrapping_add(1));
    if annealing.is_spent() {
        return lower;
    }
    let (more, work) = more_by_exchange(flat, pairs, upper, lower);
    annealing.spend(work);
    if !annealing.accepts(more) {
        return lower;
    }
    annealing.note(more);
    flip(flat, pairs, upper, lower);
    exchange_at(flat, i, upper, lower);
    upper
}

/// Exchanges neighbours of a row, from the top.
fn anneal_row(flat: &mut Flat, pairs: &mut Pairs, row: Span, annealing: &mut Annealing) {
    let mut upper = number_at(flat.units.as_slice(), row.first);
    for i in row.first..row.last {
        upper = consider(flat, pairs, i, upper, annealing);
    }
}

/// Exchanges neighbours of a row that aren't both held, from the top.
fn anneal_free(
    flat: &mut Flat,
    pairs: &mut Pairs,
    row: Span,
    annealing: &mut Annealing,
    held: &[bool],
) {
    let mut upper = number_at(flat.units.as_slice(), row.first);
    for i in row.first..row.last {
        let lower = number_at(flat.units.as_slice(), i.wrapping_add(1));
        if is_held(held, upper) && is_held(held, lower) {
            upper = lower;
        } else {
            upper = consider(flat, pairs, i, upper, annealing);
        }
    }
}

/// Exchanges neighbours of each row.
fn anneal_rows(flat: &mut Flat, pairs: &mut Pairs, annealing: &mut Annealing, held: &[bool]) {
    for r in 0..flat.rows.len() {
        let row = flat.row_at(r);
        if held.is_empty() {
            anneal_row(flat, pairs, row, annealing);
        } else {
            anneal_free(flat, pairs, row, annealing, held);
        }
    }
}

/// Exchanges neighbours of all rows again and again, until so much work is left or nothing crosses.
fn anneal_until(
    flat: &mut Flat,
    pairs: &mut Pairs,
    annealing: &mut Annealing,
    held: &[bool],
    left: u64,
) {
    for _ in 0..annealing.budget.whole() {
        if annealing.is_done(left) {
            return;
        }
        annealing.cool();
        anneal_rows(flat, pairs, annealing, held);
    }
}

/// Exchanges neighbours of all rows again and again, until the work is done or nothing crosses.
///
/// In the last sixth of the work a crossing of two links between joints of long edges weighs twice. Before it and after it chains
/// that cross something are put where they cross less. In the end neighbours that cross as much either way are put so that their
/// links are short. Of two neighbours that are both held none is exchanged; `held` is empty if no unit is held.
pub(crate) fn anneal(
    alloc: Global,
    flat: &mut Flat,
    annealing: &mut Annealing,
    held: &[bool],
) -> Result<(), AllocError> {
    let mut pairs = Pairs::of(alloc, flat.place.len())?;
    let last = annealing.budget.whole() / 6;
    anneal_until(flat, &mut pairs, annealing, held, last);
    if annealing.crossings == 0 {
        return Ok(());
    }
    let mut chains = chains_for(alloc, flat, held)?;
    reinsert(alloc, flat, &mut chains, last / 2)?;
    pairs.weigh(Joints::of(alloc, flat)?);
    annealing.forget_crossings();
    anneal_until(flat, &mut pairs, annealing, held, 0);
    reinsert(alloc, flat, &mut chains, last / 2)?;
    shorten(alloc, flat, pairs.joints(), held)
}
