//! What links between two rows cost by the slots of their ends.

use crate::fans::Far;
use crate::flat::{Flat, place_of};
use crate::windows::Window;
use std::alloc::{AllocError, Global};

/// An end of a link whose crossings are counted: the slots that it may take, and the rank of its pin.
#[derive(Clone, Copy)]
pub(crate) struct Stop {
    pub(crate) window: Window,
    pub(crate) rank: u32,
}

/// By slot of a stop the fewest crossings of a chain up to there, compared with one and the same way, and by which slots of the
/// stops before it they are reached.
#[derive(Drop)]
pub(crate) struct Ways {
    best: Vec<i64>,
    next: Vec<i64>,
    gained: Vec<i64>,
    steps: Vec<i64>,
    from: Vec<usize>,
    given: i64,
}

/// A number of a list, or 0 where there is none.
fn cost_at(list: &[i64], i: usize) -> i64 {
    if i < list.len() { list[i] } else { 0 }
}

/// What it brings that a link's end goes below another unit whose link to the other side has this far end.
fn passed(stop: Stop, place: usize, rank: u32) -> i64 {
    if stop.window.is_own(place) {
        return ((rank > stop.rank) as i64).wrapping_sub((rank < stop.rank) as i64);
    }
    if stop.window.is_above(place) { -1 } else { 1 }
}

/// What it brings that the end goes below a unit with these links.
fn passed_all(flat: &Flat, stop: Stop, ends: &[Far]) -> i64 {
    let mut sum: i64 = 0;
    for far in ends {
        let place = place_of(flat.place.as_slice(), far.unit);
        sum = sum.wrapping_add(passed(stop, place, far.rank));
    }
    sum
}

impl Ways {
    /// No chain yet.
    pub(crate) fn new(alloc: Global) -> Ways {
        Ways {
            best: Vec::new(alloc),
            next: Vec::new(alloc),
            gained: Vec::new(alloc),
            steps: Vec::new(alloc),
            from: Vec::new(alloc),
            given: 0,
        }
    }

    /// Begins a chain at a unit that stays.
    pub(crate) fn begin(&mut self) -> Result<(), AllocError> {
        self.best.clear();
        self.best.push(0)?;
        self.from.clear();
        self.given = 0;
        Ok(())
    }

    /// By slot of the right stop what a link costs from the uppermost slot of the left one.
    fn from_top(&mut self, flat: &Flat, left: Stop, right: Stop) -> Result<(), AllocError> {
        let mut sum: i64 = 0;
        self.gained.clear();
        self.gained.push(0)?;
        for slot in 1..right.window.slots() {
            let unit = right.window.below(flat, slot.wrapping_sub(1));
            let (ends, _) = flat.ends.of(unit);
            sum = sum.wrapping_add(passed_all(flat, left, ends));
            self.gained.push(sum)?;
        }
        Ok(())
    }

    /// The best ways to all slots of the right stop by the uppermost one of the left.
    fn start(&mut self, right: Stop) -> Result<(), AllocError> {
        let first = cost_at(self.best.as_slice(), 0);
        self.next.clear();
        for slot in 0..right.window.slots() {
            let cost = cost_at(self.gained.as_slice(), slot);
            self.next.push(first.wrapping_add(cost))?;
            self.from.push(0)?;
        }
        Ok(())
    }

    /// Notes for one far end of a unit that the left end goes below what that brings by slot of the right end.
    fn step(&mut self, right: Stop, place: usize, rank: u32) {
        let slots = right.window.slots();
        let mut above = right.window.slots_above(place);
        if right.window.is_own(place) {
            if rank == right.rank {
                return;
            }
            above = if rank > right.rank { slots } else { 0 };
        }
        self.add_step(0, 1);
        self.add_step(above, -2);
    }

    /// Adds to a step.
    fn add_step(&mut self, i: usize, more: i64) {
        if i < self.steps.len() {
            self.steps[i] = self.steps[i].wrapping_add(more);
        }
    }

    /// Notes what it brings by slot of the right end that the left end goes below a unit.
    fn note_steps(&mut self, flat: &Flat, right: Stop, unit: u32) {
        let (_, ends) = flat.ends.of(unit);
        for far in ends {
            let place = place_of(flat.place.as_slice(), far.unit);
            self.step(right, place, far.rank);
        }
    }

    /// The best ways to all slots of the right stop, where those by upper slots of the left stop are known, by one slot more.
    fn lower(&mut self, left_slot: usize, row: usize) {
        let before = cost_at(self.best.as_slice(), left_slot);
        let mut sum: i64 = 0;
        let from = self.from.as_mut_slice();
        let steps = self.steps.as_mut_slice();
        let gained = self.gained.as_mut_slice();
        let next = self.next.as_mut_slice();
        for slot in 0..next.len() {
            if slot < steps.len() && slot < gained.len() && row.wrapping_add(slot) < from.len() {
                sum = sum.wrapping_add(steps[slot]);
                steps[slot] = 0;
                gained[slot] = gained[slot].wrapping_add(sum);
                let cost = before.wrapping_add(gained[slot]);
                if cost < next[slot] {
                    next[slot] = cost;
                    from[row.wrapping_add(slot)] = left_slot;
                }
            }
        }
    }

    /// Adds what the link costs as it stands, if the left end is in its own slot.
    fn note_given(&mut self, left: Stop, right: Stop, left_slot: usize) {
        if left_slot == left.window.slot() {
            let cost = cost_at(self.gained.as_slice(), right.window.slot());
            self.given = self.given.wrapping_add(cost);
        }
    }

    /// Goes on from one stop to the next.
    pub(crate) fn go(&mut self, flat: &Flat, left: Stop, right: Stop) -> Result<(), AllocError> {
        self.from_top(flat, left, right)?;
        let row = self.from.len();
        self.start(right)?;
        self.note_given(left, right, 0);
        self.steps.clear();
        for _ in 0..right.window.slots().saturating_add(1) {
            self.steps.push(0)?;
        }
        for slot in 1..left.window.slots() {
            let unit = left.window.below(flat, slot.wrapping_sub(1));
            self.note_steps(flat, right, unit);
            self.lower(slot, row);
            self.note_given(left, right, slot);
        }
        std::mem::swap(&mut self.best, &mut self.next);
        Ok(())
    }

    /// How many crossings the best way has less than the given one, once the chain ends at a unit that stays.
    pub(crate) fn gain(&self) -> i64 {
        self.given.wrapping_sub(cost_at(self.best.as_slice(), 0))
    }

    /// The slot of the stop before, on the best way to a slot of a stop, for which so many slots are noted from a place on.
    pub(crate) fn slot_before(&self, row: usize, slot: usize) -> usize {
        let i = row.saturating_add(slot);
        if i < self.from.len() { self.from[i] } else { 0 }
    }

    /// How many slots are noted.
    pub(crate) fn noted(&self) -> usize {
        self.from.len()
    }
}
