//! Chains of units that have one link to each side, and the way to put a whole chain where it crosses least.
//!
//! No exchange of two neighbours finds such a place if the chain has to move in many rows at once. It is found as a shortest path:
//! what a link of the chain crosses depends on the slots of its two ends alone.

use crate::fans::Far;
use crate::flat::{Flat, Span, place_of};
use crate::place_costs::{Stop, Ways};
use crate::windows::{Window, move_unit, row_of};
use std::alloc::{AllocError, Global};

/// Units that can move with their chain, and the rows in which they stand.
#[derive(Drop)]
pub(crate) struct Chains {
    movable: Vec<bool>,
    rows: Vec<Span>,
    units: Vec<u32>,
    stops: Vec<Stop>,
    noted: Vec<usize>,
    ways: Ways,
}

/// The first of some far ends, if there is one.
fn first_end(ends: &[Far]) -> Option<Far> {
    if ends.is_empty() { None } else { Some(ends[0]) }
}

/// The far end of a unit's first link to the left.
fn left_end(flat: &Flat, unit: u32) -> Option<Far> {
    let (left, _) = flat.ends.of(unit);
    first_end(left)
}

/// The far end of a unit's first link to the right.
fn right_end(flat: &Flat, unit: u32) -> Option<Far> {
    let (_, right) = flat.ends.of(unit);
    first_end(right)
}

impl Chains {
    /// Of these units those that can move, in these rows.
    pub(crate) fn of(alloc: Global, movable: Vec<bool>, rows: Vec<Span>) -> Chains {
        Chains {
            movable,
            rows,
            units: Vec::new(alloc),
            stops: Vec::new(alloc),
            noted: Vec::new(alloc),
            ways: Ways::new(alloc),
        }
    }

    /// Whether a unit can move with its chain.
    pub(crate) fn moves(&self, unit: u32) -> bool {
        let unit = unit as usize;
        unit < self.movable.len() && self.movable[unit]
    }

    /// The unit before the chain that begins with a unit, if one begins there.
    fn before(&self, flat: &Flat, unit: u32) -> Option<Far> {
        if !self.moves(unit) {
            return None;
        }
        let far = left_end(flat, unit)?;
        if self.moves(far.unit) {
            None
        } else {
            Some(far)
        }
    }

    /// The stop of a unit that stays.
    fn stop_at(&self, flat: &Flat, far: Far) -> Stop {
        Stop {
            window: Window::at(place_of(flat.place.as_slice(), far.unit)),
            rank: far.rank,
        }
    }

    /// The stop of a unit that moves so far at most.
    fn stop_around(&self, flat: &Flat, unit: u32, reach: usize) -> Stop {
        let own = place_of(flat.place.as_slice(), unit);
        Stop {
            window: Window::around(row_of(self.rows.as_slice(), unit), own, reach),
            rank: 0,
        }
    }

    /// Lists the units of the chain that begins with a unit, and its stops from the unit before it to that behind it. Each unit
    /// moves so far at most.
    fn list(
        &mut self,
        flat: &Flat,
        before: Far,
        first: u32,
        reach: usize,
    ) -> Result<(), AllocError> {
        self.units.clear();
        self.stops.clear();
        let stop = self.stop_at(flat, before);
        self.stops.push(stop)?;
        let mut unit = first;
        for _ in 0..flat.place.len() {
            self.units.push(unit)?;
            let stop = self.stop_around(flat, unit, reach);
            self.stops.push(stop)?;
            match right_end(flat, unit) {
                None => return Ok(()),
                Some(far) => {
                    if !self.moves(far.unit) {
                        let stop = self.stop_at(flat, far);
                        self.stops.push(stop)?;
                        return Ok(());
                    }
                    unit = far.unit;
                }
            }
        }
        Ok(())
    }

    /// A stop of the chain.
    fn stop(&self, i: usize) -> Stop {
        if i < self.stops.len() {
            self.stops[i]
        } else {
            Stop {
                window: Window::at(0),
                rank: 0,
            }
        }
    }

    /// Finds the best ways along the stops.
    fn find_ways(&mut self, flat: &Flat) -> Result<(), AllocError> {
        self.ways.begin()?;
        self.noted.clear();
        self.noted.push(0)?;
        for i in 1..self.stops.len() {
            let noted = self.ways.noted();
            self.noted.push(noted)?;
            let (left, right) = (self.stop(i.wrapping_sub(1)), self.stop(i));
            self.ways.go(flat, left, right)?;
        }
        Ok(())
    }

    /// The slot of the stop before one, on the best way to a slot of it.
    fn slot_before(&self, i: usize, slot: usize) -> usize {
        if i < self.noted.len() {
            self.ways.slot_before(self.noted[i], slot)
        } else {
            0
        }
    }

    /// Moves the units of the chain along the best way.
    fn follow(&self, flat: &mut Flat) {
        let mut slot: usize = 0;
        for step in 0..self.units.len() {
            let i = self.units.len().saturating_sub(step);
            slot = self.slot_before(i.saturating_add(1), slot);
            let k = i.saturating_sub(1);
            if k < self.units.len() {
                let window = self.stop(i).window;
                move_unit(flat, self.units[k], window.own(), window.place_in(slot));
            }
        }
    }

    /// How many slots the stops have, each with each of the next: the work of the ways.
    fn work(&self) -> u64 {
        let mut work: u64 = 0;
        for i in 1..self.stops.len() {
            let (left, right) = (self.stop(i.wrapping_sub(1)).window, self.stop(i).window);
            let pairs = (left.slots() as u64).saturating_mul(right.slots() as u64);
            work = work.saturating_add(pairs);
        }
        work
    }

    /// Whether one of the chain's units is among these.
    fn has_one_of(&self, marked: &[bool]) -> bool {
        for unit in self.units.as_slice() {
            let unit = *unit as usize;
            if unit < marked.len() && marked[unit] {
                return true;
            }
        }
        false
    }

    /// Puts the chain that begins with a unit, if one begins there and crosses something, where it crosses least; each of its units
    /// moves so far at most. Tells the crossings that this takes away, and the work of it.
    pub(crate) fn reinsert(
        &mut self,
        flat: &mut Flat,
        crossing: &[bool],
        unit: u32,
        reach: usize,
    ) -> Result<(i64, u64), AllocError> {
        let before = match self.before(flat, unit) {
            None => return Ok((0, 1)),
            Some(far) => far,
        };
        self.list(flat, before, unit, reach)?;
        if !self.has_one_of(crossing) {
            return Ok((0, self.units.len() as u64));
        }
        self.find_ways(flat)?;
        let gain = self.ways.gain();
        if gain > 0 {
            self.follow(flat);
        }
        Ok((gain, self.work()))
    }

    /// The rows of the units.
    pub(crate) fn rows(&self) -> &[Span] {
        self.rows.as_slice()
    }
}
