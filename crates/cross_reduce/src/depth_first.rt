//! Numbers of the units by a depth-first search along the links, as a search for orders starts from them.
//!
//! Units that hang together get numbers near each other, so a tree has an order without crossings by them (dot and others start
//! from such orders too: Gansner, Koutsofios, North and Vo 1993).

use crate::fans::Far;
use crate::flat::Flat;
use crate::lots::Lots;
use std::alloc::{AllocError, Global};

/// The number of a unit that isn't visited yet.
const LATER: u64 = u64::MAX;

/// The numbers of the units that are visited, the next number, and the units that wait, the last of which is visited first.
#[derive(Drop)]
struct Visits {
    numbers: Vec<u64>,
    next: u64,
    waiting: Vec<u32>,
    lots: Lots,
}

impl Visits {
    /// Whether a unit isn't visited yet.
    fn is_new(&self, unit: u32) -> bool {
        let unit = unit as usize;
        unit < self.numbers.len() && self.numbers[unit] == LATER
    }

    /// Gives a unit the next number.
    fn number(&mut self, unit: u32) {
        let unit = unit as usize;
        if unit < self.numbers.len() {
            self.numbers[unit] = self.next;
        }
        self.next = self.next.wrapping_add(1);
    }

    /// Has a unit wait, if it isn't visited yet.
    fn add(&mut self, unit: u32) -> Result<(), AllocError> {
        if self.is_new(unit) {
            self.waiting.push(unit)?;
        }
        Ok(())
    }

    /// Has the units at some far ends wait, these from the first or from the last.
    fn add_ends(&mut self, ends: &[Far], from_last: bool) -> Result<(), AllocError> {
        for i in 0..ends.len() {
            let at = if from_last { ends.len() - 1 - i } else { i };
            self.add(ends[at].unit)?;
        }
        Ok(())
    }

    /// Visits a unit, if that isn't done yet: those that it is linked to wait then, by a lot those on one side before the others.
    fn visit(&mut self, flat: &Flat, unit: u32) -> Result<(), AllocError> {
        if !self.is_new(unit) {
            return Ok(());
        }
        self.number(unit);
        let (left, right) = flat.ends.of(unit);
        let lot = self.lots.draw();
        let (left_flipped, right_flipped) = (lot / 2 % 2 == 1, lot / 4 % 2 == 1);
        if lot % 2 == 0 {
            self.add_ends(left, left_flipped)?;
            self.add_ends(right, right_flipped)
        } else {
            self.add_ends(right, right_flipped)?;
            self.add_ends(left, left_flipped)
        }
    }

    /// Visits a unit and all that it hangs together with.
    fn visit_from(&mut self, flat: &Flat, unit: u32) -> Result<(), AllocError> {
        self.visit(flat, unit)?;
        for _ in 0..flat.ends.len() {
            match self.waiting.pop() {
                Some(next) => self.visit(flat, next)?,
                None => return Ok(()),
            }
        }
        Ok(())
    }
}

/// How many units there are, or none where they are too many.
fn count_of(flat: &Flat) -> u32 {
    match u32::try_from(flat.place.len()) {
        Ok(count) => count,
        Err(_) => 0,
    }
}

/// A unit among so many, by a lot.
fn first_of(lots: &mut Lots, count: u32) -> u32 {
    match u32::try_from(lots.draw()) {
        Ok(lot) => lot % count.max(1),
        Err(_) => 0,
    }
}

/// By unit, the number at which it is visited from a unit and along links that a seed chooses.
pub(crate) fn visit_numbers(alloc: Global, flat: &Flat, seed: u64) -> Result<Vec<u64>, AllocError> {
    let count = count_of(flat);
    let mut lots = Lots::of_seed(seed);
    let first = first_of(&mut lots, count);
    let mut visits = Visits {
        numbers: vec![in alloc; LATER; flat.place.len()]?,
        next: 0,
        waiting: Vec::new(alloc),
        lots,
    };
    for i in 0..count {
        visits.visit_from(flat, first.wrapping_add(i) % count)?;
    }
    Ok(visits.numbers)
}
