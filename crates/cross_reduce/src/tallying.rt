//! The crossings of an order in one list, where no pins are ranked.

use crate::flat::{Flat, place_of};
use elk_layers::Layered;
use lane_count::count_above;
use std::alloc::{AllocError, Global};

/// Whether some link's pin is ranked, so that links that share a unit may cross.
pub(crate) fn has_ranks(layered: &Layered) -> bool {
    for link in layered.links.as_slice() {
        if link.tail_rank != 0 || link.head_rank != 0 {
            return true;
        }
    }
    false
}

/// The left ends of links that were counted, by their places, and where those begin that later links may cross.
#[derive(Drop)]
struct Tally {
    ends: Vec<u32>,
    begin: usize,
    first: usize,
    total: u64,
}

/// A place as a number of 32 bits; no level has as many units.
fn short(place: usize) -> u32 {
    match u32::try_from(place) {
        Ok(short) => short,
        Err(_) => u32::MAX,
    }
}

impl Tally {
    /// How many of the ends that were counted are below a place.
    fn below(&self, place: u32, until: usize) -> u64 {
        let ends = self.ends.as_slice();
        if self.begin <= until && until <= ends.len() {
            return count_above(&ends[self.begin..until], place);
        }
        0
    }

    /// Counts the links of a unit to the left. If they begin in the row of the units that were counted since `first`, they can't
    /// cross links of the rows before.
    fn add(&mut self, flat: &Flat, unit: u32, at: usize) -> Result<(), AllocError> {
        let (ends, _) = flat.ends.of(unit);
        let until = self.ends.len();
        for far in ends {
            let place = place_of(flat.place.as_slice(), far.unit);
            if place >= self.first {
                self.begin = until;
                self.first = at;
            }
            self.total = self.total.saturating_add(self.below(short(place), until));
            self.ends.push(short(place))?;
        }
        Ok(())
    }
}

/// How many pairs of links cross, if no pins are ranked.
pub(crate) fn crossings_in(alloc: Global, flat: &Flat) -> Result<u64, AllocError> {
    let mut counted = Tally {
        ends: Vec::with_capacity(alloc, flat.ends.len() / 2)?,
        begin: 0,
        first: 0,
        total: 0,
    };
    for (at, unit) in flat.units.as_slice().iter().enumerate() {
        counted.add(flat, *unit, at)?;
    }
    Ok(counted.total)
}
