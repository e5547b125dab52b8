//! Which units have links that cross something.

use crate::fans::Far;
use crate::flat::{Flat, number_at, place_of};
use std::alloc::{AllocError, Global};

/// The least and the greatest place at far ends.
#[derive(Clone, Copy)]
struct Reach {
    least: usize,
    greatest: usize,
}

/// The least and the greatest place at these far ends.
fn reach_of(flat: &Flat, ends: &[Far]) -> Reach {
    let mut reach = Reach {
        least: usize::MAX,
        greatest: 0,
    };
    for far in ends {
        let place = place_of(flat.place.as_slice(), far.unit);
        reach = Reach {
            least: reach.least.min(place),
            greatest: reach.greatest.max(place),
        };
    }
    reach
}

/// Says of a unit that it has links that cross something.
fn mark(crossing: &mut [bool], unit: u32) {
    let unit = unit as usize;
    if unit < crossing.len() {
        crossing[unit] = true;
    }
}

/// Marks a unit and the far ends of its links to the right where these cross one of a unit above, whose far ends are at most at
/// this place.
fn mark_below(flat: &Flat, crossing: &mut [bool], unit: u32, ends: &[Far], greatest: usize) {
    for far in ends {
        if place_of(flat.place.as_slice(), far.unit) < greatest {
            mark(crossing, unit);
            mark(crossing, far.unit);
        }
    }
}

/// The same for those that cross one of a unit below, whose far ends are at least at this place.
fn mark_above(flat: &Flat, crossing: &mut [bool], unit: u32, ends: &[Far], least: usize) {
    for far in ends {
        if place_of(flat.place.as_slice(), far.unit) > least {
            mark(crossing, unit);
            mark(crossing, far.unit);
        }
    }
}

/// Marks what crosses links of units above it. The places of all rows ascend, so links of other rows don't matter.
fn mark_down(flat: &Flat, crossing: &mut [bool]) {
    let mut greatest: usize = 0;
    for unit in flat.units.as_slice() {
        let (_, ends) = flat.ends.of(*unit);
        mark_below(flat, crossing, *unit, ends, greatest);
        greatest = greatest.max(reach_of(flat, ends).greatest);
    }
}

/// Marks what crosses links of units below it.
fn mark_up(flat: &Flat, crossing: &mut [bool]) {
    let mut least: usize = usize::MAX;
    let count = flat.units.len();
    for step in 0..count {
        let i = count.saturating_sub(step).saturating_sub(1);
        let unit = number_at(flat.units.as_slice(), i);
        let (_, ends) = flat.ends.of(unit);
        mark_above(flat, crossing, unit, ends, least);
        least = least.min(reach_of(flat, ends).least);
    }
}

/// By unit, whether it has a link that crosses one of another unit.
pub(crate) fn crossing_units(alloc: Global, flat: &Flat) -> Result<Vec<bool>, AllocError> {
    let mut crossing: Vec<bool> = vec![in alloc; false; flat.place.len()]?;
    mark_down(flat, crossing.as_mut_slice());
    mark_up(flat, crossing.as_mut_slice());
    Ok(crossing)
}
