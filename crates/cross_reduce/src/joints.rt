//! Joints of long edges, and which of their crossings weigh more.
//!
//! Where two pieces of long edges cross between two layers, one of the edges has to turn there. So such a crossing costs more than
//! one at an end of an edge, which turns there anyhow.

use crate::fans::Far;
use crate::flat::{Flat, place_of};
use std::alloc::{AllocError, Global};

/// By unit, whether it is a joint of a long edge: a unit that has one link to each side. The list is empty as long as all
/// crossings weigh the same.
#[derive(Drop)]
pub(crate) struct Joints {
    list: Vec<bool>,
}

/// Whether a unit has one link to each side.
fn has_two_links(flat: &Flat, unit: u32) -> bool {
    let (left, right) = flat.ends.of(unit);
    left.len() == 1 && right.len() == 1
}

/// The same by the place of a unit in a list of all units.
fn has_two_links_at(flat: &Flat, i: usize) -> bool {
    match u32::try_from(i) {
        Ok(unit) => has_two_links(flat, unit),
        Err(_) => false,
    }
}

/// How an exchange of two far ends changes whether their links cross: one crossing more, or one fewer.
fn more_by_units(place: &[usize], upper: u32, lower: u32) -> i32 {
    if place_of(place, upper) < place_of(place, lower) {
        1
    } else {
        -1
    }
}

impl Joints {
    /// No unit counts as a middle.
    pub(crate) fn none(alloc: Global) -> Joints {
        Joints {
            list: Vec::new(alloc),
        }
    }

    /// The joints among all units.
    pub(crate) fn of(alloc: Global, flat: &Flat) -> Result<Joints, AllocError> {
        let mut list: Vec<bool> = Vec::with_capacity(alloc, flat.place.len())?;
        for i in 0..flat.place.len() {
            list.push(has_two_links_at(flat, i))?;
        }
        Ok(Joints { list })
    }

    /// Whether a unit is known as a middle.
    pub(crate) fn has(&self, unit: u32) -> bool {
        let unit = unit as usize;
        unit < self.list.len() && self.list[unit]
    }

    /// Whether two units are known as joints.
    pub(crate) fn have(&self, one: u32, other: u32) -> bool {
        self.has(one) && self.has(other)
    }

    /// What an exchange of two joints brings once more by their links to one side, where these lead to joints.
    fn more_by_side(&self, place: &[usize], upper: &[Far], lower: &[Far]) -> i32 {
        if upper.is_empty() || lower.is_empty() {
            return 0;
        }
        let (above, below) = (upper[0].unit, lower[0].unit);
        if !self.have(above, below) {
            return 0;
        }
        more_by_units(place, above, below)
    }

    /// What an exchange of two units brings once more, where both are joints, by their links to other joints.
    pub(crate) fn more_of(&self, flat: &Flat, upper: u32, lower: u32) -> i32 {
        if !self.have(upper, lower) {
            return 0;
        }
        let place = flat.place.as_slice();
        let (left, right) = flat.ends.of(upper);
        let (lower_left, lower_right) = flat.ends.of(lower);
        let by_left = self.more_by_side(place, left, lower_left);
        by_left.wrapping_add(self.more_by_side(place, right, lower_right))
    }
}
