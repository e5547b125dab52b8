//! The places that a unit may take near where it stands.

use crate::flat::{Flat, Span, number_at};
use crate::neighbours::put_unit;
use std::alloc::{AllocError, Global};

/// Some consecutive places of a row, and which of them a unit has. The unit can stand above the first of the others, between two of
/// them, or below the last: these are its slots, from the top.
#[derive(Clone, Copy)]
pub(crate) struct Window {
    first: usize,
    last: usize,
    own: usize,
}

impl Window {
    /// The places of a row that are at most so far from a unit's own.
    pub(crate) fn around(row: Span, own: usize, reach: usize) -> Window {
        Window {
            first: own.saturating_sub(reach).max(row.first).min(own),
            last: own.saturating_add(reach).min(row.last).max(own),
            own,
        }
    }

    /// One place, at which a unit stays.
    pub(crate) fn at(own: usize) -> Window {
        Window {
            first: own,
            last: own,
            own,
        }
    }

    /// How many slots there are.
    pub(crate) fn slots(&self) -> usize {
        self.last.saturating_sub(self.first).saturating_add(1)
    }

    /// The slot in which the unit stands.
    pub(crate) fn slot(&self) -> usize {
        self.own.saturating_sub(self.first)
    }

    /// The place at which the unit stands in a slot.
    pub(crate) fn place_in(&self, slot: usize) -> usize {
        self.first.saturating_add(slot)
    }

    /// The place at which the unit stands.
    pub(crate) fn own(&self) -> usize {
        self.own
    }

    /// The unit below a slot.
    pub(crate) fn below(&self, flat: &Flat, slot: usize) -> u32 {
        let at = self.first.saturating_add(slot);
        let skips = (at >= self.own) as usize;
        number_at(flat.units.as_slice(), at.saturating_add(skips))
    }

    /// Whether a place is the unit's own.
    pub(crate) fn is_own(&self, place: usize) -> bool {
        place == self.own
    }

    /// Whether a place is above all slots.
    pub(crate) fn is_above(&self, place: usize) -> bool {
        place < self.first
    }

    /// How many slots are above another unit at a place.
    pub(crate) fn slots_above(&self, place: usize) -> usize {
        let skips = (place < self.own) as usize;
        place
            .saturating_add(skips)
            .saturating_sub(self.first)
            .min(self.slots())
    }
}

/// For each unit the row in which it stands.
pub(crate) fn rows_by_unit(alloc: Global, flat: &Flat) -> Result<Vec<Span>, AllocError> {
    let mut rows: Vec<Span> = Vec::with_capacity(alloc, flat.place.len())?;
    for place in flat.place.as_slice() {
        rows.push(Span {
            first: *place,
            last: *place,
        })?;
    }
    for r in 0..flat.rows.len() {
        note_row(flat, flat.row_at(r), rows.as_mut_slice());
    }
    Ok(rows)
}

/// Notes the row of its units.
fn note_row(flat: &Flat, row: Span, rows: &mut [Span]) {
    for i in row.first..row.last.saturating_add(1) {
        let unit = number_at(flat.units.as_slice(), i) as usize;
        if unit < rows.len() {
            rows[unit] = row;
        }
    }
}

/// The row of a unit.
pub(crate) fn row_of(rows: &[Span], unit: u32) -> Span {
    let unit = unit as usize;
    if unit < rows.len() {
        rows[unit]
    } else {
        Span { first: 0, last: 0 }
    }
}

/// Moves a unit down to a place; those between move up by one.
fn move_down(flat: &mut Flat, unit: u32, own: usize, to: usize) {
    for i in own..to {
        let next = number_at(flat.units.as_slice(), i.saturating_add(1));
        put_unit(flat, i, next);
    }
    put_unit(flat, to, unit);
}

/// Moves a unit up to a place; those between move down by one.
fn move_up(flat: &mut Flat, unit: u32, own: usize, to: usize) {
    for step in 0..own.saturating_sub(to) {
        let i = own.saturating_sub(step);
        let next = number_at(flat.units.as_slice(), i.saturating_sub(1));
        put_unit(flat, i, next);
    }
    put_unit(flat, to, unit);
}

/// Moves a unit to another place of its row.
pub(crate) fn move_unit(flat: &mut Flat, unit: u32, own: usize, to: usize) {
    if to > own {
        move_down(flat, unit, own, to);
    } else if to < own {
        move_up(flat, unit, own, to);
    }
}
