//! Exchanges of neighbours that change no crossing and shorten the links.
//!
//! Annealing lets units pass each other where nothing crosses either way. In the end such neighbours are put so that their links
//! are short, as if each row stood with its middle at one height.

use crate::fans::Far;
use crate::flat::{Flat, Span, number_at, place_of, set_place};
use crate::held_starts::is_held;
use crate::joints::Joints;
use crate::neighbours::{compare, exchange_at};
use std::alloc::{AllocError, Global};

/// Notes of the units of a row the places of its first and its last together.
fn note_row(flat: &Flat, row: Span, sums: &mut [usize]) {
    let sum = row.first.wrapping_add(row.last);
    for i in row.first..row.last.saturating_add(1) {
        set_place(sums, number_at(flat.units.as_slice(), i), sum);
    }
}

/// By unit, the places of the first and the last of its row together.
fn sums_of_rows(alloc: Global, flat: &Flat) -> Result<Vec<usize>, AllocError> {
    let mut sums: Vec<usize> = Vec::with_capacity(alloc, flat.place.len())?;
    for place in flat.place.as_slice() {
        sums.push(place.wrapping_mul(2))?;
    }
    for r in 0..flat.rows.len() {
        note_row(flat, flat.row_at(r), sums.as_mut_slice());
    }
    Ok(sums)
}

/// The difference of two numbers.
fn difference(one: usize, other: usize) -> usize {
    if one < other {
        other.wrapping_sub(one)
    } else {
        one.wrapping_sub(other)
    }
}

/// How high the links of a unit are together, in halves of places, if it stands at a place; these links lead to one side.
fn heights_to(flat: &Flat, sums: &[usize], unit: u32, at: usize, ends: &[Far]) -> usize {
    let mut heights: usize = 0;
    for far in ends {
        let near_at = at.wrapping_mul(2).wrapping_add(place_of(sums, far.unit));
        let far_at = place_of(flat.place.as_slice(), far.unit)
            .wrapping_mul(2)
            .wrapping_add(place_of(sums, unit));
        heights = heights.wrapping_add(difference(near_at, far_at));
    }
    heights
}

/// The same for the links to both sides.
fn heights_at(flat: &Flat, sums: &[usize], unit: u32, at: usize) -> usize {
    let (left, right) = flat.ends.of(unit);
    let to_left = heights_to(flat, sums, unit, at, left);
    to_left.wrapping_add(heights_to(flat, sums, unit, at, right))
}

/// Whether two neighbours have shorter links the other way round.
fn is_shorter(flat: &Flat, sums: &[usize], i: usize, upper: u32, lower: u32) -> bool {
    let next = i.wrapping_add(1);
    let now = heights_at(flat, sums, upper, i).wrapping_add(heights_at(flat, sums, lower, next));
    let then = heights_at(flat, sums, upper, next).wrapping_add(heights_at(flat, sums, lower, i));
    then < now
}

/// Whether as much crosses, by weight, where two neighbours are exchanged.
fn is_even(flat: &Flat, joints: &Joints, upper: u32, lower: u32) -> bool {
    let (more, _) = compare(flat, upper, lower);
    more.wrapping_add(joints.more_of(flat, upper, lower)) == 0
}

/// Exchanges a unit and the one below it where that shortens links and changes no crossing; tells whether it did.
fn shorten_at(flat: &mut Flat, joints: &Joints, held: &[bool], sums: &[usize], i: usize) -> bool {
    let upper = number_at(flat.units.as_slice(), i);
    let lower = number_at(flat.units.as_slice(), i.wrapping_add(1));
    if is_held(held, upper) && is_held(held, lower) {
        return false;
    }
    if !is_even(flat, joints, upper, lower) || !is_shorter(flat, sums, i, upper, lower) {
        return false;
    }
    exchange_at(flat, i, upper, lower);
    true
}

/// The same for all neighbours of a row, from the top.
fn shorten_row(flat: &mut Flat, joints: &Joints, held: &[bool], sums: &[usize], row: Span) -> bool {
    let mut changed = false;
    for i in row.first..row.last {
        changed = shorten_at(flat, joints, held, sums, i) || changed;
    }
    changed
}

/// The same for all rows.
fn shorten_rows(flat: &mut Flat, joints: &Joints, held: &[bool], sums: &[usize]) -> bool {
    let mut changed = false;
    for r in 0..flat.rows.len() {
        let row = flat.row_at(r);
        changed = shorten_row(flat, joints, held, sums, row) || changed;
    }
    changed
}

/// Exchanges neighbours that cross as much either way where that shortens links, up to eight times from the top.
pub(crate) fn shorten(
    alloc: Global,
    flat: &mut Flat,
    joints: &Joints,
    held: &[bool],
) -> Result<(), AllocError> {
    let sums = sums_of_rows(alloc, flat)?;
    for _ in 0..8_u64 {
        if !shorten_rows(flat, joints, held, sums.as_slice()) {
            return Ok(());
        }
    }
    Ok(())
}
