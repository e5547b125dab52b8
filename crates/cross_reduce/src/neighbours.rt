//! Neighbours of an order in one list: what their exchange brings, and exchanges that lower the crossings.

use crate::budget::Budget;
use crate::fans::Far;
use crate::flat::{Flat, Span, number_at, place_of, set_number, set_place};

/// The key of a far end.
fn key_of(place: &[usize], far: Far) -> u64 {
    (place_of(place, far.unit) as u64)
        .wrapping_mul(65536)
        .wrapping_add(far.rank as u64)
}

/// What an exchange brings by two links of two neighbours: one crossing more, one fewer, or none.
fn more_by_ends(upper: u64, lower: u64) -> i32 {
    ((upper < lower) as i32).wrapping_sub((upper > lower) as i32)
}

/// What it brings by one link of the upper and each of the lower.
fn more_by_end(place: &[usize], upper: u64, lower: &[Far]) -> i32 {
    let mut more: i32 = 0;
    for far in lower {
        more = more.wrapping_add(more_by_ends(upper, key_of(place, *far)));
    }
    more
}

/// What it brings by the links to one side.
fn more_by_side(place: &[usize], upper: &[Far], lower: &[Far]) -> i32 {
    if lower.is_empty() {
        return 0;
    }
    let mut more: i32 = 0;
    for far in upper {
        more = more.wrapping_add(more_by_end(place, key_of(place, *far), lower));
    }
    more
}

/// The pairs of links to one side, and two for the look at it.
fn looks_at(upper: &[Far], lower: &[Far]) -> u64 {
    let pairs = (upper.len() as u64).wrapping_mul(lower.len() as u64);
    pairs.wrapping_add(2)
}

/// How many more crossings the links of two units have where the one that stands above stands below, and how
/// many pairs of links were compared for that.
pub(crate) fn compare(flat: &Flat, upper: u32, lower: u32) -> (i32, u64) {
    let place = flat.place.as_slice();
    let (left, right) = flat.ends.of(upper);
    let (lower_left, lower_right) = flat.ends.of(lower);
    let by_left = more_by_side(place, left, lower_left);
    let by_right = more_by_side(place, right, lower_right);
    let looks = looks_at(left, lower_left).wrapping_add(looks_at(right, lower_right));
    (by_left.wrapping_add(by_right), looks)
}

/// Puts a unit at a place.
pub(crate) fn put_unit(flat: &mut Flat, i: usize, unit: u32) {
    set_number(flat.units.as_mut_slice(), i, unit);
    set_place(flat.place.as_mut_slice(), unit, i);
}

/// Exchanges the units at a place and at the next.
pub(crate) fn exchange_at(flat: &mut Flat, i: usize, upper: u32, lower: u32) {
    put_unit(flat, i, lower);
    put_unit(flat, i.wrapping_add(1), upper);
}

/// Exchanges a unit and the one below it where that lowers the crossings, as long as there is work left;
/// tells the unit that is the lower one then.
fn lower_at(flat: &mut Flat, i: usize, upper: u32, budget: &mut Budget) -> u32 {
    let lower = number_at(flat.units.as_slice(), i.wrapping_add(1));
    if budget.is_spent() {
        return lower;
    }
    let (more, looks) = compare(flat, upper, lower);
    budget.spend(looks);
    if more < 0 {
        exchange_at(flat, i, upper, lower);
        return upper;
    }
    lower
}

/// Exchanges neighbours of a row where that lowers the crossings, from the top.
fn lower_row(flat: &mut Flat, row: Span, budget: &mut Budget) {
    let mut upper = number_at(flat.units.as_slice(), row.first);
    for i in row.first..row.last {
        upper = lower_at(flat, i, upper, budget);
    }
}

/// Exchanges neighbours of each row where that lowers the crossings, once from the top.
pub(crate) fn lower_rows(flat: &mut Flat, budget: &mut Budget) {
    for r in 0..flat.rows.len() {
        let row = flat.row_at(r);
        lower_row(flat, row, budget);
    }
}
