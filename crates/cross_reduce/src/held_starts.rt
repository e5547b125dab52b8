//! Where free units stand at first beside held ones: at the mean height of what they are linked to.

use crate::fans::Far;
use crate::flat::{Flat, Span, number_at};
use crate::starts::reorder_row;
use crate::tallying::crossings_in;
use std::alloc::{AllocError, Global};

/// The height of a row, from its first held unit to its last.
const HEIGHT: u64 = 1_048_576;

/// How often heights are evened out.
const TURNS: u64 = 24;

/// Whether a unit is held, by a list of all units.
pub(crate) fn is_held(held: &[bool], unit: u32) -> bool {
    let unit = unit as usize;
    unit < held.len() && held[unit]
}

/// The height of a unit.
fn height_of(heights: &[u64], unit: u32) -> u64 {
    let unit = unit as usize;
    if unit < heights.len() {
        heights[unit]
    } else {
        0
    }
}

/// Sets the height of a unit.
fn set_height(heights: &mut [u64], unit: u32, height: u64) {
    let unit = unit as usize;
    if unit < heights.len() {
        heights[unit] = height;
    }
}

/// How many units of a row are held.
fn held_in(flat: &Flat, held: &[bool], row: Span) -> u64 {
    let mut count: u64 = 0;
    for i in row.first..row.last.saturating_add(1) {
        let unit = number_at(flat.units.as_slice(), i);
        count = count.saturating_add(is_held(held, unit) as u64);
    }
    count
}

/// Puts the held units of a row at equal distances.
fn spread_row(flat: &Flat, held: &[bool], row: Span, heights: &mut [u64]) {
    let parts = held_in(flat, held, row).saturating_add(1);
    let mut before: u64 = 0;
    for i in row.first..row.last.saturating_add(1) {
        let unit = number_at(flat.units.as_slice(), i);
        if is_held(held, unit) {
            before = before.saturating_add(1);
            set_height(heights, unit, before.saturating_mul(HEIGHT) / parts.max(1));
        }
    }
}

/// The sum of the heights of these far ends.
fn sum_of(heights: &[u64], ends: &[Far]) -> u64 {
    let mut sum: u64 = 0;
    for far in ends {
        sum = sum.saturating_add(height_of(heights, far.unit));
    }
    sum
}

/// The mean height of what a unit is linked to, those to each side together counting as much as those to the other.
fn mean_height(flat: &Flat, heights: &[u64], unit: u32) -> u64 {
    let (left, right) = flat.ends.of(unit);
    let by_left = sum_of(heights, left) / (left.len() as u64).max(1);
    let by_right = sum_of(heights, right) / (right.len() as u64).max(1);
    if left.is_empty() && right.is_empty() {
        return height_of(heights, unit);
    }
    if left.is_empty() {
        return by_right;
    }
    if right.is_empty() {
        return by_left;
    }
    by_left.saturating_add(by_right) / 2
}

/// Puts a unit at the mean height of what it is linked to, if it is free.
fn even_out(flat: &Flat, held: &[bool], heights: &mut [u64], unit: u32) {
    if !is_held(held, unit) {
        let height = mean_height(flat, heights, unit);
        set_height(heights, unit, height);
    }
}

/// Evens out the heights of all free units, from the left to the right and back.
fn even_out_all(flat: &Flat, held: &[bool], heights: &mut [u64]) {
    let count = flat.units.len();
    for i in 0..count {
        even_out(flat, held, heights, number_at(flat.units.as_slice(), i));
    }
    for step in 0..count {
        let i = count.saturating_sub(step).saturating_sub(1);
        even_out(flat, held, heights, number_at(flat.units.as_slice(), i));
    }
}

/// The heights of all units, where those of held ones are known.
fn evened_out(flat: &Flat, held: &[bool], heights: &mut [u64]) {
    for _ in 0..TURNS {
        even_out_all(flat, held, heights);
    }
}

/// The heights of all units, where the held ones of each row stand at equal distances.
fn heights_by_rows(alloc: Global, flat: &Flat, held: &[bool]) -> Result<Vec<u64>, AllocError> {
    let mut heights: Vec<u64> = vec![in alloc; HEIGHT / 2; flat.place.len()]?;
    for r in 0..flat.rows.len() {
        spread_row(flat, held, flat.row_at(r), heights.as_mut_slice());
    }
    evened_out(flat, held, heights.as_mut_slice());
    Ok(heights)
}

/// A key, or another number where there is none.
fn key_or(key: Option<i64>, other: i64) -> i64 {
    match key {
        Some(key) => key,
        None => other,
    }
}

/// The least key of a held unit, or the greatest number where none is held.
fn least_key(keys: &[Option<i64>]) -> i64 {
    let mut least = i64::MAX;
    for key in keys {
        least = least.min(key_or(*key, i64::MAX));
    }
    least
}

/// How far a key is above the least one, in parts of 1,024.
fn height_by_key(key: i64, least: i64) -> u64 {
    match u64::try_from(key.saturating_sub(least)) {
        Ok(height) => height.saturating_mul(1024),
        Err(_) => 0,
    }
}

/// The heights of all units, where held ones stand as high as their keys say.
fn heights_by_keys(
    alloc: Global,
    flat: &Flat,
    held: &[bool],
    keys: &[Option<i64>],
) -> Result<Vec<u64>, AllocError> {
    let least = least_key(keys);
    let mut heights: Vec<u64> = Vec::with_capacity(alloc, keys.len())?;
    for key in keys {
        heights.push(height_by_key(key_or(*key, least), least))?;
    }
    evened_out(flat, held, heights.as_mut_slice());
    Ok(heights)
}

/// Puts the units of each row in order by their heights.
fn order_by(alloc: Global, flat: &mut Flat, heights: &[u64]) -> Result<(), AllocError> {
    let mut list = Vec::new(alloc);
    for r in 0..flat.rows.len() {
        let row = flat.row_at(r);
        reorder_row(flat, row, heights, &mut list)?;
    }
    Ok(())
}

/// Puts the free units of each row among the held ones, by the mean heights of what they are linked to. Held units, which stand in
/// the order of their keys, keep their order.
///
/// Keys may be heights of an earlier drawing, or no more than numbers of an order. So they are tried as heights, and so are equal
/// distances in each row; where fewer links cross, free units stand then.
pub(crate) fn place_free(
    alloc: Global,
    flat: &mut Flat,
    held: &[bool],
    keys: &[Option<i64>],
) -> Result<(), AllocError> {
    let by_keys = heights_by_keys(alloc, flat, held, keys)?;
    let by_rows = heights_by_rows(alloc, flat, held)?;
    order_by(alloc, flat, by_rows.as_slice())?;
    let crossings = crossings_in(alloc, flat)?;
    order_by(alloc, flat, by_keys.as_slice())?;
    if crossings < crossings_in(alloc, flat)? {
        return order_by(alloc, flat, by_rows.as_slice());
    }
    Ok(())
}
