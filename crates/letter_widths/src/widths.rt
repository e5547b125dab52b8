//! The width of texts in the font of pictures, summed up letter by letter.

use crate::table::{ASCII_WIDTHS, OTHER_WIDTH, WIDTHS};
use std::alloc::{AllocError, Global};
use std::num::nearest_u64_to_f64;

// The width of a letter beyond ASCII.
fn width_of_other(code: u32) -> u16 {
    let at = WIDTHS.partition_point(|(_, last, _)| *last < code);
    match WIDTHS.get(at) {
        Some((first, _, width)) if *first <= code => *width,
        _ => OTHER_WIDTH,
    }
}

fn width_of_letter(letter: char) -> u64 {
    match ASCII_WIDTHS.get(letter as usize) {
        Some(width) => u64::from(*width),
        None => u64::from(width_of_other(letter as u32)),
    }
}

fn sized(thousandths: u64, size: f64) -> f64 {
    nearest_u64_to_f64(thousandths) * size / 1000.0
}

/// The width of one line of text in letters of a size, in the same units.
pub fn width_of(text: &str, size: f64) -> f64 {
    let mut thousandths = 0u64;
    for letter in text.chars() {
        thousandths = thousandths.saturating_add(width_of_letter(letter));
    }
    sized(thousandths, size)
}

/// As many of the first letters of a text as fit a width, and at least one.
pub fn begin(alloc: Global, text: &str, width: f64, size: f64) -> Result<String, AllocError> {
    let mut fit = String::new(alloc);
    let mut thousandths = 0u64;
    for letter in text.chars() {
        thousandths = thousandths.saturating_add(width_of_letter(letter));
        if !fit.is_empty() && sized(thousandths, size) > width {
            break;
        }
        fit.push(letter)?;
    }
    Ok(fit)
}
