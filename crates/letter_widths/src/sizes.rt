//! The sizes of letters that labels ask for.

use crate::table::TEXT_LARGEST;

// The least and the greatest size.
const LEAST: f64 = 1.0;

const GREATEST: f64 = 1000.0;

/// The size that is asked for, if any; nothing if letters can't have it.
pub fn asked_size(asked: Option<f64>) -> Option<f64> {
    match asked {
        Some(size) if size >= LEAST && size <= GREATEST => Some(size),
        _ => None,
    }
}

/// The size of a label's letters, if there is room: the one that it asks for, or else that of the largest letters of pictures.
pub fn letter_size(asked: Option<f64>) -> f64 {
    asked_size(asked).unwrap_or(TEXT_LARGEST)
}
