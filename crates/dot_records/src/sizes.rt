//! How large texts are.

use letter_widths::width_of;
use std::num::nearest_usize_to_f64;

// The height of a line, in sizes of its letters.
const LINE: f64 = 1.2;

/// A width and a height in points, of which 72 are an inch.
#[derive(Clone, Copy, Debug, Drop, PartialEq)]
pub struct Extent {
    pub width: f64,
    pub height: f64,
}

/// The size of a text of several lines in letters of a size. An empty text has none.
pub fn extent_of(text: &str, size: f64) -> Extent {
    let mut width = 0.0f64;
    let mut lines = 0usize;
    for line in text.split("\n") {
        width = width.max(width_of(line, size));
        lines = lines.saturating_add(1);
    }
    if text.is_empty() {
        return Extent {
            width: 0.0,
            height: 0.0,
        };
    }
    Extent {
        width,
        height: nearest_usize_to_f64(lines) * size * LINE,
    }
}
