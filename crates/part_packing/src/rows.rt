//! Boxes in rows from left to right, in their order.

use graph_draft::{Point, Size};
use std::alloc::{AllocError, Global};

// So often is the range of widths halved, which leaves less than one unit of it.
const HALVINGS: usize = 32;

/// Where boxes stand in rows.
#[derive(Drop)]
pub struct Rows {
    /// The place of each box, from the corner of the rows on.
    pub places: Vec<Point>,
    /// The size of all rows together.
    pub size: Size,
}

impl Rows {
    // The width of the least rectangle of a ratio that holds the rows.
    fn needs(&self, ratio: f64) -> f64 {
        self.size.width.max(self.size.height * ratio)
    }
}

// Rows of which none is wider than a limit, unless it has one box.
fn rows_of(alloc: Global, boxes: &[Size], gap: f64, limit: f64) -> Result<Rows, AllocError> {
    let mut rows = Rows {
        places: Vec::new(alloc),
        size: Size::NONE,
    };
    let mut next = Point { x: 0.0, y: 0.0 };
    let mut height: f64 = 0.0;
    for it in boxes {
        if next.x > 0.0 && next.x + it.width > limit {
            next = Point {
                x: 0.0,
                y: next.y + height + gap,
            };
            height = 0.0;
        }
        rows.places.push(next)?;
        rows.size.width = rows.size.width.max(next.x + it.width);
        rows.size.height = rows.size.height.max(next.y + it.height);
        next.x += it.width + gap;
        height = height.max(it.height);
    }
    Ok(rows)
}

/// The rows that fit a rectangle of this ratio of width to height with the least of it left over. `gap` is the room between two
/// boxes.
pub fn rows_for(alloc: Global, boxes: &[Size], gap: f64, ratio: f64) -> Result<Rows, AllocError> {
    let (mut low, mut high): (f64, f64) = (0.0, 0.0);
    for it in boxes {
        low = low.max(it.width);
        high = high + it.width + gap;
    }
    for _ in 0..HALVINGS {
        if low >= high {
            break;
        }
        let middle = ((low + high) / 2.0).floor();
        let size = rows_of(alloc, boxes, gap, middle)?.size;
        if size.width < size.height * ratio {
            low = middle + 1.0;
        } else {
            high = middle;
        }
    }
    let narrow = rows_of(alloc, boxes, gap, (low - 1.0).max(0.0))?;
    let wide = rows_of(alloc, boxes, gap, low)?;
    if narrow.needs(ratio) < wide.needs(ratio) {
        Ok(narrow)
    } else {
        Ok(wide)
    }
}
