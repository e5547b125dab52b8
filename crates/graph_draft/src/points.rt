//! Points, sizes and routes, in document units. y grows downwards.

use std::alloc::{AllocError, Global};

/// A place.
#[derive(Clone, Copy, Drop)]
pub struct Point {
    pub x: f64,
    pub y: f64,
}

/// A width and a height.
#[derive(Clone, Copy, Drop)]
pub struct Size {
    pub width: f64,
    pub height: f64,
}

impl Point {
    /// Whether two points are one.
    pub fn is_at(self, other: Point) -> bool {
        self.x == other.x && self.y == other.y
    }

    /// The point as far from `origin` as this one is from the point 0, 0.
    pub fn moved(self, origin: Point) -> Point {
        Point {
            x: self.x + origin.x,
            y: self.y + origin.y,
        }
    }
}

impl Size {
    /// No width and no height.
    pub const NONE: Size = Size {
        width: 0.0,
        height: 0.0,
    };
}

fn is_on_line(before: Point, point: Point, after: Point) -> bool {
    let is_upright = before.x == point.x && point.x == after.x;
    let is_level = before.y == point.y && point.y == after.y;
    is_upright || is_level
}

// Whether the last point of a route lies on the line from the one before it to another point.
fn goes_straight(kept: &[Point], after: Point) -> bool {
    match kept.len().checked_sub(2) {
        Some(at) => match (kept.get(at), kept.last()) {
            (Some(before), Some(last)) => is_on_line(*before, *last, after),
            _ => false,
        },
        None => false,
    }
}

fn ends_at(kept: &[Point], point: Point) -> bool {
    match kept.last() {
        Some(last) => last.is_at(point),
        None => false,
    }
}

/// A route without the points at which it doesn't turn.
pub fn tidy(alloc: Global, points: &[Point]) -> Result<Vec<Point>, AllocError> {
    let mut kept: Vec<Point> = Vec::new(alloc);
    for point in points {
        if ends_at(kept.as_slice(), *point) {
            continue;
        }
        if goes_straight(kept.as_slice(), *point) {
            kept.pop();
        }
        kept.push(*point)?;
    }
    Ok(kept)
}
