//! The least rectangles around boxes and points.

use graph_draft::{Point, Size};

// The least rectangle around what was added.
#[derive(Clone, Copy, Drop)]
pub(crate) struct Bounds {
    pub(crate) low: Point,
    high: Point,
}

impl Bounds {
    // Around nothing.
    pub(crate) fn none() -> Bounds {
        Bounds {
            low: Point {
                x: f64::INFINITY,
                y: f64::INFINITY,
            },
            high: Point {
                x: f64::NEG_INFINITY,
                y: f64::NEG_INFINITY,
            },
        }
    }

    pub(crate) fn add(&mut self, place: Point, size: Size) {
        self.low = Point {
            x: self.low.x.min(place.x),
            y: self.low.y.min(place.y),
        };
        self.high = Point {
            x: self.high.x.max(place.x + size.width),
            y: self.high.y.max(place.y + size.height),
        };
    }

    pub(crate) fn size(&self) -> Size {
        Size {
            width: self.high.x - self.low.x,
            height: self.high.y - self.low.y,
        }
    }
}
