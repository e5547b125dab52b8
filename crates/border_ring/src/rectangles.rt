//! Rectangles around what stands in a level.

use graph_draft::{Point, Size};
use route_curves::Frame;

/// The least rectangle around boxes and points, from its upper left corner to its lower right one.
#[derive(Clone, Copy, Drop)]
pub struct Bounds {
    pub low: Point,
    pub high: Point,
}

/// From where to where something reaches in a frame: `u` along the direction, `v` across.
#[derive(Clone, Copy, Drop)]
pub struct Reach {
    pub u0: f64,
    pub u1: f64,
    pub v0: f64,
    pub v1: f64,
}

impl Bounds {
    /// Around nothing.
    pub fn none() -> Bounds {
        Bounds {
            low: Point {
                x: f64::INFINITY,
                y: f64::INFINITY,
            },
            high: Point {
                x: f64::NEG_INFINITY,
                y: f64::NEG_INFINITY,
            },
        }
    }

    pub fn add_point(&mut self, point: Point) {
        self.add_box(point, Size::NONE);
    }

    pub fn add_box(&mut self, place: Point, size: Size) {
        self.low = Point {
            x: self.low.x.min(place.x),
            y: self.low.y.min(place.y),
        };
        self.high = Point {
            x: self.high.x.max(place.x + size.width),
            y: self.high.y.max(place.y + size.height),
        };
    }

    /// Whether nothing was added.
    pub fn is_empty(&self) -> bool {
        self.low.x > self.high.x
    }

    /// From where to where it reaches in a frame.
    pub fn reach(&self, frame: Frame) -> Reach {
        let (a, b) = (frame.of(self.low), frame.of(self.high));
        Reach {
            u0: a.u.min(b.u),
            u1: a.u.max(b.u),
            v0: a.v.min(b.v),
            v1: a.v.max(b.v),
        }
    }
}

/// A box in whole units around a box that may have fractions.
pub fn whole_box(place: Point, size: Size) -> (Point, Size) {
    let corner = Point {
        x: place.x.floor(),
        y: place.y.floor(),
    };
    let size = Size {
        width: (place.x + size.width).ceil() - corner.x,
        height: (place.y + size.height).ceil() - corner.y,
    };
    (corner, size)
}
