//! Points and boxes, and how they are written.

use crate::decimal::Decimal;
use std::alloc::AllocError;
use std::fmt;

#[derive(Clone, Copy, Drop)]
pub(crate) struct Point {
    pub(crate) x: f64,
    pub(crate) y: f64,
}

// A box in the whole drawing.
#[derive(Clone, Copy, Drop)]
pub(crate) struct Rect {
    pub(crate) left: f64,
    pub(crate) top: f64,
    pub(crate) width: f64,
    pub(crate) height: f64,
}

impl Point {
    pub(crate) fn is_at(self, other: Point) -> bool {
        self.x == other.x && self.y == other.y
    }

    pub(crate) fn moved(self, by: Point) -> Point {
        Point {
            x: self.x + by.x,
            y: self.y + by.y,
        }
    }
}

impl Rect {
    pub(crate) fn origin(self) -> Point {
        Point {
            x: self.left,
            y: self.top,
        }
    }

    pub(crate) fn right(self) -> f64 {
        self.left + self.width
    }

    pub(crate) fn bottom(self) -> f64 {
        self.top + self.height
    }

    pub(crate) fn middle(self) -> Point {
        Point {
            x: self.left + self.width / 2.0,
            y: self.top + self.height / 2.0,
        }
    }

    // The part of a box that lies within another one.
    pub(crate) fn within(self, other: Rect) -> Rect {
        let left = self.left.max(other.left);
        let top = self.top.max(other.top);
        Rect {
            left,
            top,
            width: self.right().min(other.right()) - left,
            height: self.bottom().min(other.bottom()) - top,
        }
    }

    // The box at a distance within; nothing if there is no room for it.
    pub(crate) fn shrunk(self, by: f64) -> Option<Rect> {
        let width = self.width - 2.0 * by;
        let height = self.height - 2.0 * by;
        if width > 0.0 && height > 0.0 {
            Some(Rect {
                left: self.left + by,
                top: self.top + by,
                width,
                height,
            })
        } else {
            None
        }
    }

    pub(crate) fn holds(self, point: Point) -> bool {
        self.left <= point.x
            && point.x <= self.right()
            && self.top <= point.y
            && point.y <= self.bottom()
    }
}

impl fmt::Display for Point {
    fn fmt<W: fmt::Write>(&self, f: &mut fmt::Formatter<W>) -> fmt::Result {
        let x = Decimal(self.x);
        let y = Decimal(self.y);
        write!(f, "{x} {y}")
    }
}

// The length of a line, rounded as JavaScript does.
pub(crate) fn length_of(from: Point, to: Point) -> f64 {
    let (across, along) = ((to.x - from.x).abs(), (to.y - from.y).abs());
    let most = across.max(along);
    if most == 0.0 {
        return 0.0;
    }
    let first = across / most * (across / most);
    let share = along / most;
    let second = share * share;
    (first + second).sqrt() * most
}

// The point at a distance from one point towards another.
pub(crate) fn towards(from: Point, to: Point, distance: f64) -> Point {
    let length = length_of(from, to);
    let length = if length == 0.0 { 1.0 } else { length };
    Point {
        x: from.x + (to.x - from.x) * distance / length,
        y: from.y + (to.y - from.y) * distance / length,
    }
}

// The start of a rectangle, up to its size.
pub(crate) fn write_rectangle(out: &mut String, at: Rect) -> Result<(), AllocError> {
    let left = Decimal(at.left);
    let top = Decimal(at.top);
    let width = Decimal(at.width);
    let height = Decimal(at.height);
    write!(
        out,
        "<rect x=\"{left}\" y=\"{top}\" width=\"{width}\" height=\"{height}\""
    )
}
