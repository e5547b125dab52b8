//! Editors measure fractions, and the engine takes whole numbers: sizes are rounded up, so that everything has the room that it was
//! measured to need, and places of ports to the nearest.

use crate::points::{Point, Size};

// Two measures that differ by less are the same place. Sums of fractions are seldom exact.
const NOISE: f64 = 0.000001;

/// A length rounded up, without the negative zero.
pub fn rounded_up(length: f64) -> f64 {
    length.ceil() + 0.0
}

/// A number rounded to the nearest whole one, halves up.
pub fn rounded(number: f64) -> f64 {
    let floor = number.floor();
    if number - floor >= 0.5 {
        floor + 1.0
    } else {
        floor + 0.0
    }
}

/// A size rounded up.
pub fn whole_size(size: Size) -> Size {
    Size {
        width: rounded_up(size.width),
        height: rounded_up(size.height),
    }
}

// A port that touched or crossed its node's right or lower side still does, and one that ended within still ends there: rounded by
// itself it might fall just inside the node, where the engine refuses it.
fn whole_place(place: f64, length: f64, room: f64) -> f64 {
    let near = rounded(place);
    let border = room.ceil() - length.ceil();
    let beyond = place + length - room;
    if beyond.abs() < NOISE {
        border
    } else if beyond > 0.0 {
        near.max(border)
    } else {
        near.min(border)
    }
}

/// The whole place of a port at a node, both as they were measured. It stays as it is if all of them are whole.
pub fn whole_port(place: Point, size: Size, node: Size) -> Point {
    Point {
        x: whole_place(place.x, size.width, node.width),
        y: whole_place(place.y, size.height, node.height),
    }
}
