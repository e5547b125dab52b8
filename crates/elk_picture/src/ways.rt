//! The ways that routes take at a point.

use crate::geometry::Point;
use std::alloc::{AllocError, Global};

// The four ways from a point, and which two of them a route takes that passes it.
const LEFT: u8 = 1;

const RIGHT: u8 = 2;

const UP: u8 = 4;

const DOWN: u8 = 8;

fn way_to(from: Point, to: Point) -> u8 {
    if from.y == to.y {
        if to.x < from.x { LEFT } else { RIGHT }
    } else if to.y < from.y {
        UP
    } else {
        DOWN
    }
}

// Whether a route goes straight on at the second of three points, along a level or an upright line.
fn is_straight(before: Point, point: Point, after: Point) -> bool {
    let is_level = before.y == point.y && point.y == after.y;
    let is_upright = before.x == point.x && point.x == after.x;
    (is_level || is_upright) && way_to(before, point) == way_to(point, after)
}

// The points of a route, without those at which it goes straight on. A route through many sections has few turns.
pub(crate) fn turns_of(alloc: Global, points: &[Point]) -> Result<Vec<Point>, AllocError> {
    let mut turns = Vec::new(alloc);
    for at in 0..points.len() {
        let is_inner = at > 0 && at + 1 < points.len();
        if !(is_inner && is_straight(points[at - 1], points[at], points[at + 1])) {
            turns.push(points[at])?;
        }
    }
    Ok(turns)
}

fn is_between(low: f64, value: f64, high: f64) -> bool {
    low.min(high) < value && value < low.max(high)
}

// A set of pairs of ways, with a bit for each of sixteen.
#[derive(Clone, Copy, Drop)]
pub(crate) struct Passes(u16);

impl Passes {
    pub(crate) const NONE: Passes = Passes(0);

    fn with(self, way: u8) -> Passes {
        Passes(self.0 | 1u16.wrapping_shl(u32::from(way)))
    }

    fn has(self, way: u8) -> bool {
        self.0 & 1u16.wrapping_shl(u32::from(way)) != 0
    }

    pub(crate) fn and(self, other: Passes) -> Passes {
        Passes(self.0 | other.0)
    }

    // The pairs that part from some of these. Two routes that pass a point part there where they have one way in common: with two
    // they run along together, with none they cross.
    pub(crate) fn parting(self) -> Passes {
        let mut parting = Passes::NONE;
        for one in 0..16u8 {
            if self.has(one) {
                parting = parting.and(parting_from(one));
            }
        }
        parting
    }

    pub(crate) fn meets(self, other: Passes) -> bool {
        self.0 & other.0 != 0
    }
}

fn parting_from(one: u8) -> Passes {
    let mut parting = Passes::NONE;
    for two in 0..16u8 {
        if (one & two).count_ones() == 1 {
            parting = parting.with(two);
        }
    }
    parting
}

// The ways that a route takes at a point, for each time that it passes it.
pub(crate) fn passes_of(route: &[Point], point: Point) -> Passes {
    let mut passes = Passes::NONE;
    for at in 1..route.len() {
        let (from, to) = (route[at - 1], route[at]);
        if to.is_at(point) && at + 1 < route.len() {
            passes = passes.with(way_to(to, from) | way_to(to, route[at + 1]));
        } else if from.y == to.y && point.y == to.y && is_between(from.x, point.x, to.x) {
            passes = passes.with(LEFT | RIGHT);
        } else if from.x == to.x && point.x == to.x && is_between(from.y, point.y, to.y) {
            passes = passes.with(UP | DOWN);
        }
    }
    passes
}
