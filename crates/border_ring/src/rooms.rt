//! The room that a level keeps at its sides.

use crate::bundles::{LevelEnd, LevelSide};
use graph_draft::Direction;
use label_room::Padding;

// Lengths at the ends of a level along its direction, and at its sides across.
#[derive(Clone, Copy, Drop)]
pub(crate) struct Rooms {
    first: f64,
    last: f64,
    low: f64,
    high: f64,
}

impl Rooms {
    pub(crate) fn of(direction: Direction, padding: Padding) -> Rooms {
        let Padding {
            top,
            left,
            bottom,
            right,
        } = padding;
        let (first, last) = match direction {
            Direction::Right => (left, right),
            Direction::Left => (right, left),
            Direction::Down => (top, bottom),
            Direction::Up => (bottom, top),
        };
        let (low, high) = if direction.is_level() {
            (top, bottom)
        } else {
            (left, right)
        };
        Rooms {
            first,
            last,
            low,
            high,
        }
    }

    pub(crate) fn at(self, end: LevelEnd) -> f64 {
        match end {
            LevelEnd::First => self.first,
            LevelEnd::Last => self.last,
        }
    }

    pub(crate) fn beside(self, side: LevelSide) -> f64 {
        match side {
            LevelSide::Low => self.low,
            LevelSide::High => self.high,
        }
    }
}
