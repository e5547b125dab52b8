//! Where edges meet nodes.

use crate::sides::{Compass, Side, Way};
use dot_looks::Form;
use dot_records::{Cell, Extent};
use std::f64::consts::FRAC_1_SQRT_2;

// What is nearer to a side touches it.
const NEAR: f64 = 0.5;

fn rounded(number: f64) -> f64 {
    (number + 0.5).floor()
}

/// A rectangle within a node.
#[derive(Clone, Copy, Debug, Drop, PartialEq)]
pub(crate) struct Area {
    pub(crate) x: f64,
    pub(crate) y: f64,
    pub(crate) width: f64,
    pub(crate) height: f64,
}

/// A point at a side of a node: how far it is from the side's upper or left end, in whole points.
#[derive(Clone, Copy, Debug, Drop, PartialEq)]
pub(crate) struct Spot {
    pub(crate) side: Side,
    pub(crate) along: f64,
}

/// What an end of an edge asks for.
#[derive(Clone, Copy, Debug, Drop, PartialEq)]
pub(crate) struct Meeting {
    pub(crate) compass: Compass,
    /// The side that edges take by the direction of the graph.
    pub(crate) wanted: Side,
    pub(crate) way: Way,
    /// How far from the middle to the corner of the area the outline meets a corner of the compass.
    pub(crate) reach: f64,
}

impl Area {
    /// All of a node.
    pub(crate) fn whole(extent: Extent) -> Area {
        Area {
            x: 0.0,
            y: 0.0,
            width: extent.width,
            height: extent.height,
        }
    }

    /// The area of a field of a record, in whole points.
    pub(crate) fn of_cell(cell: Cell) -> Area {
        let (x, y) = (rounded(cell.x), rounded(cell.y));
        Area {
            x,
            y,
            width: rounded(cell.x + cell.width) - x,
            height: rounded(cell.y + cell.height) - y,
        }
    }

    fn touches(self, side: Side, node: Extent) -> bool {
        match side {
            Side::North => self.y < NEAR,
            Side::West => self.x < NEAR,
            Side::South => self.y + self.height > node.height - NEAR,
            Side::East => self.x + self.width > node.width - NEAR,
        }
    }
}

/// How far from the middle of a node to the corner of its box its outline is.
pub(crate) fn reach_of(form: Form) -> f64 {
    match form {
        Form::Ellipse | Form::Point => FRAC_1_SQRT_2,
        Form::Diamond => 0.5,
        Form::Box | Form::Plain | Form::Record => 1.0,
    }
}

// The side that an area touches, as the meeting asks, or else as edges run.
fn side_of(area: Area, node: Extent, meeting: Meeting) -> Side {
    let (first, second) = meeting.compass.sides(meeting.wanted);
    let next = meeting.wanted.next(meeting.way);
    let all = [
        first,
        second,
        Some(meeting.wanted),
        Some(next),
        Some(next.opposite()),
        Some(meeting.wanted.opposite()),
    ];
    for side in all {
        if let Some(side) = side {
            if area.touches(side, node) {
                return side;
            }
        }
    }
    first.or(second).unwrap_or(meeting.wanted)
}

/// Where an edge meets a node at an area of it.
pub(crate) fn spot_at(area: Area, node: Extent, meeting: Meeting) -> Spot {
    let side = side_of(area, node, meeting);
    let Meeting { compass, reach, .. } = meeting;
    let (along, length) = if side.is_beside() {
        let half = area.height / 2.0;
        (area.y + half + compass.down * half * reach, node.height)
    } else {
        let half = area.width / 2.0;
        (area.x + half + compass.across * half * reach, node.width)
    };
    Spot {
        side,
        along: rounded(along).max(0.0).min(length),
    }
}
