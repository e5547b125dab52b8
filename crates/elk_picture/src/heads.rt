//! The heads of edges, and where lines end within them.

use crate::geometry::{Point, length_of, towards};
use crate::look::{ARROW_LENGTH, ARROW_SHORTEST, ARROW_WIDTH};
use std::alloc::AllocError;

// A line ends this far within its head, so that neither its end nor a bend shows at the tip.
pub(crate) const COVERED: f64 = 1.0;

// How many times as wide as its line a head is, at least.
const WIDER: f64 = 2.5;

// How the line of an edge is drawn, and at which of its ends it has a head.
#[derive(Clone, Copy, Drop)]
pub(crate) struct Stroke<'a> {
    pub(crate) ink: &'a str,
    pub(crate) width: f64,
    pub(crate) at_start: bool,
    pub(crate) at_end: bool,
}

// A head, and the point at which its line ends.
#[derive(Clone, Copy, Drop)]
pub(crate) struct Head {
    pub(crate) end: Point,
    from: Point,
    tip: Point,
    length: f64,
}

// The heads at the ends of a line.
#[derive(Clone, Copy, Drop)]
pub(crate) struct Heads {
    pub(crate) start: Option<Head>,
    pub(crate) end: Option<Head>,
}

// A head is no longer than the room for it, unless it could not be seen. Its line runs straight along a piece.
fn head_at(from: Point, tip: Point, room: f64, piece: f64, width: f64) -> Head {
    let most = ARROW_LENGTH.max(width * WIDER * ARROW_LENGTH / ARROW_WIDTH);
    let length = room.max(ARROW_SHORTEST).min(most);
    Head {
        end: towards(tip, from, (length - COVERED).min(piece)),
        from,
        tip,
        length,
    }
}

// How much of a piece a head may take. Two heads share the only piece of a line.
fn share_of(stroke: Stroke<'_>, is_only: bool) -> f64 {
    if is_only && stroke.at_start && stroke.at_end {
        0.5
    } else {
        1.0
    }
}

// The heads of a route.
pub(crate) fn heads_of_route(points: &[Point], stroke: Stroke<'_>) -> Heads {
    let share = share_of(stroke, points.len() == 2);
    let start = match points {
        [tip, from, ..] if stroke.at_start => {
            let piece = length_of(*from, *tip) * share;
            Some(head_at(*from, *tip, piece, piece, stroke.width))
        }
        _ => None,
    };
    let end = match points {
        [.., from, tip] if stroke.at_end => {
            let piece = length_of(*from, *tip) * share;
            Some(head_at(*from, *tip, piece, piece, stroke.width))
        }
        _ => None,
    };
    Heads { start, end }
}

fn is_straight(start: Point, from: Point, tip: Point) -> bool {
    let is_upright = start.x == from.x && from.x == tip.x;
    let is_level = start.y == from.y && from.y == tip.y;
    is_upright || is_level
}

// The head of a curve whose last piece has its start and its last control point there. A piece that runs straight has room for
// the head along all of it.
fn head_of_piece(start: Point, from: Point, tip: Point, share: f64, width: f64) -> Head {
    let piece = length_of(from, tip);
    let room = if is_straight(start, from, tip) {
        length_of(start, tip) * share
    } else {
        piece
    };
    head_at(from, tip, room, piece, width)
}

// The heads of a curve.
pub(crate) fn heads_of_curve(points: &[Point], stroke: Stroke<'_>) -> Heads {
    let share = share_of(stroke, points.len() == 4);
    let start = match points {
        [tip, from, _, start, ..] if stroke.at_start => {
            Some(head_of_piece(*start, *from, *tip, share, stroke.width))
        }
        _ => None,
    };
    let end = match points {
        [.., start, _, from, tip] if stroke.at_end => {
            Some(head_of_piece(*start, *from, *tip, share, stroke.width))
        }
        _ => None,
    };
    Heads { start, end }
}

fn write_head(out: &mut String, head: Head, ink: &str) -> Result<(), AllocError> {
    let Head {
        from,
        tip,
        length,
        ..
    } = head;
    let back = towards(tip, from, length);
    let half = ARROW_WIDTH / ARROW_LENGTH / 2.0;
    let across = Point {
        x: (tip.y - back.y) * half,
        y: (back.x - tip.x) * half,
    };
    let one = back.moved(across);
    let other = Point {
        x: back.x - across.x,
        y: back.y - across.y,
    };
    write!(
        out,
        "<path d=\"M{tip}L{one}L{other}Z\" fill=\"{ink}\" stroke=\"none\"/>"
    )
}

pub(crate) fn write_heads(out: &mut String, heads: Heads, ink: &str) -> Result<(), AllocError> {
    if let Some(head) = heads.start {
        write_head(out, head, ink)?;
    }
    match heads.end {
        Some(head) => write_head(out, head, ink),
        None => Ok(()),
    }
}
