//! The lines of edges, with rounded bends, and dots.

use crate::decimal::Decimal;
use crate::geometry::{Point, Rect, length_of, towards};
use crate::heads::{COVERED, Head, Stroke, heads_of_curve, heads_of_route, write_heads};
use crate::look::{BEND, DOT};
use std::alloc::AllocError;
use std::cmp::OrderedFloat;
use std::collections::BTreeSet;

// A point that can be looked up.
#[derive(Clone, Copy, Drop, PartialEq, Eq, PartialOrd, Ord)]
pub(crate) struct PointKey {
    x: OrderedFloat<f64>,
    y: OrderedFloat<f64>,
}

pub(crate) fn point_key(point: Point) -> PointKey {
    PointKey {
        x: OrderedFloat(point.x),
        y: OrderedFloat(point.y),
    }
}

// A point of a line, and how much of the line there a head covers.
#[derive(Clone, Copy, Drop)]
struct Stop {
    at: Point,
    covered: f64,
}

fn bare(at: Point) -> Stop {
    Stop { at, covered: 0.0 }
}

// The end of a line that has a head or none.
fn stop_at(head: Option<Head>, point: Point) -> Stop {
    match head {
        Some(head) => Stop {
            at: head.end,
            covered: COVERED,
        },
        None => bare(point),
    }
}

// How much of the piece between a bend and a point a bend may take. Two bends share each piece, except the first and the last
// one, and no bend reaches into a head.
fn share_of(bend: Point, stop: Stop, is_outer: bool) -> f64 {
    let length = length_of(bend, stop.at);
    let share = if is_outer { length } else { length / 2.0 };
    share - stop.covered
}

fn write_bend(
    out: &mut String,
    before: Point,
    bend: Point,
    after: Point,
    radius: f64,
) -> Result<(), AllocError> {
    if radius == 0.0 {
        return write!(out, "L{bend}");
    }
    let start = towards(bend, before, radius);
    let end = towards(bend, after, radius);
    write!(out, "L{start}Q{bend} {end}")
}

// A route from a start over its bends to an end, as the steps of a path. Bends at `junctions` stay sharp.
fn write_path(
    out: &mut String,
    points: &[Point],
    start: Stop,
    end: Stop,
    junctions: &BTreeSet<PointKey>,
) -> Result<(), AllocError> {
    let (first, tip) = (start.at, end.at);
    write!(out, "M{first}")?;
    let last = points.len().saturating_sub(1);
    for k in 1..last {
        let bend = points[k];
        let before = if k == 1 { start } else { bare(points[k - 1]) };
        let after = if k + 1 == last {
            end
        } else {
            bare(points[k + 1])
        };
        let radius = if junctions.contains(&point_key(bend)) {
            0.0
        } else {
            let near = share_of(bend, before, k == 1);
            let far = share_of(bend, after, k + 1 == last);
            near.min(far).min(BEND).max(0.0)
        };
        write_bend(out, before.at, bend, after.at, radius)?;
    }
    write!(out, "L{tip}")
}

// The line of a route, with its heads.
pub(crate) fn write_route(
    out: &mut String,
    points: &[Point],
    junctions: &BTreeSet<PointKey>,
    stroke: Stroke<'_>,
) -> Result<(), AllocError> {
    let (Some(first), Some(last)) = (points.first(), points.last()) else {
        return Ok(());
    };
    let heads = heads_of_route(points, stroke);
    let (start, end) = (stop_at(heads.start, *first), stop_at(heads.end, *last));
    out.push_str("<path d=\"")?;
    write_path(out, points, start, end, junctions)?;
    out.push_str("\"/>")?;
    write_heads(out, heads, stroke.ink)
}

// Whether points are those of a curve: a start, and two control points and an end for each piece of it.
pub(crate) fn is_curve(points: &[Point]) -> bool {
    points.len() > 2 && points.len() % 3 == 1
}

fn write_curve_path(
    out: &mut String,
    points: &[Point],
    start: Point,
    end: Point,
) -> Result<(), AllocError> {
    let last = points.len().saturating_sub(1);
    write!(out, "M{start}")?;
    for k in 1..points.len() {
        let place = if k == last { end } else { points[k] };
        out.push(if k % 3 == 1 { 'C' } else { ' ' })?;
        write!(out, "{place}")?;
    }
    Ok(())
}

// The line of a curve, with its heads.
pub(crate) fn write_curve(
    out: &mut String,
    points: &[Point],
    stroke: Stroke<'_>,
) -> Result<(), AllocError> {
    let (Some(first), Some(last)) = (points.first(), points.last()) else {
        return Ok(());
    };
    let heads = heads_of_curve(points, stroke);
    let (start, end) = (stop_at(heads.start, *first), stop_at(heads.end, *last));
    out.push_str("<path d=\"")?;
    write_curve_path(out, points, start.at, end.at)?;
    out.push_str("\"/>")?;
    write_heads(out, heads, stroke.ink)
}

fn is_overlap(from: Point, to: Point, at: Rect) -> bool {
    from.x.min(to.x) < at.right()
        && at.left < from.x.max(to.x)
        && from.y.min(to.y) < at.bottom()
        && at.top < from.y.max(to.y)
}

// Whether a route passes through a box, and not only along its border.
pub(crate) fn passes(points: &[Point], at: Rect) -> bool {
    for k in 1..points.len() {
        if is_overlap(points[k - 1], points[k], at) {
            return true;
        }
    }
    false
}

// A dot, which is never narrower than it takes to be seen on its line.
pub(crate) fn write_dot(
    out: &mut String,
    at: Point,
    width: f64,
    ink: &str,
) -> Result<(), AllocError> {
    let (x, y) = (Decimal(at.x), Decimal(at.y));
    let radius = Decimal(DOT.max(width));
    write!(
        out,
        "<circle cx=\"{x}\" cy=\"{y}\" r=\"{radius}\" fill=\"{ink}\" stroke=\"none\"/>"
    )
}
