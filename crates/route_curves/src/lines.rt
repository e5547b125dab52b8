//! Slanted and curved lines through stretches.

use crate::frame::Along;
use crate::stretches::{Stretch, joined};
use graph_draft::{Point, Routing, tidy};
use std::alloc::{AllocError, Global};

// How far from a corner a curve begins to turn, and where on that way its control points stand.
const CORNER: f64 = 6.0;

const ROUND: f64 = 0.55;

// A slanted route through its stretches.
fn slanted(alloc: Global, stretches: &[Stretch]) -> Result<Vec<Point>, AllocError> {
    let mut points = Vec::new(alloc);
    if let Some(first) = stretches.first() {
        points.push(first.from)?;
    }
    for stretch in stretches {
        points.push(stretch.to)?;
    }
    tidy(alloc, points.as_slice())
}

fn between(a: Point, b: Point, share: f64) -> Point {
    Point {
        x: a.x + (b.x - a.x) * share,
        y: a.y + (b.y - a.y) * share,
    }
}

// The length of a line along one of the axes.
fn length_of(a: Point, b: Point) -> f64 {
    (a.x - b.x).abs() + (a.y - b.y).abs()
}

// The point at a distance from one point towards another.
fn towards(from: Point, to: Point, distance: f64) -> Point {
    let length = length_of(from, to);
    let length = if length == 0.0 { 1.0 } else { length };
    between(from, to, distance / length)
}

// The corner between two stretches: how far from it the curve turns; 0 where nothing turns.
fn corner_of(stretch: &Stretch, next: Option<&Stretch>) -> f64 {
    match next {
        Some(next) if !stretch.is_gap && !next.is_gap => {
            let half = length_of(stretch.from, stretch.to) / 2.0;
            CORNER.min(half).min(length_of(next.from, next.to) / 2.0)
        }
        _ => 0.0,
    }
}

// Adds a piece of a curve that runs straight.
fn add_line(points: &mut Vec<Point>, a: Point, b: Point) -> Result<(), AllocError> {
    points.push(between(a, b, 1.0 / 3.0))?;
    points.push(between(a, b, 2.0 / 3.0))?;
    Ok(points.push(b)?)
}

// Adds a piece of a curve through a gap, level at both ends.
fn add_curve(points: &mut Vec<Point>, stretch: &Stretch) -> Result<(), AllocError> {
    let frame = stretch.frame;
    let (a, b) = (frame.of(stretch.from), frame.of(stretch.to));
    let u = (a.u + b.u) / 2.0;
    points.push(frame.back(Along { u, v: a.v }))?;
    points.push(frame.back(Along { u, v: b.v }))?;
    Ok(points.push(stretch.to)?)
}

// The points of a curve through stretches: its start, and for each piece two control points and its end.
fn curved(alloc: Global, stretches: &[Stretch]) -> Result<Vec<Point>, AllocError> {
    let mut points = Vec::new(alloc);
    if let Some(first) = stretches.first() {
        points.push(first.from)?;
    }
    let mut before = 0.0;
    for (at, stretch) in stretches.iter().enumerate() {
        let next = stretches.get(at.saturating_add(1));
        let corner = corner_of(stretch, next);
        if stretch.is_gap {
            add_curve(&mut points, stretch)?;
        } else {
            let (a, b) = (stretch.from, stretch.to);
            let (start, end) = (towards(a, b, before), towards(b, a, corner));
            add_line(&mut points, start, end)?;
            if let Some(next) = next {
                if corner > 0.0 {
                    let after = towards(b, next.to, corner);
                    points.push(between(end, b, ROUND))?;
                    points.push(between(after, b, ROUND))?;
                    points.push(after)?;
                }
            }
        }
        before = corner;
    }
    Ok(points)
}

/// The points of a section along stretches, in a routing. A route that is one line stays as it is.
pub fn points_along(
    alloc: Global,
    stretches: &[Stretch],
    routing: Routing,
) -> Result<Vec<Point>, AllocError> {
    let whole = joined(alloc, stretches)?;
    match whole.as_slice() {
        [] => Ok(Vec::new(alloc)),
        [only] if !only.is_gap => Ok(vec![in alloc; only.from, only.to]?),
        stretches if routing == Routing::Splines => curved(alloc, stretches),
        stretches => slanted(alloc, stretches),
    }
}
