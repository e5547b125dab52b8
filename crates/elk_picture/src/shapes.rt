//! The shapes of nodes, each within its box, and where lines that end at the box meet them.

use crate::decimal::Decimal;
use crate::geometry::{Point, Rect, write_rectangle};
use crate::style::Shape;
use std::alloc::AllocError;
use std::f64::consts::FRAC_1_SQRT_2;

// Writes the start of a shape's element, and answers the name of the element.
pub(crate) fn write_shape(
    out: &mut String,
    shape: Shape,
    at: Rect,
    radius: f64,
) -> Result<&'static str, AllocError> {
    match shape {
        Shape::Ellipse => write_ellipse(out, at),
        Shape::Diamond => write_diamond(out, at),
        Shape::Round => write_rounded(out, at, at.width.min(at.height) / 2.0),
        Shape::Box => write_rounded(out, at, radius),
    }
}

fn write_ellipse(out: &mut String, at: Rect) -> Result<&'static str, AllocError> {
    let middle = at.middle();
    let (x, y) = (Decimal(middle.x), Decimal(middle.y));
    let (across, along) = (Decimal(at.width / 2.0), Decimal(at.height / 2.0));
    write!(
        out,
        "<ellipse cx=\"{x}\" cy=\"{y}\" rx=\"{across}\" ry=\"{along}\""
    )?;
    Ok("ellipse")
}

fn write_diamond(out: &mut String, at: Rect) -> Result<&'static str, AllocError> {
    let middle = at.middle();
    let (x, y) = (Decimal(middle.x), Decimal(middle.y));
    let (left, top) = (Decimal(at.left), Decimal(at.top));
    let (right, bottom) = (Decimal(at.right()), Decimal(at.bottom()));
    write!(
        out,
        "<path d=\"M{x} {top}L{right} {y}L{x} {bottom}L{left} {y}Z\" stroke-linejoin=\"round\""
    )?;
    Ok("path")
}

fn write_rounded(out: &mut String, at: Rect, radius: f64) -> Result<&'static str, AllocError> {
    let radius = Decimal(radius);
    write_rectangle(out, at)?;
    write!(out, " rx=\"{radius}\"")?;
    Ok("rect")
}

// The part of a shape's height that the largest rectangle within it has.
pub(crate) fn height_share(shape: Shape) -> f64 {
    match shape {
        Shape::Ellipse => FRAC_1_SQRT_2,
        Shape::Diamond => 0.5,
        _ => 1.0,
    }
}

// The width within a shape for texts of a height.
pub(crate) fn room_in(shape: Shape, at: Rect, least: f64) -> f64 {
    let share = (least / at.height.max(0.1)).min(1.0);
    match shape {
        Shape::Ellipse => at.width * (1.0 - share * share).sqrt(),
        Shape::Diamond => at.width * (1.0 - share),
        _ => at.width,
    }
}

// How far an outline lies within its box, where a line comes at an offset from the middle of a side.
fn inset(shape: Shape, offset: f64, across: f64, along: f64) -> f64 {
    let offset = offset.abs();
    if !(offset <= along && along > 0.0) {
        return 0.0;
    }
    let share = offset / along;
    match shape {
        Shape::Box => 0.0,
        Shape::Round => {
            let radius = across.min(along);
            let beyond = share * along - (along - radius);
            if beyond > 0.0 {
                radius - (radius * radius - beyond * beyond).sqrt()
            } else {
                0.0
            }
        }
        Shape::Ellipse => across * (1.0 - (1.0 - share * share).sqrt()),
        Shape::Diamond => across * share,
    }
}

fn sign(number: f64) -> f64 {
    if number > 0.0 {
        1.0
    } else if number < 0.0 {
        -1.0
    } else {
        0.0
    }
}

// Where a horizontal or vertical line that ends at the side of a box meets the outline within. Any other line keeps its end.
pub(crate) fn outline_point(point: Point, from: Point, shape: Shape, at: Rect) -> Point {
    let middle = at.middle();
    let side = if point.x < from.x {
        at.right()
    } else {
        at.left
    };
    if from.y == point.y && side == point.x {
        let within = inset(shape, point.y - middle.y, at.width / 2.0, at.height / 2.0);
        return Point {
            x: point.x + sign(point.x - from.x) * within,
            y: point.y,
        };
    }
    let side = if point.y < from.y {
        at.bottom()
    } else {
        at.top
    };
    if from.x == point.x && side == point.y {
        let within = inset(shape, point.x - middle.x, at.height / 2.0, at.width / 2.0);
        return Point {
            x: point.x,
            y: point.y + sign(point.y - from.y) * within,
        };
    }
    point
}
