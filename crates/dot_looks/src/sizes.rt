//! The sizes of nodes.

use crate::given::Given;
use crate::shapes::{Form, Shape, outlines_of};
use dot_records::Extent;
use std::f64::consts::SQRT_2;

/// How many points are an inch.
pub const POINTS: f64 = 72.0;

// The least sizes of nodes, in inches.
const WIDTH: f64 = 0.75;

const HEIGHT: f64 = 0.5;

const POINT: f64 = 0.05;

// The space between a text and the outline at each side, in inches.
const MARGIN: (f64, f64) = (0.11, 0.055);

// The largest size.
const LARGEST: f64 = 1048576.0;

/// A size as a whole number of points, not below it.
pub fn whole(size: f64) -> f64 {
    size.max(0.0).min(LARGEST).ceil()
}

/// The size that a node has at least, in points.
pub fn least_extent(given: Given<'_>, shape: Shape) -> Extent {
    let width = given.number("width");
    let height = given.number("height");
    let (width, height) = match (width, height) {
        (Some(width), Some(height)) => (width, height),
        (Some(size), None) | (None, Some(size)) if shape.is_regular => (size, size),
        _ if shape.form == Form::Point => (POINT, POINT),
        _ => (width.unwrap_or(WIDTH), height.unwrap_or(HEIGHT)),
    };
    let (width, height) = if shape.is_regular {
        (width.min(height), width.min(height))
    } else {
        (width, height)
    };
    Extent {
        width: width.max(0.01) * POINTS,
        height: height.max(0.01) * POINTS,
    }
}

// A text with the space around it.
fn with_margin(given: Given<'_>, text: Extent) -> Extent {
    if text.height <= 0.0 {
        return text;
    }
    let (across, along) = given.pair("margin").unwrap_or(MARGIN);
    Extent {
        width: text.width + 2.0 * across.max(0.0) * POINTS,
        height: text.height + 2.0 * along.max(0.0) * POINTS,
    }
}

// The box of an ellipse around a text. If it is high enough anyhow, it need not be so wide.
fn around(text: Extent, least: Extent) -> Extent {
    let height = text.height * SQRT_2;
    if least.height > height {
        let share = text.height / least.height;
        return Extent {
            width: text.width / (1.0 - share * share).sqrt(),
            height: text.height,
        };
    }
    Extent {
        width: text.width * SQRT_2,
        height,
    }
}

fn needed(form: Form, text: Extent, least: Extent) -> Extent {
    match form {
        Form::Ellipse => around(text, least),
        Form::Diamond => {
            let inner = around(text, least);
            Extent {
                width: inner.width * SQRT_2,
                height: inner.height * SQRT_2,
            }
        }
        _ => text,
    }
}

// The space between an outline and the next one, at both sides together.
const GAPS: f64 = 8.0;

// The room that outlines need around the innermost one.
fn room_of(given: Given<'_>, form: Form) -> f64 {
    match form {
        Form::Point | Form::Plain | Form::Record => 0.0,
        _ => (outlines_of(given) - 1.0).max(0.0) * GAPS,
    }
}

/// The size of a node whose text has a size, in whole points.
pub fn node_extent(given: Given<'_>, shape: Shape, text: Extent) -> Extent {
    let least = least_extent(given, shape);
    let is_fixed = shape.form == Form::Point
        || given.is_true("fixedsize")
        || given.is_value("fixedsize", "shape");
    let mut size = if is_fixed {
        least
    } else {
        let needed = needed(shape.form, with_margin(given, text), least);
        Extent {
            width: needed.width.max(least.width),
            height: needed.height.max(least.height),
        }
    };
    if shape.is_regular {
        let side = size.width.max(size.height);
        size = Extent {
            width: side,
            height: side,
        };
    }
    let room = room_of(given, shape.form);
    Extent {
        width: whole(size.width + room),
        height: whole(size.height + room),
    }
}
