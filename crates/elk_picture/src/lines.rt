//! How wide lines are, and how they are broken.

use crate::decimal::Decimal;
use crate::look::MARGIN;
use serde_json::Value;
use std::alloc::AllocError;

#[derive(Clone, Copy, Drop)]
enum Dash {
    Solid,
    Dashed,
    Dotted,
}

// What a document asks for.
#[derive(Clone, Copy, Drop)]
pub(crate) struct Line {
    dash: Dash,
    width: Option<f64>,
}

// The widest line. Half of it lies beyond the outline of a node, and fits the margin of the page.
const WIDEST: f64 = 2.0 * MARGIN;

fn dash_in(value: Option<&Value>) -> Dash {
    match value.and_then(Value::as_str) {
        Some("dashed") => Dash::Dashed,
        Some("dotted") => Dash::Dotted,
        _ => Dash::Solid,
    }
}

fn width_in(value: Option<&Value>) -> Option<f64> {
    match value.and_then(Value::as_f64) {
        Some(width) if width >= 0.0 => Some(width.min(WIDEST)),
        _ => None,
    }
}

// The lines that the member `style` asks for.
pub(crate) fn line_in(style: &Value) -> Line {
    Line {
        dash: dash_in(style.get("dash")),
        width: width_in(style.get("width")),
    }
}

impl Line {
    pub(crate) fn width_or(self, other: f64) -> f64 {
        self.width.unwrap_or(other)
    }
}

// The lengths of a dash and of the gap after it. They grow with the width, so that wide lines show them too.
fn lengths_of(dash: Dash, width: f64) -> Option<(f64, f64)> {
    let unit = width.max(1.0);
    match dash {
        Dash::Solid => None,
        Dash::Dashed => Some((unit * 4.0, unit * 3.0)),
        Dash::Dotted => Some((unit, unit * 2.0)),
    }
}

// The attributes of lines that have another width unless the document asks for one.
pub(crate) fn write_line(out: &mut String, line: Line, other: f64) -> Result<(), AllocError> {
    if let Some(width) = line.width {
        let width = Decimal(width);
        write!(out, " stroke-width=\"{width}\"")?;
    }
    match lengths_of(line.dash, line.width_or(other)) {
        Some((dash, gap)) => {
            let (dash, gap) = (Decimal(dash), Decimal(gap));
            write!(out, " stroke-dasharray=\"{dash} {gap}\"")
        }
        None => Ok(()),
    }
}
