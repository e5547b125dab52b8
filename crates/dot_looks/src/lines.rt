//! The attribute `style`, and how thick lines are.

use crate::given::Given;

/// What the attributes `style` and `penwidth` ask for.
#[derive(Clone, Copy, Debug, Drop, PartialEq)]
pub struct Line {
    pub is_filled: bool,
    pub is_rounded: bool,
    pub is_invisible: bool,
    /// `dashed` or `dotted`.
    pub dash: Option<&'static str>,
    /// How thick lines are, in points.
    pub width: Option<f64>,
}

// How thick bold lines are.
const BOLD: f64 = 2.0;

// The thickest lines.
const THICKEST: f64 = 1000.0;

fn width_in(points: f64) -> Option<f64> {
    Some(points.max(0.0).min(THICKEST))
}

// The number in brackets behind a name.
fn argument(item: &str, name: &str) -> Option<f64> {
    let rest = item.strip_prefix(name)?;
    let rest = rest.trim().strip_prefix("(")?;
    let digits = match rest.split_once(")") {
        Some((digits, _)) => digits,
        None => rest,
    };
    match digits.trim().parse::<f64>() {
        Ok(number) if number.is_finite() => Some(number),
        _ => None,
    }
}

fn read_item(line: &mut Line, item: &str) {
    match item {
        "filled" | "radial" | "striped" | "wedged" => line.is_filled = true,
        "rounded" => line.is_rounded = true,
        "invis" | "invisible" => line.is_invisible = true,
        "dashed" => line.dash = Some("dashed"),
        "dotted" => line.dash = Some("dotted"),
        "solid" => line.dash = None,
        "bold" => line.width = Some(BOLD),
        _ => {
            if let Some(width) = argument(item, "setlinewidth") {
                line.width = width_in(width);
            }
        }
    }
}

/// The lines of an element.
pub fn line_of(given: Given<'_>) -> Line {
    let mut line = Line {
        is_filled: false,
        is_rounded: false,
        is_invisible: false,
        dash: None,
        width: None,
    };
    if let Some(style) = given.text("style") {
        for item in style.split(",") {
            read_item(&mut line, item.trim());
        }
    }
    if let Some(width) = given.number("penwidth") {
        line.width = width_in(width);
    }
    line
}
