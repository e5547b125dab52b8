//! Labels that have places.

use crate::element::{Label, box_at};
use crate::geometry::Point;
use crate::texts::{Anchor, fitted, write_text};
use std::alloc::{AllocError, Global};

// A label at its place, which is relative to the origin.
pub(crate) fn write_placed(
    alloc: Global,
    out: &mut String,
    label: &Label<'_>,
    origin: Point,
    ink: Option<&str>,
) -> Result<(), AllocError> {
    let at = box_at(label.value, origin);
    let fit = fitted(
        alloc,
        label.text.as_str(),
        room_or_all(at.width),
        room_or_all(at.height),
        label.size,
    )?;
    write_text(out, &fit, at.middle(), Anchor::Middle, ink)
}

fn room_or_all(size: f64) -> f64 {
    if size == 0.0 { f64::INFINITY } else { size }
}
