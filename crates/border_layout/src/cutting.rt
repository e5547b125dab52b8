//! The routes of a drawn level without the leaves that stand for its border.

use crate::drawings::Drawing;
use border_levels::{Model, Piece};
use graph_draft::Point;
use route_curves::{Along, Frame, Span};
use std::alloc::{AllocError, Global};

// From where to where the columns of a level reach along its direction.
fn columns_of(drawing: &Drawing, frame: Frame) -> Span {
    let mut columns = Span {
        from: f64::INFINITY,
        to: f64::NEG_INFINITY,
    };
    for (at, (place, size)) in drawing.level.outlines.iter().enumerate() {
        if !drawing.is_border(at) {
            let span = frame.span_of(*place, *size);
            columns = Span {
                from: columns.from.min(span.from),
                to: columns.to.max(span.to),
            };
        }
    }
    columns
}

// A route up to where it last passes u.
fn cut_at(alloc: Global, points: &[Along], u: f64) -> Result<Vec<Along>, AllocError> {
    let mut passed = None;
    for (at, (point, next)) in points.iter().zip(points.iter().skip(1)).enumerate() {
        if point.u <= u && next.u > u {
            passed = Some(at);
        }
    }
    let mut kept = Vec::new(alloc);
    if let Some(passed) = passed {
        for point in points.iter().take(passed.saturating_add(1)) {
            kept.push(*point)?;
        }
    }
    if let Some(last) = points.get(passed.unwrap_or(0)) {
        kept.push(Along { u, v: last.v })?;
    }
    Ok(kept)
}

// A route as it is seen from the other end of the level.
fn mirrored(alloc: Global, points: &[Along]) -> Result<Vec<Along>, AllocError> {
    let mut seen = Vec::new(alloc);
    for point in points.iter().rev() {
        seen.push(Along {
            u: -point.u,
            v: point.v,
        })?;
    }
    Ok(seen)
}

// The route of a piece, cut where it leaves the columns on its way to a border.
fn cut_route(
    alloc: Global,
    frame: Frame,
    columns: Span,
    piece: &Piece,
    points: &[Point],
) -> Result<Vec<Point>, AllocError> {
    let mut along = Vec::new(alloc);
    for point in points {
        along.push(frame.of(*point))?;
    }
    if piece.to.is_frame() {
        along = cut_at(alloc, along.as_slice(), columns.to)?;
    }
    if piece.from.is_frame() {
        let seen = mirrored(alloc, along.as_slice())?;
        let cut = cut_at(alloc, seen.as_slice(), -columns.from)?;
        along = mirrored(alloc, cut.as_slice())?;
    }
    let mut cut = Vec::new(alloc);
    for point in along.iter() {
        cut.push(frame.back(*point))?;
    }
    Ok(cut)
}

/// The routes of a drawn level, in the order of its pieces. What leads to a border is cut where it leaves the columns.
pub(crate) fn cut_routes(
    alloc: Global,
    model: &Model,
    level: usize,
    drawing: &Drawing,
) -> Result<Vec<Vec<Point>>, AllocError> {
    let frame = Frame(model.direction_of(level));
    let columns = columns_of(drawing, frame);
    let mut routes = Vec::new(alloc);
    for (at, number) in drawing.pieces.iter().enumerate() {
        routes.push(match model.piece(*number) {
            Some(piece) => cut_route(alloc, frame, columns, piece, drawing.route_at(at))?,
            None => Vec::new(alloc),
        })?;
    }
    Ok(routes)
}
