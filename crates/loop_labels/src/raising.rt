//! The places of the labels of loops, and loops drawn close to their nodes, after the engine's answer.

use crate::columns::{Column, LoopLabel, LoopLabels};
use crate::lanes::lanes_of;
use crate::spots::{Span, clear_of, from_of};
use graph_draft::{Draft, Element, Point, Side, Size};
use label_room::{Align, Stack, lines_at, place_stack};
use std::alloc::{AllocError, Global};
use std::num::nearest_usize_to_f64;

// Moves the outer piece of a loop close to its node.
fn close(
    alloc: Global,
    draft: &mut Draft,
    edge: usize,
    at: (usize, Side),
    depth: f64,
) -> Result<(), AllocError> {
    let (node, side) = (Element::Node(at.0), at.1);
    let outer = side.place_at(Size::NONE, 0.0, depth, draft.size_of(node));
    let back = side.back(outer) + side.back(draft.place_of(node));
    let mut points = draft.copy_of_route(alloc, edge)?;
    if points.len() == 4 {
        for at in 1..3 {
            if let Some(point) = points.get_mut(at) {
                *point = side.with_back(*point, back);
            }
        }
        draft.route(alloc, edge, points.as_slice())?;
    }
    Ok(())
}

// Where along a side of its node the two ends of a loop are.
fn ends_along(draft: &Draft, edge: usize, at: (usize, Side)) -> Span {
    let side = at.1;
    let corner = draft.place_of(Element::Node(at.0));
    let along = |point: Option<&Point>| side.down(point.copied().unwrap_or(corner))
        - side.down(corner);
    let route = draft.route_of(edge);
    let (first, last) = (along(route.first()), along(route.last()));
    Span {
        from: first.min(last),
        to: first.max(last),
    }
}

// Draws all loops at a side close to their node, each in its lane.
fn close_all(alloc: Global, draft: &mut Draft, column: &Column) -> Result<(), AllocError> {
    let at = (column.node, column.side);
    let mut spans = Vec::new(alloc);
    for edge in column.loops.iter() {
        spans.push(ends_along(draft, *edge, at))?;
    }
    let lanes = lanes_of(alloc, spans.as_slice())?;
    for (edge, lane) in column.loops.iter().zip(lanes.iter()) {
        let depth = column.depth + nearest_usize_to_f64(*lane) * column.between;
        close(alloc, draft, *edge, at, depth)?;
    }
    Ok(())
}

fn place_label(
    alloc: Global,
    draft: &mut Draft,
    column: &Column,
    label: &LoopLabel,
    placed: &mut Vec<Span>,
) -> Result<(), AllocError> {
    let (node, side) = (column.node, column.side);
    let ends = ends_along(draft, label.edge, (node, side));
    let foreign = lines_at(alloc, draft, node, side, label.foreign.as_slice())?;
    let length = side.along(label.size);
    let wanted = from_of(ends, foreign.as_slice(), length, column.beside);
    let from = clear_of(placed, wanted, length, column.beside)?;
    let room = draft.size_of(Element::Node(node));
    let place = side.place_at(label.size, from, column.away, room);
    let stack = Stack {
        place: place.moved(draft.place_of(Element::Node(node))),
        width: label.size.width,
        gap: column.gap,
        align: match side {
            Side::East => Align::Left,
            Side::West => Align::Right,
            Side::North | Side::South => Align::Center,
        },
    };
    place_stack(draft, label.labels.as_slice(), stack);
    Ok(())
}

fn raise_column(alloc: Global, draft: &mut Draft, column: &Column) -> Result<(), AllocError> {
    close_all(alloc, draft, column)?;
    let mut placed = Vec::new(alloc);
    for label in column.labels.iter() {
        place_label(alloc, draft, column, label, &mut placed)?;
    }
    Ok(())
}

/// Draws the loops of a placed draft close to their nodes, and places the labels beyond them.
pub fn raise_loop_labels(
    alloc: Global,
    draft: &mut Draft,
    loops: LoopLabels,
) -> Result<(), AllocError> {
    draft.undo_to(loops.mark)?;
    for column in loops.columns.iter().rev() {
        raise_column(alloc, draft, column)?;
    }
    Ok(())
}
