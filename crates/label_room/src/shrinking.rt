//! Placed ports shrink again, their lines are drawn on to them, and what stands beside the lines is placed.

use crate::blocks::{Block, Owner};
use crate::docks::Dock;
use crate::growing::{Grown, GrownPorts, GrownSide};
use crate::labels::{Align, Stack, place_stack};
use crate::lines::axis_of;
use crate::spans::Spans;
use graph_draft::{Draft, Element, Kind, Point, Side, Size};
use std::alloc::{AllocError, Global};
use std::collections::BTreeMap;

// Where the line of a port lies along a side of its node, and how far from the node the port ends.
#[derive(Clone, Copy, Drop)]
struct Line {
    node: usize,
    side: Side,
    axis: f64,
    away: f64,
    // Whether what stands beside the line stands before it.
    is_turned: bool,
}

fn half_of(side: Side, size: Size) -> f64 {
    (side.along(size) / 2.0).ceil()
}

// How far the docks of a side reach along it, with the sizes that ports have in the end.
fn spans_of(alloc: Global, draft: &Draft, grown: &GrownSide) -> Result<Spans, AllocError> {
    let mut sizes: BTreeMap<usize, Size> = BTreeMap::new(alloc);
    for it in grown.ports.iter() {
        sizes.insert(it.port, it.small)?;
    }
    let mut docks = Vec::new(alloc);
    for dock in grown.docks.iter() {
        let half = match dock {
            Dock::Port(port) => {
                let size = sizes.get(port).copied();
                half_of(
                    grown.side,
                    size.unwrap_or(draft.size_of(Element::Port(*port))),
                )
            }
            Dock::End(_, _) => 0.0,
        };
        docks.push((axis_of(draft, *dock, grown.node, grown.side), half))?;
    }
    Spans::of(alloc, docks)
}

fn shrink(draft: &mut Draft, it: Grown, node: usize, side: Side, axis: f64) {
    let room = draft.size_of(Element::Node(node));
    let from = axis - side.middle(it.small);
    let place = side.place_at(it.small, from, 0.0, room);
    draft.resize(Element::Port(it.port), it.small);
    draft.put(Element::Port(it.port), it.given.unwrap_or(place));
}

// How far from its node the outer face of a port lies.
fn away_of(draft: &Draft, it: Grown, node: usize, side: Side) -> f64 {
    let back = side.back(draft.place_of(Element::Port(it.port)));
    match side {
        Side::North | Side::West => -back,
        Side::East | Side::South => {
            back + side.outward(it.small) - side.outward(draft.size_of(Element::Node(node)))
        }
    }
}

// The point to which the place of a block is relative before its labels are placed, as their owner sees it.
fn base_of(draft: &Draft, block: &Block, port: usize, node: usize) -> Point {
    match block.owner {
        Owner::Port => {
            let place = draft.place_of(Element::Port(port));
            Point {
                x: -place.x,
                y: -place.y,
            }
        }
        Owner::Level => draft.place_of(Element::Node(node)),
    }
}

fn place_blocks(draft: &mut Draft, blocks: &[Block], port: usize, line: Line) {
    let side = line.side;
    let room = draft.size_of(Element::Node(line.node));
    let is_right = side == Side::West || line.is_turned && side != Side::East;
    let align = if is_right { Align::Right } else { Align::Left };
    let mut away = line.away;
    for block in blocks {
        away += block.out;
        let from = if line.is_turned {
            line.axis - block.aside - side.along(block.size)
        } else {
            line.axis + block.aside
        };
        let place = side.place_at(block.size, from, away, room);
        let stack = Stack {
            place: place.moved(base_of(draft, block, port, line.node)),
            width: block.size.width,
            gap: block.gap,
            align,
        };
        place_stack(draft, block.labels.as_slice(), stack);
        away += side.outward(block.size);
    }
}

fn raise_port(
    alloc: Global,
    draft: &mut Draft,
    it: Grown,
    ends: &[(usize, Kind)],
    blocks: &[Block],
    spans: &Spans,
    at: (usize, Side),
) -> Result<(), AllocError> {
    let (node, side) = at;
    let axis = axis_of(draft, Dock::Port(it.port), node, side);
    shrink(draft, it, node, side, axis);
    let away = away_of(draft, it, node, side);
    for (edge, kind) in ends {
        draft.draw_on(alloc, *edge, *kind, node, side, away)?;
    }
    let line = Line {
        node,
        side,
        axis,
        away,
        is_turned: spans.is_before(axis, it.needs),
    };
    place_blocks(draft, blocks, it.port, line);
    Ok(())
}

/// Shrinks the ports of a placed draft again, draws their lines on to them, and places what stands beside the lines.
pub fn raise_ports(alloc: Global, draft: &mut Draft, grown: GrownPorts) -> Result<(), AllocError> {
    for of_side in grown.sides.iter().rev() {
        draft.undo_to(of_side.mark)?;
        let spans = spans_of(alloc, draft, of_side)?;
        for it in of_side.ports.iter() {
            let (ends, blocks) = (grown.ends_at(it.port), grown.strips.at(it.port));
            let at = (of_side.node, of_side.side);
            raise_port(alloc, draft, *it, ends, blocks, &spans, at)?;
        }
    }
    Ok(())
}
