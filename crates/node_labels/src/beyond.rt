//! Labels beyond the sides of nodes, clear of the lines that leave there.

use crate::groups::Group;
use crate::inside::align_of;
use graph_draft::{Draft, Element, Side};
use label_room::{Align, Dock, Sides, Stack, Strips, borders, lines_at, place_stack, spots_at};
use std::alloc::{AllocError, Global};
use std::num::nearest_usize_to_f64;

// Where labels stand beyond a side of a node.
#[derive(Drop)]
pub(crate) struct Beyond {
    pub(crate) node: usize,
    side: Side,
    docks: Vec<Dock>,
    // How far from the node they begin.
    away: f64,
    // The room between them and lines.
    clear: f64,
}

// The place of a group along a side, counted from where the side begins.
fn cell_of(group: &Group, side: Side) -> usize {
    if side.is_upright() {
        group.spot.row
    } else {
        group.spot.column
    }
}

// Where along a side labels begin: in their cell, or before the first or behind the last line where one meets them.
fn from_of(cell: usize, length: f64, room: f64, lines: &[f64], clear: f64) -> f64 {
    let from = match cell {
        0 => 0.0,
        1 => (room - length) / 2.0,
        _ => room - length,
    };
    let is_met = lines.iter().any(|line| from - clear < *line && *line < from + length + clear);
    match (lines.first(), lines.last()) {
        (Some(first), _) if is_met && cell == 0 => *first - clear - length,
        (_, Some(last)) if is_met => *last + clear,
        _ => from,
    }
}

fn is_at(group: &Group, side: Side) -> bool {
    group.spot.side == Some(side)
}

// The room that labels take beyond a side, outwards.
fn depth_of(groups: &[Group], side: Side) -> f64 {
    let mut depth: f64 = 0.0;
    for group in groups {
        if is_at(group, side) {
            depth += side.outward(group.size);
        }
    }
    depth
}

// How far a port whose place is known reaches beyond a side.
fn pinned_beyond(draft: &Draft, node: usize, side: Side, port: usize) -> f64 {
    let room = draft.size_of(Element::Node(node));
    let place = draft.place_of(Element::Port(port));
    let size = draft.size_of(Element::Port(port));
    match side {
        Side::North => -place.y,
        Side::East => place.x + size.width - room.width,
        Side::South => place.y + size.height - room.height,
        Side::West => -place.x,
    }
}

// How far ports at a neighbouring side reach beyond a side of a leaf that is shorter than they are. The engine spreads them at equal
// distances.
fn corner_beyond(draft: &Draft, sides: &Sides, node: usize, side: Side, beside: Side) -> f64 {
    let docks = sides.at(node, beside);
    let length = beside.along(draft.size_of(Element::Node(node)));
    let first = (length / (nearest_usize_to_f64(docks.len()) + 1.0)).floor();
    let mut most: f64 = 0.0;
    for dock in docks {
        if let Dock::Port(port) = dock {
            most = most.max(if draft.is_pinned(node) {
                pinned_beyond(draft, node, side, *port)
            } else {
                beside.along(draft.size_of(Element::Port(*port))) / 2.0 - first
            });
        }
    }
    most.ceil()
}

// How far ports at the two neighbouring sides reach beyond a side. The size of a level isn't known yet.
fn corners_beyond(draft: &Draft, sides: &Sides, node: usize, side: Side) -> f64 {
    if draft.is_level(node) {
        return 0.0;
    }
    let (before, behind) = borders(side);
    let one = corner_beyond(draft, sides, node, side, before);
    one.max(corner_beyond(draft, sides, node, side, behind))
}

// How far a side's ports and the room that is kept there reach.
fn base_of(draft: &Draft, strips: &Strips, node: usize, side: Side, docks: &[Dock]) -> f64 {
    let mut base = strips.reserved_at(node, side);
    for dock in docks {
        base = base.max(match dock {
            Dock::Port(port) => strips.end_of(draft, *port, side),
            Dock::End(_, _) => 0.0,
        });
    }
    base
}

// Asks for the room before and behind a side into which its labels reach.
fn reserve_ends(
    alloc: Global,
    draft: &Draft,
    strips: &mut Strips,
    at: &Beyond,
    groups: &[Group],
) -> Result<(), AllocError> {
    let (node, side) = (at.node, at.side);
    let (before, behind) = borders(side);
    let spots = spots_at(alloc, draft, node, side, at.docks.as_slice())?;
    let room = side.along(draft.size_of(Element::Node(node)));
    for group in groups {
        if !is_at(group, side) {
            continue;
        }
        let length = side.along(group.size);
        let cell = cell_of(group, side);
        if !draft.is_level(node) {
            let from = from_of(cell, length, room, spots.as_slice(), at.clear);
            strips.reserve(alloc, node, before, (-from).ceil())?;
            strips.reserve(alloc, node, behind, (from + length - room).ceil())?;
        } else if !at.docks.is_empty() {
            // How long the side of a level will be is not known yet.
            let border = if cell == 0 { before } else { behind };
            strips.reserve(alloc, node, border, length + at.clear)?;
        }
    }
    Ok(())
}

// Asks for room beyond a side of a node where its labels stand; none if none stand there.
pub(crate) fn reserve_beyond(
    alloc: Global,
    draft: &Draft,
    strips: &mut Strips,
    sides: &Sides,
    groups: &[Group],
    at: (usize, Side),
) -> Result<Option<Beyond>, AllocError> {
    let (node, side) = at;
    if !groups.iter().any(|group| is_at(group, side)) {
        return Ok(None);
    }
    let level = Element::Node(draft.level_around(node));
    let docks = sides.at(node, side);
    let base = base_of(draft, strips, node, side, docks);
    let base = base.max(corners_beyond(draft, sides, node, side));
    let away = draft.number(level, "spacing.labelNode", 5.0);
    let depth = depth_of(groups, side) + away;
    strips.reserve(alloc, node, side, base + depth)?;
    let beyond = Beyond {
        node,
        side,
        docks: Vec::from_slice(alloc, docks)?,
        away: base + away,
        clear: draft.number(level, "spacing.edgeLabel", 2.0),
    };
    reserve_ends(alloc, draft, strips, &beyond, groups)?;
    Ok(Some(beyond))
}

fn align_at(group: &Group, side: Side) -> Align {
    match side {
        Side::West => Align::Right,
        Side::East => Align::Left,
        Side::North | Side::South => align_of(group.spot.column),
    }
}

// Places the labels beyond a side of a placed node.
pub(crate) fn place_beyond(
    alloc: Global,
    draft: &mut Draft,
    groups: &[Group],
    at: &Beyond,
) -> Result<(), AllocError> {
    let (node, side) = (at.node, at.side);
    let lines = lines_at(alloc, draft, node, side, at.docks.as_slice())?;
    let room = draft.size_of(Element::Node(node));
    let mut away = at.away;
    for group in groups {
        if is_at(group, side) {
            let (cell, length) = (cell_of(group, side), side.along(group.size));
            let from = from_of(cell, length, side.along(room), lines.as_slice(), at.clear);
            let stack = Stack {
                place: side.place_at(group.size, from, away, room),
                width: group.size.width,
                gap: group.gap,
                align: align_at(group, side),
            };
            place_stack(draft, group.labels.as_slice(), stack);
            away += side.outward(group.size);
        }
    }
    Ok(())
}
