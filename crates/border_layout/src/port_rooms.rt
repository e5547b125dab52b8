//! The room along the sides of a level's node for the labels of ports that stand within it, beside the lines that cross its border.

use border_levels::{Model, PortRule};
use border_ring::Led;
use graph_draft::{Direction, Side, Size};
use std::alloc::{AllocError, Global};
use std::cmp::OrderedFloat;
use std::collections::{BTreeMap, BTreeSet};

// The room that a port without a line has beside its labels.
const BESIDE_LABELS: f64 = 4.0;

// The lines that cross a side of a node, in their order: where each lies, and the room that labels take behind it.
fn lines_at(
    alloc: Global,
    model: &Model,
    side: Side,
    pins: &BTreeMap<usize, f64>,
) -> Result<Vec<(f64, f64)>, AllocError> {
    let mut lines = Vec::new(alloc);
    for (at, line) in pins.iter() {
        if let Some(crossing) = model.crossing(*at) {
            if crossing.side == side {
                let room = match crossing.port {
                    Some(port) => model.port(port).length,
                    None => 0.0,
                };
                lines.push((*line, room))?;
            }
        }
    }
    lines.sort_by_key(|(line, _)| OrderedFloat(*line))?;
    Ok(lines)
}

// The ports at which lines cross the border.
fn crossed_ports(
    alloc: Global,
    model: &Model,
    pins: &BTreeMap<usize, f64>,
) -> Result<BTreeSet<usize>, AllocError> {
    let mut crossed = BTreeSet::new(alloc);
    for (at, _) in pins.iter() {
        if let Some(crossing) = model.crossing(*at) {
            if let Some(port) = crossing.port {
                crossed.insert(port)?;
            }
        }
    }
    Ok(crossed)
}

// The rooms along a side that ports without lines take with their labels.
fn rooms_at(
    alloc: Global,
    model: &Model,
    level: usize,
    side: Side,
    crossed: &BTreeSet<usize>,
) -> Result<Vec<f64>, AllocError> {
    let mut rooms = Vec::new(alloc);
    for port in model.draft.ports_of(level) {
        let known = model.port(*port);
        let is_here = known.side == side && known.length > 0.0;
        if is_here && !crossed.contains(port) {
            rooms.push(known.length + BESIDE_LABELS)?;
        }
    }
    Ok(rooms)
}

// How many of the rooms have their places once a gap takes as many of the next ones as it can.
fn filled(rooms: &[f64], before: usize, gap: f64) -> usize {
    let (mut left, mut count) = (gap, before);
    for room in rooms.iter().skip(before) {
        if *room > left {
            break;
        }
        left -= *room;
        count = count.saturating_add(1);
    }
    count
}

// Whether a side gets longer before its lines when the node grows: the content stays where its level begins.
fn grows_before(direction: Direction, side: Side) -> bool {
    match direction {
        Direction::Left => !side.is_upright(),
        Direction::Up => side.is_upright(),
        Direction::Right | Direction::Down => false,
    }
}

// How much longer a side has to be so that all rooms have their places between its lines, behind the last or, if it grows there, before
// the first.
fn lack_at(lines: &[(f64, f64)], rooms: &[f64], length: f64, is_before: bool) -> f64 {
    let (mut from, mut count): (f64, usize) = (0.0, 0);
    for (line, room) in lines {
        count = filled(rooms, count, *line - from);
        from = *line + *room;
    }
    let mut needs = 0.0;
    for room in rooms.iter().skip(count) {
        needs += *room;
    }
    let lack = (from + needs - length).ceil().max(0.0);
    if needs == 0.0 || lack == 0.0 {
        0.0
    } else if is_before {
        needs.ceil()
    } else {
        lack
    }
}

/// How much larger the node of a level has to be so that the labels of its ports without lines stand within it, clear of the lines that
/// cross its border. Pinned ports have their places anyway.
pub(crate) fn lack_beside_lines(
    alloc: Global,
    model: &Model,
    level: usize,
    led: &Led,
) -> Result<Size, AllocError> {
    let mut lack = Size::NONE;
    if model.rule_of(level) == PortRule::FixedPos {
        return Ok(lack);
    }
    let crossed = crossed_ports(alloc, model, &led.pins)?;
    for side in Side::ALL {
        let rooms = rooms_at(alloc, model, level, side, &crossed)?;
        let lines = lines_at(alloc, model, side, &led.pins)?;
        let is_before = grows_before(model.direction_of(level), side);
        let length = side.along(led.size);
        let more = lack_at(lines.as_slice(), rooms.as_slice(), length, is_before);
        if side.is_upright() {
            lack.height = lack.height.max(more);
        } else {
            lack.width = lack.width.max(more);
        }
    }
    Ok(lack)
}
