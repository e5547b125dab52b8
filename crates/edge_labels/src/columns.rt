//! The columns of placed levels: how far each child may move along the direction of its level, since nothing else stands beside it
//! in its layer.

use graph_draft::{Direction, Draft, Element};
use serde_json::Value;
use std::alloc::{AllocError, Global};
use std::collections::BTreeMap;

// How far a child may move: to where its column begins and to where it ends, as the direction runs.
#[derive(Clone, Copy, Drop)]
pub(crate) struct Shift {
    pub(crate) behind: f64,
    pub(crate) ahead: f64,
}

impl Shift {
    const NONE: Shift = Shift {
        behind: 0.0,
        ahead: 0.0,
    };
}

// From where to where something reaches along the direction of a level.
#[derive(Clone, Copy, Drop)]
struct Reach {
    from: f64,
    to: f64,
}

impl Reach {
    fn joined(self, other: Reach) -> Reach {
        Reach {
            from: self.from.min(other.from),
            to: self.to.max(other.to),
        }
    }
}

// A layer of a part of a level.
type Column = (i64, Option<i64>);

// The columns of the levels that were asked for.
#[derive(Drop)]
pub(crate) struct Columns {
    levels: BTreeMap<usize, BTreeMap<usize, Shift>>,
}

fn number_at(layering: Option<&Value>, key: &str, at: usize) -> Option<i64> {
    match layering?.get(key) {
        Some(Value::Array(items)) => items.get(at)?.as_i64(),
        _ => None,
    }
}

// The reach of an element whose place is relative to `origin`.
fn reach_of_element(draft: &Draft, element: Element, direction: Direction, origin: f64) -> Reach {
    let side = direction.ahead();
    let from = origin + side.back(draft.place_of(element));
    let to = from + side.outward(draft.size_of(element));
    Reach { from, to }
}

// The reach of the outline of a child.
fn reach_of(draft: &Draft, child: usize, direction: Direction) -> Reach {
    let own = reach_of_element(draft, Element::Node(child), direction, 0.0);
    let mut reach = own;
    for port in draft.ports_of(child) {
        let of_port = reach_of_element(draft, Element::Port(*port), direction, own.from);
        reach = reach.joined(of_port);
    }
    reach
}

// The children of a level, each with its column and its reach.
fn children_in(
    alloc: Global,
    draft: &Draft,
    level: usize,
) -> Result<Vec<(usize, Column, Reach)>, AllocError> {
    let direction = draft.direction_of(level);
    let layering = match draft.nodes.get(level) {
        Some(level) => level.layering.as_ref(),
        None => None,
    };
    let mut children = Vec::new(alloc);
    for (at, child) in draft.children_of(level).iter().enumerate() {
        let part = number_at(layering, "parts", at).unwrap_or(0);
        let column = (part, number_at(layering, "layers", at));
        children.push((*child, column, reach_of(draft, *child, direction)))?;
    }
    Ok(children)
}

fn shift_in(direction: Direction, column: Reach, reach: Reach) -> Shift {
    let (down, up) = (column.from - reach.from, column.to - reach.to);
    match direction {
        Direction::Right | Direction::Down => Shift {
            behind: down,
            ahead: up,
        },
        Direction::Left | Direction::Up => Shift {
            behind: up,
            ahead: down,
        },
    }
}

// How far each child of a level may move.
fn shifts_of(
    alloc: Global,
    draft: &Draft,
    level: usize,
) -> Result<BTreeMap<usize, Shift>, AllocError> {
    let children = children_in(alloc, draft, level)?;
    let mut columns: BTreeMap<Column, Reach> = BTreeMap::new(alloc);
    for (_, column, reach) in children.iter() {
        let joined = match columns.get(column) {
            Some(before) => before.joined(*reach),
            None => *reach,
        };
        columns.insert(*column, joined)?;
    }
    let direction = draft.direction_of(level);
    let mut shifts = BTreeMap::new(alloc);
    for (child, column, reach) in children.iter() {
        if let Some(whole) = columns.get(column) {
            shifts.insert(*child, shift_in(direction, *whole, *reach))?;
        }
    }
    Ok(shifts)
}

impl Columns {
    /// No levels yet.
    pub(crate) fn none(alloc: Global) -> Columns {
        Columns {
            levels: BTreeMap::new(alloc),
        }
    }

    /// Measures a level, unless it is measured already.
    pub(crate) fn measure(
        &mut self,
        alloc: Global,
        draft: &Draft,
        level: usize,
    ) -> Result<(), AllocError> {
        if self.levels.get(&level).is_none() {
            let shifts = shifts_of(alloc, draft, level)?;
            self.levels.insert(level, shifts)?;
        }
        Ok(())
    }

    /// How far a child of a measured level may move.
    pub(crate) fn shift_of(&self, level: usize, child: usize) -> Shift {
        let shift = match self.levels.get(&level) {
            Some(shifts) => shifts.get(&child).copied(),
            None => None,
        };
        shift.unwrap_or(Shift::NONE)
    }
}
