//! The leaves that stand for the border of a level.

use crate::children::{SentNode, Task};
use crate::edges::border_name;
use crate::members::{ask_word, put_options, put_size};
use crate::ports::{PortKey, SentPort};
use crate::sorting::sort_among;
use border_levels::{Model, PortRule, is_forward};
use graph_draft::{Side, text_value};
use layer_stages::Border;
use serde_json::put;
use serde_json::value::Map;
use std::alloc::{AllocError, Global};
use std::num::nearest_i64_to_f64;

const BETWEEN_ENDS: f64 = 10.0;

// The crossings to which one side of a level leads, in the order in which they are sent.
#[derive(Drop)]
pub(crate) struct Crossed {
    pub(crate) crossings: Vec<usize>,
    // Whether that order is kept.
    pub(crate) is_kept: bool,
}

// The side of a level that leads to its border at an end, and the side of the border's leaf that faces it.
pub(crate) fn sides_of(task: Task<'_>, border: Border) -> (Side, Side) {
    let direction = task.model.direction_of(task.level);
    match border {
        Border::First => (direction.behind(), direction.ahead()),
        Border::Last => (direction.ahead(), direction.behind()),
    }
}

// The ranks of the crossings at declared ports that keep a fixed order among themselves, each beside its place among some crossings.
fn ranks_in(
    alloc: Global,
    model: &Model,
    level: usize,
    crossings: &[usize],
) -> Result<Vec<(usize, f64)>, AllocError> {
    let mut ranks = Vec::new(alloc);
    let rule = model.rule_of(level);
    if rule != PortRule::FixedOrder && rule != PortRule::FixedPos {
        return Ok(ranks);
    }
    for (place, at) in crossings.iter().enumerate() {
        if let Some(crossing) = model.crossing(*at) {
            if let (Some(port), true) = (crossing.port, crossing.is_on_axis()) {
                ranks.push((place, nearest_i64_to_f64(model.port(port).rank)))?;
            }
        }
    }
    Ok(ranks)
}

// Those of a level's crossings to which a side leads, those of an order in it, behind those that aren't.
fn leading_to(
    alloc: Global,
    model: &Model,
    level: usize,
    exit: Side,
    order: Option<&Vec<usize>>,
) -> Result<Vec<usize>, AllocError> {
    let mut found = Vec::new(alloc);
    for at in model.crossings_of(level) {
        if let Some(crossing) = model.crossing(*at) {
            if crossing.exit == exit {
                let place = match order {
                    Some(order) => order.iter().position(|other| *other == *at),
                    None => None,
                };
                found.push((place, *at))?;
            }
        }
    }
    found.sort_by_key(|(place, _)| *place)?;
    let mut crossings = Vec::new(alloc);
    for (_, at) in found.iter() {
        crossings.push(*at)?;
    }
    Ok(crossings)
}

pub(crate) fn crossed_at(
    alloc: Global,
    task: Task<'_>,
    border: Border,
) -> Result<Crossed, AllocError> {
    let (exit, _) = sides_of(task, border);
    let order = match task.known.orders.get(&task.level) {
        Some(orders) => orders.get(&exit),
        None => None,
    };
    let mut crossings = leading_to(alloc, task.model, task.level, exit, order)?;
    let ranks = ranks_in(alloc, task.model, task.level, crossings.as_slice())?;
    sort_among(alloc, crossings.as_mut_slice(), ranks.as_slice())?;
    Ok(Crossed {
        crossings,
        is_kept: order.is_some() || ranks.len() > 1,
    })
}

// The ports of a border's leaf. Indices run clockwise.
fn border_ports(
    alloc: Global,
    crossings: &[usize],
    facing: Side,
) -> Result<Vec<SentPort>, AllocError> {
    let mut ports = Vec::new(alloc);
    for (at, crossing) in crossings.iter().enumerate() {
        let behind = crossings.len().saturating_sub(at).saturating_sub(1);
        let index = if is_forward(facing) { at } else { behind };
        ports.push(SentPort {
            side: Some(facing),
            index: Some(index),
            ..SentPort::bare(PortKey::Frame(*crossing))
        })?;
    }
    Ok(ports)
}

fn length_for(crossings: &[usize]) -> f64 {
    let mut length = BETWEEN_ENDS;
    for _ in crossings {
        length += BETWEEN_ENDS;
    }
    length
}

/// The thin leaf that stands for the border of a level at an end.
pub(crate) fn border_leaf(
    alloc: Global,
    task: Task<'_>,
    border: Border,
    crossed: &Crossed,
) -> Result<SentNode, AllocError> {
    let (_, facing) = sides_of(task, border);
    let crossings = crossed.crossings.as_slice();
    let mut members = Map::new(alloc);
    let name = text_value(alloc, border_name(border))?;
    put(&mut members, alloc, "id", name)?;
    let size = facing.box_at(length_for(crossings), 1.0);
    put_size(&mut members, alloc, size)?;
    let mut options = Map::new(alloc);
    let rule = if crossed.is_kept {
        "FIXED_ORDER"
    } else {
        "FIXED_SIDE"
    };
    ask_word(&mut options, alloc, "portConstraints", rule)?;
    put_options(&mut members, alloc, options)?;
    Ok(SentNode {
        members,
        ports: border_ports(alloc, crossings, facing)?,
        is_free: !crossed.is_kept,
    })
}
