//! The rules on how large a document and its parts may be.

use crate::asked::Asked;
use crate::context::Context;
use crate::finds::{Case, FAR_PLACE, Find, PLACE, Plenty, Side};
use json_places::{Element, Kind, Step};
use serde_json::Value;
use std::alloc::{AllocError, Global};

const MOST_SIZE: f64 = 1048576.0;

const MOST_PLACE: f64 = 1048576.0;

const MOST_FAR_PLACE: f64 = 9007199254740992.0;

const MOST_NODES: usize = 2048;

const MOST_PORTS: usize = 4096;

const MOST_EDGES: usize = 2048;

/// So many nodes may hold another.
pub const MOST_LEVELS: usize = 50;

// The number of a member, 0 where it has none.
pub(crate) fn number_at(value: &Value, name: &str) -> f64 {
    match value.get(name) {
        Some(Value::Number(number)) => number.as_f64().unwrap_or(0.0),
        _ => 0.0,
    }
}

// Whether a port of a level may stand far from its node in one direction.
fn may_be_far(port: &Asked, node: &Asked, name: &str) -> bool {
    if !port.is_good() || !node.is_good() || !node.is_fixed {
        return true;
    }
    match port.side {
        Some(Side::North | Side::South) => name != "x",
        Some(Side::East | Side::West) => name != "y",
        None => true,
    }
}

fn is_far(context: &Context, number: usize, element: &Element, name: &str) -> bool {
    let Some(holder) = element.holder else {
        return false;
    };
    let is_level = match context.element(holder) {
        Some(node) => node.is_level,
        None => false,
    };
    match (context.asked.get(number), context.asked.get(holder)) {
        (Some(port), Some(node)) if is_level => may_be_far(port, node, name),
        _ => false,
    }
}

fn add<'a>(
    alloc: Global,
    finds: &mut Vec<Find<'a>>,
    number: usize,
    name: &str,
    case: Case<'a>,
) -> Result<(), AllocError> {
    let mut names = Vec::new(alloc);
    names.push(Step::named(alloc, name)?)?;
    finds.push(Find {
        rule: 4,
        element: Some(number),
        names,
        case,
    })?;
    Ok(())
}

fn sizes_of<'a>(
    alloc: Global,
    number: usize,
    element: &Element<'a>,
    finds: &mut Vec<Find<'a>>,
) -> Result<(), AllocError> {
    for name in ["width", "height"] {
        let size = number_at(element.value, name);
        if let Some(found) = element.value.get(name) {
            if !(0.0 <= size && size <= MOST_SIZE) {
                add(alloc, finds, number, name, Case::Size(found))?;
            }
        }
    }
    Ok(())
}

fn places_of<'a>(
    alloc: Global,
    context: &Context<'a>,
    number: usize,
    element: &Element<'a>,
    finds: &mut Vec<Find<'a>>,
) -> Result<(), AllocError> {
    for name in ["x", "y"] {
        let place = number_at(element.value, name).abs();
        let (most, words) = if is_far(context, number, element, name) {
            (MOST_FAR_PLACE, FAR_PLACE)
        } else {
            (MOST_PLACE, PLACE)
        };
        if let Some(found) = element.value.get(name) {
            if !(place <= most) {
                add(alloc, finds, number, name, Case::Place(found, words))?;
            }
        }
    }
    Ok(())
}

// Rule 4.
pub(crate) fn out_of_range<'a>(
    alloc: Global,
    context: &Context<'a>,
    finds: &mut Vec<Find<'a>>,
) -> Result<(), AllocError> {
    for (number, element) in context.elements.iter().enumerate() {
        if element.kind != Kind::Edge && !element.is_level {
            sizes_of(alloc, number, element, finds)?;
        }
        if element.kind == Kind::Port {
            places_of(alloc, context, number, element, finds)?;
        }
    }
    Ok(())
}

// Rule 5.
pub(crate) fn too_many(
    alloc: Global,
    context: &Context,
    finds: &mut Vec<Find>,
) -> Result<(), AllocError> {
    for (kind, plenty, most) in [
        (Kind::Node, Plenty::Nodes, MOST_NODES),
        (Kind::Port, Plenty::Ports, MOST_PORTS),
        (Kind::Edge, Plenty::Edges, MOST_EDGES),
    ] {
        let elements = context.elements.iter();
        let count = elements.filter(|element| element.kind == kind).count();
        if count > most {
            finds.push(Find {
                rule: 5,
                element: None,
                names: Vec::new(alloc),
                case: Case::Many(count, plenty),
            })?;
        }
    }
    Ok(())
}

// Rule 6, told once for each path, where it becomes too deep.
pub(crate) fn too_deep(
    alloc: Global,
    context: &Context,
    finds: &mut Vec<Find>,
) -> Result<(), AllocError> {
    for (number, element) in context.elements.iter().enumerate() {
        if element.kind == Kind::Node && element.depth == MOST_LEVELS + 1 {
            finds.push(Find {
                rule: 6,
                element: Some(number),
                names: Vec::new(alloc),
                case: Case::Deep(element.depth),
            })?;
        }
    }
    Ok(())
}
