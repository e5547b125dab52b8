//! The rule on ports whose places are fixed.

use crate::asked::Asked;
use crate::context::Context;
use crate::finds::{Case, Find, Outline, Side};
use crate::limits::number_at;
use json_places::{Element, Kind, Step};
use serde_json::Value;
use std::alloc::{AllocError, Global};

fn outline_of(value: &Value) -> Outline {
    Outline {
        x: number_at(value, "x"),
        y: number_at(value, "y"),
        width: number_at(value, "width"),
        height: number_at(value, "height"),
    }
}

// Whether a port's outer face at a side lies inside its node.
fn is_inside(side: Side, port: Outline, node: Outline) -> bool {
    match side {
        Side::West => port.x > 0.0,
        Side::North => port.y > 0.0,
        Side::East => port.x + port.width < node.width,
        Side::South => port.y + port.height < node.height,
    }
}

// The member of a port that tells its face at a side, where it is, and its bound.
fn face_at(side: Side, port: Outline, node: Outline) -> (&'static str, f64, f64) {
    match side {
        Side::West => ("x", port.x, 0.0),
        Side::North => ("y", port.y, 0.0),
        Side::East => ("x", port.x, node.width - port.width),
        Side::South => ("y", port.y, node.height - port.height),
    }
}

// What is wrong with the place of a port, and the member that tells it.
fn fault_at<'a>(
    asked: &Asked,
    port: Outline,
    node: Outline,
) -> Option<(Option<&'static str>, Case<'a>)> {
    if let Some(side) = asked.side {
        if !is_inside(side, port, node) {
            return None;
        }
        let (name, found, bound) = face_at(side, port, node);
        return Some((Some(name), Case::Facing(found, side, bound)));
    }
    for side in [Side::West, Side::North, Side::East, Side::South] {
        if !is_inside(side, port, node) {
            return None;
        }
    }
    Some((None, Case::Inside(port, node)))
}

// The node of a port whose place is fixed.
fn fixed_node<'a, 'b>(context: &'b Context<'a>, port: &Element<'a>) -> Option<&'b Element<'a>> {
    let holder = port.holder?;
    let node = context.element(holder)?;
    let asked = context.asked.get(holder)?;
    if port.kind == Kind::Port && !node.is_level && asked.is_good() && asked.is_fixed {
        Some(node)
    } else {
        None
    }
}

// Rule 12.
pub(crate) fn ports_inside<'a>(
    alloc: Global,
    context: &Context<'a>,
    finds: &mut Vec<Find<'a>>,
) -> Result<(), AllocError> {
    for (number, port) in context.elements.iter().enumerate() {
        let (node, asked) = match (fixed_node(context, port), context.asked.get(number)) {
            (Some(node), Some(asked)) if asked.is_good() => (node, asked),
            _ => continue,
        };
        let fault = fault_at(asked, outline_of(port.value), outline_of(node.value));
        if let Some((name, case)) = fault {
            let mut names = Vec::new(alloc);
            if let Some(name) = name {
                names.push(Step::named(alloc, name)?)?;
            }
            finds.push(Find {
                rule: 12,
                element: Some(number),
                names,
                case,
            })?;
        }
    }
    Ok(())
}
