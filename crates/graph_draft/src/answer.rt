//! The engine's answer to a draft's document, read into the draft.

use crate::draft::Draft;
use crate::element::Element;
use crate::points::{Point, Size};
use crate::values::finite_at;
use serde_json::Value;
use std::alloc::{AllocError, Global};

fn number_at(value: &Value, key: &str) -> f64 {
    finite_at(value, key).unwrap_or(0.0)
}

fn point_in(value: &Value) -> Point {
    Point {
        x: number_at(value, "x"),
        y: number_at(value, "y"),
    }
}

fn item<'a>(value: &'a Value, key: &str, at: usize) -> Option<&'a Value> {
    match value.get(key) {
        Some(Value::Array(items)) => items.get(at),
        _ => None,
    }
}

fn place_element(draft: &mut Draft, element: Element, value: &Value) {
    draft.put(element, point_in(value));
    draft.resize(
        element,
        Size {
            width: number_at(value, "width"),
            height: number_at(value, "height"),
        },
    );
}

// The points of the first section of a placed edge.
fn points_in(alloc: Global, edge: &Value) -> Result<Vec<Point>, AllocError> {
    let mut points = Vec::new(alloc);
    if let Some(section) = item(edge, "sections", 0) {
        if let Some(start) = section.get("startPoint") {
            points.push(point_in(start))?;
        }
        if let Some(Value::Array(bends)) = section.get("bendPoints") {
            for bend in bends {
                points.push(point_in(bend))?;
            }
        }
        if let Some(end) = section.get("endPoint") {
            points.push(point_in(end))?;
        }
    }
    Ok(points)
}

fn place_ports(
    alloc: Global,
    draft: &mut Draft,
    node: usize,
    value: &Value,
) -> Result<(), AllocError> {
    for (at, port) in Vec::from_slice(alloc, draft.ports_of(node))?
        .iter()
        .enumerate()
    {
        if let Some(value) = item(value, "ports", at) {
            place_element(draft, Element::Port(*port), value);
        }
    }
    Ok(())
}

fn place_edges(
    alloc: Global,
    draft: &mut Draft,
    node: usize,
    value: &Value,
) -> Result<(), AllocError> {
    for (at, edge) in Vec::from_slice(alloc, draft.edges_of(node))?
        .iter()
        .enumerate()
    {
        if let Some(value) = item(value, "edges", at) {
            let points = points_in(alloc, value)?;
            draft.set_route(alloc, *edge, points)?;
        }
    }
    Ok(())
}

fn place_node(
    alloc: Global,
    draft: &mut Draft,
    at: usize,
    value: &Value,
) -> Result<(), AllocError> {
    place_element(draft, Element::Node(at), value);
    place_ports(alloc, draft, at, value)?;
    place_edges(alloc, draft, at, value)?;
    let layering = match value.get("layering") {
        Some(layering) => Some(layering.clone()?),
        None => None,
    };
    if let Some(node) = draft.nodes.get_mut(at) {
        node.layering = layering;
    }
    Ok(())
}

/// Reads the engine's answer to the document of a draft into the draft.
pub fn place(alloc: Global, draft: &mut Draft, answer: &Value) -> Result<(), AllocError> {
    let mut values: Vec<Option<&Value>> = Vec::new(alloc);
    values.push(Some(answer))?;
    for _ in 1..draft.nodes.len() {
        values.push(None)?;
    }
    // Each node stands behind its parent.
    for at in 0..draft.nodes.len() {
        if let Some(Some(value)) = values.get(at).copied() {
            place_node(alloc, draft, at, value)?;
            for (k, child) in draft.children_of(at).iter().enumerate() {
                if let Some(slot) = values.get_mut(*child) {
                    *slot = item(value, "children", k);
                }
            }
        }
    }
    Ok(())
}
