//! The engine's drawing of a draft's document, put into the draft.

use compound::lay_out;
use drawing_types::section::Section;
use drawing_types::shape;
use elk_doc::document::Doc;
use elk_doc::drawing::{Certificate, Placed};
use elk_json::{DocFault, read_doc};
use graph_draft::{Draft, Element, Point, Size};
use serde_json::value::Map;
use serde_json::{Value, put};
use std::alloc::{AllocError, Global};
use std::num::nearest_i64_to_f64;

const ROOT: usize = 0;

// The elements of a draft in the order in which its document has them.
#[derive(Drop)]
struct Listed {
    nodes: Vec<usize>,
    ports: Vec<usize>,
    edges: Vec<usize>,
}

fn push_all(list: &mut Vec<usize>, numbers: &[usize]) -> Result<(), AllocError> {
    for number in numbers {
        list.push(*number)?;
    }
    Ok(())
}

fn elements_in(alloc: Global, draft: &Draft) -> Result<Listed, AllocError> {
    let mut nodes = Vec::new(alloc);
    let mut ports = Vec::new(alloc);
    let mut edges = Vec::new(alloc);
    let mut waiting = vec![in alloc; ROOT]?;
    for _ in 0..draft.nodes.len() {
        let node = match waiting.pop() {
            Some(node) => node,
            None => break,
        };
        nodes.push(node)?;
        push_all(&mut ports, draft.ports_of(node))?;
        push_all(&mut edges, draft.edges_of(node))?;
        for child in draft.children_of(node).iter().rev() {
            waiting.push(*child)?;
        }
    }
    Ok(Listed {
        nodes,
        ports,
        edges,
    })
}

fn point_at(x: i64, y: i64) -> Point {
    Point {
        x: nearest_i64_to_f64(x),
        y: nearest_i64_to_f64(y),
    }
}

fn place_node(draft: &mut Draft, node: usize, area: &shape::Rect) {
    draft.put(Element::Node(node), point_at(area.x, area.y));
    draft.resize(
        Element::Node(node),
        Size {
            width: nearest_i64_to_f64(area.width),
            height: nearest_i64_to_f64(area.height),
        },
    );
}

fn points_of(alloc: Global, section: &Section) -> Result<Vec<Point>, AllocError> {
    let mut points = Vec::new(alloc);
    points.push(point_at(section.start.x, section.start.y))?;
    for bend in section.bends.as_slice() {
        points.push(point_at(bend.x, bend.y))?;
    }
    points.push(point_at(section.end.x, section.end.y))?;
    Ok(points)
}

fn small_values(alloc: Global, numbers: &[u32]) -> Result<Value, AllocError> {
    let mut values = Vec::new(alloc);
    for number in numbers {
        values.push(Value::from(*number))?;
    }
    Ok(Value::Array(values))
}

fn large_values(alloc: Global, numbers: &[u64]) -> Result<Value, AllocError> {
    let mut values = Vec::new(alloc);
    for number in numbers {
        values.push(Value::from(*number))?;
    }
    Ok(Value::Array(values))
}

// The ids of edges, by their places in the document.
fn ids_of(
    alloc: Global,
    draft: &Draft,
    listed: &Listed,
    edges: &[u32],
) -> Result<Value, AllocError> {
    let mut values = Vec::new(alloc);
    for at in edges {
        let edge = listed.edges.get(*at as usize).copied().unwrap_or(0);
        let id = match draft.edges.get(edge) {
            Some(edge) => edge.id.as_ref(),
            None => None,
        };
        match id {
            Some(id) => values.push(id.clone()?)?,
            None => values.push(Value::Null)?,
        }
    }
    Ok(Value::Array(values))
}

// The certificate of a level, as the engine tells it. `is_split` says whether the level is laid out part by part.
fn layering_of(
    alloc: Global,
    draft: &Draft,
    listed: &Listed,
    certificate: &Certificate,
    is_split: bool,
) -> Result<Value, AllocError> {
    let mut members = Map::new(alloc);
    let flow = large_values(alloc, certificate.flow.as_slice())?;
    put(&mut members, alloc, "flow", flow)?;
    let layers = small_values(alloc, certificate.layers.as_slice())?;
    put(&mut members, alloc, "layers", layers)?;
    put(&mut members, alloc, "span", Value::from(certificate.span))?;
    let reversed = ids_of(alloc, draft, listed, certificate.reversed.as_slice())?;
    put(&mut members, alloc, "reversed", reversed)?;
    if is_split {
        let parts = small_values(alloc, certificate.parts.as_slice())?;
        put(&mut members, alloc, "parts", parts)?;
    }
    Ok(Value::Object(members))
}

fn is_split(doc: &Doc, at: usize) -> bool {
    match doc.nodes().get(at) {
        Some(node) => match node.level {
            Some(level) => level.split,
            None => false,
        },
        None => false,
    }
}

fn put_layerings(
    alloc: Global,
    draft: &mut Draft,
    listed: &Listed,
    doc: &Doc,
    levels: &[Option<Certificate>],
) -> Result<(), AllocError> {
    for (at, node) in listed.nodes.iter().enumerate() {
        let layering = match levels.get(at) {
            Some(Some(certificate)) => {
                let split = is_split(doc, at);
                Some(layering_of(alloc, draft, listed, certificate, split)?)
            }
            _ => None,
        };
        if let Some(node) = draft.nodes.get_mut(*node) {
            node.layering = layering;
        }
    }
    Ok(())
}

fn put_drawing(
    alloc: Global,
    draft: &mut Draft,
    doc: &Doc,
    placed: &Placed,
) -> Result<(), AllocError> {
    let listed = elements_in(alloc, draft)?;
    for (node, area) in listed.nodes.iter().zip(placed.boxes.as_slice().iter()) {
        place_node(draft, *node, area);
    }
    for (port, place) in listed.ports.iter().zip(placed.ports.as_slice().iter()) {
        draft.put(Element::Port(*port), point_at(place.x, place.y));
    }
    for (edge, section) in listed.edges.iter().zip(placed.sections.as_slice().iter()) {
        let points = points_of(alloc, section)?;
        draft.set_route(alloc, *edge, points)?;
    }
    put_layerings(alloc, draft, &listed, doc, placed.levels.as_slice())
}

/// Has the engine lay out the document of a draft, and puts the drawing into the draft. A document that it doesn't take is refused by
/// the rule that it breaks.
pub(crate) fn place_document(
    alloc: Global,
    draft: &mut Draft,
    document: &Value,
) -> Result<(), DocFault> {
    let doc = read_doc(alloc, document)?;
    let placed = lay_out(alloc, &doc)?;
    put_drawing(alloc, draft, &doc, &placed)?;
    Ok(())
}
