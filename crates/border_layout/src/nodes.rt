//! What the drawing of a level says of its children and of closed levels within these, written into the draft.

use crate::drawings::{Drawing, ORIGIN, ROOT};
use crate::titles::outer_labels;
use border_levels::Model;
use graph_draft::{Draft, Element, Point, Section};
use serde_json::Value;
use std::alloc::{AllocError, Global};

// The number in the id with which an element of some kind was sent: a node as n12, a port as p7, an edge of a closed level as c4, and a
// piece of an edge as e9. Nothing for other ids.
fn number_in(id: Option<&Value>, kind: &str) -> Option<usize> {
    match id {
        Some(Value::String(text)) => match text.as_str().strip_prefix(kind)?.parse::<usize>() {
            Ok(number) => Some(number),
            Err(_) => None,
        },
        _ => None,
    }
}

// Copies the places of labels that were drawn.
fn copy_labels(draft: &mut Draft, labels: &[usize], drawn: &Draft, from: &[usize]) {
    for (label, from) in labels.iter().zip(from.iter()) {
        let is_placed = match drawn.labels.get(*from) {
            Some(found) => found.placed,
            None => false,
        };
        if is_placed {
            let from = Element::Label(*from);
            draft.put(Element::Label(*label), drawn.place_of(from));
            draft.resize(Element::Label(*label), drawn.size_of(from));
        }
    }
}

fn copy_box(draft: &mut Draft, element: Element, drawn: &Draft, from: Element, by: Point) {
    draft.put(element, drawn.place_of(from).moved(by));
    draft.resize(element, drawn.size_of(from));
}

fn copy_section(alloc: Global, section: &Section) -> Result<Section, AllocError> {
    Ok(Section {
        points: Vec::from_slice(alloc, section.points.as_slice())?,
        incoming: Vec::from_slice(alloc, section.incoming.as_slice())?,
        outgoing: Vec::from_slice(alloc, section.outgoing.as_slice())?,
        source: section.source,
        target: section.target,
    })
}

// Copies the routes and the labels of the edges of closed levels.
fn write_closed_edges(alloc: Global, draft: &mut Draft, drawn: &Draft) -> Result<(), AllocError> {
    for (at, from) in drawn.edges.iter().take(drawn.given_edges).enumerate() {
        if let Some(number) = number_in(from.id.as_ref(), "c") {
            let mut sections = Vec::new(alloc);
            for section in from.sections.iter() {
                sections.push(copy_section(alloc, section)?)?;
            }
            if let Some(edge) = draft.edges.get_mut(number) {
                edge.sections = sections;
                edge.routing = from.routing;
            }
            let edge = Element::Edge(number);
            let labels = Vec::from_slice(alloc, draft.labels_of(edge))?;
            let drawn_labels = drawn.labels_of(Element::Edge(at));
            copy_labels(draft, labels.as_slice(), drawn, drawn_labels);
        }
    }
    Ok(())
}

fn write_ports(alloc: Global, draft: &mut Draft, drawn: &Draft) -> Result<(), AllocError> {
    for (at, from) in drawn.ports.iter().take(drawn.given_ports).enumerate() {
        if let Some(number) = number_in(from.id.as_ref(), "p") {
            let port = Element::Port(number);
            copy_box(draft, port, drawn, Element::Port(at), ORIGIN);
            let labels = Vec::from_slice(alloc, draft.labels_of(port))?;
            let drawn_labels = drawn.labels_of(Element::Port(at));
            copy_labels(draft, labels.as_slice(), drawn, drawn_labels);
        }
    }
    Ok(())
}

// The edge of the graph that was sent under an id.
fn edge_sent_as<'a>(model: &'a Model, id: &Value) -> Option<&'a Value> {
    let edge = match number_in(Some(id), "c") {
        Some(edge) => edge,
        None => model.piece(number_in(Some(id), "e")?)?.edge,
    };
    model.draft.edges.get(edge)?.id.as_ref()
}

// Puts the graph's own ids in place of those under which edges were sent.
fn name_edges(model: &Model, layering: &mut Value) -> Result<(), AllocError> {
    if let Some(Value::Array(items)) = layering.get_mut("reversed") {
        for item in items.iter_mut() {
            let own = match edge_sent_as(model, item) {
                Some(id) => Some(id.clone()?),
                None => None,
            };
            if let Some(own) = own {
                *item = own;
            }
        }
    }
    Ok(())
}

// Writes the certificate of a level by that of a node of a drawing, or that it has none.
pub(crate) fn write_layering(
    model: &mut Model,
    level: usize,
    drawn: &Draft,
    from: usize,
) -> Result<(), AllocError> {
    let layering = match drawn.nodes.get(from) {
        Some(from) if !from.altered => match from.layering.as_ref() {
            Some(layering) => {
                let mut own = layering.clone()?;
                name_edges(model, &mut own)?;
                Some(own)
            }
            None => None,
        },
        _ => None,
    };
    if let Some(node) = model.draft.nodes.get_mut(level) {
        node.altered = layering.is_none();
        node.layering = layering;
    }
    Ok(())
}

// Writes a child of a level, or a node within a closed one.
fn write_node(
    alloc: Global,
    model: &mut Model,
    node: usize,
    drawn: &Draft,
    from: usize,
    by: Point,
) -> Result<(), AllocError> {
    let element = Element::Node(node);
    let drawn_labels = drawn.labels_of(Element::Node(from));
    copy_box(&mut model.draft, element, drawn, Element::Node(from), by);
    if model.is_open(node) {
        let labels = outer_labels(alloc, &model.draft, node)?;
        copy_labels(&mut model.draft, labels.as_slice(), drawn, drawn_labels);
        return Ok(());
    }
    let labels = Vec::from_slice(alloc, model.draft.labels_of(element))?;
    copy_labels(&mut model.draft, labels.as_slice(), drawn, drawn_labels);
    if model.draft.children_of(node).is_empty() {
        return Ok(());
    }
    write_layering(model, node, drawn, from)
}

/// Writes what a drawing of a level says of all nodes within. Its content is moved by `shift`.
pub(crate) fn write_children(
    alloc: Global,
    model: &mut Model,
    drawing: &Drawing,
    shift: Point,
) -> Result<(), AllocError> {
    let drawn = &drawing.level.draft;
    for (at, from) in drawn.nodes.iter().take(drawn.given_nodes).enumerate() {
        if let (Some(parent), Some(node)) = (from.parent, number_in(from.id.as_ref(), "n")) {
            let by = if parent == ROOT { shift } else { ORIGIN };
            write_node(alloc, model, node, drawn, at, by)?;
        }
    }
    write_ports(alloc, &mut model.draft, drawn)?;
    write_closed_edges(alloc, &mut model.draft, drawn)
}
