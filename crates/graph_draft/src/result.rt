//! The graph with its drawing.

use crate::draft::Draft;
use crate::element::{Edge, Element, Section};
use crate::kinds::Routing;
use crate::points::Point;
use crate::values::{number_value, text_value};
use option_names::plain_text;
use serde_json::value::Map;
use serde_json::{Value, put};
use std::alloc::{AllocError, Global};
use std::{mem, slice};

// What an earlier drawing may have left at an edge.
const OUTDATED: [&str; 7] = [
    "sections",
    "bendPoints",
    "junctionPoints",
    "sourcePoint",
    "targetPoint",
    "container",
    "routing",
];

type Members = Map<String, Value>;

fn point_value(alloc: Global, point: Point) -> Result<Value, AllocError> {
    let mut members = Map::new(alloc);
    put(&mut members, alloc, "x", number_value(point.x))?;
    put(&mut members, alloc, "y", number_value(point.y))?;
    Ok(Value::Object(members))
}

// The ids at an end of an edge, as the graph names them: in the extended or in the primitive form.
fn ids_at<'a>(edge: &'a Members, list: &str, port: &str, node: &str) -> &'a [Value] {
    if let Some(Value::Array(items)) = edge.get(list) {
        return items.as_slice();
    }
    let named = match edge.get(port) {
        None | Some(Value::Null) => edge.get(node),
        named => named,
    };
    match named {
        Some(id) => slice::from_ref(id),
        None => &[],
    }
}

// The ends of an edge by their ids, and the text with which the ids of its sections begin.
#[derive(Drop)]
struct Names<'a> {
    sources: &'a [Value],
    targets: &'a [Value],
    edge: String,
}

fn names_of(alloc: Global, edge: &Members) -> Result<Names<'_>, AllocError> {
    let id = match edge.get("id") {
        Some(id) => plain_text(alloc, id)?,
        None => String::new(alloc),
    };
    Ok(Names {
        sources: ids_at(edge, "sources", "sourcePort", "source"),
        targets: ids_at(edge, "targets", "targetPort", "target"),
        edge: id,
    })
}

fn section_id(alloc: Global, names: &Names<'_>, at: usize) -> Result<Value, AllocError> {
    let edge = names.edge.as_str();
    Ok(Value::String(format!(in alloc; "{edge}_s{at}")?))
}

fn put_sections(
    members: &mut Members,
    alloc: Global,
    key: &str,
    names: &Names<'_>,
    numbers: &[usize],
) -> Result<(), AllocError> {
    let mut ids = Vec::new(alloc);
    for at in numbers {
        ids.push(section_id(alloc, names, *at)?)?;
    }
    if !ids.is_empty() {
        put(members, alloc, key, Value::Array(ids))?;
    }
    Ok(())
}

fn put_shape(
    members: &mut Members,
    alloc: Global,
    key: &str,
    ids: &[Value],
    at: Option<usize>,
) -> Result<(), AllocError> {
    if let Some(at) = at {
        if let Some(id) = ids.get(at) {
            put(members, alloc, key, id.clone()?)?;
        }
    }
    Ok(())
}

// A list of points, if there are any.
fn put_list(
    members: &mut Members,
    alloc: Global,
    key: &str,
    points: &[Point],
) -> Result<(), AllocError> {
    let mut values = Vec::new(alloc);
    for point in points {
        values.push(point_value(alloc, *point)?)?;
    }
    if !values.is_empty() {
        put(members, alloc, key, Value::Array(values))?;
    }
    Ok(())
}

fn put_points(members: &mut Members, alloc: Global, points: &[Point]) -> Result<(), AllocError> {
    if let (Some(first), Some(last)) = (points.first(), points.last()) {
        put(members, alloc, "startPoint", point_value(alloc, *first)?)?;
        put(members, alloc, "endPoint", point_value(alloc, *last)?)?;
    }
    match points.get(1..points.len().saturating_sub(1)) {
        Some(bends) => put_list(members, alloc, "bendPoints", bends),
        None => Ok(()),
    }
}

fn section_value(
    alloc: Global,
    names: &Names<'_>,
    at: usize,
    section: &Section,
) -> Result<Value, AllocError> {
    let mut members = Map::new(alloc);
    put(&mut members, alloc, "id", section_id(alloc, names, at)?)?;
    put_points(&mut members, alloc, section.points.as_slice())?;
    put_shape(
        &mut members,
        alloc,
        "incomingShape",
        names.sources,
        section.source,
    )?;
    put_shape(
        &mut members,
        alloc,
        "outgoingShape",
        names.targets,
        section.target,
    )?;
    let (incoming, outgoing) = (section.incoming.as_slice(), section.outgoing.as_slice());
    put_sections(&mut members, alloc, "incomingSections", names, incoming)?;
    put_sections(&mut members, alloc, "outgoingSections", names, outgoing)?;
    Ok(Value::Object(members))
}

fn routing_name(routing: Routing) -> &'static str {
    match routing {
        Routing::Orthogonal => "ORTHOGONAL",
        Routing::Polyline => "POLYLINE",
        Routing::Splines => "SPLINES",
    }
}

// The id of the node to whose content the points of an edge are relative.
fn container_id(draft: &Draft, at: usize) -> Option<&Value> {
    let level = draft.container_of(at)?;
    match draft.nodes.get(level) {
        Some(level) => level.id.as_ref(),
        None => None,
    }
}

// The sections of an edge, whose ends are named as the graph names them.
fn sections_value(alloc: Global, members: &Members, edge: &Edge) -> Result<Value, AllocError> {
    let names = names_of(alloc, members)?;
    let mut sections = Vec::new(alloc);
    for (k, section) in edge.sections.iter().enumerate() {
        sections.push(section_value(alloc, &names, k, section)?)?;
    }
    Ok(Value::Array(sections))
}

fn tell_route(
    alloc: Global,
    members: &mut Members,
    draft: &Draft,
    at: usize,
    edge: &Edge,
) -> Result<(), AllocError> {
    let sections = sections_value(alloc, members, edge)?;
    for key in OUTDATED {
        members.remove(key);
    }
    put(members, alloc, "sections", sections)?;
    put_list(members, alloc, "junctionPoints", edge.junctions.as_slice())?;
    if let Some(id) = container_id(draft, at) {
        put(members, alloc, "container", id.clone()?)?;
    }
    if let Some(routing) = edge.routing {
        put(
            members,
            alloc,
            "routing",
            text_value(alloc, routing_name(routing))?,
        )?;
    }
    Ok(())
}

// Gives a member a value, in place of the one that the graph mostly has there.
fn replace(
    members: &mut Members,
    alloc: Global,
    key: &str,
    value: Value,
) -> Result<(), AllocError> {
    if let Some(place) = members.get_mut(key) {
        *place = value;
        return Ok(());
    }
    put(members, alloc, key, value)
}

fn tell_box(
    members: &mut Members,
    alloc: Global,
    draft: &Draft,
    element: Element,
) -> Result<(), AllocError> {
    let (place, size) = (draft.place_of(element), draft.size_of(element));
    put(members, alloc, "x", number_value(place.x))?;
    put(members, alloc, "y", number_value(place.y))?;
    replace(members, alloc, "width", number_value(size.width))?;
    replace(members, alloc, "height", number_value(size.height))
}

// The number of the label that stands at a place of an element's list.
fn label_at(draft: &Draft, element: Element, at: usize) -> Option<usize> {
    let label = draft.labels_of(element).get(at).copied()?;
    match draft.labels.get(label) {
        Some(found) if found.placed => Some(label),
        _ => None,
    }
}

// A label that no stage gives a place stands at the corner of its element, if the graph doesn't say where it stands.
fn tell_nowhere(label: &mut Members, alloc: Global) -> Result<(), AllocError> {
    for key in ["x", "y", "width", "height"] {
        if label.get(key).is_none() {
            put(label, alloc, key, number_value(0.0))?;
        }
    }
    Ok(())
}

fn tell_labels(
    members: &mut Members,
    alloc: Global,
    draft: &Draft,
    element: Element,
) -> Result<(), AllocError> {
    if let Some(Value::Array(items)) = members.get_mut("labels") {
        let mut at: usize = 0;
        for item in items.iter_mut() {
            if let Value::Object(label) = item {
                match label_at(draft, element, at) {
                    Some(number) => tell_box(label, alloc, draft, Element::Label(number))?,
                    None => tell_nowhere(label, alloc)?,
                }
                at = at.saturating_add(1);
            }
        }
    }
    Ok(())
}

fn tell_ports(
    members: &mut Members,
    alloc: Global,
    draft: &Draft,
    node: usize,
) -> Result<(), AllocError> {
    if let Some(Value::Array(items)) = members.get_mut("ports") {
        for (k, item) in items.iter_mut().enumerate() {
            if let (Value::Object(members), Some(port)) = (item, draft.ports_of(node).get(k)) {
                tell_box(members, alloc, draft, Element::Port(*port))?;
                tell_labels(members, alloc, draft, Element::Port(*port))?;
            }
        }
    }
    Ok(())
}

fn tell_edges(
    members: &mut Members,
    alloc: Global,
    draft: &Draft,
    node: usize,
) -> Result<(), AllocError> {
    if let Some(Value::Array(items)) = members.get_mut("edges") {
        for (k, item) in items.iter_mut().enumerate() {
            if let (Value::Object(members), Some(at)) = (item, draft.edges_of(node).get(k)) {
                tell_edge(members, alloc, draft, *at)?;
            }
        }
    }
    Ok(())
}

fn tell_edge(
    members: &mut Members,
    alloc: Global,
    draft: &Draft,
    at: usize,
) -> Result<(), AllocError> {
    if let Some(edge) = draft.edges.get(at) {
        tell_route(alloc, members, draft, at, edge)?;
        tell_labels(members, alloc, draft, Element::Edge(at))?;
    }
    Ok(())
}

fn tell_layering(
    members: &mut Members,
    alloc: Global,
    draft: &Draft,
    at: usize,
) -> Result<(), AllocError> {
    if let Some(node) = draft.nodes.get(at) {
        if node.altered {
            members.remove("layering");
        } else if let Some(layering) = node.layering.as_ref() {
            put(members, alloc, "layering", layering.clone()?)?;
        }
    }
    Ok(())
}

// What a node holds besides other nodes.
fn tell_own(
    members: &mut Members,
    alloc: Global,
    draft: &Draft,
    at: usize,
) -> Result<(), AllocError> {
    tell_ports(members, alloc, draft, at)?;
    tell_edges(members, alloc, draft, at)?;
    tell_box(members, alloc, draft, Element::Node(at))?;
    tell_layering(members, alloc, draft, at)?;
    tell_labels(members, alloc, draft, Element::Node(at))
}

// The list of a node's children; nothing where it has none.
fn children_in(node: &mut Value) -> Option<&mut Vec<Value>> {
    match node {
        Value::Object(members) => match members.get_mut("children") {
            Some(Value::Array(items)) => Some(items),
            _ => None,
        },
        _ => None,
    }
}

// Takes the children of a node out of it, and puts them into the places of their numbers.
fn spread(alloc: Global, nodes: &mut Vec<Value>, draft: &Draft, at: usize) {
    let taken = match nodes.get_mut(at) {
        Some(node) => match children_in(node) {
            Some(items) => mem::replace(items, Vec::new(alloc)),
            None => return,
        },
        None => return,
    };
    for (k, item) in taken.into_iter().enumerate() {
        if let Some(child) = draft.children_of(at).get(k) {
            if let Some(place) = nodes.get_mut(*child) {
                *place = item;
            }
        }
    }
}

// Puts the children of a node back into it.
fn gather(
    alloc: Global,
    nodes: &mut Vec<Value>,
    draft: &Draft,
    at: usize,
) -> Result<(), AllocError> {
    let mut children = Vec::new(alloc);
    for child in draft.children_of(at) {
        if *child < draft.given_nodes {
            if let Some(value) = nodes.get_mut(*child) {
                children.push(mem::replace(value, Value::Null))?;
            }
        }
    }
    if let Some(node) = nodes.get_mut(at) {
        if let Some(items) = children_in(node) {
            *items = children;
        }
    }
    Ok(())
}

/// Writes the places of a draft into the graph of which it was read: those of nodes, ports and placed labels, and the routes of edges.
pub fn tell(alloc: Global, graph: &mut Value, draft: &Draft) -> Result<(), AllocError> {
    let mut nodes = Vec::new(alloc);
    nodes.push(mem::replace(graph, Value::Null))?;
    for _ in 1..draft.given_nodes {
        nodes.push(Value::Null)?;
    }
    // Each node stands behind its parent.
    for at in 0..draft.given_nodes {
        spread(alloc, &mut nodes, draft, at);
        if let Some(Value::Object(members)) = nodes.get_mut(at) {
            tell_own(members, alloc, draft, at)?;
        }
    }
    for at in (0..draft.given_nodes).rev() {
        gather(alloc, &mut nodes, draft, at)?;
    }
    if let Some(root) = nodes.get_mut(0) {
        *graph = mem::replace(root, Value::Null);
    }
    Ok(())
}
