//! Members that are written nearly as those that are read.

use json_places::Kind;
use option_names::nearest;
use serde_json::Value;
use std::alloc::{AllocError, Global};

const OF_NODES: [&str; 12] = [
    "id",
    "x",
    "y",
    "width",
    "height",
    "children",
    "ports",
    "edges",
    "labels",
    "layoutOptions",
    "properties",
    "layering",
];

const OF_PORTS: [&str; 8] = [
    "id",
    "x",
    "y",
    "width",
    "height",
    "labels",
    "layoutOptions",
    "properties",
];

const OF_EDGES: [&str; 16] = [
    "id",
    "sources",
    "targets",
    "source",
    "target",
    "sourcePort",
    "targetPort",
    "labels",
    "layoutOptions",
    "properties",
    "sections",
    "bendPoints",
    "junctionPoints",
    "sourcePoint",
    "targetPoint",
    "container",
];

fn members_of(kind: Kind) -> &'static [&'static str] {
    match kind {
        Kind::Node => &OF_NODES,
        Kind::Port => &OF_PORTS,
        Kind::Edge => &OF_EDGES,
    }
}

// What others often stand for.
fn meant_at_node(name: &str) -> Option<&'static str> {
    match name {
        "nodes" | "childs" => Some("children"),
        "links" => Some("edges"),
        "label" => Some("labels"),
        "options" | "layout" => Some("layoutOptions"),
        "w" => Some("width"),
        "h" => Some("height"),
        "handles" => Some("ports"),
        _ => None,
    }
}

fn meant_at_port(name: &str) -> Option<&'static str> {
    match name {
        "label" => Some("labels"),
        "options" => Some("layoutOptions"),
        "w" => Some("width"),
        "h" => Some("height"),
        _ => None,
    }
}

fn meant_at_edge(name: &str) -> Option<&'static str> {
    match name {
        "from" | "start" => Some("sources"),
        "to" | "end" => Some("targets"),
        "label" => Some("labels"),
        "options" => Some("layoutOptions"),
        "sourceHandle" => Some("sourcePort"),
        "targetHandle" => Some("targetPort"),
        "points" => Some("bendPoints"),
        _ => None,
    }
}

// The member that was meant by one that ELK doesn't have at this kind of element.
fn near_member(alloc: Global, kind: Kind, name: &str) -> Result<Option<&'static str>, AllocError> {
    let members = members_of(kind);
    if members.iter().any(|it| *it == name) {
        return Ok(None);
    }
    let meant = match kind {
        Kind::Node => meant_at_node(name),
        Kind::Port => meant_at_port(name),
        Kind::Edge => meant_at_edge(name),
    };
    match meant {
        Some(meant) => Ok(Some(meant)),
        None => nearest(alloc, name, members),
    }
}

// The member that tells the same end in the other form.
fn other_form(name: &str) -> &'static str {
    match name {
        "sources" => "source",
        "source" => "sources",
        "targets" => "target",
        "target" => "targets",
        _ => "",
    }
}

/// The member that was meant by one of an element. Where the meant one is there itself, the other is an editor's own.
pub(crate) fn meant_by(
    alloc: Global,
    element: &Value,
    kind: Kind,
    name: &str,
) -> Result<Option<&'static str>, AllocError> {
    let near = near_member(alloc, kind, name)?;
    let is_there = match near {
        Some(near) => {
            element.get(near).is_some()
                || !other_form(near).is_empty() && element.get(other_form(near)).is_some()
        }
        None => false,
    };
    Ok(if is_there { None } else { near })
}
