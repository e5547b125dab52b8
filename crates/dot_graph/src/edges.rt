//! Edges.

use crate::arrows::heads_of;
use crate::ends::Ends;
use crate::ids::Ids;
use crate::known::HTML_IS_PLAIN;
use crate::levels::Levels;
use crate::naming::{edge_name, graph_name, node_name};
use crate::sides::Way;
use dot_looks::{
    Given, Kind, Members, Notes, label_in, label_value, line_of, links_into, put_list, put_number,
    put_object, put_text, style_of,
};
use dot_records::Names;
use dot_syntax::{Edge, Graph};
use serde_json::value::Map;
use serde_json::{Value, put};
use std::alloc::{AllocError, Global};

// The greatest weight.
const HEAVIEST: f64 = 1048576.0;

// The labels of an edge, and where each stands.
const LABELS: [(&str, &str); 4] = [
    ("label", "CENTER"),
    ("xlabel", "CENTER"),
    ("headlabel", "HEAD"),
    ("taillabel", "TAIL"),
];

fn labels_of(
    alloc: Global,
    given: Given<'_>,
    names: &Names<'_>,
    notes: &mut Notes,
) -> Result<Vec<Value>, AllocError> {
    let mut labels = Vec::new(alloc);
    for (name, place) in LABELS {
        match given.written(name) {
            Some(written) if written.is_html => notes.add(written.place, HTML_IS_PLAIN)?,
            _ => {}
        }
        if let Some(text) = label_in(alloc, given, name, names)? {
            let option = if place == "CENTER" {
                None
            } else {
                Some(("elk.edgeLabels.placement", place))
            };
            labels.push(label_value(alloc, given, text.as_str(), option)?)?;
        }
    }
    Ok(labels)
}

fn options_of(alloc: Global, given: Given<'_>) -> Result<Members, AllocError> {
    let mut options: Members = Map::new(alloc);
    if let Some(weight) = given.number("weight") {
        let weight = weight.max(0.0).min(HEAVIEST).ceil();
        put_number(
            &mut options,
            alloc,
            "elk.layered.priority.shortness",
            weight,
        )?;
    }
    Ok(options)
}

fn put_end(value: &mut Members, alloc: Global, key: &str, id: String) -> Result<(), AllocError> {
    put_list(value, alloc, key, vec![in alloc; Value::String(id)]?)
}

// The members that say how an edge looks.
fn put_looks(
    value: &mut Members,
    alloc: Global,
    given: Given<'_>,
    is_directed: bool,
    notes: &mut Notes,
) -> Result<(), AllocError> {
    let heads = heads_of(alloc, given, is_directed, notes)?;
    let mut style = style_of(alloc, Kind::Edge, given, line_of(given), notes)?;
    if heads.at_tail {
        let arrows = if heads.at_head { "both" } else { "tail" };
        put_text(&mut style, alloc, "arrows", arrows)?;
    }
    if !heads.at_head {
        put(value, alloc, "directed", Value::Bool(false))?;
    }
    put_object(value, alloc, "style", style)
}

/// The value of an edge.
pub(crate) fn edge_value(
    alloc: Global,
    graph: &Graph,
    levels: &Levels,
    edge: &Edge,
    ends: &mut Ends,
    ids: &mut Ids,
    notes: &mut Notes,
) -> Result<Value, AllocError> {
    let attributes = &graph.attributes;
    let set = edge.set;
    let given = Given { attributes, set };
    let name = edge_name(alloc, graph, edge)?;
    let names = Names {
        graph: graph_name(graph),
        node: None,
        edge: Some(name.as_str()),
        tail: Some(node_name(graph, edge.tail)),
        head: Some(node_name(graph, edge.head)),
    };
    let source = ends.id_of(alloc, graph, levels, edge, Way::Tail, notes)?;
    let target = ends.id_of(alloc, graph, levels, edge, Way::Head, notes)?;
    let mut value: Members = Map::new(alloc);
    put_text(&mut value, alloc, "id", ids.take(name.as_str())?.as_str())?;
    put_end(&mut value, alloc, "sources", source)?;
    put_end(&mut value, alloc, "targets", target)?;
    let labels = labels_of(alloc, given, &names, notes)?;
    put_list(&mut value, alloc, "labels", labels)?;
    put_object(
        &mut value,
        alloc,
        "layoutOptions",
        options_of(alloc, given)?,
    )?;
    put_looks(&mut value, alloc, given, graph.directed, notes)?;
    links_into(&mut value, alloc, given, &names)?;
    Ok(Value::Object(value))
}
