//! Clusters, and the graph itself: nodes that hold others.

use crate::known::HTML_IS_PLAIN;
use crate::nodes::{Standing, blank_label, put_standing};
use crate::spacing::Spacing;
use dot_looks::{
    Given, Kind, Members, Notes, label_in, label_value, line_of, links_into, put_list, put_object,
    put_text, style_of, whole,
};
use dot_records::Names;
use dot_syntax::{Graph, Subgraph};
use serde_json::Value;
use serde_json::value::Map;
use std::alloc::{AllocError, Global};

// The space between the border of a cluster and what it holds, in points.
const MARGIN: f64 = 8.0;

/// A level as it is planned, with what it holds.
#[derive(Drop)]
pub(crate) struct Holding {
    pub(crate) id: String,
    pub(crate) children: Vec<Value>,
    /// All edges, at the graph itself.
    pub(crate) edges: Vec<Value>,
    pub(crate) standing: Standing,
    /// Whether its children have partitions.
    pub(crate) is_partitioned: bool,
}

// Where the label of a cluster stands, or that of the graph.
fn label_place(given: Given<'_>, is_cluster: bool) -> &'static str {
    let is_top = if is_cluster {
        !given.is_value("labelloc", "b")
    } else {
        given.is_value("labelloc", "t")
    };
    match (
        is_top,
        given.is_value("labeljust", "l"),
        given.is_value("labeljust", "r"),
    ) {
        (true, true, _) => "INSIDE V_TOP H_LEFT",
        (true, _, true) => "INSIDE V_TOP H_RIGHT",
        (true, _, _) => "INSIDE V_TOP H_CENTER",
        (false, true, _) => "INSIDE V_BOTTOM H_LEFT",
        (false, _, true) => "INSIDE V_BOTTOM H_RIGHT",
        (false, _, _) => "INSIDE V_BOTTOM H_CENTER",
    }
}

fn labels_of(
    alloc: Global,
    given: Given<'_>,
    names: &Names<'_>,
    is_cluster: bool,
    notes: &mut Notes,
) -> Result<Vec<Value>, AllocError> {
    let mut labels = Vec::new(alloc);
    match given.written("label") {
        Some(written) if written.is_html => notes.add(written.place, HTML_IS_PLAIN)?,
        _ => {}
    }
    if let Some(text) = label_in(alloc, given, "label", names)? {
        let option = Some(("elk.nodeLabels.placement", label_place(given, is_cluster)));
        labels.push(label_value(alloc, given, text.as_str(), option)?)?;
    } else if is_cluster {
        labels.push(blank_label(alloc)?)?;
    }
    Ok(labels)
}

fn put_padding(options: &mut Members, alloc: Global, given: Given<'_>) -> Result<(), AllocError> {
    let (across, down) = given.pair("margin").unwrap_or((MARGIN, MARGIN));
    let (across, down) = (whole(across), whole(down));
    let padding = format!(in alloc; "[top={down},left={across},bottom={down},right={across}]")?;
    put_text(options, alloc, "elk.padding", padding.as_str())
}

fn options_of(
    alloc: Global,
    given: Given<'_>,
    spacing: Spacing,
    holding: &Holding,
    is_cluster: bool,
) -> Result<Members, AllocError> {
    let mut options = spacing.options(alloc)?;
    if is_cluster {
        put_padding(&mut options, alloc, given)?;
    }
    if holding.is_partitioned {
        put_text(&mut options, alloc, "elk.partitioning.activate", "true")?;
    }
    put_standing(&mut options, alloc, holding.standing)?;
    Ok(options)
}

fn name_of(subgraph: &Subgraph) -> &str {
    match &subgraph.name {
        Some(name) => name.as_str(),
        None => "",
    }
}

/// The value of a cluster, or of the graph itself.
pub(crate) fn level_value(
    alloc: Global,
    graph: &Graph,
    subgraph: &Subgraph,
    spacing: Spacing,
    holding: Holding,
    notes: &mut Notes,
) -> Result<Value, AllocError> {
    let attributes = &graph.attributes;
    let set = subgraph.set;
    let given = Given { attributes, set };
    let is_cluster = subgraph.parent.is_some();
    let kind = if is_cluster { Kind::Group } else { Kind::Graph };
    let names = Names::of_graph(name_of(subgraph));
    let labels = labels_of(alloc, given, &names, is_cluster, notes)?;
    let style = style_of(alloc, kind, given, line_of(given), notes)?;
    let options = options_of(alloc, given, spacing, &holding, is_cluster)?;
    let Holding {
        id,
        children,
        edges,
        ..
    } = holding;
    let mut value: Members = Map::new(alloc);
    put_text(&mut value, alloc, "id", id.as_str())?;
    put_list(&mut value, alloc, "labels", labels)?;
    put_object(&mut value, alloc, "layoutOptions", options)?;
    put_list(&mut value, alloc, "children", children)?;
    put_list(&mut value, alloc, "edges", edges)?;
    put_object(&mut value, alloc, "style", style)?;
    links_into(&mut value, alloc, given, &names)?;
    Ok(Value::Object(value))
}
