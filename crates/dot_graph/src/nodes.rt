//! Nodes: their plans, and their values.

use crate::known::{HTML_IS_PLAIN, tell_shape};
use crate::naming::{BLANK, graph_name};
use crate::planned::{FieldArea, Planned, Port};
use crate::records::plan_record;
use crate::sides::{Direction, Side};
use crate::spots::{Area, Spot};
use dot_looks::{
    Form, Given, Kind, Members, Notes, Shape, font_size, label_in, label_value, line_of,
    links_into, node_extent, put_list, put_number, put_object, put_text, shape_of, style_of,
    text_in,
};
use dot_records::{Extent, Names, extent_of, label_text};
use dot_syntax::{Graph, Node};
use serde_json::Value;
use serde_json::value::Map;
use std::alloc::{AllocError, Global};
use std::num::nearest_usize_to_f64;

// The label of a node that has none of its own: its name.
const NAME: &str = "\\N";

const PLACEMENT: &str = "elk.nodeLabels.placement";

/// What a node is given beside its own plan: layout options of its rank.
#[derive(Clone, Copy, Drop)]
pub(crate) struct Standing {
    pub(crate) constraint: Option<&'static str>,
    pub(crate) partition: Option<usize>,
}

fn names_at<'a>(graph: &'a Graph, node: &'a Node) -> Names<'a> {
    Names {
        graph: graph_name(graph),
        node: Some(node.name.as_str()),
        edge: None,
        tail: None,
        head: None,
    }
}

// The text of a node's label.
fn text_of(
    alloc: Global,
    given: Given<'_>,
    names: &Names<'_>,
    notes: &mut Notes,
) -> Result<String, AllocError> {
    match given.written("label") {
        Some(written) => {
            if written.is_html {
                notes.add(written.place, HTML_IS_PLAIN)?;
            }
            text_in(alloc, written, names)
        }
        None => label_text(alloc, NAME, names),
    }
}

/// A label that shows nothing. An element without any label would show its id.
pub(crate) fn blank_label(alloc: Global) -> Result<Value, AllocError> {
    let mut label: Members = Map::new(alloc);
    put_text(&mut label, alloc, "text", BLANK)?;
    Ok(Value::Object(label))
}

fn outer_place(direction: Direction) -> &'static str {
    if direction.is_upright() {
        "OUTSIDE H_LEFT V_TOP H_PRIORITY"
    } else {
        "OUTSIDE V_TOP H_LEFT"
    }
}

// Adds the label beside a node, away from where edges meet it.
fn push_outer(
    alloc: Global,
    labels: &mut Vec<Value>,
    given: Given<'_>,
    names: &Names<'_>,
    direction: Direction,
) -> Result<(), AllocError> {
    if let Some(text) = label_in(alloc, given, "xlabel", names)? {
        let option = Some((PLACEMENT, outer_place(direction)));
        labels.push(label_value(alloc, given, text.as_str(), option)?)?;
    }
    Ok(())
}

// The plan of a node with one text.
fn plan_text(
    alloc: Global,
    given: Given<'_>,
    shape: Shape,
    text: &str,
) -> Result<Planned, AllocError> {
    let text = if shape.form == Form::Point { "" } else { text };
    let extent = node_extent(given, shape, extent_of(text, font_size(given)));
    let mut labels = Vec::new(alloc);
    labels.push(if text.is_empty() {
        blank_label(alloc)?
    } else {
        label_value(alloc, given, text, None)?
    })?;
    Ok(Planned::new(alloc, shape.form, extent, labels, Vec::new(alloc)))
}

// The plan of a record; nothing if its label is in HTML.
fn plan_fields(
    alloc: Global,
    given: Given<'_>,
    shape: Shape,
    names: &Names<'_>,
    direction: Direction,
    notes: &mut Notes,
) -> Result<Option<Planned>, AllocError> {
    let is_row = direction.is_upright();
    let Some(written) = given.written("label") else {
        return plan_record(alloc, given, shape, NAME, names, is_row);
    };
    if written.is_html {
        return Ok(None);
    }
    let text = written.text.as_str();
    if let Some(planned) = plan_record(alloc, given, shape, text, names, is_row)? {
        return Ok(Some(planned));
    }
    notes.add(
        written.place,
        "the label is no record, so the node shows its name",
    )?;
    plan_record(alloc, given, shape, NAME, names, is_row)
}

fn plan_inner(
    alloc: Global,
    given: Given<'_>,
    names: &Names<'_>,
    direction: Direction,
    notes: &mut Notes,
) -> Result<Planned, AllocError> {
    let mut shape = shape_of(given);
    tell_shape(alloc, given, shape, notes)?;
    if shape.form == Form::Record {
        if let Some(planned) = plan_fields(alloc, given, shape, names, direction, notes)? {
            return Ok(planned);
        }
        shape.form = Form::Box;
    }
    let text = text_of(alloc, given, names, notes)?;
    plan_text(alloc, given, shape, text.as_str())
}

/// The plan of a node.
pub(crate) fn plan_node(
    alloc: Global,
    graph: &Graph,
    node: &Node,
    direction: Direction,
    notes: &mut Notes,
) -> Result<Planned, AllocError> {
    let attributes = &graph.attributes;
    let set = node.set;
    let given = Given { attributes, set };
    let names = names_at(graph, node);
    let mut planned = plan_inner(alloc, given, &names, direction, notes)?;
    push_outer(alloc, &mut planned.labels, given, &names, direction)?;
    Ok(planned)
}

fn port_value(alloc: Global, port: &Port, extent: Extent) -> Result<Value, AllocError> {
    let Spot { side, along } = port.spot;
    let (x, y) = match side {
        Side::North => (along, 0.0),
        Side::South => (along, extent.height),
        Side::West => (0.0, along),
        Side::East => (extent.width, along),
    };
    let mut options: Members = Map::new(alloc);
    put_text(&mut options, alloc, "elk.port.side", side.name())?;
    let mut value: Members = Map::new(alloc);
    put_text(&mut value, alloc, "id", port.id.as_str())?;
    put_number(&mut value, alloc, "x", x)?;
    put_number(&mut value, alloc, "y", y)?;
    put_number(&mut value, alloc, "width", 0.0)?;
    put_number(&mut value, alloc, "height", 0.0)?;
    put_object(&mut value, alloc, "layoutOptions", options)?;
    Ok(Value::Object(value))
}

fn port_values(alloc: Global, ports: &[Port], extent: Extent) -> Result<Vec<Value>, AllocError> {
    let mut values = Vec::new(alloc);
    for port in ports {
        values.push(port_value(alloc, port, extent)?)?;
    }
    Ok(values)
}

fn area_value(alloc: Global, area: Area) -> Result<Value, AllocError> {
    let mut value: Members = Map::new(alloc);
    put_number(&mut value, alloc, "x", area.x)?;
    put_number(&mut value, alloc, "y", area.y)?;
    put_number(&mut value, alloc, "width", area.width)?;
    put_number(&mut value, alloc, "height", area.height)?;
    Ok(Value::Object(value))
}

// The rectangles of a record's fields; none if it is one field.
fn field_values(alloc: Global, fields: &[FieldArea]) -> Result<Vec<Value>, AllocError> {
    let mut values = Vec::new(alloc);
    for field in fields {
        if field.is_leaf {
            values.push(area_value(alloc, field.area)?)?;
        }
    }
    if values.len() == 1 {
        values.clear();
    }
    Ok(values)
}

fn options_of(alloc: Global, has_ports: bool, standing: Standing) -> Result<Members, AllocError> {
    let mut options: Members = Map::new(alloc);
    if has_ports {
        put_text(&mut options, alloc, "elk.portConstraints", "FIXED_POS")?;
    }
    put_standing(&mut options, alloc, standing)?;
    Ok(options)
}

/// Puts the options of a rank.
pub(crate) fn put_standing(
    options: &mut Members,
    alloc: Global,
    standing: Standing,
) -> Result<(), AllocError> {
    if let Some(constraint) = standing.constraint {
        put_text(
            options,
            alloc,
            "elk.layered.layering.layerConstraint",
            constraint,
        )?;
    }
    if let Some(partition) = standing.partition {
        put_number(
            options,
            alloc,
            "elk.partitioning.partition",
            nearest_usize_to_f64(partition),
        )?;
    }
    Ok(())
}

/// The value of a node.
pub(crate) fn node_value(
    alloc: Global,
    graph: &Graph,
    node: &Node,
    planned: Planned,
    standing: Standing,
    notes: &mut Notes,
) -> Result<Value, AllocError> {
    let attributes = &graph.attributes;
    let set = node.set;
    let given = Given { attributes, set };
    let Planned {
        form,
        extent,
        labels,
        fields,
        ports,
        ..
    } = planned;
    let kind = Kind::Node(form);
    let mut style = style_of(alloc, kind, given, line_of(given), notes)?;
    let areas = field_values(alloc, fields.as_slice())?;
    put_list(&mut style, alloc, "fields", areas)?;
    let options = options_of(alloc, !ports.is_empty(), standing)?;
    let mut value: Members = Map::new(alloc);
    put_text(&mut value, alloc, "id", node.name.as_str())?;
    put_number(&mut value, alloc, "width", extent.width)?;
    put_number(&mut value, alloc, "height", extent.height)?;
    put_list(&mut value, alloc, "labels", labels)?;
    let ports = port_values(alloc, ports.as_slice(), extent)?;
    put_list(&mut value, alloc, "ports", ports)?;
    put_object(&mut value, alloc, "layoutOptions", options)?;
    put_object(&mut value, alloc, "style", style)?;
    links_into(&mut value, alloc, given, &names_at(graph, node))?;
    Ok(Value::Object(value))
}
