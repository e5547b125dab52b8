//! Labels within leaves that are wider than these.

use crate::asked::{asked_at, asked_by, has_name};
use json_places::{Element, Kind};
use letter_widths::{letter_size, width_of};
use option_names::OptionTable;
use serde_json::{Number, Value};
use std::alloc::{AllocError, Global};

fn positive_at(value: &Value, name: &str) -> Option<f64> {
    match value.get(name).and_then(Value::as_f64) {
        Some(number) if number > 0.0 => Some(number),
        _ => None,
    }
}

// The size of a label's letters, which its style may set.
fn letters_of(label: &Value) -> f64 {
    letter_size(match label.get("style") {
        Some(style) => positive_at(style, "fontSize"),
        None => None,
    })
}

// The width of a label: where none is given, that of its text.
fn width_of_label(label: &Value) -> f64 {
    if let Some(width) = positive_at(label, "width") {
        return width;
    }
    let letters = letters_of(label);
    let mut width: f64 = 0.0;
    if let Some(Value::String(text)) = label.get("text") {
        for line in text.as_str().split("\n") {
            width = width.max(width_of(line, letters));
        }
    }
    width.ceil()
}

// What a label, its node or the call asks for.
fn asked<'a>(
    table: &OptionTable,
    label: &'a Value,
    node: &'a Value,
    general: &'a Value,
    name: &str,
) -> Option<&'a Value> {
    match asked_by(table, label, name) {
        Some(value) => Some(value),
        None => asked_at(table, node, general, name),
    }
}

/// The labels of a leaf with a size. Other elements have none that can be too wide.
pub(crate) fn inner_labels<'a>(
    alloc: Global,
    element: &Element<'a>,
) -> Result<Vec<&'a Value>, AllocError> {
    let mut labels = Vec::new(alloc);
    let has_width = match element.value.get("width") {
        Some(width) => width.is_number(),
        None => false,
    };
    if element.kind == Kind::Node && !element.is_level && has_width {
        if let Some(Value::Array(items)) = element.value.get("labels") {
            for item in items {
                labels.push(item)?;
            }
        }
    }
    Ok(labels)
}

/// The width of a label that is wider than its node, which doesn't grow for it.
pub(crate) fn excess(
    table: &OptionTable,
    label: &Value,
    node: &Value,
    general: &Value,
) -> Option<Number> {
    let placement = asked(table, label, node, general, "nodeLabels.placement");
    if !label.is_object() || !has_name(placement, "INSIDE") {
        return None;
    }
    let width = width_of_label(label);
    let room = node.get("width").and_then(Value::as_f64).unwrap_or(0.0);
    let grows = has_name(
        asked_at(table, node, general, "nodeSize.constraints"),
        "NODE_LABELS",
    );
    if width > room && !grows {
        Number::from_f64(width.ceil())
    } else {
        None
    }
}
