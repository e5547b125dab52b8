//! The members of elements: of nodes, ports, edges and labels.

use crate::geometry::{Point, Rect};
use crate::words::words_of;
use letter_widths::letter_size;
use serde_json::Value;
use std::alloc::{AllocError, Global};

// A label with a text, the size of its letters if there is room for them, and whether it has a place.
#[derive(Drop)]
pub(crate) struct Label<'a> {
    pub(crate) value: &'a Value,
    pub(crate) text: String,
    pub(crate) size: f64,
    pub(crate) placed: bool,
}

fn finite_at(value: &Value, key: &str) -> Option<f64> {
    match value.get(key).and_then(Value::as_f64) {
        Some(number) if number.is_finite() => Some(number),
        _ => None,
    }
}

// A number, or 0 if there is none.
pub(crate) fn number_at(value: &Value, key: &str) -> f64 {
    finite_at(value, key).unwrap_or(0.0)
}

pub(crate) fn place_of(value: &Value) -> Point {
    Point {
        x: number_at(value, "x"),
        y: number_at(value, "y"),
    }
}

// The box of an element that stands relative to an origin.
pub(crate) fn box_at(value: &Value, origin: Point) -> Rect {
    box_of(value, place_of(value).moved(origin))
}

// The box of an element whose place in the whole drawing is known.
pub(crate) fn box_of(value: &Value, origin: Point) -> Rect {
    Rect {
        left: origin.x,
        top: origin.y,
        width: number_at(value, "width"),
        height: number_at(value, "height"),
    }
}

// The objects in a list. There are none if the element has no such list.
pub(crate) fn elements_of<'a>(
    alloc: Global,
    value: &'a Value,
    key: &str,
) -> Result<Vec<&'a Value>, AllocError> {
    let mut elements = Vec::new(alloc);
    if let Some(items) = value.get(key).and_then(Value::as_array) {
        for item in items {
            if item.is_object() {
                elements.push(item)?;
            }
        }
    }
    Ok(elements)
}

pub(crate) fn has_items(value: &Value, key: &str) -> bool {
    match value.get(key) {
        Some(Value::Array(items)) => !items.is_empty(),
        Some(Value::String(text)) => !text.is_empty(),
        _ => false,
    }
}

// Whether a label has a place. One that nothing has placed comes back at the corner of its element, where no placed one stands.
fn is_placed(label: &Value) -> bool {
    match (finite_at(label, "x"), finite_at(label, "y")) {
        (Some(x), Some(y)) => x != 0.0 || y != 0.0,
        _ => false,
    }
}

// The size of a label's letters, which its style may set.
fn letters_of(label: &Value) -> f64 {
    letter_size(match label.get("style") {
        Some(style) => finite_at(style, "fontSize"),
        None => None,
    })
}

fn has_text(label: &Value) -> bool {
    match label.get("text") {
        Some(Value::String(text)) => !text.is_empty(),
        Some(_) => true,
        None => false,
    }
}

// The labels of an element that have a text and a place.
pub(crate) fn placed_labels<'a>(
    alloc: Global,
    element: &'a Value,
) -> Result<Vec<&'a Value>, AllocError> {
    let mut labels = Vec::new(alloc);
    for label in elements_of(alloc, element, "labels")? {
        if has_text(label) && is_placed(label) {
            labels.push(label)?;
        }
    }
    Ok(labels)
}

// The labels of an element that have a text.
pub(crate) fn labels_of<'a>(
    alloc: Global,
    element: &'a Value,
) -> Result<Vec<Label<'a>>, AllocError> {
    let mut labels = Vec::new(alloc);
    for value in elements_of(alloc, element, "labels")? {
        if has_text(value) {
            labels.push(Label {
                value,
                text: words_of(alloc, value.get("text"))?,
                size: letters_of(value),
                placed: is_placed(value),
            })?;
        }
    }
    Ok(labels)
}

pub(crate) fn id_of(alloc: Global, element: &Value) -> Result<String, AllocError> {
    words_of(alloc, element.get("id"))
}
