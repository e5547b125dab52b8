//! The member `style` of a node or an edge. Values that are not known are ignored.

use crate::colour::colour_in;
use crate::lines::{Line, line_in};
use serde_json::Value;
use std::alloc::{AllocError, Global};
use std::num::saturating_f64_to_u32;

#[derive(Clone, Copy, Drop, PartialEq, Eq)]
pub(crate) enum Shape {
    Box,
    Round,
    Ellipse,
    Diamond,
}

#[derive(Drop)]
pub(crate) struct Style {
    pub(crate) shape: Shape,
    fill: Option<String>,
    stroke: Option<String>,
    colour: Option<String>,
    pub(crate) line: Line,
    // How many outlines lie within the outermost one.
    pub(crate) inner_outlines: u32,
    // The classes, each after a space.
    pub(crate) classes: String,
}

fn text_in(text: &Option<String>) -> Option<&str> {
    match text {
        Some(text) => Some(text.as_str()),
        None => None,
    }
}

impl Style {
    pub(crate) fn fill(&self) -> Option<&str> {
        text_in(&self.fill)
    }

    pub(crate) fn stroke(&self) -> Option<&str> {
        text_in(&self.stroke)
    }

    pub(crate) fn colour(&self) -> Option<&str> {
        text_in(&self.colour)
    }
}

fn shape_in(value: Option<&Value>) -> Shape {
    match value.and_then(Value::as_str) {
        Some("round") => Shape::Round,
        Some("ellipse") => Shape::Ellipse,
        Some("circle") => Shape::Ellipse,
        Some("diamond") => Shape::Diamond,
        _ => Shape::Box,
    }
}

fn colour_at(alloc: Global, style: &Value, key: &str) -> Result<Option<String>, AllocError> {
    match style.get(key).and_then(Value::as_str) {
        Some(text) => colour_in(alloc, text),
        None => Ok(None),
    }
}

// More outlines are as many as these.
const MOST_OUTLINES: f64 = 4.0;

fn inner_outlines_in(value: Option<&Value>) -> u32 {
    match value.and_then(Value::as_f64) {
        Some(count) if count >= 1.0 => {
            saturating_f64_to_u32(count.min(MOST_OUTLINES)).saturating_sub(1)
        }
        _ => 0,
    }
}

// The bytes of a class at most.
const LONGEST_CLASS: usize = 64;

fn is_class(name: &str) -> bool {
    let bytes = name.as_bytes();
    match bytes.first() {
        Some(first) if first.is_ascii_alphabetic() => {
            bytes.len() <= LONGEST_CLASS
                && bytes.iter().all(|byte| byte.is_ascii_alphanumeric()
                    || *byte == b'_'
                    || *byte == b'-')
        }
        _ => false,
    }
}

fn classes_in(alloc: Global, value: Option<&Value>) -> Result<String, AllocError> {
    let mut classes = String::new(alloc);
    if let Some(names) = value.and_then(Value::as_str) {
        for name in names.split(" ") {
            if is_class(name) {
                classes.push(' ')?;
                classes.push_str(name)?;
            }
        }
    }
    Ok(classes)
}

pub(crate) fn style_of(alloc: Global, element: &Value) -> Result<Style, AllocError> {
    match element.get("style") {
        Some(style) => style_in(alloc, style),
        None => style_in(alloc, &Value::Null),
    }
}

fn style_in(alloc: Global, style: &Value) -> Result<Style, AllocError> {
    Ok(Style {
        shape: shape_in(style.get("shape")),
        fill: colour_at(alloc, style, "fill")?,
        stroke: colour_at(alloc, style, "stroke")?,
        colour: colour_at(alloc, style, "color")?,
        line: line_in(style),
        inner_outlines: inner_outlines_in(style.get("outlines")),
        classes: classes_in(alloc, style.get("class"))?,
    })
}
