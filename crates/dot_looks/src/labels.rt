//! Labels.

use crate::given::Given;
use crate::members::{Members, put_number, put_object, put_text};
use dot_records::{Names, html_text, label_text};
use dot_syntax::Written;
use letter_widths::asked_size;
use serde_json::Value;
use serde_json::value::Map;
use std::alloc::{AllocError, Global};

/// The size of letters, if nothing else is said, in points.
pub const DEFAULT_FONT_SIZE: f64 = 14.0;

/// The size of letters that an element asks for, in points; nothing if letters can't have it.
pub fn asked_font_size(given: Given<'_>) -> Option<f64> {
    asked_size(given.number("fontsize"))
}

/// The size of an element's letters, in points.
pub fn font_size(given: Given<'_>) -> f64 {
    asked_font_size(given).unwrap_or(DEFAULT_FONT_SIZE)
}

/// Puts the size of letters that an element asks for into a label of it.
pub fn put_letters(label: &mut Members, alloc: Global, given: Given<'_>) -> Result<(), AllocError> {
    let mut style: Members = Map::new(alloc);
    if let Some(size) = asked_font_size(given) {
        put_number(&mut style, alloc, "fontSize", size)?;
    }
    put_object(label, alloc, "style", style)
}

/// The text of a label that an attribute gives. It may be in HTML.
pub fn text_in(alloc: Global, written: &Written, names: &Names<'_>) -> Result<String, AllocError> {
    if written.is_html {
        html_text(alloc, written.text.as_str())
    } else {
        label_text(alloc, written.text.as_str(), names)
    }
}

/// The text of an attribute that is a label, unless it is empty.
pub fn label_in(
    alloc: Global,
    given: Given<'_>,
    name: &str,
    names: &Names<'_>,
) -> Result<Option<String>, AllocError> {
    let Some(written) = given.written(name) else {
        return Ok(None);
    };
    let text = text_in(alloc, written, names)?;
    Ok(if text.is_empty() { None } else { Some(text) })
}

/// A label as a value. Its letters have the size that the element asks for. An option may say where it stands.
pub fn label_value(
    alloc: Global,
    given: Given<'_>,
    text: &str,
    option: Option<(&str, &str)>,
) -> Result<Value, AllocError> {
    let mut label: Members = Map::new(alloc);
    put_text(&mut label, alloc, "text", text)?;
    put_letters(&mut label, alloc, given)?;
    if let Some((name, value)) = option {
        let mut options: Members = Map::new(alloc);
        put_text(&mut options, alloc, name, value)?;
        put_object(&mut label, alloc, "layoutOptions", options)?;
    }
    Ok(Value::Object(label))
}
