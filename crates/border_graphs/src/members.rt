//! Elements of a draft as members of a document. Options stand under their full names.

use edge_labels::Spot;
use graph_draft::{Draft, Label, Options, Point, Size, number_value, text_value};
use option_names::PREFIX;
use serde_json::value::Map;
use serde_json::{Value, put};
use std::alloc::{AllocError, Global};

pub(crate) type Members = Map<String, Value>;

// Asks for something by an option, in place of what is asked for.
pub(crate) fn ask(
    options: &mut Members,
    alloc: Global,
    name: &str,
    value: Value,
) -> Result<(), AllocError> {
    let key = format!(in alloc; "{PREFIX}{name}")?;
    options.insert(key, value)?;
    Ok(())
}

pub(crate) fn ask_word(
    options: &mut Members,
    alloc: Global,
    name: &str,
    word: &str,
) -> Result<(), AllocError> {
    ask(options, alloc, name, text_value(alloc, word)?)
}

pub(crate) fn options_in(alloc: Global, own: &Options) -> Result<Members, AllocError> {
    let mut options = Map::new(alloc);
    for name in own.names(alloc)? {
        if let Some(value) = own.get(name) {
            ask(&mut options, alloc, name, value.clone()?)?;
        }
    }
    Ok(options)
}

pub(crate) fn put_options(
    members: &mut Members,
    alloc: Global,
    options: Members,
) -> Result<(), AllocError> {
    if options.is_empty() {
        return Ok(());
    }
    put(members, alloc, "layoutOptions", Value::Object(options))
}

pub(crate) fn put_list(
    members: &mut Members,
    alloc: Global,
    key: &str,
    values: Vec<Value>,
) -> Result<(), AllocError> {
    if values.is_empty() {
        return Ok(());
    }
    put(members, alloc, key, Value::Array(values))
}

fn put_number(
    members: &mut Members,
    alloc: Global,
    key: &str,
    number: f64,
) -> Result<(), AllocError> {
    put(members, alloc, key, number_value(number))
}

pub(crate) fn put_size(members: &mut Members, alloc: Global, size: Size) -> Result<(), AllocError> {
    put_number(members, alloc, "width", size.width)?;
    put_number(members, alloc, "height", size.height)
}

pub(crate) fn put_place(
    members: &mut Members,
    alloc: Global,
    place: Point,
) -> Result<(), AllocError> {
    put_number(members, alloc, "x", place.x)?;
    put_number(members, alloc, "y", place.y)
}

// A label. One of an edge stands at a spot of the piece with which it is sent.
fn label_value(alloc: Global, label: &Label, spot: Option<Spot>) -> Result<Value, AllocError> {
    let mut members = Map::new(alloc);
    put(
        &mut members,
        alloc,
        "text",
        text_value(alloc, label.text.as_str())?,
    )?;
    if let Some(size) = label.letters {
        let mut style = Map::new(alloc);
        put_number(&mut style, alloc, "fontSize", size)?;
        put(&mut members, alloc, "style", Value::Object(style))?;
    }
    let (width, height) = (label.width, label.height);
    put_size(&mut members, alloc, Size { width, height })?;
    if label.has_place {
        let (x, y) = (label.x, label.y);
        put_place(&mut members, alloc, Point { x, y })?;
    }
    let mut options = options_in(alloc, &label.options)?;
    if let Some(spot) = spot {
        let word = match spot {
            Spot::Tail => "TAIL",
            Spot::Center => "CENTER",
            Spot::Head => "HEAD",
        };
        ask_word(&mut options, alloc, "edgeLabels.placement", word)?;
    }
    put_options(&mut members, alloc, options)?;
    Ok(Value::Object(members))
}

// Adds a label of the draft to a list.
pub(crate) fn add_label(
    labels: &mut Vec<Value>,
    alloc: Global,
    draft: &Draft,
    label: usize,
    spot: Option<Spot>,
) -> Result<(), AllocError> {
    if let Some(label) = draft.labels.get(label) {
        labels.push(label_value(alloc, label, spot)?)?;
    }
    Ok(())
}

// Labels as they are.
pub(crate) fn labels_in(
    alloc: Global,
    draft: &Draft,
    numbers: &[usize],
) -> Result<Vec<Value>, AllocError> {
    let mut labels = Vec::new(alloc);
    for label in numbers {
        add_label(&mut labels, alloc, draft, *label, None)?;
    }
    Ok(labels)
}
