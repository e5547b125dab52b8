//! Spacings and paddings that are fractions. They are rounded up as sizes are, so that everything has the room that was asked for.

use graph_draft::{Draft, Element, How, Options, number_value, read, rounded_up};
use option_names::{Description, Kind, OptionTable};
use serde_json::value::Map;
use serde_json::{Number, Value};
use std::alloc::{AllocError, Global};

fn is_length(option: &Description) -> bool {
    match option.kind {
        Kind::Padding => true,
        Kind::Whole => option.name.contains("spacing"),
        _ => false,
    }
}

fn are_digits(text: &str) -> bool {
    text.bytes().all(|byte| byte.is_ascii_digit())
}

// Whether a text is one of digits and a point.
fn is_fraction(text: &str) -> bool {
    match text.split_once(".") {
        Some((whole, rest)) => text.len() > 1 && are_digits(whole) && are_digits(rest),
        None => false,
    }
}

fn whole_text(alloc: Global, text: &str) -> Result<Option<String>, AllocError> {
    if !is_fraction(text) {
        return Ok(None);
    }
    match text.parse::<f64>() {
        Ok(number) => {
            let whole = rounded_up(number);
            Ok(Some(format!(in alloc; "{whole}")?))
        }
        Err(_) => Ok(None),
    }
}

// Adds a side of a padding, with its length.
fn push_side(out: &mut String, alloc: Global, part: &str) -> Result<(), AllocError> {
    let Some((side, length)) = part.split_once("=") else {
        return out.push_str(part);
    };
    let length = length.trim_matches(' ');
    out.push_str(side)?;
    out.push('=')?;
    match whole_text(alloc, length)? {
        Some(whole) => out.push_str(whole.as_str()),
        None => out.push_str(length),
    }
}

fn whole_padding(alloc: Global, text: &str) -> Result<Option<String>, AllocError> {
    let inside = match text.trim_matches(' ').strip_prefix("[") {
        Some(rest) => rest.strip_suffix("]"),
        None => None,
    };
    let Some(inside) = inside else {
        return Ok(None);
    };
    let mut out = String::from_str(alloc, "[")?;
    let mut is_first = true;
    for part in inside.split(",") {
        if !is_first {
            out.push(',')?;
        }
        is_first = false;
        push_side(&mut out, alloc, part)?;
    }
    out.push(']')?;
    Ok(Some(out))
}

// A number that JSON doesn't write as a whole one, rounded up.
fn whole_number(number: &Number) -> Option<Value> {
    if number.as_i128().is_some() {
        return None;
    }
    match number.as_f64() {
        Some(float) if float >= 0.0 => Some(number_value(rounded_up(float))),
        _ => None,
    }
}

fn rounded_in(
    alloc: Global,
    table: &OptionTable,
    option: &Description,
    value: &Value,
) -> Result<Option<Value>, AllocError> {
    let text = match value {
        Value::Number(number) => return Ok(whole_number(number)),
        Value::String(text) => text.as_str(),
        _ => return Ok(None),
    };
    if table.is_taken(option, value) {
        return Ok(None);
    }
    let whole = if option.kind == Kind::Padding {
        whole_padding(alloc, text)?
    } else {
        whole_text(alloc, text)?
    };
    match whole {
        Some(whole) => Ok(Some(Value::String(whole))),
        None => Ok(None),
    }
}

/// The value of a spacing or a padding rounded up. Nothing if it stays as it is: if it is whole or the engine is to refuse it, or if the
/// option is another one.
pub(crate) fn whole_length(
    alloc: Global,
    table: &OptionTable,
    name: &str,
    value: &Value,
) -> Result<Option<Value>, AllocError> {
    let Some(option) = table.described_as(name) else {
        return Ok(None);
    };
    if !table.is_read(name) || !is_length(option) {
        return Ok(None);
    }
    match rounded_in(alloc, table, option, value)? {
        Some(whole) => {
            if table.is_taken(option, &whole) {
                Ok(Some(whole))
            } else {
                Ok(None)
            }
        }
        None => Ok(None),
    }
}

// The options that are to be rounded, with their new values.
fn lengths_in(
    alloc: Global,
    table: &OptionTable,
    options: &Options,
) -> Result<Vec<(&'static str, Value)>, AllocError> {
    let mut found = Vec::new(alloc);
    for name in options.names(alloc)? {
        if let Some(value) = options.get(name) {
            if let Some(whole) = whole_length(alloc, table, name, value)? {
                found.push((name, whole))?;
            }
        }
    }
    Ok(found)
}

fn ask_all(
    draft: &mut Draft,
    element: Element,
    found: Vec<(&'static str, Value)>,
) -> Result<(), AllocError> {
    for (name, value) in found {
        draft.ask(element, name, value)?;
    }
    Ok(())
}

fn ask_of_nodes(alloc: Global, draft: &mut Draft) -> Result<(), AllocError> {
    for at in 0..draft.nodes.len() {
        let found = match draft.nodes.get(at) {
            Some(node) => lengths_in(alloc, &draft.table, &node.options)?,
            None => Vec::new(alloc),
        };
        ask_all(draft, Element::Node(at), found)?;
    }
    Ok(())
}

fn ask_of_ports(alloc: Global, draft: &mut Draft) -> Result<(), AllocError> {
    for at in 0..draft.ports.len() {
        let found = match draft.ports.get(at) {
            Some(port) => lengths_in(alloc, &draft.table, &port.options)?,
            None => Vec::new(alloc),
        };
        ask_all(draft, Element::Port(at), found)?;
    }
    Ok(())
}

fn ask_of_edges(alloc: Global, draft: &mut Draft) -> Result<(), AllocError> {
    for at in 0..draft.edges.len() {
        let found = match draft.edges.get(at) {
            Some(edge) => lengths_in(alloc, &draft.table, &edge.options)?,
            None => Vec::new(alloc),
        };
        ask_all(draft, Element::Edge(at), found)?;
    }
    Ok(())
}

/// Asks for whole spacings and paddings in the names of a draft's elements, if numbers are made whole.
pub(crate) fn ask_for_whole(
    alloc: Global,
    mut draft: Draft,
    how: &How,
) -> Result<Draft, AllocError> {
    if how.whole {
        ask_of_nodes(alloc, &mut draft)?;
        ask_of_ports(alloc, &mut draft)?;
        ask_of_edges(alloc, &mut draft)?;
    }
    Ok(draft)
}

/// Reads a graph, and asks for whole spacings and paddings; nothing where it lacks the form that stages rely on.
pub(crate) fn read_whole(
    alloc: Global,
    graph: &Value,
    how: &How,
) -> Result<Option<Draft>, AllocError> {
    match read(alloc, graph, how)? {
        Some(draft) => Ok(Some(ask_for_whole(alloc, draft, how)?)),
        None => Ok(None),
    }
}

fn whole_members(
    alloc: Global,
    table: &OptionTable,
    members: &Map<String, Value>,
) -> Result<Map<String, Value>, AllocError> {
    let mut all = Map::new(alloc);
    for (key, value) in members.iter() {
        let whole = match table.name_of(key.as_str()) {
            Some(name) => whole_length(alloc, table, name, value)?,
            None => None,
        };
        let value = match whole {
            Some(whole) => whole,
            None => value.clone()?,
        };
        all.insert(key.clone()?, value)?;
    }
    Ok(all)
}

/// The options of a call, an object of names and values, with whole spacings and paddings. Whatever else is given stays as it is.
pub fn whole_options(
    alloc: Global,
    table: &OptionTable,
    given: &Value,
) -> Result<Value, AllocError> {
    match given {
        Value::Object(members) => Ok(Value::Object(whole_members(alloc, table, members)?)),
        _ => given.clone(),
    }
}
