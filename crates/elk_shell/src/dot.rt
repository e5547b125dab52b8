//! Graphs in DOT.

use crate::failure::{Failure, refused};
use crate::faults::{text_of, value_of};
use dot_graph::{Translation, translate};
use dot_syntax::{DotFault, Misread, Warning, read_dot};
use json_places::letters_of;
use serde_json::value::Map;
use serde_json::{Number, Value, put};
use std::alloc::{AllocError, Global};

// The mark with which a text may say that it is UTF-8.
const MARK: char = '\u{feff}';

/// A number as a value.
pub(crate) fn number(number: usize) -> Value {
    match Number::from_i128(i128::try_from(number).unwrap_or(0)) {
        Some(number) => Value::Number(number),
        None => Value::Null,
    }
}

/// Puts a line and a column into the members of what is told.
pub(crate) fn put_place(
    members: &mut Map<String, Value>,
    alloc: Global,
    (line, column): (usize, usize),
) -> Result<(), AllocError> {
    put(members, alloc, "line", number(line))?;
    put(members, alloc, "column", number(column))?;
    Ok(())
}

/// The fault of a text that can't be read: where, and what was expected there.
pub(crate) fn dot_fault(alloc: Global, misread: &Misread) -> Result<Value, AllocError> {
    let message = format!(in alloc; "{misread}")?;
    let place = (misread.place.line, misread.place.column);
    let mut fault = value_of(alloc, Value::Null, "BadDot", Value::Null, message)?;
    if let Value::Object(members) = &mut fault {
        put_place(members, alloc, place)?;
    }
    Ok(fault)
}

/// The graph of a text in DOT, with what has no effect in it.
pub(crate) fn graph_in(alloc: Global, bytes: &[u8]) -> Result<Translation, Failure> {
    match read_dot(alloc, bytes) {
        Ok(graph) => Ok(translate(alloc, &graph)?),
        Err(DotFault::Syntax(misread)) => Err(refused(alloc, dot_fault(alloc, &misread)?)),
        Err(DotFault::Memory(_)) => Err(Failure::Memory),
    }
}

/// What has no effect in a text, as replies tell it.
pub(crate) fn dot_warning(alloc: Global, warning: &Warning) -> Result<Value, AllocError> {
    let mut members = Map::new(alloc);
    put_place(
        &mut members,
        alloc,
        (warning.place.line, warning.place.column),
    )?;
    let message = String::from_str(alloc, warning.message.as_str())?;
    put(&mut members, alloc, "message", Value::String(message))?;
    Ok(Value::Object(members))
}

/// All that has no effect in a text.
pub(crate) fn told_warnings(alloc: Global, warnings: &[Warning]) -> Result<Vec<Value>, AllocError> {
    let mut values = Vec::new(alloc);
    for warning in warnings {
        values.push(dot_warning(alloc, warning)?)?;
    }
    Ok(values)
}

/// The letters of a text as places in it count them: those of UTF-8, or else of Latin-1.
pub(crate) fn letters_in(alloc: Global, bytes: &[u8]) -> Result<Vec<char>, AllocError> {
    if let Some(text) = text_of(bytes) {
        return letters_of(alloc, text.strip_prefix(MARK).unwrap_or(text));
    }
    let mut letters = Vec::new(alloc);
    for byte in bytes {
        letters.push(char::from(*byte))?;
    }
    Ok(letters)
}

/// Where each line of a text begins, by the numbers of letters.
pub(crate) fn starts_in(alloc: Global, letters: &[char]) -> Result<Vec<usize>, AllocError> {
    let mut starts = vec![in alloc; 0]?;
    for (at, letter) in letters.iter().enumerate() {
        if *letter == '\n' {
            starts.push(at.saturating_add(1))?;
        }
    }
    Ok(starts)
}
