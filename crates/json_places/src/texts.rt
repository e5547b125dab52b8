//! Values as they stand in sentences.

use option_names::plain_number;
use serde_json::Value;
use serde_json::value::Map;
use std::alloc::{AllocError, Global};

// The most letters of a value that a sentence has.
const MOST_LETTERS: usize = 60;

// No more bytes of a value are written: its first letters are among them.
const MOST_BYTES: usize = 400;

fn write_letter(out: &mut String, letter: char) -> Result<(), AllocError> {
    match letter {
        '"' => out.push_str("\\\""),
        '\\' => out.push_str("\\\\"),
        '\u{8}' => out.push_str("\\b"),
        '\u{c}' => out.push_str("\\f"),
        '\n' => out.push_str("\\n"),
        '\r' => out.push_str("\\r"),
        '\t' => out.push_str("\\t"),
        '\0'..='\u{1f}' => {
            let code = letter as u32;
            write!(out, "\\u{code:04x}")
        }
        _ => out.push(letter),
    }
}

// A text in the quotes of JSON.
pub(crate) fn write_quoted(out: &mut String, text: &str) -> Result<(), AllocError> {
    out.push('"')?;
    for letter in text.chars() {
        write_letter(out, letter)?;
    }
    out.push('"')
}

/// A text in the quotes of JSON.
pub fn quoted(alloc: Global, text: &str) -> Result<String, AllocError> {
    let mut out = String::new(alloc);
    write_quoted(&mut out, text)?;
    Ok(out)
}

#[cycle(write_value)]
fn write_value(value: &Value, alloc: Global, out: &mut String) -> Result<(), AllocError> {
    match value {
        Value::Null => out.push_str("null"),
        Value::Bool(true) => out.push_str("true"),
        Value::Bool(false) => out.push_str("false"),
        Value::Number(number) => out.push_str(plain_number(alloc, number)?.as_str()),
        Value::String(text) => write_quoted(out, text.as_str()),
        Value::Array(items) => write_items(items, alloc, out),
        Value::Object(members) => write_members(members, alloc, out),
    }
}

#[cycle(write_value)]
fn write_items(items: &Vec<Value>, alloc: Global, out: &mut String) -> Result<(), AllocError> {
    out.push('[')?;
    let mut is_first = true;
    for item in items {
        if out.len() > MOST_BYTES {
            return Ok(());
        }
        if !is_first {
            out.push(',')?;
        }
        is_first = false;
        write_value(item, alloc, out)?;
    }
    out.push(']')
}

#[cycle(write_value)]
fn write_members(
    members: &Map<String, Value>,
    alloc: Global,
    out: &mut String,
) -> Result<(), AllocError> {
    out.push('{')?;
    let mut is_first = true;
    for (key, member) in members.iter() {
        if out.len() > MOST_BYTES {
            return Ok(());
        }
        if !is_first {
            out.push(',')?;
        }
        is_first = false;
        write_quoted(out, key.as_str())?;
        out.push(':')?;
        write_value(member, alloc, out)?;
    }
    out.push('}')
}

// The first letters of a text, counted in units of 16 bits, and three points where there are more.
fn shortened(alloc: Global, text: &str) -> Result<String, AllocError> {
    let mut out = String::new(alloc);
    let mut count: usize = 0;
    for letter in text.chars() {
        count = count.saturating_add(letter.len_utf16());
        if count > MOST_LETTERS {
            out.push('…')?;
            break;
        }
        out.push(letter)?;
    }
    Ok(out)
}

/// A value as text of JSON, cut off where it is long. Members stand in the order of their names.
pub fn value_text(alloc: Global, value: &Value) -> Result<String, AllocError> {
    let mut out = String::new(alloc);
    write_value(value, alloc, &mut out)?;
    match value {
        Value::Number(_) => Ok(out),
        _ => shortened(alloc, out.as_str()),
    }
}
