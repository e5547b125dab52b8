//! Ids and labels as text, and text as XML.

use serde_json::value::Map;
use serde_json::{Number, Value};
use std::alloc::{AllocError, Global};
use std::fmt;

// How deep arrays and objects may be nested.
const NESTING: usize = 127;

// Text that is escaped, so that it may stand anywhere in a picture.
#[derive(Clone, Copy, Drop)]
pub(crate) struct Escaped<'a>(pub(crate) &'a str);

// Characters that XML does not allow.
fn is_unfit(letter: char) -> bool {
    matches!(letter, '\0'..='\u{8}' | '\u{b}' | '\u{c}' | '\u{e}'..='\u{1f}' | '\u{fffe}' | '\u{ffff}')
}

// Whether a byte may belong to a character that isn't written as it is.
fn may_need_escape(byte: u8) -> bool {
    matches!(byte, b'&' | b'<' | b'>' | b'"' | b'\'' | 0..=0x1f | 0xef)
}

impl fmt::Display for Escaped<'_> {
    fn fmt<W: fmt::Write>(&self, f: &mut fmt::Formatter<W>) -> fmt::Result {
        if !self.0.bytes().any(may_need_escape) {
            return f.write_str(self.0);
        }
        for letter in self.0.chars() {
            match letter {
                '&' => f.write_str("&amp;")?,
                '<' => f.write_str("&lt;")?,
                '>' => f.write_str("&gt;")?,
                '"' => f.write_str("&quot;")?,
                '\'' => f.write_str("&apos;")?,
                _ if is_unfit(letter) => f.write_char('\u{fffd}')?,
                _ => f.write_char(letter)?,
            }
        }
        Ok(())
    }
}

// A number as JavaScript writes it: with the fewest digits that tell it from all others.
fn number_text(alloc: Global, number: f64) -> Result<String, AllocError> {
    let size = number.abs();
    if number == 0.0 {
        return String::from_str(alloc, "0");
    }
    if 0.000001 <= size && size < 1e21 {
        return format!(in alloc; "{number}");
    }
    let text = format!(in alloc; "{number:e}")?;
    match text.as_str().split_once("e") {
        Some((digits, exponent)) if !exponent.starts_with("-") => {
            format!(in alloc; "{digits}e+{exponent}")
        }
        _ => Ok(text),
    }
}

fn write_number(alloc: Global, out: &mut String, number: &Number) -> Result<(), AllocError> {
    match number.as_f64() {
        Some(number) => out.push_str(number_text(alloc, number)?.as_str()),
        None => out.push_str("null"),
    }
}

fn write_text(out: &mut String, text: &str) -> Result<(), AllocError> {
    out.push('"')?;
    for letter in text.chars() {
        match letter {
            '"' => out.push_str("\\\"")?,
            '\\' => out.push_str("\\\\")?,
            '\u{8}' => out.push_str("\\b")?,
            '\u{c}' => out.push_str("\\f")?,
            '\n' => out.push_str("\\n")?,
            '\r' => out.push_str("\\r")?,
            '\t' => out.push_str("\\t")?,
            '\0'..='\u{1f}' => {
                let code = letter as u32;
                write!(out, "\\u{code:04x}")?;
            }
            _ => out.push(letter)?,
        }
    }
    out.push('"')
}

// Writes a value as text of JSON, and says whether it is nested no deeper than it may.
#[cycle(write_value)]
fn write_value(
    value: &Value,
    alloc: Global,
    out: &mut String,
    room: usize,
) -> Result<bool, AllocError> {
    match value {
        Value::Null => out.push_str("null")?,
        Value::Bool(true) => out.push_str("true")?,
        Value::Bool(false) => out.push_str("false")?,
        Value::Number(number) => write_number(alloc, out, number)?,
        Value::String(text) => write_text(out, text.as_str())?,
        Value::Array(items) => return write_items(items, alloc, out, room),
        Value::Object(members) => return write_members(members, alloc, out, room),
    }
    Ok(true)
}

#[cycle(write_value)]
fn write_items(
    items: &Vec<Value>,
    alloc: Global,
    out: &mut String,
    room: usize,
) -> Result<bool, AllocError> {
    if room == 0 {
        return Ok(false);
    }
    out.push('[')?;
    let mut is_first = true;
    for item in items {
        if !is_first {
            out.push(',')?;
        }
        is_first = false;
        if !write_value(item, alloc, out, room - 1)? {
            return Ok(false);
        }
    }
    out.push(']')?;
    Ok(true)
}

#[cycle(write_value)]
fn write_members(
    members: &Map<String, Value>,
    alloc: Global,
    out: &mut String,
    room: usize,
) -> Result<bool, AllocError> {
    if room == 0 {
        return Ok(false);
    }
    out.push('{')?;
    let mut is_first = true;
    for (key, member) in members.iter() {
        if !is_first {
            out.push(',')?;
        }
        is_first = false;
        write_text(out, key.as_str())?;
        out.push(':')?;
        if !write_value(member, alloc, out, room - 1)? {
            return Ok(false);
        }
    }
    out.push('}')?;
    Ok(true)
}

// An id or a label is a text or a number, but a document may hold anything.
pub(crate) fn words_of(alloc: Global, value: Option<&Value>) -> Result<String, AllocError> {
    let mut out = String::new(alloc);
    match value {
        None => {}
        Some(Value::String(text)) => out.push_str(text.as_str())?,
        Some(value) => {
            if !write_value(value, alloc, &mut out, NESTING)? {
                return String::from_str(alloc, "…");
            }
        }
    }
    Ok(out)
}
