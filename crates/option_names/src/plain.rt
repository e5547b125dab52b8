//! Values as plain text and as numbers, as scripts take them.

use serde_json::{Number, Value};
use std::alloc::{AllocError, Global};

// Floats of this size and more are written with an exponent.
const LARGE: f64 = 1e21;

const SMALL: f64 = 0.000001;

// A number with an exponent, whose sign is always written.
fn powered(alloc: Global, number: f64) -> Result<String, AllocError> {
    let mut text = String::new(alloc);
    let digits = format!(in alloc; "{number:e}")?;
    let mut is_exponent = false;
    for letter in digits.as_str().chars() {
        if is_exponent && letter != '-' {
            text.push('+')?;
        }
        is_exponent = letter == 'e';
        text.push(letter)?;
    }
    Ok(text)
}

fn float_text(alloc: Global, number: f64) -> Result<String, AllocError> {
    let size = number.abs();
    if size == 0.0 {
        String::from_str(alloc, "0")
    } else if size >= LARGE || size < SMALL {
        powered(alloc, number)
    } else {
        format!(in alloc; "{number}")
    }
}

/// A number in the fewest digits that tell it from all others: `20`, `0.5`, `1e+21`.
pub fn plain_number(alloc: Global, number: &Number) -> Result<String, AllocError> {
    match number.as_i128() {
        Some(whole) => format!(in alloc; "{whole}"),
        None => float_text(alloc, number.as_f64().unwrap_or(0.0)),
    }
}

#[cycle(write_plain)]
fn write_plain(value: &Value, alloc: Global, out: &mut String) -> Result<(), AllocError> {
    match value {
        Value::Null => out.push_str("null"),
        Value::Bool(true) => out.push_str("true"),
        Value::Bool(false) => out.push_str("false"),
        Value::Number(number) => out.push_str(plain_number(alloc, number)?.as_str()),
        Value::String(text) => out.push_str(text.as_str()),
        Value::Array(items) => write_plain_items(items, alloc, out),
        Value::Object(_) => out.push_str("[object Object]"),
    }
}

#[cycle(write_plain)]
fn write_plain_items(
    items: &Vec<Value>,
    alloc: Global,
    out: &mut String,
) -> Result<(), AllocError> {
    let mut is_first = true;
    for item in items {
        if !is_first {
            out.push(',')?;
        }
        is_first = false;
        if !item.is_null() {
            write_plain(item, alloc, out)?;
        }
    }
    Ok(())
}

/// A value as the text to which a script turns it: of a list the items with commas between them.
pub fn plain_text(alloc: Global, value: &Value) -> Result<String, AllocError> {
    let mut out = String::new(alloc);
    write_plain(value, alloc, &mut out)?;
    Ok(out)
}

/// The number in a value that is one or is a text of one.
pub fn number_in(value: &Value) -> Option<f64> {
    match value {
        Value::Number(number) => number.as_f64(),
        Value::String(text) => text.as_str().trim().parse::<f64>().ok(),
        _ => None,
    }
}
