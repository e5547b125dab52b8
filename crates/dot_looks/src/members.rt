//! Members of JSON objects.

use serde_json::value::Map;
use serde_json::{Number, Value, put};
use std::alloc::{AllocError, Global};
use std::num::saturating_f64_to_i64;

/// The members of an object.
pub type Members = Map<String, Value>;

/// A number as a value: a whole one without a fraction.
pub fn number_value(number: f64) -> Value {
    let number = if number == number.floor() {
        Number::from_i128(i128::from(saturating_f64_to_i64(number)))
    } else {
        Number::from_f64(number)
    };
    match number {
        Some(number) => Value::Number(number),
        None => Value::Null,
    }
}

/// Puts a text.
pub fn put_text(
    members: &mut Members,
    alloc: Global,
    key: &str,
    text: &str,
) -> Result<(), AllocError> {
    put(
        members,
        alloc,
        key,
        Value::String(String::from_str(alloc, text)?),
    )?;
    Ok(())
}

/// Puts a number.
pub fn put_number(
    members: &mut Members,
    alloc: Global,
    key: &str,
    number: f64,
) -> Result<(), AllocError> {
    put(members, alloc, key, number_value(number))?;
    Ok(())
}

/// Puts an object, unless it is empty.
pub fn put_object(
    members: &mut Members,
    alloc: Global,
    key: &str,
    object: Members,
) -> Result<(), AllocError> {
    if !object.is_empty() {
        put(members, alloc, key, Value::Object(object))?;
    }
    Ok(())
}

/// Puts a list, unless it is empty.
pub fn put_list(
    members: &mut Members,
    alloc: Global,
    key: &str,
    items: Vec<Value>,
) -> Result<(), AllocError> {
    if !items.is_empty() {
        put(members, alloc, key, Value::Array(items))?;
    }
    Ok(())
}
