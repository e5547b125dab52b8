//! Ids that can be looked up.

use serde_json::{Number, Value};
use std::cmp::OrderedFloat;

/// A number and a text of the same digits are two ids. Whole numbers are exact: beyond 2^53 several of them share a float.
#[derive(Clone, Copy, Drop, PartialEq, Eq, PartialOrd, Ord)]
pub enum Key<'a> {
    Whole(i128),
    Float(OrderedFloat<f64>),
    Text(&'a str),
}

fn number_key<'a>(number: &Number) -> Option<Key<'a>> {
    match number.as_i128() {
        Some(whole) => Some(Key::Whole(whole)),
        // Zero has one sign.
        None => Some(Key::Float(OrderedFloat(number.as_f64()? + 0.0))),
    }
}

pub fn key_of(id: Option<&Value>) -> Option<Key<'_>> {
    match id {
        Some(Value::Number(number)) => number_key(number),
        Some(Value::String(text)) => Some(Key::Text(text.as_str())),
        _ => None,
    }
}

pub fn is_id(value: &Value) -> bool {
    value.is_string() || value.is_number()
}

/// Whether two values are the same id.
pub fn is_same(one: &Value, other: &Value) -> bool {
    let key = key_of(Some(one));
    key.is_some() && key == key_of(Some(other))
}
