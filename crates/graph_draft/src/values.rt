//! Numbers and texts as JSON values.

use serde_json::{Number, Value};
use std::alloc::{AllocError, Global};
use std::num::saturating_f64_to_i64;

// Whole numbers below this are written without a fraction. All of them have exactly one float.
const MOST_WHOLE: f64 = 9007199254740992.0;

/// A number as a value: a whole one without a fraction. What is no number is null.
pub fn number_value(number: f64) -> Value {
    let number = if number == number.floor() && number.abs() < MOST_WHOLE {
        Number::from_i128(i128::from(saturating_f64_to_i64(number)))
    } else {
        Number::from_f64(number)
    };
    match number {
        Some(number) => Value::Number(number),
        None => Value::Null,
    }
}

/// A text as a value.
pub fn text_value(alloc: Global, text: &str) -> Result<Value, AllocError> {
    Ok(Value::String(String::from_str(alloc, text)?))
}

// The number at a key; nothing where no finite number is.
pub(crate) fn finite_at(value: &Value, key: &str) -> Option<f64> {
    match value.get(key).and_then(Value::as_f64) {
        Some(number) if number.is_finite() => Some(number),
        _ => None,
    }
}
