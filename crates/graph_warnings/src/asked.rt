//! What elements ask for.

use json_places::{carried_key, general_key};
use option_names::OptionTable;
use serde_json::Value;

/// What an element asks for by an option: in its `layoutOptions`, or else in its `properties`.
pub(crate) fn asked_by<'a>(
    table: &OptionTable,
    element: &'a Value,
    name: &str,
) -> Option<&'a Value> {
    match carried_key(table, element, name) {
        Some(carried) => Some(carried.value),
        None => None,
    }
}

/// What an element asks for by an option, or else what the call asks of all.
pub(crate) fn asked_at<'a>(
    table: &OptionTable,
    element: &'a Value,
    general: &'a Value,
    name: &str,
) -> Option<&'a Value> {
    match asked_by(table, element, name) {
        Some(value) => Some(value),
        None => {
            let (_, value) = general_key(table, general, name)?;
            Some(value)
        }
    }
}

fn has_word(text: &str, name: &str) -> bool {
    text.split(|letter: char| !letter.is_ascii_alphanumeric() && letter != '_')
        .any(|part| part.eq_ignore_ascii_case(name))
}

/// Whether a name is among those of a value: a text of names, or a list of them.
pub(crate) fn has_name(value: Option<&Value>, name: &str) -> bool {
    match value {
        Some(Value::String(text)) => has_word(text.as_str(), name),
        Some(Value::Array(items)) => items.iter().any(|item| match item.as_str() {
            Some(text) => text.eq_ignore_ascii_case(name),
            None => false,
        }),
        _ => false,
    }
}
