//! Options that elements carry, under the keys by which they are spelled.

use option_names::OptionTable;
use serde_json::Value;

/// An option that an element carries.
#[derive(Clone, Copy, Drop)]
pub struct Carried<'a> {
    /// The member in which it stands: `layoutOptions` or `properties`.
    pub holder: &'static str,
    pub key: &'a str,
    pub value: &'a Value,
}

// The longest key of an option, and the last of several as long.
fn carried_in<'a>(
    table: &OptionTable,
    element: &'a Value,
    holder: &'static str,
    name: &str,
) -> Option<Carried<'a>> {
    let mut found: Option<Carried<'a>> = None;
    if let Some(Value::Object(members)) = element.get(holder) {
        for (key, value) in members.iter() {
            let key = key.as_str();
            let length = match found {
                Some(found) => found.key.len(),
                None => 0,
            };
            if length <= key.len() && table.name_of(key) == Some(name) {
                found = Some(Carried { holder, key, value });
            }
        }
    }
    found
}

/// An option that an element carries, by its name without a prefix: what stands in its `layoutOptions`, or else in its `properties`. Of
/// several keys of the option the longest counts.
pub fn carried_key<'a>(table: &OptionTable, element: &'a Value, name: &str) -> Option<Carried<'a>> {
    match carried_in(table, element, "layoutOptions", name) {
        Some(found) => Some(found),
        None => carried_in(table, element, "properties", name),
    }
}

/// What a call asks of all elements by an option.
pub fn general_key<'a>(
    table: &OptionTable,
    general: &'a Value,
    name: &str,
) -> Option<(&'a str, &'a Value)> {
    let mut found: Option<(&'a str, &'a Value)> = None;
    if let Value::Object(members) = general {
        for (key, value) in members.iter() {
            let key = key.as_str();
            let length = match found {
                Some((found, _)) => found.len(),
                None => 0,
            };
            if length <= key.len() && table.name_of(key) == Some(name) {
                found = Some((key, value));
            }
        }
    }
    found
}
