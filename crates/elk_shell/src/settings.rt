//! How graphs are read: the options of a call, whether its numbers are made whole, and whether texts are DOT.

use graph_draft::{How, Options};
use graph_layout::whole_options;
use option_table::known_options;
use serde_json::value::Map;
use serde_json::{Value, put};
use std::alloc::{AllocError, Global};

/// How graphs are read.
#[derive(Drop)]
pub struct Settings {
    pub(crate) how: How,
    /// The options of the call as they were given: an object of names and values, or null.
    pub(crate) general: Value,
    /// Whether a text is DOT, and not JSON.
    pub(crate) is_dot: bool,
}

/// Why a text is no option.
#[derive(Clone, Copy, Debug, Drop, PartialEq, Eq)]
pub(crate) struct NoOption;

impl Settings {
    /// Options that count wherever an element has none of its own, as an object of names and values, and whether numbers are made whole.
    pub(crate) fn of(
        alloc: Global,
        general: Option<Value>,
        whole: bool,
    ) -> Result<Settings, AllocError> {
        let general = general.unwrap_or(Value::Null);
        let table = known_options();
        let mut members = Map::new(alloc);
        let sent = if whole {
            whole_options(alloc, &table, &general)?
        } else {
            general.clone()?
        };
        put(&mut members, alloc, "layoutOptions", sent)?;
        let options = Options::carried_by(alloc, &table, &Value::Object(members))?;
        Ok(Settings {
            how: How {
                table,
                whole,
                general: options,
            },
            general,
            is_dot: false,
        })
    }

    /// No options, and numbers made whole.
    pub fn plain(alloc: Global) -> Result<Settings, AllocError> {
        Settings::of(alloc, None, true)
    }
}

/// Adds an option that is given as NAME=VALUE.
pub(crate) fn add_option(
    alloc: Global,
    options: &mut Map<String, Value>,
    text: &str,
) -> Result<Result<(), NoOption>, AllocError> {
    match text.split_once('=') {
        Some((name, value)) if !name.is_empty() => {
            let name = String::from_str(alloc, name)?;
            options.insert(name, Value::String(String::from_str(alloc, value)?))?;
            Ok(Ok(()))
        }
        _ => Ok(Err(NoOption)),
    }
}
