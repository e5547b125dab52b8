//! Warnings, and values that say them.

use json_places::{Step, path_text, quoted, steps_value};
use serde_json::value::Map;
use serde_json::{Value, put};
use std::alloc::{AllocError, Global};

/// What has no effect.
#[derive(Drop)]
pub struct Warning {
    /// Which kind of warning it is: `unknownOption`, `unclearOption`, `foreignOption`, `misplacedOption`, `unknownValue`,
    /// `unknownMember`, `wideLabel` or `doubleMember`.
    pub kind: &'static str,
    /// The id of the element, if it has one.
    pub id: Option<Value>,
    /// The steps to what has no effect. Of an option of the call, they begin at the call.
    pub steps: Vec<Step>,
    /// The same as a script would write them.
    pub path: String,
    /// What was meant, perhaps.
    pub near: Option<String>,
    /// The name of the option.
    pub option: Option<&'static str>,
    pub message: String,
}

// Where a warning belongs.
#[derive(Drop)]
pub(crate) struct Spot {
    pub(crate) id: Option<Value>,
    pub(crate) steps: Vec<Step>,
    // Whether the steps begin at the call.
    pub(crate) is_of_call: bool,
}

// What is said of a place: the sentence is the path, these words, and what was meant.
#[derive(Drop)]
pub(crate) struct Said {
    pub(crate) kind: &'static str,
    pub(crate) words: String,
    pub(crate) near: Option<String>,
    pub(crate) option: Option<&'static str>,
}

// A sentence with what was meant.
fn message_of(
    alloc: Global,
    path: &str,
    words: &str,
    near: Option<&String>,
) -> Result<String, AllocError> {
    match near {
        Some(near) => {
            let near = quoted(alloc, near.as_str())?;
            format!(in alloc; "{path} {words}; did you mean {near}?")
        }
        None => format!(in alloc; "{path} {words}"),
    }
}

pub(crate) fn warning_at(alloc: Global, spot: Spot, said: Said) -> Result<Warning, AllocError> {
    let Spot {
        id,
        steps,
        is_of_call,
    } = spot;
    let Said {
        kind,
        words,
        near,
        option,
    } = said;
    let mut path = path_text(alloc, steps.as_slice())?;
    if is_of_call {
        path.push_str(" of the call")?;
    }
    let message = message_of(alloc, path.as_str(), words.as_str(), near.as_ref())?;
    Ok(Warning {
        kind,
        id,
        steps,
        path,
        near,
        option,
        message,
    })
}

fn text_value(alloc: Global, text: &str) -> Result<Value, AllocError> {
    Ok(Value::String(String::from_str(alloc, text)?))
}

/// A warning as a value, with the members of the package for JavaScript. What is not known is left out.
pub fn warning_value(alloc: Global, warning: &Warning) -> Result<Value, AllocError> {
    let mut members = Map::new(alloc);
    put(
        &mut members,
        alloc,
        "kind",
        text_value(alloc, warning.kind)?,
    )?;
    if let Some(id) = warning.id.as_ref() {
        put(&mut members, alloc, "id", id.clone()?)?;
    }
    let steps = steps_value(alloc, warning.steps.as_slice())?;
    put(&mut members, alloc, "steps", steps)?;
    let path = text_value(alloc, warning.path.as_str())?;
    put(&mut members, alloc, "path", path)?;
    if let Some(near) = warning.near.as_ref() {
        put(
            &mut members,
            alloc,
            "near",
            text_value(alloc, near.as_str())?,
        )?;
    }
    if let Some(option) = warning.option {
        put(&mut members, alloc, "option", text_value(alloc, option)?)?;
    }
    let message = text_value(alloc, warning.message.as_str())?;
    put(&mut members, alloc, "message", message)?;
    Ok(Value::Object(members))
}
