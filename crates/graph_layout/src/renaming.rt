//! The options of an element under the engine's names.

use crate::lengths::whole_length;
use graph_draft::{How, Options};
use option_names::{PREFIX, Role, is_spelling, prefix_in, stand_ins};
use serde_json::value::Map;
use serde_json::{Value, put};
use std::alloc::{AllocError, Global};

type Members = Map<String, Value>;

// The value of an option of an element rounded up; nothing if it stays as it is.
fn own_length(
    alloc: Global,
    own: &Options,
    how: &How,
    name: &'static str,
) -> Result<Option<Value>, AllocError> {
    match own.get(name) {
        Some(value) if how.whole => whole_length(alloc, &how.table, name, value),
        _ => Ok(None),
    }
}

// What stands before the name of an option in the key under which an element has it, if the engine finds it by that key.
fn prefix_of(given: &Value, name: &str) -> &'static str {
    for holder in ["layoutOptions", "properties"] {
        if let Some(Value::Object(members)) = given.get(holder) {
            for (key, _) in members.iter() {
                if is_spelling(key.as_str(), name) {
                    return prefix_in(key.as_str());
                }
            }
        }
    }
    PREFIX
}

fn put_option(
    sent: &mut Members,
    alloc: Global,
    prefix: &str,
    name: &str,
    value: Option<&Value>,
) -> Result<(), AllocError> {
    if let Some(value) = value {
        let key = format!(in alloc; "{prefix}{name}")?;
        sent.insert(key, value.clone()?)?;
    }
    Ok(())
}

fn put_general(
    sent: &mut Members,
    alloc: Global,
    own: &Options,
    how: &How,
    role: Role,
) -> Result<(), AllocError> {
    for name in how.general.names(alloc)? {
        if own.get(name).is_none() && how.table.is_read_by(name, role) {
            put_option(sent, alloc, PREFIX, name, how.general.get(name))?;
        }
    }
    Ok(())
}

fn put_own(
    sent: &mut Members,
    alloc: Global,
    own: &Options,
    how: &How,
    given: &Value,
) -> Result<(), AllocError> {
    for name in own.names(alloc)? {
        if how.table.is_read(name) {
            let prefix = prefix_of(given, name);
            match own_length(alloc, own, how, name)? {
                Some(whole) => put_option(sent, alloc, prefix, name, Some(&whole))?,
                None => put_option(sent, alloc, prefix, name, own.get(name))?,
            }
        }
    }
    Ok(())
}

// The options that a level with so many children is sent with besides, or in place of those that it has.
fn put_stand_ins(
    sent: &mut Members,
    alloc: Global,
    own: &Options,
    how: &How,
    given: &Value,
    children: usize,
) -> Result<(), AllocError> {
    let mut asked: Vec<(&str, &Value)> = Vec::new(alloc);
    for name in own.names(alloc)? {
        if let Some(value) = own.get(name) {
            asked.push((name, value))?;
        }
    }
    for name in how.general.names(alloc)? {
        if let (None, Some(value)) = (own.get(name), how.general.get(name)) {
            asked.push((name, value))?;
        }
    }
    for (name, value) in stand_ins(alloc, asked.as_slice(), children)? {
        let prefix = prefix_of(given, name);
        put_option(sent, alloc, prefix, name, Some(&value))?;
    }
    Ok(())
}

fn is_object_or_none(value: Option<&Value>) -> bool {
    match value {
        Some(value) => value.is_object(),
        None => true,
    }
}

/// Gives an element the options that the engine reads of it, under the engine's names: its own, and those of the call that it reads and
/// doesn't have itself. What is no object of options stays, so that it is refused.
pub(crate) fn rename_options(
    members: &mut Members,
    alloc: Global,
    how: &How,
    role: Role,
    children: usize,
) -> Result<(), AllocError> {
    if !is_object_or_none(members.get("layoutOptions")) {
        return Ok(());
    }
    let mut given = Map::new(alloc);
    for key in ["layoutOptions", "properties"] {
        if let Some(value) = members.remove(key) {
            put(&mut given, alloc, key, value)?;
        }
    }
    let given = Value::Object(given);
    let own = Options::carried_by(alloc, &how.table, &given)?;
    let mut sent = Map::new(alloc);
    put_general(&mut sent, alloc, &own, how, role)?;
    put_own(&mut sent, alloc, &own, how, &given)?;
    if role == Role::Level {
        put_stand_ins(&mut sent, alloc, &own, how, &given, children)?;
    }
    put(members, alloc, "layoutOptions", Value::Object(sent))
}
