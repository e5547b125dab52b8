//! Faults, and values that say them.

use json_places::{Step, steps_value};
use serde_json::value::Map;
use serde_json::{Number, Value, put};
use std::alloc::{AllocError, Global};

/// What is wrong with a graph.
#[derive(Drop)]
pub struct Fault {
    /// The number of the rule, 0 to 12.
    pub rule: u32,
    /// The name of the rule.
    pub name: &'static str,
    /// The id of the element at which the rule is broken, if it has one.
    pub id: Option<Value>,
    /// The steps to what is wrong. Of a fault of the call's options, they begin at the call.
    pub steps: Vec<Step>,
    /// The same as a script would write them.
    pub path: String,
    /// What stands there.
    pub found: Option<Value>,
    /// What may stand there.
    pub allowed: Option<String>,
    /// What was meant, perhaps.
    pub near: Option<Value>,
    /// Which end of an edge it is about: `source` or `target`.
    pub end: Option<&'static str>,
    /// The name of an option.
    pub option: Option<&'static str>,
    /// All values of that option, if they are few.
    pub values: &'static [&'static str],
    /// The sentence on this place alone.
    pub detail: String,
    /// The sentence with what is wrong and the rule.
    pub message: String,
}

fn text_value(alloc: Global, text: &str) -> Result<Value, AllocError> {
    Ok(Value::String(String::from_str(alloc, text)?))
}

fn put_value(
    members: &mut Map<String, Value>,
    alloc: Global,
    key: &str,
    value: Option<&Value>,
) -> Result<(), AllocError> {
    if let Some(value) = value {
        put(members, alloc, key, value.clone()?)?;
    }
    Ok(())
}

fn put_text(
    members: &mut Map<String, Value>,
    alloc: Global,
    key: &str,
    text: Option<&str>,
) -> Result<(), AllocError> {
    if let Some(text) = text {
        put(members, alloc, key, text_value(alloc, text)?)?;
    }
    Ok(())
}

fn put_option(
    members: &mut Map<String, Value>,
    alloc: Global,
    fault: &Fault,
) -> Result<(), AllocError> {
    put_text(members, alloc, "option", fault.option)?;
    if fault.values.is_empty() {
        return Ok(());
    }
    let mut values = Vec::new(alloc);
    for value in fault.values {
        values.push(text_value(alloc, value)?)?;
    }
    put(members, alloc, "values", Value::Array(values))?;
    Ok(())
}

/// A fault as a value, with the members of the package for JavaScript. What is not known is left out.
pub fn fault_value(alloc: Global, fault: &Fault) -> Result<Value, AllocError> {
    let mut members = Map::new(alloc);
    let rule = match Number::from_u128(fault.rule as u128) {
        Some(rule) => Value::Number(rule),
        None => Value::Null,
    };
    put(&mut members, alloc, "rule", rule)?;
    put_text(&mut members, alloc, "name", Some(fault.name))?;
    put_value(&mut members, alloc, "id", fault.id.as_ref())?;
    let steps = steps_value(alloc, fault.steps.as_slice())?;
    put(&mut members, alloc, "steps", steps)?;
    put_text(&mut members, alloc, "path", Some(fault.path.as_str()))?;
    put_value(&mut members, alloc, "found", fault.found.as_ref())?;
    if let Some(allowed) = fault.allowed.as_ref() {
        put_text(&mut members, alloc, "allowed", Some(allowed.as_str()))?;
    }
    put_value(&mut members, alloc, "near", fault.near.as_ref())?;
    put_text(&mut members, alloc, "end", fault.end)?;
    put_option(&mut members, alloc, fault)?;
    put_text(&mut members, alloc, "detail", Some(fault.detail.as_str()))?;
    put_text(&mut members, alloc, "message", Some(fault.message.as_str()))?;
    Ok(Value::Object(members))
}
