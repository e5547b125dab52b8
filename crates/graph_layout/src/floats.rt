//! Whole numbers that are written with a point or an exponent, such as 5.0 or 1e2. Scripts don't tell them from others, but the engine
//! refuses them. Members that nothing reads stay as they are.

use graph_draft::number_value;
use serde_json::value::Map;
use serde_json::{Number, Value};
use std::alloc::{AllocError, Global};

// What is rewritten in a value.
#[derive(Clone, Copy, Drop)]
enum Scope {
    All,
    // A request: all but its graph, of which it is what elements have.
    Request,
    // An element of a graph: the members that are read.
    Element,
    // A list of elements.
    List,
    Nothing,
}

const LISTS: [&str; 3] = ["children", "ports", "edges"];

const READ: [&str; 13] = [
    "id",
    "width",
    "height",
    "x",
    "y",
    "sources",
    "targets",
    "source",
    "target",
    "sourcePort",
    "targetPort",
    "layoutOptions",
    "properties",
];

impl Scope {
    fn of_member(self, key: &str) -> Scope {
        match self {
            Scope::All => Scope::All,
            Scope::Request if key == "graph" || key == "placed" => Scope::Element,
            Scope::Request => Scope::All,
            Scope::Element if LISTS.iter().any(|list| *list == key) => Scope::List,
            Scope::Element if READ.iter().any(|read| *read == key) => Scope::All,
            _ => Scope::Nothing,
        }
    }

    fn of_item(self) -> Scope {
        match self {
            Scope::All => Scope::All,
            Scope::List => Scope::Element,
            _ => Scope::Nothing,
        }
    }
}

// The whole number that a float says; nothing if the number isn't one, or is written as a whole one already.
fn whole_of(number: &Number) -> Option<Value> {
    if number.as_i128().is_some() {
        return None;
    }
    let value = match number.as_f64() {
        Some(float) => number_value(float),
        None => return None,
    };
    if is_whole(&value) { Some(value) } else { None }
}

// The same, if all numbers are rewritten.
fn whole_in(number: &Number, scope: Scope) -> Option<Value> {
    match scope {
        Scope::All => whole_of(number),
        _ => None,
    }
}

fn is_whole(value: &Value) -> bool {
    match value {
        Value::Number(number) => number.as_i128().is_some(),
        _ => false,
    }
}

#[cycle(has_floats)]
fn has_floats(value: &Value, scope: Scope) -> bool {
    match value {
        Value::Number(number) => whole_in(number, scope).is_some(),
        Value::Array(items) => has_floats_in_items(items, scope),
        Value::Object(members) => has_floats_in_members(members, scope),
        _ => false,
    }
}

#[cycle(has_floats)]
fn has_floats_in_items(items: &Vec<Value>, scope: Scope) -> bool {
    for item in items {
        if has_floats(item, scope.of_item()) {
            return true;
        }
    }
    false
}

#[cycle(has_floats)]
fn has_floats_in_members(members: &Map<String, Value>, scope: Scope) -> bool {
    for (key, member) in members.iter() {
        if has_floats(member, scope.of_member(key.as_str())) {
            return true;
        }
    }
    false
}

#[cycle(without_floats)]
fn without_floats(value: &Value, alloc: Global, scope: Scope) -> Result<Value, AllocError> {
    match value {
        Value::Number(number) => match whole_in(number, scope) {
            Some(whole) => Ok(whole),
            None => value.clone(),
        },
        Value::Array(items) => items_without_floats(items, alloc, scope),
        Value::Object(members) => members_without_floats(members, alloc, scope),
        _ => value.clone(),
    }
}

#[cycle(without_floats)]
fn items_without_floats(
    items: &Vec<Value>,
    alloc: Global,
    scope: Scope,
) -> Result<Value, AllocError> {
    let mut all = Vec::new(alloc);
    for item in items {
        all.push(without_floats(item, alloc, scope.of_item())?)?;
    }
    Ok(Value::Array(all))
}

#[cycle(without_floats)]
fn members_without_floats(
    members: &Map<String, Value>,
    alloc: Global,
    scope: Scope,
) -> Result<Value, AllocError> {
    let mut all = Map::new(alloc);
    for (key, member) in members.iter() {
        let inner = scope.of_member(key.as_str());
        all.insert(key.clone()?, without_floats(member, alloc, inner)?)?;
    }
    Ok(Value::Object(all))
}

fn rewritten(alloc: Global, value: Value, scope: Scope) -> Result<Value, AllocError> {
    if has_floats(&value, scope) {
        without_floats(&value, alloc, scope)
    } else {
        Ok(value)
    }
}

/// A graph in which numbers that are whole are written so, in the members of nodes, ports and edges that are read.
pub fn with_plain_numbers(alloc: Global, graph: Value) -> Result<Value, AllocError> {
    rewritten(alloc, graph, Scope::Element)
}

/// The same for the request of a graph, and for all its other members.
pub fn with_plain_request(alloc: Global, request: Value) -> Result<Value, AllocError> {
    rewritten(alloc, request, Scope::Request)
}

/// A value in which all numbers that are whole are written so.
pub(crate) fn with_plain_values(alloc: Global, value: Value) -> Result<Value, AllocError> {
    rewritten(alloc, value, Scope::All)
}
