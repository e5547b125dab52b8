//! The options of a document's elements as the engine reads them, and those whose values it doesn't take.

use crate::context::Context;
use crate::finds::{Case, Find, Side};
use json_places::{Element, Kind, Step};
use option_names::{Description, OptionTable, Role};
use serde_json::Value;
use serde_json::value::Map;
use std::alloc::{AllocError, Global};
use std::collections::BTreeMap;

// What stands before the name of an option where the engine finds it, if anything does.
const PREFIXES: [&str; 2] = ["org.eclipse.elk.", "elk."];

/// An option whose value isn't taken, with its key.
#[derive(Clone, Copy, Drop)]
pub struct Bad<'a> {
    option: &'static Description,
    key: &'a str,
    value: &'a Value,
}

/// What an element asks for.
#[derive(Drop)]
pub struct Asked<'a> {
    pub bad: Vec<Bad<'a>>,
    /// Whether ports stand where they are given.
    pub is_fixed: bool,
    /// The side of a port.
    pub side: Option<Side>,
    /// The key that asks for a level of boxes.
    pub boxes: Option<&'a str>,
}

impl Asked<'_> {
    pub fn is_good(&self) -> bool {
        self.bad.is_empty()
    }
}

fn role_of(element: &Element) -> Role {
    match element.kind {
        Kind::Port => Role::Port,
        Kind::Edge => Role::Edge,
        Kind::Node if element.is_level => Role::Level,
        Kind::Node => Role::Node,
    }
}

// The name of the option that the engine finds under a key.
fn name_in(key: &str) -> &str {
    for prefix in PREFIXES {
        if let Some(name) = key.strip_prefix(prefix) {
            return name;
        }
    }
    key
}

// The options under the keys that the engine finds, the longest of each, by their names.
fn spelled_in<'a>(
    alloc: Global,
    given: &'a Map<String, Value>,
) -> Result<BTreeMap<&'a str, (&'a str, &'a Value)>, AllocError> {
    let mut found: BTreeMap<&'a str, (&'a str, &'a Value)> = BTreeMap::new(alloc);
    for (key, value) in given.iter() {
        let key = key.as_str();
        let name = name_in(key);
        let length = match found.get(name) {
            Some((other, _)) => other.len(),
            None => 0,
        };
        if length <= key.len() {
            found.insert(name, (key, value))?;
        }
    }
    Ok(found)
}

fn side_named(value: &Value) -> Option<Side> {
    let name = value.as_str().unwrap_or("");
    for side in [Side::North, Side::East, Side::South, Side::West] {
        if name.eq_ignore_ascii_case(side.name()) {
            return Some(side);
        }
    }
    None
}

impl<'a> Asked<'a> {
    fn none(alloc: Global) -> Asked<'a> {
        Asked {
            bad: Vec::new(alloc),
            is_fixed: false,
            side: None,
            boxes: None,
        }
    }

    // Takes what an option says.
    fn take(&mut self, table: &OptionTable, name: &str, key: &'a str, value: &Value) {
        let text = value.as_str().unwrap_or("");
        match name {
            "portConstraints" => self.is_fixed = text.eq_ignore_ascii_case("FIXED_POS"),
            "port.side" => self.side = side_named(value),
            "algorithm" if table.algorithm_named(text) == Some("box") => self.boxes = Some(key),
            _ => {}
        }
    }

    fn read(
        &mut self,
        alloc: Global,
        table: &OptionTable,
        given: &'a Map<String, Value>,
        role: Role,
    ) -> Result<(), AllocError> {
        let spelled = spelled_in(alloc, given)?;
        for option in table.options() {
            let found = spelled.get(option.name).copied();
            if let Some((key, value)) = found {
                if !table.is_read_by(option.name, role) {} else if table.is_taken(option, value) {
                    self.take(table, option.name, key, value);
                } else {
                    self.bad.push(Bad { option, key, value })?;
                }
            }
        }
        Ok(())
    }
}

// The options that an element reads.
pub(crate) fn asked_by<'a>(
    alloc: Global,
    table: &OptionTable,
    element: &Element<'a>,
) -> Result<Asked<'a>, AllocError> {
    let mut asked = Asked::none(alloc);
    if let Some(Value::Object(given)) = element.value.get("layoutOptions") {
        if !given.is_empty() {
            asked.read(alloc, table, given, role_of(element))?;
        }
    }
    Ok(asked)
}

fn names_of(alloc: Global, key: &str) -> Result<Vec<Step>, AllocError> {
    let mut names = Vec::new(alloc);
    names.push(Step::named(alloc, "layoutOptions")?)?;
    names.push(Step::named(alloc, key)?)?;
    Ok(names)
}

// The first edge of each level, by the number of the level.
fn first_edges(alloc: Global, context: &Context) -> Result<BTreeMap<usize, usize>, AllocError> {
    let mut first = BTreeMap::new(alloc);
    for join in context.joins.iter() {
        if let Some((source, target)) = context.nodes_of(join) {
            let (level, other) = (context.holder_of(source), context.holder_of(target));
            if let Some(level) = level {
                if Some(level) == other && first.get(&level).is_none() {
                    first.insert(level, join.edge)?;
                }
            }
        }
    }
    Ok(first)
}

// Rule 11.
pub(crate) fn bad_options<'a>(
    alloc: Global,
    context: &Context<'a>,
    finds: &mut Vec<Find<'a>>,
) -> Result<(), AllocError> {
    let edges = first_edges(alloc, context)?;
    for (number, element) in context.elements.iter().enumerate() {
        let Some(asked) = context.asked.get(number) else {
            continue;
        };
        for bad in asked.bad.iter() {
            finds.push(Find {
                rule: 11,
                element: Some(number),
                names: names_of(alloc, bad.key)?,
                case: Case::Asked(bad.value, bad.option),
            })?;
        }
        let edge = edges.get(&number).copied();
        if let (true, Some(key), Some(edge)) = (element.is_level, asked.boxes, edge) {
            finds.push(Find {
                rule: 11,
                element: Some(number),
                names: names_of(alloc, key)?,
                case: Case::Boxes(edge),
            })?;
        }
    }
    Ok(())
}
