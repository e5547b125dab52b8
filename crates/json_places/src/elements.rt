//! The elements of a graph, by numbers.

use crate::steps::Step;
use serde_json::Value;
use serde_json::value::Map;
use std::alloc::{AllocError, Global};

/// What an element is.
#[derive(Clone, Copy, Debug, Drop, PartialEq, Eq)]
pub enum Kind {
    Node,
    Port,
    Edge,
}

/// A node, a port or an edge, or what stands in the place of one.
#[derive(Clone, Copy, Drop)]
pub struct Element<'a> {
    pub kind: Kind,
    pub value: &'a Value,
    /// The number of the node at which it stands. The root has none.
    pub holder: Option<usize>,
    /// The list of that node in which it stands, and where.
    pub list: &'static str,
    pub at: usize,
    /// How many nodes hold it.
    pub depth: usize,
    /// Whether it is a level: the root, or a node with children.
    pub is_level: bool,
}

// Where an element stands.
#[derive(Clone, Copy, Drop)]
struct Place {
    holder: Option<usize>,
    at: usize,
    depth: usize,
}

fn has_children(value: &Value) -> bool {
    match value.get("children") {
        Some(Value::Array(items)) => !items.is_empty(),
        _ => false,
    }
}

// The elements of a list of a node that hold no others.
fn enter_parts<'a>(
    elements: &mut Vec<Element<'a>>,
    node: &'a Value,
    place: Place,
    list: &'static str,
    kind: Kind,
) -> Result<(), AllocError> {
    if let Some(Value::Array(items)) = node.get(list) {
        for (at, value) in items.iter().enumerate() {
            elements.push(Element {
                kind,
                value,
                holder: place.holder,
                list,
                at,
                depth: place.depth,
                is_level: false,
            })?;
        }
    }
    Ok(())
}

#[cycle(enter)]
fn enter_node<'a>(
    value: &'a Value,
    elements: &mut Vec<Element<'a>>,
    place: Place,
) -> Result<(), AllocError> {
    let inner = Place {
        holder: Some(elements.len()),
        at: 0,
        depth: place.depth.saturating_add(1),
    };
    elements.push(Element {
        kind: Kind::Node,
        value,
        holder: place.holder,
        list: "children",
        at: place.at,
        depth: place.depth,
        is_level: place.holder.is_none() || has_children(value),
    })?;
    enter_parts(elements, value, inner, "ports", Kind::Port)?;
    enter_parts(elements, value, inner, "edges", Kind::Edge)?;
    match value {
        Value::Object(members) => enter_members(members, elements, inner),
        _ => Ok(()),
    }
}

#[cycle(enter)]
fn enter_members<'a>(
    members: &'a Map<String, Value>,
    elements: &mut Vec<Element<'a>>,
    place: Place,
) -> Result<(), AllocError> {
    for (key, member) in members.iter() {
        if key.as_str() == "children" {
            return enter_list(member, elements, place);
        }
    }
    Ok(())
}

#[cycle(enter)]
fn enter_list<'a>(
    member: &'a Value,
    elements: &mut Vec<Element<'a>>,
    place: Place,
) -> Result<(), AllocError> {
    match member {
        Value::Array(items) => enter_children(items, elements, place),
        _ => Ok(()),
    }
}

#[cycle(enter)]
fn enter_children<'a>(
    items: &'a Vec<Value>,
    elements: &mut Vec<Element<'a>>,
    place: Place,
) -> Result<(), AllocError> {
    let mut at: usize = 0;
    for item in items {
        enter_node(item, elements, Place { at, ..place })?;
        at = at.saturating_add(1);
    }
    Ok(())
}

/// The elements of a graph: a node, then its ports, then its edges, then its children, each with all of its own.
pub fn elements_of(alloc: Global, graph: &Value) -> Result<Vec<Element<'_>>, AllocError> {
    let mut elements = Vec::new(alloc);
    let root = Place {
        holder: None,
        at: 0,
        depth: 0,
    };
    enter_node(graph, &mut elements, root)?;
    Ok(elements)
}

/// The steps to an element.
pub fn steps_to(
    alloc: Global,
    elements: &[Element],
    number: usize,
) -> Result<Vec<Step>, AllocError> {
    let mut steps = Vec::new(alloc);
    let mut at = elements.get(number);
    // No element has more holders than there are elements.
    for _ in 0..elements.len() {
        let (element, holder) = match at {
            Some(element) => match element.holder {
                Some(holder) => (element, holder),
                None => break,
            },
            None => break,
        };
        steps.push(Step::At(element.at))?;
        steps.push(Step::named(alloc, element.list)?)?;
        at = elements.get(holder);
    }
    steps.reverse();
    Ok(steps)
}

fn inner<'a>(value: &'a Value, step: &Step) -> Option<&'a Value> {
    match step {
        Step::At(at) => match value {
            Value::Array(items) => items.get(*at),
            _ => None,
        },
        Step::Name(name) => value.get(name.as_str()),
    }
}

/// The value to which steps lead.
pub fn value_at<'a>(root: &'a Value, steps: &[Step]) -> Option<&'a Value> {
    let mut value = root;
    for step in steps {
        match inner(value, step) {
            Some(found) => value = found,
            None => return None,
        }
    }
    Some(value)
}
