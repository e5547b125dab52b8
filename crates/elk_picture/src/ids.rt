//! Which nodes the ids of a document name.

use crate::element::elements_of;
use serde_json::{Number, Value};
use std::alloc::{AllocError, Global};
use std::cmp::OrderedFloat;
use std::collections::BTreeMap;

// The end of an edge.
#[derive(Clone, Copy, Drop)]
pub(crate) enum End {
    Source,
    Target,
}

// An id that can be looked up.
#[derive(Clone, Copy, Drop, PartialEq, Eq, PartialOrd, Ord)]
pub(crate) enum Key<'a> {
    Null,
    Flag(bool),
    Number(OrderedFloat<f64>),
    // Beyond 2^53 several whole numbers share a float.
    Whole(i128),
    Text(&'a str),
}

// The nodes by their ids, and by those of their ports.
#[derive(Drop)]
pub(crate) struct Ids<'a> {
    nodes: BTreeMap<Key<'a>, usize>,
    ports: BTreeMap<Key<'a>, usize>,
}

const MOST_EXACT: i128 = 9007199254740992;

fn number_key<'a>(number: &Number) -> Option<Key<'a>> {
    match number.as_i128() {
        Some(whole) if whole > MOST_EXACT || whole < -MOST_EXACT => Some(Key::Whole(whole)),
        _ => Some(Key::Number(OrderedFloat(number.as_f64()?))),
    }
}

pub(crate) fn key_of(id: Option<&Value>) -> Option<Key<'_>> {
    match id {
        Some(Value::Null) => Some(Key::Null),
        Some(Value::Bool(flag)) => Some(Key::Flag(*flag)),
        Some(Value::Number(number)) => number_key(number),
        Some(Value::String(text)) => Some(Key::Text(text.as_str())),
        _ => None,
    }
}

impl<'a> Ids<'a> {
    pub(crate) fn new(alloc: Global) -> Ids<'a> {
        Ids {
            nodes: BTreeMap::new(alloc),
            ports: BTreeMap::new(alloc),
        }
    }

    // Only elements that have an id are entered.
    pub(crate) fn name(
        &mut self,
        alloc: Global,
        node: &'a Value,
        at: usize,
    ) -> Result<(), AllocError> {
        if let Some(key) = key_of(node.get("id")) {
            self.nodes.insert(key, at)?;
        }
        for port in elements_of(alloc, node, "ports")? {
            if let Some(key) = key_of(port.get("id")) {
                self.ports.insert(key, at)?;
            }
        }
        Ok(())
    }

    fn node_named(&self, id: Option<&'a Value>) -> Option<usize> {
        match key_of(id) {
            Some(key) => self.nodes.get(&key).copied(),
            None => None,
        }
    }

    fn node_with_port(&self, id: Option<&'a Value>) -> Option<usize> {
        match key_of(id) {
            Some(key) => self.ports.get(&key).copied(),
            None => None,
        }
    }

    // The node of an id, or that of the port of an id.
    pub(crate) fn node_of(&self, id: Option<&'a Value>) -> Option<usize> {
        match self.node_named(id) {
            Some(node) => Some(node),
            None => self.node_with_port(id),
        }
    }

    // The node at the source or the target of an edge, which may be named by one of its ports.
    pub(crate) fn node_at(&self, edge: &'a Value, end: End) -> Option<usize> {
        match port_id(edge, end) {
            Some(port) => self.node_with_port(Some(port)),
            None => self.node_of(first_id(edge, end)),
        }
    }

    pub(crate) fn container(&self, edge: &'a Value) -> Option<usize> {
        self.node_named(edge.get("container"))
    }
}

fn is_extended(edge: &Value) -> bool {
    edge.get("sources").is_some() || edge.get("targets").is_some()
}

fn list_name(end: End) -> &'static str {
    match end {
        End::Source => "sources",
        End::Target => "targets",
    }
}

fn node_name(end: End) -> &'static str {
    match end {
        End::Source => "source",
        End::Target => "target",
    }
}

fn port_name(end: End) -> &'static str {
    match end {
        End::Source => "sourcePort",
        End::Target => "targetPort",
    }
}

// The port that an end in the primitive form names. It may have the same id as a node.
fn port_id(edge: &Value, end: End) -> Option<&Value> {
    if is_extended(edge) {
        return None;
    }
    match edge.get(port_name(end)) {
        Some(Value::Null) => None,
        port => port,
    }
}

fn first_id(edge: &Value, end: End) -> Option<&Value> {
    if !is_extended(edge) {
        return edge.get(node_name(end));
    }
    match edge.get(list_name(end)).and_then(Value::as_array) {
        Some(ids) => ids.first(),
        None => None,
    }
}

// The ids in the list of an end in the extended form; none in the primitive form.
pub(crate) fn listed_ids(edge: &Value, end: End) -> &[Value] {
    match edge.get(list_name(end)) {
        Some(Value::Array(ids)) => ids.as_slice(),
        _ => &[],
    }
}

// The ids at one end of an edge, in the extended or in the primitive form.
pub(crate) fn end_ids<'a>(
    alloc: Global,
    edge: &'a Value,
    end: End,
) -> Result<Vec<Option<&'a Value>>, AllocError> {
    let mut ids = Vec::new(alloc);
    if !is_extended(edge) {
        ids.push(match port_id(edge, end) {
            Some(port) => Some(port),
            None => first_id(edge, end),
        })?;
        return Ok(ids);
    }
    if let Some(items) = edge.get(list_name(end)).and_then(Value::as_array) {
        for item in items {
            ids.push(Some(item))?;
        }
    }
    Ok(ids)
}
