//! Which elements the ids of a graph name.

use crate::element::End;
use serde_json::{Number, Value};
use std::alloc::{AllocError, Global};
use std::cmp::OrderedFloat;
use std::collections::BTreeMap;

// An id that can be looked up. Whole numbers are exact: beyond 2^53 several of them share a float.
#[derive(Clone, Copy, Drop, PartialEq, Eq, PartialOrd, Ord)]
pub(crate) enum Key<'a> {
    Whole(i128),
    Float(OrderedFloat<f64>),
    Text(&'a str),
}

fn number_key<'a>(number: &Number) -> Option<Key<'a>> {
    match number.as_i128() {
        Some(whole) => Some(Key::Whole(whole)),
        None => Some(Key::Float(OrderedFloat(number.as_f64()?))),
    }
}

pub(crate) fn key_of(id: Option<&Value>) -> Option<Key<'_>> {
    match id {
        Some(Value::Number(number)) => number_key(number),
        Some(Value::String(text)) => Some(Key::Text(text.as_str())),
        _ => None,
    }
}

// The nodes and the ports by their ids.
#[derive(Drop)]
pub(crate) struct Ids<'a> {
    nodes: BTreeMap<Key<'a>, usize>,
    ports: BTreeMap<Key<'a>, End>,
}

impl<'a> Ids<'a> {
    pub(crate) fn new(alloc: Global) -> Ids<'a> {
        Ids {
            nodes: BTreeMap::new(alloc),
            ports: BTreeMap::new(alloc),
        }
    }

    pub(crate) fn name_node(&mut self, id: Option<&'a Value>, at: usize) -> Result<(), AllocError> {
        if let Some(key) = key_of(id) {
            self.nodes.insert(key, at)?;
        }
        Ok(())
    }

    pub(crate) fn name_port(&mut self, id: Option<&'a Value>, at: End) -> Result<(), AllocError> {
        if let Some(key) = key_of(id) {
            self.ports.insert(key, at)?;
        }
        Ok(())
    }

    pub(crate) fn is_node(&self, id: Option<&'a Value>) -> bool {
        match key_of(id) {
            Some(key) => self.nodes.get(&key).is_some(),
            None => false,
        }
    }

    // Whether an id is that of this node.
    pub(crate) fn is_node_at(&self, id: Option<&'a Value>, at: usize) -> bool {
        match key_of(id) {
            Some(key) => self.nodes.get(&key).copied() == Some(at),
            None => false,
        }
    }

    // The port of an id.
    pub(crate) fn port_named(&self, id: Option<&'a Value>) -> Option<End> {
        match key_of(id) {
            Some(key) => self.ports.get(&key).copied(),
            None => None,
        }
    }

    // The node of an id, or else the port.
    pub(crate) fn end_named(&self, id: Option<&'a Value>) -> Option<End> {
        let node = match key_of(id) {
            Some(key) => self.nodes.get(&key).copied(),
            None => None,
        };
        match node {
            Some(node) => Some(End { node, port: None }),
            None => self.port_named(id),
        }
    }
}
