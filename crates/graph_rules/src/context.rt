//! What the rules look at: the elements of a document with their options, the ends by their ids, and what each edge joins.

use crate::asked::{Asked, asked_by};
use crate::finds::End;
use crate::ids::{Key, is_id, key_of};
use json_places::{Element, Kind, elements_of};
use option_names::OptionTable;
use serde_json::Value;
use std::alloc::{AllocError, Global};
use std::collections::BTreeMap;

/// An end of an edge: the reference, the member with it, and the element that it names.
#[derive(Clone, Copy, Drop)]
pub struct Reference<'a> {
    pub end: End,
    pub found: &'a Value,
    pub member: &'static str,
    /// Where it stands in a list.
    pub at: Option<usize>,
    /// The node at which a port is to be.
    pub node: Option<usize>,
    pub element: Option<usize>,
}

/// An edge whose ends have their form.
#[derive(Drop)]
pub struct Join<'a> {
    pub edge: usize,
    pub is_extended: bool,
    pub ends: Vec<Reference<'a>>,
}

/// A document that is judged.
#[derive(Drop)]
pub struct Context<'a> {
    pub elements: Vec<Element<'a>>,
    pub asked: Vec<Asked<'a>>,
    /// The first node or port of each id, also in their order, and the first edge of each id.
    pub ends: BTreeMap<Key<'a>, usize>,
    pub named: Vec<usize>,
    pub edges: BTreeMap<Key<'a>, usize>,
    pub joins: Vec<Join<'a>>,
}

pub fn is_extended(edge: &Value) -> bool {
    edge.get("sources").is_some() || edge.get("targets").is_some()
}

fn is_list(edge: &Value, name: &str) -> bool {
    match edge.get(name) {
        Some(value) => value.is_array(),
        None => false,
    }
}

fn is_id_at(edge: &Value, name: &str, is_due: bool) -> bool {
    match edge.get(name) {
        Some(value) => is_id(value),
        None => !is_due,
    }
}

// Whether the ends of an edge have their form.
fn is_formed(edge: &Value) -> bool {
    if is_extended(edge) {
        return is_list(edge, "sources") && is_list(edge, "targets");
    }
    for end in [End::Source, End::Target] {
        if !is_id_at(edge, end.name(), true) || !is_id_at(edge, end.port(), false) {
            return false;
        }
    }
    true
}

impl<'a> Context<'a> {
    // Enters the elements with their options and their ids.
    fn enter(&mut self, alloc: Global, table: &OptionTable) -> Result<(), AllocError> {
        for (number, element) in self.elements.iter().enumerate() {
            self.asked.push(asked_by(alloc, table, element)?)?;
            if let Some(key) = key_of(element.value.get("id")) {
                if element.kind == Kind::Edge {
                    if self.edges.get(&key).is_none() {
                        self.edges.insert(key, number)?;
                    }
                } else if self.ends.get(&key).is_none() {
                    self.ends.insert(key, number)?;
                    self.named.push(number)?;
                }
            }
        }
        Ok(())
    }

    // The node or port of an id.
    fn end_named(&self, id: &'a Value) -> Option<usize> {
        match key_of(Some(id)) {
            Some(key) => self.ends.get(&key).copied(),
            None => None,
        }
    }

    pub fn element(&self, number: usize) -> Option<&Element<'a>> {
        self.elements.get(number)
    }

    pub fn holder_of(&self, number: usize) -> Option<usize> {
        match self.elements.get(number) {
            Some(element) => element.holder,
            None => None,
        }
    }

    fn is_port_of(&self, number: usize, node: usize) -> bool {
        match self.elements.get(number) {
            Some(element) => element.kind == Kind::Port && element.holder == Some(node),
            None => false,
        }
    }

    fn is_node(&self, number: usize) -> bool {
        match self.elements.get(number) {
            Some(element) => element.kind == Kind::Node,
            None => false,
        }
    }

    // One end of an edge in the primitive form.
    fn plain_end(&self, edge: &'a Value, end: End) -> Option<Reference<'a>> {
        let id = edge.get(end.name())?;
        let node = self.end_named(id);
        let (port, node) = match (edge.get(end.port()), node) {
            (Some(port), Some(node)) => (port, node),
            _ => {
                return Some(Reference {
                    end,
                    found: id,
                    member: end.name(),
                    at: None,
                    node: None,
                    element: node,
                });
            }
        };
        let element = match self.end_named(port) {
            Some(element) if self.is_node(node) && self.is_port_of(element, node) => Some(element),
            _ => None,
        };
        Some(Reference {
            end,
            found: port,
            member: end.port(),
            at: None,
            node: Some(node),
            element,
        })
    }

    fn listed_ends(
        &self,
        edge: &'a Value,
        end: End,
        ends: &mut Vec<Reference<'a>>,
    ) -> Result<(), AllocError> {
        if let Some(Value::Array(ids)) = edge.get(end.list()) {
            for (at, id) in ids.iter().enumerate() {
                ends.push(Reference {
                    end,
                    found: id,
                    member: end.list(),
                    at: Some(at),
                    node: None,
                    element: self.end_named(id),
                })?;
            }
        }
        Ok(())
    }

    fn ends_of(&self, alloc: Global, edge: &'a Value) -> Result<Vec<Reference<'a>>, AllocError> {
        let mut ends = Vec::new(alloc);
        for end in [End::Source, End::Target] {
            if is_extended(edge) {
                self.listed_ends(edge, end, &mut ends)?;
            } else if let Some(reference) = self.plain_end(edge, end) {
                ends.push(reference)?;
            }
        }
        Ok(ends)
    }

    fn joins(&self, alloc: Global) -> Result<Vec<Join<'a>>, AllocError> {
        let mut joins = Vec::new(alloc);
        for (number, element) in self.elements.iter().enumerate() {
            if element.kind == Kind::Edge && element.value.is_object() && is_formed(element.value) {
                joins.push(Join {
                    edge: number,
                    is_extended: is_extended(element.value),
                    ends: self.ends_of(alloc, element.value)?,
                })?;
            }
        }
        Ok(joins)
    }

    // The node that an end is or at which it stands.
    fn node_of(&self, reference: &Reference) -> Option<usize> {
        let number = reference.element?;
        if self.is_node(number) {
            Some(number)
        } else {
            self.holder_of(number)
        }
    }

    /// The two nodes of an edge that joins two known ends.
    pub fn nodes_of(&self, join: &Join) -> Option<(usize, usize)> {
        match join.ends.as_slice() {
            [one, other] if one.end != other.end => {
                let (source, target) = (self.node_of(one)?, self.node_of(other)?);
                Some((source, target))
            }
            _ => None,
        }
    }
}

/// What the rules look at in a document.
pub fn context_of<'a>(
    alloc: Global,
    table: &OptionTable,
    document: &'a Value,
) -> Result<Context<'a>, AllocError> {
    let mut context = Context {
        elements: elements_of(alloc, document)?,
        asked: Vec::new(alloc),
        ends: BTreeMap::new(alloc),
        named: Vec::new(alloc),
        edges: BTreeMap::new(alloc),
        joins: Vec::new(alloc),
    };
    context.enter(alloc, table)?;
    let joins = context.joins(alloc)?;
    context.joins = joins;
    Ok(context)
}
