//! The document that the engine reads of a draft.

use crate::draft::Draft;
use crate::element::{Edge, End, Node, Port};
use crate::options::{Options, standing};
use crate::values::number_value;
use option_names::{OptionTable, Role};
use serde_json::value::Map;
use serde_json::{Value, put};
use std::alloc::{AllocError, Global};
use std::mem;

// How many tildes follow the word with which ids of made elements begin.
fn tildes_in(id: Option<&Value>) -> usize {
    match id {
        Some(Value::String(text)) => match text.as_str().strip_prefix("made") {
            Some(rest) => rest.bytes().take_while(|byte| *byte == b'~').count(),
            None => 0,
        },
        _ => 0,
    }
}

/// How the ids of made elements begin. No id of the graph begins so.
pub(crate) fn stem_of(alloc: Global, draft: &Draft) -> Result<String, AllocError> {
    let mut most: usize = 0;
    for node in draft.nodes.iter() {
        most = most.max(tildes_in(node.id.as_ref()));
    }
    for port in draft.ports.iter() {
        most = most.max(tildes_in(port.id.as_ref()));
    }
    for edge in draft.edges.iter() {
        most = most.max(tildes_in(edge.id.as_ref()));
    }
    let mut stem = String::from_str(alloc, "made")?;
    for _ in 0..most.saturating_add(1) {
        stem.push('~')?;
    }
    Ok(stem)
}

// A draft with the beginning of the ids that it makes.
#[derive(Drop)]
struct Writing<'a> {
    draft: &'a Draft,
    stem: String,
}

// A list of values that are taken out one by one, by their numbers.
fn taken(values: &mut [Value], at: usize) -> Value {
    match values.get_mut(at) {
        Some(value) => mem::replace(value, Value::Null),
        None => Value::Null,
    }
}

fn put_number(
    members: &mut Map<String, Value>,
    alloc: Global,
    key: &str,
    number: f64,
) -> Result<(), AllocError> {
    if number != 0.0 {
        put(members, alloc, key, number_value(number))?;
    }
    Ok(())
}

// An option under a key by which the engine finds it.
fn put_option(
    sent: &mut Map<String, Value>,
    alloc: Global,
    prefix: &str,
    name: &str,
    value: Value,
) -> Result<(), AllocError> {
    let mut key = String::with_capacity(alloc, prefix.len().saturating_add(name.len()))?;
    key.push_str(prefix)?;
    key.push_str(name)?;
    sent.insert(key, value)?;
    Ok(())
}

// The options that an element is sent with: those that it has, and those of the call that it reads and doesn't have itself.
fn sent_options(
    alloc: Global,
    table: &OptionTable,
    own: &Options,
    general: &Options,
    role: Role,
) -> Result<Map<String, Value>, AllocError> {
    let mut sent = Map::new(alloc);
    if own.is_empty() && general.is_empty() {
        return Ok(sent);
    }
    for name in general.names(alloc)? {
        if own.get(name).is_none() && table.is_read_by(name, role) {
            if let Some(value) = general.get(name) {
                let prefix = general.prefix_of(name);
                put_option(&mut sent, alloc, prefix, name, value.clone()?)?;
            }
        }
    }
    for name in own.names(alloc)? {
        if table.is_read(name) {
            if let Some(value) = own.get(name) {
                let prefix = own.prefix_of(name);
                put_option(&mut sent, alloc, prefix, name, value.clone()?)?;
            }
        }
    }
    Ok(sent)
}

// The same for a level, with the options that stand for others.
fn level_options(
    alloc: Global,
    table: &OptionTable,
    own: &Options,
    general: &Options,
    children: usize,
) -> Result<Map<String, Value>, AllocError> {
    let mut sent = sent_options(alloc, table, own, general, Role::Level)?;
    for (name, value) in standing(alloc, own, general, children)? {
        let prefix = if own.get(name).is_some() {
            own.prefix_of(name)
        } else {
            general.prefix_of(name)
        };
        put_option(&mut sent, alloc, prefix, name, value)?;
    }
    Ok(sent)
}

fn put_options(
    members: &mut Map<String, Value>,
    alloc: Global,
    sent: Map<String, Value>,
) -> Result<(), AllocError> {
    if !sent.is_empty() {
        put(members, alloc, "layoutOptions", Value::Object(sent))?;
    }
    Ok(())
}

/// The id with which an element is sent that has none of its own.
pub(crate) fn made_id(
    alloc: Global,
    stem: &str,
    kind: &str,
    at: usize,
) -> Result<String, AllocError> {
    let mut id = String::with_capacity(alloc, stem.len().saturating_add(12))?;
    write!(id, "{stem}{kind}{at}")?;
    Ok(id)
}

impl Writing<'_> {
    fn made_id(&self, alloc: Global, kind: &str, at: usize) -> Result<Value, AllocError> {
        let id = made_id(alloc, self.stem.as_str(), kind, at)?;
        Ok(Value::String(id))
    }

    fn port_id(&self, alloc: Global, at: usize) -> Result<Value, AllocError> {
        let id = match self.draft.ports.get(at) {
            Some(port) if !self.draft.renamed.contains(&at) => port.id.as_ref(),
            _ => None,
        };
        match id {
            Some(id) => id.clone(),
            None => self.made_id(alloc, "p", at),
        }
    }

    fn edge_id(&self, alloc: Global, at: usize, edge: &Edge) -> Result<Value, AllocError> {
        match edge.id.as_ref() {
            Some(id) => id.clone(),
            None => self.made_id(alloc, "e", at),
        }
    }

    // The id of a node. The root needs none.
    fn node_id(&self, alloc: Global, at: usize) -> Result<Option<Value>, AllocError> {
        let id = match self.draft.nodes.get(at) {
            Some(node) => node.id.as_ref(),
            None => None,
        };
        match id {
            Some(id) => Ok(Some(id.clone()?)),
            None if at == 0 => Ok(None),
            None => Ok(Some(self.made_id(alloc, "n", at)?)),
        }
    }

    fn end(&self, alloc: Global, end: End) -> Result<Value, AllocError> {
        match end.port {
            Some(port) => self.port_id(alloc, port),
            None => Ok(self.node_id(alloc, end.node)?.unwrap_or(Value::Null)),
        }
    }

    fn ends(&self, alloc: Global, ends: &[End]) -> Result<Value, AllocError> {
        let mut ids = Vec::new(alloc);
        for end in ends {
            ids.push(self.end(alloc, *end)?)?;
        }
        Ok(Value::Array(ids))
    }

    fn port(&self, alloc: Global, at: usize, port: &Port) -> Result<Value, AllocError> {
        let mut members = Map::new(alloc);
        put(&mut members, alloc, "id", self.port_id(alloc, at)?)?;
        put_number(&mut members, alloc, "width", port.width)?;
        put_number(&mut members, alloc, "height", port.height)?;
        put_number(&mut members, alloc, "x", port.x)?;
        put_number(&mut members, alloc, "y", port.y)?;
        let sent = sent_options(
            alloc,
            &self.draft.table,
            &port.options,
            &self.draft.general,
            Role::Port,
        )?;
        put_options(&mut members, alloc, sent)?;
        Ok(Value::Object(members))
    }

    fn edge(&self, alloc: Global, at: usize, edge: &Edge) -> Result<Value, AllocError> {
        let mut members = Map::new(alloc);
        put(&mut members, alloc, "id", self.edge_id(alloc, at, edge)?)?;
        let sources = self.ends(alloc, edge.sources.as_slice())?;
        put(&mut members, alloc, "sources", sources)?;
        let targets = self.ends(alloc, edge.targets.as_slice())?;
        put(&mut members, alloc, "targets", targets)?;
        let sent = sent_options(
            alloc,
            &self.draft.table,
            &edge.options,
            &self.draft.general,
            Role::Edge,
        )?;
        put_options(&mut members, alloc, sent)?;
        Ok(Value::Object(members))
    }

    fn ports(&self, alloc: Global, node: &Node) -> Result<Vec<Value>, AllocError> {
        let mut values = Vec::new(alloc);
        for at in node.ports.iter() {
            if let Some(port) = self.draft.ports.get(*at) {
                values.push(self.port(alloc, *at, port)?)?;
            }
        }
        Ok(values)
    }

    fn edges(&self, alloc: Global, node: &Node) -> Result<Vec<Value>, AllocError> {
        let mut values = Vec::new(alloc);
        for at in node.edges.iter() {
            if let Some(edge) = self.draft.edges.get(*at) {
                values.push(self.edge(alloc, *at, edge)?)?;
            }
        }
        Ok(values)
    }

    fn options(
        &self,
        alloc: Global,
        at: usize,
        node: &Node,
    ) -> Result<Map<String, Value>, AllocError> {
        let general = &self.draft.general;
        if at == 0 || !node.children.is_empty() {
            return level_options(
                alloc,
                &self.draft.table,
                &node.options,
                general,
                node.children.len(),
            );
        }
        sent_options(alloc, &self.draft.table, &node.options, general, Role::Node)
    }

    // A node with the values of its children.
    fn node(
        &self,
        alloc: Global,
        at: usize,
        node: &Node,
        children: Vec<Value>,
    ) -> Result<Value, AllocError> {
        let mut members = Map::new(alloc);
        if let Some(id) = self.node_id(alloc, at)? {
            put(&mut members, alloc, "id", id)?;
        }
        put_number(&mut members, alloc, "width", node.width)?;
        put_number(&mut members, alloc, "height", node.height)?;
        put_options(&mut members, alloc, self.options(alloc, at, node)?)?;
        for (key, values) in [
            ("ports", self.ports(alloc, node)?),
            ("edges", self.edges(alloc, node)?),
            ("children", children),
        ] {
            put_list(&mut members, alloc, key, values)?;
        }
        Ok(Value::Object(members))
    }
}

fn put_list(
    members: &mut Map<String, Value>,
    alloc: Global,
    key: &str,
    values: Vec<Value>,
) -> Result<(), AllocError> {
    if !values.is_empty() {
        put(members, alloc, key, Value::Array(values))?;
    }
    Ok(())
}

/// The document of a draft. Whatever stands in it can be told from the graph and what stages did.
pub fn document_of(alloc: Global, draft: &Draft) -> Result<Value, AllocError> {
    let stem = stem_of(alloc, draft)?;
    let writing = Writing { draft, stem };
    let mut values = Vec::new(alloc);
    for _ in 0..draft.nodes.len() {
        values.push(Value::Null)?;
    }
    // Each node stands behind its parent, so its value is made before that of the parent.
    for at in (0..draft.nodes.len()).rev() {
        if let Some(node) = draft.nodes.get(at) {
            let mut children = Vec::new(alloc);
            for child in node.children.iter() {
                children.push(taken(values.as_mut_slice(), *child))?;
            }
            let value = writing.node(alloc, at, node, children)?;
            if let Some(place) = values.get_mut(at) {
                *place = value;
            }
        }
    }
    Ok(taken(values.as_mut_slice(), 0))
}
