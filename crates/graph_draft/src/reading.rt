//! A graph as a draft.

use crate::draft::{Draft, How};
use crate::element::{Edge, End, Given, Label, Node, Port};
use crate::ids::{Ids, key_of};
use crate::numbers::{whole_port, whole_size};
use crate::options::Options;
use crate::points::{Point, Size};
use crate::values::finite_at;
use option_names::OptionTable;
use serde_json::Value;
use serde_json::value::Map;
use std::alloc::{AllocError, Global};

// A member that only the engine can judge: a size, a port's place, a list or an object of options of another kind than it should be.
fn is_number_or_none(value: &Value, key: &str) -> bool {
    value.get(key).is_none() || finite_at(value, key).is_some()
}

fn is_list_or_none(value: &Value, key: &str) -> bool {
    match value.get(key) {
        None => true,
        Some(Value::Array(items)) => items.iter().all(Value::is_object),
        Some(_) => false,
    }
}

fn is_object_or_none(value: &Value, key: &str) -> bool {
    match value.get(key) {
        None => true,
        Some(value) => value.is_object(),
    }
}

// Whether an element has the form that stages rely on. What else is wrong with it is for the engine to refuse. A place that is no number
// counts as none.
fn has_form(value: &Value) -> bool {
    for key in ["width", "height"] {
        if !is_number_or_none(value, key) {
            return false;
        }
    }
    for key in ["children", "ports", "edges"] {
        if !is_list_or_none(value, key) {
            return false;
        }
    }
    is_object_or_none(value, "layoutOptions")
}

// Whether what a port says of its place is a number. It may be pinned there.
fn has_port_place(value: &Value) -> bool {
    is_number_or_none(value, "x") && is_number_or_none(value, "y")
}

fn has_id(value: &Value) -> bool {
    key_of(value.get("id")).is_some()
}

fn size_in(value: &Value) -> Size {
    Size {
        width: finite_at(value, "width").unwrap_or(0.0),
        height: finite_at(value, "height").unwrap_or(0.0),
    }
}

fn place_in(value: &Value) -> Point {
    Point {
        x: finite_at(value, "x").unwrap_or(0.0),
        y: finite_at(value, "y").unwrap_or(0.0),
    }
}

fn has_place(value: &Value) -> bool {
    finite_at(value, "x").is_some() && finite_at(value, "y").is_some()
}

fn id_in(value: &Value) -> Result<Option<Value>, AllocError> {
    match value.get("id") {
        Some(id) => Ok(Some(id.clone()?)),
        None => Ok(None),
    }
}

// A graph whose lists are being filled, with the values from which its nodes, ports and edges are read.
#[derive(Drop)]
struct Reading<'a> {
    draft: Draft,
    values: Vec<&'a Value>,
    ports: Vec<&'a Value>,
    edges: Vec<&'a Value>,
    ids: Ids<'a>,
    whole: bool,
}

fn letters_in(label: &Value) -> Option<f64> {
    match label.get("style") {
        Some(style) => finite_at(style, "fontSize"),
        None => None,
    }
}

fn label_in(alloc: Global, table: &OptionTable, value: &Value) -> Result<Label, AllocError> {
    let size = size_in(value);
    let place = place_in(value);
    let text = match value.get("text") {
        Some(Value::String(text)) => String::from_str(alloc, text.as_str())?,
        _ => String::new(alloc),
    };
    Ok(Label {
        text,
        letters: letters_in(value),
        width: size.width,
        height: size.height,
        x: place.x,
        y: place.y,
        has_place: has_place(value),
        placed: false,
        options: Options::carried_by(alloc, table, value)?,
    })
}

impl<'a> Reading<'a> {
    // The labels of an element, by their numbers. What is no object is none.
    fn labels(&mut self, alloc: Global, value: &Value) -> Result<Vec<usize>, AllocError> {
        let mut numbers = Vec::new(alloc);
        if let Some(Value::Array(items)) = value.get("labels") {
            for item in items {
                if item.is_object() {
                    numbers.push(self.draft.labels.len())?;
                    let label = label_in(alloc, &self.draft.table, item)?;
                    self.draft.labels.push(label)?;
                }
            }
        }
        Ok(numbers)
    }

    fn node(
        &mut self,
        alloc: Global,
        value: &'a Value,
        parent: Option<usize>,
    ) -> Result<usize, AllocError> {
        let at = self.draft.nodes.len();
        let labels = self.labels(alloc, value)?;
        let (given, place) = (size_in(value), place_in(value));
        let size = if self.whole { whole_size(given) } else { given };
        let options = Options::carried_by(alloc, &self.draft.table, value)?;
        self.draft.nodes.push(Node {
            id: id_in(value)?,
            parent,
            children: Vec::new(alloc),
            ports: Vec::new(alloc),
            edges: Vec::new(alloc),
            labels,
            width: size.width,
            height: size.height,
            x: place.x,
            y: place.y,
            has_place: has_place(value),
            given: Given {
                width: given.width,
                height: given.height,
                x: place.x,
                y: place.y,
            },
            owner: None,
            options,
            layering: None,
            altered: false,
        })?;
        self.values.push(value)?;
        self.ids.name_node(value.get("id"), at)?;
        Ok(at)
    }

    fn port(&mut self, alloc: Global, value: &'a Value, node: usize) -> Result<usize, AllocError> {
        let at = self.draft.ports.len();
        let labels = self.labels(alloc, value)?;
        let (size, place) = (size_in(value), place_in(value));
        let around = match self.values.get(node) {
            Some(node) => size_in(node),
            None => Size::NONE,
        };
        let (size, place) = if self.whole {
            (whole_size(size), whole_port(place, size, around))
        } else {
            (size, place)
        };
        let options = Options::carried_by(alloc, &self.draft.table, value)?;
        self.draft.ports.push(Port {
            id: id_in(value)?,
            node,
            labels,
            width: size.width,
            height: size.height,
            x: place.x,
            y: place.y,
            options,
        })?;
        let end = End {
            node,
            port: Some(at),
        };
        self.ids.name_port(value.get("id"), end)?;
        self.ports.push(value)?;
        Ok(at)
    }

    fn edge(&mut self, alloc: Global, value: &'a Value, home: usize) -> Result<usize, AllocError> {
        let at = self.draft.edges.len();
        let labels = self.labels(alloc, value)?;
        let options = Options::carried_by(alloc, &self.draft.table, value)?;
        self.draft.edges.push(Edge {
            id: id_in(value)?,
            home,
            sources: Vec::new(alloc),
            targets: Vec::new(alloc),
            labels,
            owner: None,
            options,
            sections: Vec::new(alloc),
            routing: None,
            junctions: Vec::new(alloc),
        })?;
        self.edges.push(value)?;
        Ok(at)
    }

    // The ports and the edges of a node. It answers whether they have the form that stages rely on.
    fn parts(&mut self, alloc: Global, node: usize) -> Result<bool, AllocError> {
        let value = match self.values.get(node) {
            Some(value) => *value,
            None => return Ok(false),
        };
        let mut ports = Vec::new(alloc);
        for port in items_of(alloc, value, "ports")? {
            if !has_form(port) || !has_port_place(port) || !has_id(port) {
                return Ok(false);
            }
            ports.push(self.port(alloc, port, node)?)?;
        }
        let mut edges = Vec::new(alloc);
        for edge in items_of(alloc, value, "edges")? {
            if !is_object_or_none(edge, "layoutOptions") || !has_id(edge) {
                return Ok(false);
            }
            edges.push(self.edge(alloc, edge, node)?)?;
        }
        if let Some(node) = self.draft.nodes.get_mut(node) {
            node.ports = ports;
            node.edges = edges;
        }
        Ok(true)
    }
}

// The items of a list; none where there is no list.
fn items_of<'a>(alloc: Global, value: &'a Value, key: &str) -> Result<Vec<&'a Value>, AllocError> {
    let mut items = Vec::new(alloc);
    if let Some(Value::Array(list)) = value.get(key) {
        for item in list {
            items.push(item)?;
        }
    }
    Ok(items)
}

// Enters a node with all that it holds. It answers whether all of it has the form that stages rely on.
#[cycle(enter)]
fn enter_node<'a>(
    value: &'a Value,
    alloc: Global,
    reading: &mut Reading<'a>,
    parent: Option<usize>,
) -> Result<bool, AllocError> {
    if !has_form(value) || !(parent.is_none() || has_id(value)) {
        return Ok(false);
    }
    let at = reading.node(alloc, value, parent)?;
    if let Some(parent) = parent {
        if let Some(parent) = reading.draft.nodes.get_mut(parent) {
            parent.children.push(at)?;
        }
    }
    if !reading.parts(alloc, at)? {
        return Ok(false);
    }
    match value {
        Value::Object(members) => enter_members(members, alloc, reading, at),
        _ => Ok(false),
    }
}

#[cycle(enter)]
fn enter_members<'a>(
    members: &'a Map<String, Value>,
    alloc: Global,
    reading: &mut Reading<'a>,
    at: usize,
) -> Result<bool, AllocError> {
    for (key, member) in members.iter() {
        if key.as_str() == "children" {
            return enter_list(member, alloc, reading, at);
        }
    }
    Ok(true)
}

#[cycle(enter)]
fn enter_list<'a>(
    member: &'a Value,
    alloc: Global,
    reading: &mut Reading<'a>,
    at: usize,
) -> Result<bool, AllocError> {
    match member {
        Value::Array(items) => enter_children(items, alloc, reading, at),
        _ => Ok(false),
    }
}

#[cycle(enter)]
fn enter_children<'a>(
    items: &'a Vec<Value>,
    alloc: Global,
    reading: &mut Reading<'a>,
    at: usize,
) -> Result<bool, AllocError> {
    for item in items {
        if !enter_node(item, alloc, reading, Some(at))? {
            return Ok(false);
        }
    }
    Ok(true)
}

fn is_extended(edge: &Value) -> bool {
    edge.get("sources").is_some() || edge.get("targets").is_some()
}

// The names of one kind of ends: of the list, of the node, and of the port.
type Names = (&'static str, &'static str, &'static str);

const SOURCES: Names = ("sources", "source", "sourcePort");

const TARGETS: Names = ("targets", "target", "targetPort");

fn plain_end<'a>(edge: &'a Value, names: Names, ids: &Ids<'a>) -> Option<End> {
    let (_, node, port) = names;
    match edge.get(port) {
        None | Some(Value::Null) => ids.end_named(edge.get(node)),
        named => {
            let end = ids.port_named(named)?;
            if ids.is_node_at(edge.get(node), end.node) {
                Some(end)
            } else {
                None
            }
        }
    }
}

// The ends of one kind; nothing if one of them names no element, or if there are none.
fn ends_in<'a>(
    alloc: Global,
    edge: &'a Value,
    names: Names,
    ids: &Ids<'a>,
) -> Result<Option<Vec<End>>, AllocError> {
    let mut ends = Vec::new(alloc);
    if !is_extended(edge) {
        return match plain_end(edge, names, ids) {
            Some(end) => {
                ends.push(end)?;
                Ok(Some(ends))
            }
            None => Ok(None),
        };
    }
    if let Some(Value::Array(list)) = edge.get(names.0) {
        for id in list {
            match ids.end_named(Some(id)) {
                Some(end) => ends.push(end)?,
                None => return Ok(None),
            }
        }
    }
    Ok(if ends.is_empty() { None } else { Some(ends) })
}

impl Reading<'_> {
    // Finds the ends of all edges. It answers whether all of them are there.
    fn join(&mut self, alloc: Global) -> Result<bool, AllocError> {
        for at in 0..self.edges.len() {
            if let (Some(value), Some(edge)) = (self.edges.get(at), self.draft.edges.get_mut(at)) {
                let sources = ends_in(alloc, *value, SOURCES, &self.ids)?;
                let targets = ends_in(alloc, *value, TARGETS, &self.ids)?;
                match (sources, targets) {
                    (Some(sources), Some(targets)) => {
                        edge.sources = sources;
                        edge.targets = targets;
                    }
                    _ => return Ok(false),
                }
            }
        }
        Ok(true)
    }

    // Ports that are called like nodes are sent under ids of their own.
    fn rename(&mut self) -> Result<(), AllocError> {
        for (at, port) in self.ports.iter().enumerate() {
            if self.ids.is_node(port.get("id")) {
                self.draft.renamed.insert(at)?;
            }
        }
        Ok(())
    }
}

/// Reads a graph; nothing where it lacks the form that stages rely on, so that the engine refuses it as it is.
pub fn read(alloc: Global, graph: &Value, how: &How) -> Result<Option<Draft>, AllocError> {
    let mut reading = Reading {
        draft: Draft::empty(alloc, how.table, how.general.copy(alloc)?),
        values: Vec::new(alloc),
        ports: Vec::new(alloc),
        edges: Vec::new(alloc),
        ids: Ids::new(alloc),
        whole: how.whole,
    };
    if !enter_node(graph, alloc, &mut reading, None)? || !reading.join(alloc)? {
        return Ok(None);
    }
    reading.rename()?;
    let mut draft = reading.draft;
    draft.given_nodes = draft.nodes.len();
    draft.given_ports = draft.ports.len();
    draft.given_edges = draft.edges.len();
    Ok(Some(draft))
}
