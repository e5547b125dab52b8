//! Documents of a graph in which the engine's rules can be looked for, with and without stages. They have what the engine reads: options
//! stand under the engine's names, and numbers are made whole if the call asks for it. Whatever else is wrong with the graph is wrong
//! with them.

use crate::lengths::read_whole;
use crate::pipeline::OneLevel;
use crate::renaming::rename_options;
use crate::stages::lower;
use edge_stages::{keep_places, move_insets, share_options};
use graph_draft::{
    Draft, How, Point, Size, document_of, number_value, owners_of, whole_port, whole_size,
};
use option_names::{Role, number_in};
use route_curves::ask_for_curves;
use serde_json::value::Map;
use serde_json::{Value, put};
use std::alloc::{AllocError, Global};
use std::collections::BTreeMap;
use std::mem;

type Members = Map<String, Value>;

// The members that the engine reads. A fraction in another one, as in a label, is no fault.
const OF_NODES: [&str; 7] = [
    "id",
    "width",
    "height",
    "layoutOptions",
    "ports",
    "edges",
    "children",
];

const OF_PORTS: [&str; 6] = ["id", "width", "height", "x", "y", "layoutOptions"];

const OF_EDGES: [&str; 8] = [
    "id",
    "sources",
    "targets",
    "source",
    "target",
    "sourcePort",
    "targetPort",
    "layoutOptions",
];

// Leaves an element the members that have these names.
fn keep(members: &mut Members, alloc: Global, names: &[&'static str]) -> Result<(), AllocError> {
    let mut kept = Map::new(alloc);
    for name in names {
        if let Some(value) = members.remove(*name) {
            put(&mut kept, alloc, *name, value)?;
        }
    }
    *members = kept;
    Ok(())
}

fn number_at(members: &Members, key: &str) -> Option<f64> {
    match members.get(key) {
        Some(value) if matches!(value, Value::Number(_)) => number_in(value),
        _ => None,
    }
}

fn size_in(members: &Members) -> Size {
    Size {
        width: number_at(members, "width").unwrap_or(0.0),
        height: number_at(members, "height").unwrap_or(0.0),
    }
}

// Writes a number where one stands.
fn replace(members: &mut Members, alloc: Global, key: &str, number: f64) -> Result<(), AllocError> {
    if number_at(members, key).is_some() {
        put(members, alloc, key, number_value(number))?;
    }
    Ok(())
}

fn round_size(members: &mut Members, alloc: Global) -> Result<(), AllocError> {
    let whole = whole_size(size_in(members));
    replace(members, alloc, "width", whole.width)?;
    replace(members, alloc, "height", whole.height)
}

// Rounds a port of a node, whose size is given as it was measured.
fn round_port(members: &mut Members, alloc: Global, node: Size) -> Result<(), AllocError> {
    let place = Point {
        x: number_at(members, "x").unwrap_or(0.0),
        y: number_at(members, "y").unwrap_or(0.0),
    };
    let whole = whole_port(place, size_in(members), node);
    round_size(members, alloc)?;
    replace(members, alloc, "x", whole.x)?;
    replace(members, alloc, "y", whole.y)
}

fn rewrite_ports(
    members: &mut Members,
    alloc: Global,
    how: &How,
    node: Size,
) -> Result<(), AllocError> {
    if let Some(Value::Array(items)) = members.get_mut("ports") {
        for item in items.iter_mut() {
            if let Value::Object(port) = item {
                if how.whole {
                    round_port(port, alloc, node)?;
                }
                rename_options(port, alloc, how, Role::Port, 0)?;
                keep(port, alloc, &OF_PORTS)?;
            }
        }
    }
    Ok(())
}

fn rewrite_edges(members: &mut Members, alloc: Global, how: &How) -> Result<(), AllocError> {
    if let Some(Value::Array(items)) = members.get_mut("edges") {
        for item in items.iter_mut() {
            if let Value::Object(edge) = item {
                rename_options(edge, alloc, how, Role::Edge, 0)?;
                keep(edge, alloc, &OF_EDGES)?;
            }
        }
    }
    Ok(())
}

// Rewrites a node, of which so many children were taken out.
fn rewrite_node(
    members: &mut Members,
    alloc: Global,
    how: &How,
    role: Role,
    children: usize,
) -> Result<(), AllocError> {
    let size = size_in(members);
    rewrite_ports(members, alloc, how, size)?;
    rewrite_edges(members, alloc, how)?;
    if how.whole {
        round_size(members, alloc)?;
    }
    rename_options(members, alloc, how, role, children)?;
    keep(members, alloc, &OF_NODES)
}

fn children_in(node: &mut Value) -> Option<&mut Vec<Value>> {
    match node {
        Value::Object(members) => match members.get_mut("children") {
            Some(Value::Array(items)) => Some(items),
            _ => None,
        },
        _ => None,
    }
}

// Nodes with their children taken out: behind each node stand its children, from a number on.
#[derive(Drop)]
struct Spread {
    nodes: Vec<Value>,
    firsts: Vec<usize>,
}

impl Spread {
    // How many children a node has.
    fn children_at(&self, at: usize) -> usize {
        let count = self.nodes.len();
        let first = self.firsts.get(at).copied().unwrap_or(count);
        let next = self.firsts.get(at.saturating_add(1)).copied();
        next.unwrap_or(count).saturating_sub(first)
    }
}

fn taken_apart(alloc: Global, graph: Value) -> Result<Spread, AllocError> {
    let mut nodes = vec![in alloc; graph]?;
    let mut firsts = Vec::new(alloc);
    for at in 0..usize::MAX {
        let taken = match nodes.get_mut(at) {
            Some(node) => match children_in(node) {
                Some(items) => mem::replace(items, Vec::new(alloc)),
                None => Vec::new(alloc),
            },
            None => break,
        };
        firsts.push(nodes.len())?;
        for child in taken {
            nodes.push(child)?;
        }
    }
    Ok(Spread { nodes, firsts })
}

fn put_together(alloc: Global, spread: Spread) -> Result<Value, AllocError> {
    let Spread { mut nodes, firsts } = spread;
    for (at, first) in firsts.iter().enumerate().rev() {
        let mut children = Vec::new(alloc);
        for _ in *first..nodes.len() {
            if let Some(child) = nodes.pop() {
                children.push(child)?;
            }
        }
        children.reverse();
        if let Some(node) = nodes.get_mut(at) {
            if let Some(items) = children_in(node) {
                *items = children;
            }
        }
    }
    Ok(nodes.pop().unwrap_or(Value::Null))
}

// The document of a graph that lacks the form that stages rely on.
fn rewritten(alloc: Global, graph: &Value, how: &How) -> Result<Value, AllocError> {
    let mut spread = taken_apart(alloc, graph.clone()?)?;
    let count = spread.nodes.len();
    for at in 0..count {
        let children = spread.children_at(at);
        let role = if at == 0 || children > 0 {
            Role::Level
        } else {
            Role::Node
        };
        if let Some(Value::Object(members)) = spread.nodes.get_mut(at) {
            rewrite_node(members, alloc, how, role, children)?;
        }
    }
    put_together(alloc, spread)
}

/// A document of a graph.
#[derive(Drop)]
pub struct Sent {
    pub document: Value,
    /// For each id that stands in the document alone, the id of the graph's element for which it stands.
    pub owners: BTreeMap<String, Value>,
}

impl Sent {
    fn of(alloc: Global, draft: &Draft) -> Result<Sent, AllocError> {
        Ok(Sent {
            document: document_of(alloc, draft)?,
            owners: owners_of(alloc, draft)?,
        })
    }

    fn as_it_is(alloc: Global, graph: &Value, how: &How) -> Result<Sent, AllocError> {
        Ok(Sent {
            document: rewritten(alloc, graph, how)?,
            owners: BTreeMap::new(alloc),
        })
    }
}

/// The document of a graph without most stages. Options that stages obey are as they are sent, and pinned ports a little inside their
/// nodes stand at the borders.
pub fn bare_document(alloc: Global, graph: &Value, how: &How) -> Result<Sent, AllocError> {
    match read_whole(alloc, graph, how)? {
        Some(mut draft) => {
            share_options(alloc, &mut draft)?;
            keep_places(alloc, &mut draft)?;
            let _ = ask_for_curves(alloc, &mut draft)?;
            let _ = move_insets(alloc, &mut draft)?;
            Sent::of(alloc, &draft)
        }
        None => Sent::as_it_is(alloc, graph, how),
    }
}

/// The document of a graph with all that stages make, as the engine is sent it first: edges of several ends are edges for each pair,
/// and labels have the room that they take.
pub fn lowered_document(alloc: Global, graph: &Value, how: &How) -> Result<Sent, AllocError> {
    match read_whole(alloc, graph, how)? {
        Some(mut draft) => {
            let one = OneLevel::none(alloc);
            let _ = lower(alloc, &mut draft, &BTreeMap::new(alloc), &one)?;
            Sent::of(alloc, &draft)
        }
        None => Sent::as_it_is(alloc, graph, how),
    }
}
