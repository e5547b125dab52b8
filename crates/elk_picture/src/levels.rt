//! Where each node stands, and at which level an edge lies. The coordinates of a document are relative to the parent.

use crate::element::{box_of, elements_of, place_of};
use crate::geometry::{Point, Rect};
use crate::ids::{End, Ids, listed_ids};
use crate::routes::{Section, sections_of};
use crate::style::{Style, style_of};
use serde_json::Value;
use serde_json::value::Map;
use std::alloc::{AllocError, Global};

// A node, with the number of its parent, and its place and its box in the whole drawing.
#[derive(Drop)]
pub(crate) struct Node<'a> {
    pub(crate) value: &'a Value,
    pub(crate) parent: Option<usize>,
    pub(crate) depth: usize,
    pub(crate) origin: Point,
    pub(crate) at: Rect,
    pub(crate) compound: bool,
    pub(crate) style: Style,
}

// An edge, the number of the node to whose content its points are relative, and those of the nodes at its ends.
#[derive(Drop)]
pub(crate) struct Edge<'a> {
    pub(crate) value: &'a Value,
    pub(crate) home: usize,
    pub(crate) source: Option<usize>,
    pub(crate) target: Option<usize>,
    pub(crate) sections: Vec<Section<'a>>,
    pub(crate) style: Style,
}

// The nodes and the edges of a document, each list in document order.
#[derive(Drop)]
pub(crate) struct Levels<'a> {
    pub(crate) nodes: Vec<Node<'a>>,
    pub(crate) edges: Vec<Edge<'a>>,
    pub(crate) ids: Ids<'a>,
}

// Where a node stands, before it is entered.
#[derive(Clone, Copy, Drop)]
struct Spot {
    parent: Option<usize>,
    depth: usize,
    origin: Point,
}

pub(crate) fn levels_of(alloc: Global, root: &Value) -> Result<Levels<'_>, AllocError> {
    let mut levels = Levels {
        nodes: Vec::new(alloc),
        edges: Vec::new(alloc),
        ids: Ids::new(alloc),
    };
    let spot = Spot {
        parent: None,
        depth: 0,
        origin: Point { x: 0.0, y: 0.0 },
    };
    enter_node(root, alloc, spot, &mut levels)?;
    settle_edges(&mut levels);
    Ok(levels)
}

#[cycle(enter)]
fn enter_node<'a>(
    value: &'a Value,
    alloc: Global,
    spot: Spot,
    levels: &mut Levels<'a>,
) -> Result<(), AllocError> {
    let at = levels.nodes.len();
    let inner = Spot {
        parent: Some(at),
        depth: spot.depth.saturating_add(1),
        origin: spot.origin,
    };
    enter_own(alloc, value, spot, at, levels)?;
    match value {
        Value::Object(members) => enter_members(members, alloc, inner, levels),
        _ => Ok(()),
    }
}

#[cycle(enter)]
fn enter_members<'a>(
    members: &'a Map<String, Value>,
    alloc: Global,
    spot: Spot,
    levels: &mut Levels<'a>,
) -> Result<(), AllocError> {
    for (key, member) in members.iter() {
        if key.as_str() == "children" {
            return enter_member(member, alloc, spot, levels);
        }
    }
    Ok(())
}

#[cycle(enter)]
fn enter_member<'a>(
    member: &'a Value,
    alloc: Global,
    spot: Spot,
    levels: &mut Levels<'a>,
) -> Result<(), AllocError> {
    match member {
        Value::Array(items) => enter_children(items, alloc, spot, levels),
        _ => Ok(()),
    }
}

#[cycle(enter)]
fn enter_children<'a>(
    items: &'a Vec<Value>,
    alloc: Global,
    spot: Spot,
    levels: &mut Levels<'a>,
) -> Result<(), AllocError> {
    for item in items {
        if item.is_object() {
            let within = Spot {
                parent: spot.parent,
                depth: spot.depth,
                origin: place_of(item).moved(spot.origin),
            };
            enter_node(item, alloc, within, levels)?;
        }
    }
    Ok(())
}

fn enter_own<'a>(
    alloc: Global,
    value: &'a Value,
    spot: Spot,
    at: usize,
    levels: &mut Levels<'a>,
) -> Result<(), AllocError> {
    levels.nodes.push(Node {
        value,
        parent: spot.parent,
        depth: spot.depth,
        origin: spot.origin,
        at: box_of(value, spot.origin),
        compound: !elements_of(alloc, value, "children")?.is_empty(),
        style: style_of(alloc, value)?,
    })?;
    levels.ids.name(alloc, value, at)?;
    for edge in elements_of(alloc, value, "edges")? {
        levels.edges.push(Edge {
            value: edge,
            home: at,
            source: None,
            target: None,
            sections: sections_of(alloc, edge)?,
            style: style_of(alloc, edge)?,
        })?;
    }
    Ok(())
}

// The ends of an edge and its home.
#[derive(Clone, Copy, Drop)]
struct Ends {
    home: usize,
    source: Option<usize>,
    target: Option<usize>,
}

fn ends_of(levels: &Levels<'_>, at: usize) -> Option<Ends> {
    let edge = levels.edges.get(at)?;
    let source = levels.ids.node_at(edge.value, End::Source);
    let target = levels.ids.node_at(edge.value, End::Target);
    Some(Ends {
        home: home_of(levels, edge, source, target),
        source,
        target,
    })
}

// Gives each edge its ends and its home. Until then its home is the node that declares it.
fn settle_edges(levels: &mut Levels<'_>) {
    for at in 0..levels.edges.len() {
        if let Some(ends) = ends_of(levels, at) {
            if let Some(edge) = levels.edges.get_mut(at) {
                edge.home = ends.home;
                edge.source = ends.source;
                edge.target = ends.target;
            }
        }
    }
}

fn home_of<'a>(
    levels: &Levels<'a>,
    edge: &Edge<'a>,
    source: Option<usize>,
    target: Option<usize>,
) -> usize {
    if let Some(container) = levels.ids.container(edge.value) {
        return container;
    }
    match (source, target) {
        (Some(source), Some(target)) => {
            let above = levels.parent_of(source);
            let beside = levels.parent_of(target);
            match levels.common_holder(above, beside) {
                Some(home) => holder_of_ends(levels, edge, home),
                None => edge.home,
            }
        }
        _ => edge.home,
    }
}

// The nearest node that holds all ends of an edge. Its first ends are held by a node that is told.
fn holder_of_ends<'a>(levels: &Levels<'a>, edge: &Edge<'a>, first: usize) -> usize {
    let mut home = first;
    for end in [End::Source, End::Target] {
        for id in listed_ids(edge.value, end) {
            if let Some(node) = levels.ids.node_of(Some(id)) {
                let above = levels.parent_of(node);
                home = levels.common_holder(Some(home), above).unwrap_or(home);
            }
        }
    }
    home
}

impl<'a> Levels<'a> {
    pub(crate) fn parent_of(&self, node: usize) -> Option<usize> {
        match self.nodes.get(node) {
            Some(node) => node.parent,
            None => None,
        }
    }

    fn depth_of(&self, node: usize) -> usize {
        match self.nodes.get(node) {
            Some(node) => node.depth,
            None => 0,
        }
    }

    // The nearest node that holds both, each counted among the nodes that it holds itself.
    fn common_holder(&self, one: Option<usize>, other: Option<usize>) -> Option<usize> {
        let mut one = one?;
        let mut other = other?;
        for _ in 0..self.nodes.len().saturating_mul(2) {
            if one == other {
                return Some(one);
            }
            if self.depth_of(one) < self.depth_of(other) {
                other = self.parent_of(other)?;
            } else {
                one = self.parent_of(one)?;
            }
        }
        None
    }

    // The place of a node in the whole drawing.
    pub(crate) fn origin_of(&self, node: usize) -> Point {
        match self.nodes.get(node) {
            Some(node) => node.origin,
            None => Point { x: 0.0, y: 0.0 },
        }
    }
}
