//! Children of a level as they are sent.

use crate::edges::closed_edges;
use crate::known::{Known, Mode};
use crate::members::{
    Members, add_label, ask, ask_word, labels_in, options_in, put_list, put_options, put_size,
};
use crate::pins::{Pins, pinned_places};
use crate::ports::{PortKey, SentPort, port_value};
use crate::spots::{PinnedSpot, spots_of};
use border_levels::{Model, PortRule};
use graph_draft::{Draft, Element, Point, Size};
use node_labels::is_outside;
use serde_json::value::Map;
use serde_json::{Value, put};
use std::alloc::{AllocError, Global};
use std::collections::BTreeMap;

// A level that is laid out, with all that is known.
#[derive(Clone, Copy, Drop)]
pub(crate) struct Task<'a> {
    pub(crate) model: &'a Model,
    pub(crate) known: &'a Known,
    pub(crate) level: usize,
    pub(crate) mode: Mode,
}

// A node as it is sent, its ports apart from its other members.
#[derive(Drop)]
pub(crate) struct SentNode {
    pub(crate) members: Members,
    pub(crate) ports: Vec<SentPort>,
    // Whether the engine may order the ports at a side.
    pub(crate) is_free: bool,
}

impl SentNode {
    pub(crate) fn value(self, alloc: Global, draft: &Draft) -> Result<Value, AllocError> {
        let SentNode {
            mut members,
            ports,
            ..
        } = self;
        let mut values = Vec::new(alloc);
        for port in ports.iter() {
            values.push(port_value(alloc, draft, *port)?)?;
        }
        put_list(&mut members, alloc, "ports", values)?;
        Ok(Value::Object(members))
    }
}

// The options of a node that count for the leaf that stands for it.
const OF_LEAVES: [&str; 6] = [
    "layered.position",
    "layered.layering.layerConstraint",
    "partitioning.partition",
    "portConstraints",
    "nodeLabels.placement",
    "portLabels.placement",
];

pub(crate) fn node_id(alloc: Global, node: usize) -> Result<Value, AllocError> {
    Ok(Value::String(format!(in alloc; "n{node}")?))
}

// The labels of a node that stand outside of it, or those that don't.
pub(crate) fn labels_at(
    alloc: Global,
    draft: &Draft,
    node: usize,
    outside: bool,
) -> Result<Vec<Value>, AllocError> {
    let mut labels = Vec::new(alloc);
    for label in draft.labels_of(Element::Node(node)) {
        if is_outside(draft, node, *label) == outside {
            add_label(&mut labels, alloc, draft, *label, None)?;
        }
    }
    Ok(labels)
}

// Whether the engine may order the ports at the sides of a node.
fn has_free_ports(draft: &Draft, node: usize) -> bool {
    !(draft.has_rule(node, "FIXED_ORDER") || draft.has_rule(node, "FIXED_POS"))
}

// The node behind the last one within a node. Nodes stand in document order.
fn end_of(draft: &Draft, node: usize) -> usize {
    let mut end = node.saturating_add(1);
    for at in end..draft.nodes.len() {
        match draft.parent_of(at) {
            Some(parent) if parent >= node => end = at.saturating_add(1),
            _ => break,
        }
    }
    end
}

fn children_in(
    alloc: Global,
    draft: &Draft,
    node: usize,
    within: &mut BTreeMap<usize, Value>,
) -> Result<Vec<Value>, AllocError> {
    let mut children = Vec::new(alloc);
    for child in draft.children_of(node) {
        if let Some(value) = within.remove(child) {
            children.push(value)?;
        }
    }
    Ok(children)
}

// A node as it is, with all edges of its level. `within` has the nodes within it.
fn as_it_is(
    alloc: Global,
    model: &Model,
    node: usize,
    within: &mut BTreeMap<usize, Value>,
) -> Result<SentNode, AllocError> {
    let draft = &model.draft;
    let element = Element::Node(node);
    let mut members = Map::new(alloc);
    put(&mut members, alloc, "id", node_id(alloc, node)?)?;
    put_size(&mut members, alloc, draft.size_of(element))?;
    if let Some(found) = draft.nodes.get(node) {
        put_options(&mut members, alloc, options_in(alloc, &found.options)?)?;
    }
    let labels = labels_in(alloc, draft, draft.labels_of(element))?;
    put_list(&mut members, alloc, "labels", labels)?;
    let children = children_in(alloc, draft, node, within)?;
    if !children.is_empty() {
        put_list(&mut members, alloc, "children", children)?;
        put_list(
            &mut members,
            alloc,
            "edges",
            closed_edges(alloc, model, node)?,
        )?;
    }
    let mut ports = Vec::new(alloc);
    for port in draft.ports_of(node) {
        ports.push(SentPort::declared(*port, true))?;
    }
    let is_free = has_free_ports(draft, node);
    Ok(SentNode {
        members,
        ports,
        is_free,
    })
}

// A child within which no edge crosses a border goes to the engine as it is, with all that it holds.
fn closed_child(alloc: Global, model: &Model, child: usize) -> Result<SentNode, AllocError> {
    let draft = &model.draft;
    let mut within = BTreeMap::new(alloc);
    // Each node stands behind its parent, so its value is made before that of the parent.
    for node in (child.saturating_add(1)..end_of(draft, child)).rev() {
        let value = as_it_is(alloc, model, node, &mut within)?.value(alloc, draft)?;
        within.insert(node, value)?;
    }
    as_it_is(alloc, model, child, &mut within)
}

// Whether all that stands at a node with an open level has a place of its own.
pub(crate) fn has_spots(model: &Model, node: usize) -> bool {
    let has_borders = !model.crossings_of(node).is_empty();
    model.is_open(node) && (has_borders || model.rule_of(node) == PortRule::FixedPos)
}

// Labels of ports that stand within their node are those of the node's own level.
fn is_labelled_outside(model: &Model, port: usize) -> bool {
    !model.port(port).is_labelled_inside
}

// The places of what stands at a child.
fn places_of(
    alloc: Global,
    task: Task<'_>,
    child: usize,
    size: Size,
    spots: &[PinnedSpot],
) -> Result<Vec<Point>, AllocError> {
    let (no_pins, no_wishes) = (BTreeMap::new(alloc), BTreeMap::new(alloc));
    let pins = match task.known.placed.get(&child) {
        Some(stand) => &stand.pins,
        None => &no_pins,
    };
    let wishes = match task.known.wishes.get(&child) {
        Some(wishes) => wishes,
        None => &no_wishes,
    };
    pinned_places(alloc, task.model, child, size, spots, Pins { pins, wishes })
}

// The ports for what stands at a child, with their places unless they may take any order.
fn spot_ports(
    alloc: Global,
    task: Task<'_>,
    child: usize,
    size: Size,
) -> Result<Vec<SentPort>, AllocError> {
    let model = task.model;
    let pieces = model.pieces_of(task.level);
    let spots = spots_of(alloc, model, child, task.level, pieces)?;
    let places = if task.mode.is_free_at(child) {
        Vec::new(alloc)
    } else {
        places_of(alloc, task, child, size, spots.as_slice())?
    };
    let mut ports = Vec::new(alloc);
    for (at, spot) in spots.iter().enumerate() {
        let is_labelled = match spot.port {
            Some(port) => is_labelled_outside(model, port),
            None => false,
        };
        ports.push(SentPort {
            key: PortKey::Spot(spot.key),
            side: Some(spot.side),
            index: None,
            place: places.get(at).copied(),
            is_labelled,
            spot: Some(*spot),
        })?;
    }
    Ok(ports)
}

fn leaf_options(alloc: Global, draft: &Draft, child: usize) -> Result<Members, AllocError> {
    let mut options = Map::new(alloc);
    for name in OF_LEAVES {
        if let Some(value) = draft.option(Element::Node(child), name) {
            ask(&mut options, alloc, name, value.clone()?)?;
        }
    }
    Ok(options)
}

// The leaf that stands for a child with an open level. Labels that stand within it are those of its own level.
fn leaf_for(alloc: Global, task: Task<'_>, child: usize) -> Result<SentNode, AllocError> {
    let draft = &task.model.draft;
    let size = match task.known.placed.get(&child) {
        Some(stand) => stand.size,
        None => Size::NONE,
    };
    let mut options = leaf_options(alloc, draft, child)?;
    let mut ports = Vec::new(alloc);
    let mut is_free = has_free_ports(draft, child);
    if has_spots(task.model, child) {
        ports = spot_ports(alloc, task, child, size)?;
        is_free = task.mode.is_free_at(child);
        let rule = if is_free { "FIXED_SIDE" } else { "FIXED_POS" };
        ask_word(&mut options, alloc, "portConstraints", rule)?;
    } else {
        for port in draft.ports_of(child) {
            let is_labelled = is_labelled_outside(task.model, *port);
            ports.push(SentPort::declared(*port, is_labelled))?;
        }
    }
    let mut members = Map::new(alloc);
    put(&mut members, alloc, "id", node_id(alloc, child)?)?;
    put_size(&mut members, alloc, size)?;
    put_options(&mut members, alloc, options)?;
    let labels = labels_at(alloc, draft, child, true)?;
    put_list(&mut members, alloc, "labels", labels)?;
    Ok(SentNode {
        members,
        ports,
        is_free,
    })
}

/// The children of a level as they are sent.
pub(crate) fn sent_children(alloc: Global, task: Task<'_>) -> Result<Vec<SentNode>, AllocError> {
    let mut nodes = Vec::new(alloc);
    for child in task.model.draft.children_of(task.level) {
        let node = if task.model.is_open(*child) {
            leaf_for(alloc, task, *child)?
        } else {
            closed_child(alloc, task.model, *child)?
        };
        nodes.push(node)?;
    }
    Ok(nodes)
}
