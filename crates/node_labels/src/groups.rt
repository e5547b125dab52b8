//! The labels of nodes by the spots at which they stand.

use graph_draft::{Draft, Element, Side, Size};
use label_room::{has_name, measure, stack_of};
use serde_json::Value;
use std::alloc::{AllocError, Global};

// The column and the row of a label, counted from the left and from the top, and the side beyond which it stands; none inside.
#[derive(Clone, Copy, Drop, PartialEq, Eq)]
pub(crate) struct Spot {
    pub(crate) column: usize,
    pub(crate) row: usize,
    pub(crate) side: Option<Side>,
}

const MIDDLE: usize = 1;

// The labels of a node at one spot.
#[derive(Drop)]
pub(crate) struct Group {
    pub(crate) spot: Spot,
    pub(crate) labels: Vec<usize>,
    pub(crate) gap: f64,
    pub(crate) size: Size,
}

/// The labels of each node that are placed.
#[derive(Drop)]
pub struct NodeLabels {
    nodes: Vec<Vec<Group>>,
}

impl NodeLabels {
    pub(crate) fn of(&self, node: usize) -> &[Group] {
        match self.nodes.get(node) {
            Some(groups) => groups.as_slice(),
            None => &[],
        }
    }
}

/// What tells where a label of a node stands: its own placement, or that of its node.
pub fn placement_of(draft: &Draft, node: usize, label: usize) -> Option<&Value> {
    match draft.option(Element::Label(label), "nodeLabels.placement") {
        None | Some(Value::Null) => draft.option(Element::Node(node), "nodeLabels.placement"),
        placement => placement,
    }
}

fn first_named(value: Option<&Value>, names: [&str; 3]) -> Option<usize> {
    names.iter().position(|name| has_name(value, *name))
}

fn side_beyond(column: usize, row: usize, has_priority: bool) -> Side {
    let is_beside = row == MIDDLE || has_priority && column != MIDDLE;
    match (is_beside, column, row) {
        (true, 0, _) => Side::West,
        (true, _, _) => Side::East,
        (false, _, 0) => Side::North,
        (false, _, _) => Side::South,
    }
}

// Where a label of a node stands; none where it isn't placed.
fn spot_of(draft: &Draft, node: usize, label: usize) -> Option<Spot> {
    let names = placement_of(draft, node, label);
    let column = first_named(names, ["H_LEFT", "H_CENTER", "H_RIGHT"])?;
    let row = first_named(names, ["V_TOP", "V_CENTER", "V_BOTTOM"])?;
    let inside = Spot {
        column,
        row,
        side: None,
    };
    if has_name(names, "INSIDE") {
        return Some(inside);
    }
    if !has_name(names, "OUTSIDE") || row == MIDDLE && column == MIDDLE {
        return None;
    }
    let side = side_beyond(column, row, has_name(names, "H_PRIORITY"));
    Some(Spot {
        side: Some(side),
        ..inside
    })
}

/// Whether a label of a node is placed beyond one of its sides.
pub fn is_outside(draft: &Draft, node: usize, label: usize) -> bool {
    match spot_of(draft, node, label) {
        Some(spot) => spot.side.is_some(),
        None => false,
    }
}

// There are no more groups than spots.
fn add_label(
    alloc: Global,
    groups: &mut Vec<Group>,
    spot: Spot,
    label: usize,
) -> Result<(), AllocError> {
    for group in groups.iter_mut() {
        if group.spot == spot {
            group.labels.push(label)?;
            return Ok(());
        }
    }
    groups.push(Group {
        spot,
        labels: vec![in alloc; label]?,
        gap: 0.0,
        size: Size::NONE,
    })?;
    Ok(())
}

fn groups_of(alloc: Global, draft: &mut Draft, node: usize) -> Result<Vec<Group>, AllocError> {
    let mut groups = Vec::new(alloc);
    for label in Vec::from_slice(alloc, draft.labels_of(Element::Node(node)))? {
        if let Some(spot) = spot_of(draft, node, label) {
            if measure(draft, label) {
                add_label(alloc, &mut groups, spot, label)?;
            }
        }
    }
    let level = Element::Node(draft.level_around(node));
    for group in groups.iter_mut() {
        group.gap = draft.number(level, "spacing.labelLabel", 0.0);
        group.size = stack_of(draft, group.labels.as_slice(), group.gap);
    }
    Ok(groups)
}

/// The labels of each node that are placed, those of one spot together. Those without a size get that of their text.
pub fn node_labels_of(alloc: Global, draft: &mut Draft) -> Result<NodeLabels, AllocError> {
    let mut nodes = Vec::new(alloc);
    for node in 0..draft.given_nodes {
        nodes.push(groups_of(alloc, draft, node)?)?;
    }
    Ok(NodeLabels { nodes })
}
