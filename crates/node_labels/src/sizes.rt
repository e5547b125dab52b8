//! The sizes of nodes that grow with what stands in them: `nodeSize.constraints` of leaves, and the padding of levels.

use crate::at_ports::PortLabels;
use crate::cells::has_inside;
use crate::frames::{Frame, frame_of};
use crate::groups::{Group, NodeLabels};
use crate::leasts::{Standing, Within, label_padding, least_of};
use graph_draft::{Draft, Element, Point, Side, Size, rounded_up};
use label_room::{Dock, Padding, Sides, Strips, padding_in};
use serde_json::Value;
use std::alloc::{AllocError, Global};
use std::collections::BTreeMap;

/// What nodes lack of their least sizes, by their numbers.
pub type Lacks = BTreeMap<usize, Size>;

/// What nodes ask for.
#[derive(Drop)]
pub struct SizedNodes {
    /// The least sizes that levels ask for, by their nodes' numbers.
    pub leasts: BTreeMap<usize, Size>,
    // The room at the borders of each node that others take.
    pub(crate) frames: Vec<Frame>,
}

fn move_ports(draft: &mut Draft, docks: &[Dock], x: f64, y: f64) {
    for dock in docks {
        if let Dock::Port(port) = dock {
            let place = draft.place_of(Element::Port(*port));
            draft.put(Element::Port(*port), place.moved(Point { x, y }));
        }
    }
}

// A leaf grows to its least size; the given one is the least of all. Pinned ports at its far sides move along.
fn grow_leaf(draft: &mut Draft, node: usize, least: Size, sides: &Sides) {
    let given = draft.size_of(Element::Node(node));
    // The engine is to see a negative size and to refuse it.
    if given.width < 0.0 || given.height < 0.0 {
        return;
    }
    let grown = Size {
        width: given.width.max(least.width),
        height: given.height.max(least.height),
    };
    let (wider, higher) = (grown.width - given.width, grown.height - given.height);
    if wider == 0.0 && higher == 0.0 {
        return;
    }
    if draft.is_pinned(node) {
        move_ports(draft, sides.at(node, Side::East), wider, 0.0);
        move_ports(draft, sides.at(node, Side::South), 0.0, higher);
    }
    draft.resize(Element::Node(node), grown);
}

/// The padding that a level asks for.
pub fn padding_of(draft: &Draft, node: usize) -> Padding {
    padding_in(draft.option(Element::Node(node), "padding"), 12.0)
}

// The padding with room for the labels inside of a level.
fn with_labels(mut padding: Padding, groups: &[Group], pad: Padding) -> Padding {
    let mut room = Padding {
        top: 0.0,
        left: 0.0,
        bottom: 0.0,
        right: 0.0,
    };
    for group in groups {
        let size = group.size;
        match (group.spot.side, group.spot.row, group.spot.column) {
            (Some(_), _, _) | (None, 1, 1) => {}
            (None, 0, _) => room.top = room.top.max(size.height + pad.top),
            (None, 1, 0) => room.left = room.left.max(size.width + pad.left),
            (None, 1, _) => room.right = room.right.max(size.width + pad.right),
            (None, _, _) => room.bottom = room.bottom.max(size.height + pad.bottom),
        }
    }
    padding.top += room.top;
    padding.left += room.left;
    padding.bottom += room.bottom;
    padding.right += room.right;
    padding
}

// A level has padding for its labels inside, and more of it at the far sides where it was too small without.
fn pad_level(
    alloc: Global,
    draft: &mut Draft,
    within: Within<'_>,
    lack: Size,
) -> Result<(), AllocError> {
    let frame = within.frame;
    let padding = with_labels(padding_of(draft, within.node), within.groups, within.pad);
    let top = rounded_up(padding.top + frame.north);
    let left = rounded_up(padding.left + frame.west);
    let bottom = rounded_up(padding.bottom + frame.south + lack.height);
    let right = rounded_up(padding.right + frame.east + lack.width);
    let text = format!(in alloc; "[top={top},left={left},bottom={bottom},right={right}]")?;
    draft.ask(Element::Node(within.node), "padding", Value::String(text))
}

// A level is at least as long as the labels beyond its sides.
fn lengthen(least: &mut Size, groups: &[Group]) {
    for group in groups {
        match group.spot.side {
            Some(side) if side.is_upright() => least.height = least.height.max(group.size.height),
            Some(_) => least.width = least.width.max(group.size.width),
            None => {}
        }
    }
}

fn size_level(
    alloc: Global,
    draft: &mut Draft,
    sized: &mut SizedNodes,
    within: Within<'_>,
    mut least: Size,
    lack: Option<Size>,
) -> Result<(), AllocError> {
    lengthen(&mut least, within.groups);
    if least.width > 0.0 || least.height > 0.0 {
        sized.leasts.insert(within.node, least)?;
    }
    if has_inside(within.groups) || lack.is_some() || !within.frame.is_none() {
        pad_level(alloc, draft, within, lack.unwrap_or(Size::NONE))?;
    }
    Ok(())
}

/// Gives nodes the sizes that they ask for. `lacks` tells what they lacked when they were laid out before.
pub fn size_nodes(
    alloc: Global,
    draft: &mut Draft,
    strips: &Strips,
    sides: &Sides,
    labels: (&PortLabels, &NodeLabels),
    lacks: &Lacks,
) -> Result<SizedNodes, AllocError> {
    let (port_labels, node_labels) = labels;
    let standing = Standing {
        sides,
        strips,
        port_labels,
    };
    let mut sized = SizedNodes {
        leasts: BTreeMap::new(alloc),
        frames: Vec::new(alloc),
    };
    for node in 0..draft.given_nodes {
        let within = Within {
            node,
            groups: node_labels.of(node),
            frame: frame_of(draft, node, sides, port_labels),
            pad: label_padding(draft, node),
        };
        let least = least_of(alloc, draft, standing, within)?;
        sized.frames.push(within.frame)?;
        if draft.is_level(node) {
            let lack = lacks.get(&node).copied();
            size_level(alloc, draft, &mut sized, within, least, lack)?;
        } else {
            grow_leaf(draft, node, least, sides);
        }
    }
    Ok(sized)
}

/// What levels lack of their least sizes in the engine's answer; nothing where all are large enough.
pub fn lacks_of(
    alloc: Global,
    draft: &Draft,
    leasts: &BTreeMap<usize, Size>,
) -> Result<Lacks, AllocError> {
    let mut lacks = BTreeMap::new(alloc);
    for (node, least) in leasts.iter() {
        let size = draft.size_of(Element::Node(*node));
        if size.width < least.width || size.height < least.height {
            let lack = Size {
                width: (least.width - size.width).max(0.0),
                height: (least.height - size.height).max(0.0),
            };
            lacks.insert(*node, lack)?;
        }
    }
    Ok(lacks)
}
