//! A drawing of open levels, written into the draft.

use crate::drawings::{Drawings, ORIGIN, Placement, ROOT};
use crate::edges::write_edges;
use crate::nodes::{write_children, write_layering};
use crate::titles::titles_of;
use border_graphs::{Pins, pinned_places, spots_of};
use border_levels::{Model, PortStack, port_stack_of};
use graph_draft::{Draft, Element, Point, Side, Size};
use label_room::{Align, Stack, place_stack};
use node_labels::beside_port;
use std::alloc::{AllocError, Global};
use std::collections::BTreeMap;

// Ports of the root stand where edges cross its border, or between.
fn place_root_ports(
    alloc: Global,
    model: &mut Model,
    size: Size,
    pins: &BTreeMap<usize, f64>,
) -> Result<(), AllocError> {
    let mut spots = Vec::new(alloc);
    for spot in spots_of(alloc, model, ROOT, ROOT, &[])? {
        if spot.port.is_some() {
            spots.push(spot)?;
        }
    }
    let wishes = BTreeMap::new(alloc);
    let known = Pins {
        pins,
        wishes: &wishes,
    };
    let places = pinned_places(alloc, model, ROOT, size, spots.as_slice(), known)?;
    for (spot, place) in spots.iter().zip(places.iter()) {
        if let Some(port) = spot.port {
            model.draft.put(Element::Port(port), *place);
        }
    }
    Ok(())
}

fn write_root(
    alloc: Global,
    model: &mut Model,
    drawings: &Drawings,
    pins: &BTreeMap<usize, f64>,
) -> Result<(), AllocError> {
    let size = match drawings.placement_of(ROOT) {
        Some(placement) => placement.size,
        None => Size::NONE,
    };
    model.draft.put(Element::Node(ROOT), ORIGIN);
    model.draft.resize(Element::Node(ROOT), size);
    place_root_ports(alloc, model, size, pins)
}

// Writes the labels of a level's node that stand within it.
fn write_titles(
    alloc: Global,
    draft: &mut Draft,
    level: usize,
    placement: &Placement,
) -> Result<(), AllocError> {
    let labels = titles_of(alloc, draft, level)?;
    for (label, title) in labels.iter().zip(placement.titles.iter()) {
        if let Some(place) = title.place {
            draft.put(Element::Label(*label), place);
            draft.resize(Element::Label(*label), title.size);
        }
    }
    Ok(())
}

fn write_level(
    alloc: Global,
    model: &mut Model,
    drawings: &Drawings,
    level: usize,
) -> Result<(), AllocError> {
    if let (Some(drawing), Some(placement)) = (
        drawings.drawing_of(level),
        drawings.placement_of(level),
    ) {
        write_titles(alloc, &mut model.draft, level, placement)?;
        if placement.is_plain {
            write_layering(model, level, &drawing.level.draft, ROOT)?;
        } else {
            model.draft.alter(level);
        }
        write_children(alloc, model, drawing, placement.shift)?;
    }
    Ok(())
}

// Where labels of a port of a node with an open level stand: beside the line that arrives there, within the node or outside.
fn stack_beside(draft: &Draft, node: usize, port: usize, side: Side, stack: &PortStack) -> Stack {
    let beside = beside_port(draft, node, side);
    let port = draft.size_of(Element::Port(port));
    let along = side.middle(port) + beside.aside;
    let Size { width, height } = stack.size;
    let (x, y, align) = match (side, stack.is_inside) {
        (Side::North, true) | (Side::South, false) => {
            (along, port.height + beside.out, Align::Left)
        }
        (Side::East, true) | (Side::West, false) => (-beside.out - width, along, Align::Right),
        (Side::South, true) | (Side::North, false) => (along, -beside.out - height, Align::Left),
        (Side::West, true) | (Side::East, false) => (port.width + beside.out, along, Align::Left),
    };
    Stack {
        place: Point { x, y },
        width,
        gap: stack.gap,
        align,
    }
}

// Places the labels of the ports of a node with an open level that stand within it, or else those outside.
fn place_port_labels(
    alloc: Global,
    model: &mut Model,
    node: usize,
    inside: bool,
) -> Result<(), AllocError> {
    for port in Vec::from_slice(alloc, model.draft.ports_of(node))? {
        let side = model.port(port).side;
        if let Some(stack) = port_stack_of(alloc, &model.draft, port)? {
            if stack.is_inside == inside {
                let place = stack_beside(&model.draft, node, port, side, &stack);
                place_stack(&mut model.draft, stack.labels.as_slice(), place);
            }
        }
    }
    Ok(())
}

/// Writes a drawing into the draft of its model. `pins` tells where each crossing of the root's border lies along its side.
pub(crate) fn write_drawing(
    alloc: Global,
    model: &mut Model,
    drawings: &Drawings,
    pins: &BTreeMap<usize, f64>,
) -> Result<(), AllocError> {
    write_root(alloc, model, drawings, pins)?;
    // Which levels have a certificate is written with these, after the edges.
    write_edges(alloc, model, drawings)?;
    let levels = Vec::from_slice(alloc, model.levels.as_slice())?;
    for level in levels.iter() {
        write_level(alloc, model, drawings, *level)?;
    }
    for level in levels.iter() {
        place_port_labels(alloc, model, *level, true)?;
    }
    // No level around the root places those outside.
    place_port_labels(alloc, model, ROOT, false)
}
