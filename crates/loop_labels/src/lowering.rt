//! Room for the labels of loops, before the engine's answer.

use crate::columns::{Column, LoopLabel, LoopLabels};
use crate::lying::{Loops, side_of_loop};
use graph_draft::{Draft, Element, Joined, Side, joined_edges};
use label_room::{
    Beside, Block, Dock, Owner, Strips, beside_edge, borders, measured_labels, spots_at, stack_of,
};
use std::alloc::{AllocError, Global};
use std::num::nearest_usize_to_f64;

// The self-loops with labels that are placed, each with these.
fn labelled_loops(
    alloc: Global,
    draft: &mut Draft,
) -> Result<Vec<(Joined, Vec<usize>)>, AllocError> {
    let mut labelled = Vec::new(alloc);
    for found in joined_edges(alloc, draft)? {
        if found.is_loop() {
            let labels = measured_labels(alloc, draft, Element::Edge(found.edge))?;
            if !labels.is_empty() {
                labelled.push((found, labels))?;
            }
        }
    }
    Ok(labelled)
}

// How far the ports of a side reach with what stands beside their lines.
fn reach_at(draft: &Draft, strips: &Strips, docks: &[Dock], side: Side) -> f64 {
    let mut reach: f64 = 0.0;
    for dock in docks {
        if let Some(port) = dock.port() {
            reach = reach.max(strips.end_of(draft, port, side));
        }
    }
    reach
}

// The most lanes that loops of a side take: those at the node itself stand beside one another.
fn most_lanes(loops: &[Joined]) -> usize {
    let mut lanes: usize = 0;
    let mut is_at_node = false;
    for found in loops {
        if found.source.port.is_some() || found.target.port.is_some() {
            lanes = lanes.saturating_add(1);
        } else {
            is_at_node = true;
        }
    }
    if is_at_node {
        lanes.saturating_add(1)
    } else {
        lanes
    }
}

// The side at which a loop lies, with all loops there and without labels yet.
fn column_of(
    alloc: Global,
    draft: &Draft,
    strips: &Strips,
    loops: &Loops,
    found: &Joined,
    side: Side,
) -> Result<Column, AllocError> {
    let (node, level) = (found.source.node, Element::Node(found.level));
    let Beside { gap, out, .. } = beside_edge(draft, found.level);
    let here = loops.at(alloc, node, side)?;
    let reach = reach_at(draft, strips, loops.sides.at(node, side), side);
    let depth = reach + draft.number(level, "spacing.edgeNode", 10.0).max(1.0);
    let between = draft.number(level, "spacing.edgeEdge", 10.0).max(1.0);
    let more = nearest_usize_to_f64(most_lanes(here.as_slice()).saturating_sub(1));
    let mut edges = Vec::new(alloc);
    for found in here.iter() {
        edges.push(found.edge)?;
    }
    Ok(Column {
        node,
        side,
        labels: Vec::new(alloc),
        loops: edges,
        depth,
        between,
        away: depth + more * between + out,
        gap,
        beside: out,
        length: 0.0,
    })
}

// How far the labels of a loop may reach beyond the two ends of a side: in its middle, or, where others have lines there, at the loop
// or behind the last line.
fn overhangs(
    alloc: Global,
    draft: &Draft,
    docks: &[Dock],
    column: &Column,
    label: &LoopLabel,
) -> Result<(f64, f64), AllocError> {
    let (node, side) = (column.node, column.side);
    let length = side.along(label.size);
    let is_alone = label.foreign.is_empty();
    let half = (length / 2.0).ceil();
    if draft.is_level(node) {
        return Ok((
            half,
            if is_alone {
                half
            } else {
                length + column.beside
            },
        ));
    }
    let spots = spots_at(alloc, draft, node, side, docks)?;
    let first = spots.first().copied().unwrap_or(0.0);
    let last = spots.last().copied().unwrap_or(0.0);
    let middle = ((first + last - length) / 2.0).floor();
    let (from, to) = if is_alone {
        (middle, middle + length)
    } else {
        (first - half, last + column.beside + length)
    };
    let room = side.along(draft.size_of(Element::Node(node)));
    Ok((-from, to - room))
}

// Asks for the room of a loop's labels beyond a side, behind those that stand there already.
fn reserve(
    alloc: Global,
    draft: &Draft,
    strips: &mut Strips,
    docks: &[Dock],
    column: &Column,
    label: &LoopLabel,
) -> Result<(), AllocError> {
    let (node, side) = (column.node, column.side);
    let (before, behind) = overhangs(alloc, draft, docks, column, label)?;
    let (first, last) = borders(side);
    strips.reserve(alloc, node, side, column.away + side.outward(label.size))?;
    strips.reserve(alloc, node, first, before)?;
    strips.reserve(alloc, node, last, behind + column.length)
}

fn place_beyond(
    alloc: Global,
    draft: &Draft,
    strips: &mut Strips,
    loops: &Loops,
    placed: &mut LoopLabels,
    (found, side, labels): (Joined, Side, Vec<usize>),
) -> Result<(), AllocError> {
    let node = found.source.node;
    if !placed.has(node, side) {
        placed.add_column(column_of(alloc, draft, strips, loops, &found, side)?)?;
    }
    if let Some(column) = placed.column_at(node, side) {
        let label = LoopLabel {
            edge: found.edge,
            size: stack_of(draft, labels.as_slice(), column.gap),
            labels,
            foreign: loops.foreign(alloc, &found, side)?,
        };
        let docks = loops.sides.at(node, side);
        reserve(alloc, draft, strips, docks, column, &label)?;
        column.length += side.along(label.size) + column.beside;
        column.labels.push(label)?;
    }
    Ok(())
}

fn place_at_port(
    alloc: Global,
    draft: &Draft,
    strips: &mut Strips,
    found: &Joined,
    labels: Vec<usize>,
) -> Result<(), AllocError> {
    if let Some(port) = found.source.port.or(found.target.port) {
        let beside = beside_edge(draft, found.level);
        let block = Block::of_labels(draft, labels, beside, Owner::Level);
        strips.add(alloc, port, block)?;
    }
    Ok(())
}

/// Asks for the room that the labels of self-loops take at their nodes, beyond what the labels of other edges and those of ports put
/// there. Labels without a size get that of their text.
pub fn place_loop_labels(
    alloc: Global,
    draft: &mut Draft,
    strips: &mut Strips,
) -> Result<LoopLabels, AllocError> {
    let labelled = labelled_loops(alloc, draft)?;
    let mut placed = LoopLabels::none(alloc, draft.mark());
    if labelled.is_empty() {
        return Ok(placed);
    }
    let loops = Loops::of(alloc, draft)?;
    let mut beyond = Vec::new(alloc);
    for (found, labels) in labelled {
        match side_of_loop(&loops.sides, &found) {
            Some(side) => beyond.push((found, side, labels))?,
            None => place_at_port(alloc, draft, strips, &found, labels)?,
        }
    }
    // Loops are drawn beyond what stands at the ports.
    for it in beyond {
        place_beyond(alloc, draft, strips, &loops, &mut placed, it)?;
    }
    Ok(placed)
}
