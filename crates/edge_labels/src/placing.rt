//! Labels of edges are made room for before the engine reads a graph, and placed after its answer.

use crate::columns::Columns;
use crate::fitting::{end_of, fits};
use crate::holders::{Holder, Stop, hold};
use crate::slides::slide_labels;
use crate::spots::{labels_at, spots_along};
use edge_pieces::{Led, join_pieces, lead_through};
use edge_stages::keep_document_order;
use graph_draft::{Draft, Element, Joined, Kind, Mark, Side, joined_edges, number_value};
use label_room::{Block, Owner, Sides, Strips, beside_edge, measured_labels, place_stack};
use std::alloc::{AllocError, Global};
use std::collections::BTreeSet;

const SHORTNESS: &str = "layered.priority.shortness";

/// What is known of a draft before labels of edges are placed.
#[derive(Clone, Copy, Drop)]
pub struct Known<'a> {
    /// What stands at the sides of nodes.
    pub sides: &'a Sides,
    /// The edges that were turned round.
    pub turned: &'a BTreeSet<usize>,
    /// The levels with slanted or curved routes. Labels stay in their layers there.
    pub curved: &'a BTreeSet<usize>,
    /// The edges whose labels stay in their layers.
    pub still: &'a BTreeSet<usize>,
}

// An edge that is led through leaves that hold its labels.
#[derive(Drop)]
struct Passed {
    mark: Mark,
    level: usize,
    edge: usize,
    side: Side,
    is_still: bool,
    holders: Vec<Holder>,
    led: Led,
}

/// The labels of edges that stand in layers of their own.
#[derive(Drop)]
pub struct EdgeLabels {
    mark: Mark,
    passed: Vec<Passed>,
}

// The piece between a label of an end and its node is dearer than the rest, so that the label stays next to the node.
fn keep_near(
    draft: &mut Draft,
    edge: usize,
    led: &Led,
    holders: &[Holder],
) -> Result<(), AllocError> {
    let shortness = draft.number(Element::Edge(edge), SHORTNESS, 0.0).max(1.0) + 1.0;
    for holder in holders {
        let piece = match holder.end {
            Some(Kind::Source) => led.pieces().first(),
            Some(Kind::Target) => led.pieces().last(),
            None => None,
        };
        if let Some(piece) = piece {
            draft.ask(Element::Edge(*piece), SHORTNESS, number_value(shortness))?;
        }
    }
    Ok(())
}

// Leads an edge through a leaf for each stop.
fn pass_through(
    alloc: Global,
    draft: &mut Draft,
    known: Known<'_>,
    found: &Joined,
    stops: Vec<Stop>,
) -> Result<Passed, AllocError> {
    let (level, edge) = (found.level, found.edge);
    let side = draft.direction_of(level).ahead();
    let (mut holders, mut leaves) = (Vec::new(alloc), Vec::new(alloc));
    for stop in stops {
        let (holder, leaf) = hold(alloc, draft, found, side, stop)?;
        holders.push(holder)?;
        leaves.push(leaf)?;
    }
    draft.alter(level);
    let mark = draft.mark();
    let led = lead_through(alloc, draft, edge, leaves.as_slice())?;
    keep_near(draft, edge, &led, holders.as_slice())?;
    Ok(Passed {
        mark,
        level,
        edge,
        side,
        is_still: known.still.contains(&edge) || known.curved.contains(&level),
        holders,
        led,
    })
}

// Lets labels stand beside the line at an end of an edge, which gets a port for that.
fn stand_beside(
    alloc: Global,
    draft: &mut Draft,
    strips: &mut Strips,
    found: &mut Joined,
    kind: Kind,
    labels: Vec<usize>,
) -> Result<(), AllocError> {
    let dock = draft.dock_of(alloc, end_of(found, kind))?;
    match kind {
        Kind::Source => found.source = dock,
        Kind::Target => found.target = dock,
    }
    match dock.port {
        Some(port) => {
            let beside = beside_edge(draft, found.level);
            let block = Block::of_labels(draft, labels, beside, Owner::Level);
            strips.add(alloc, port, block)
        }
        None => Ok(()),
    }
}

// Lets labels of an edge between two nodes stand beside its line where they can. It answers the edge, and the stops for the others.
fn place_along(
    alloc: Global,
    draft: &mut Draft,
    strips: &mut Strips,
    known: Known<'_>,
    mut found: Joined,
    labels: &[usize],
) -> Result<(Joined, Vec<Stop>), AllocError> {
    let mut stops = Vec::new(alloc);
    for (spot, end) in spots_along(known.turned.contains(&found.edge)) {
        let labels = labels_at(alloc, draft, found.edge, labels, spot)?;
        if labels.is_empty() {
            continue;
        }
        match end {
            Some(kind) if fits(alloc, draft, known.sides, &found, kind, labels.as_slice())? => {
                stand_beside(alloc, draft, strips, &mut found, kind, labels)?;
            }
            end => stops.push(Stop { labels, end })?,
        }
    }
    draft.change_ends(alloc, found.edge, found.source, found.target)?;
    Ok((found, stops))
}

// The level of the edge that was led through leaves last.
fn last_level(passed: &[Passed]) -> Option<usize> {
    match passed.last() {
        Some(last) => Some(last.level),
        None => None,
    }
}

/// Makes room for the labels of edges between different nodes of a level: beside lines at nodes, or in leaves. Labels that lack a
/// size get that of their text, those of self-loops too.
pub fn place_edge_labels(
    alloc: Global,
    draft: &mut Draft,
    strips: &mut Strips,
    known: Known<'_>,
) -> Result<EdgeLabels, AllocError> {
    let mark = draft.mark();
    let mut labelled = Vec::new(alloc);
    for found in joined_edges(alloc, draft)? {
        let labels = measured_labels(alloc, draft, Element::Edge(found.edge))?;
        if !labels.is_empty() && !found.is_loop() {
            labelled.push((found, labels))?;
        }
    }
    let mut passed: Vec<Passed> = Vec::new(alloc);
    for (found, labels) in labelled.iter() {
        let (found, stops) = place_along(alloc, draft, strips, known, *found, labels.as_slice())?;
        if stops.is_empty() {
            continue;
        }
        // If the edge before is at the same level, the order is kept already.
        if last_level(passed.as_slice()) != Some(found.level) {
            keep_document_order(alloc, draft, found.level)?;
        }
        passed.push(pass_through(alloc, draft, known, &found, stops)?)?;
    }
    Ok(EdgeLabels { mark, passed })
}

/// Places the labels of a placed draft that stand in leaves, and makes one edge again of the pieces of each.
pub fn raise_edge_labels(
    alloc: Global,
    draft: &mut Draft,
    labels: EdgeLabels,
) -> Result<(), AllocError> {
    let EdgeLabels { mark, mut passed } = labels;
    passed.reverse();
    let mut columns = Columns::none(alloc);
    let mut slides = Vec::new(alloc);
    for along in passed {
        join_pieces(alloc, draft, &along.led)?;
        draft.undo_to(along.mark)?;
        columns.measure(alloc, draft, along.level)?;
        for holder in along.holders {
            let is_still = along.is_still || holder.end.is_some();
            let free = columns.shift_of(along.level, holder.node);
            let slide = holder.placed(draft, (along.level, along.edge), along.side, free);
            place_stack(draft, slide.labels.as_slice(), slide.stack);
            if !is_still {
                slides.push(slide)?;
            }
        }
    }
    draft.undo_to(mark)?;
    slide_labels(alloc, draft, slides)
}
