//! Helper edges of the least weight that keep the border of a level in a layer of its own, the first or the last. Each spans one layer
//! and lies in the gap that is cut off, so that it costs neither lanes nor crossings.

use crate::graph::LevelGraph;
use crate::known::Helper;
use border_levels::Model;
use disjoint_sets::DisjointSets;
use graph_draft::{Point, Size};
use route_curves::{Frame, Span};
use std::alloc::{AllocError, Global};
use std::collections::BTreeSet;

// The place of a node among the children of a level, which stand in the order of their numbers.
fn place_in(children: &[usize], node: Option<usize>) -> Option<usize> {
    match node {
        Some(node) => children.binary_search(&node).ok(),
        None => None,
    }
}

// The parts of a level that no edges join, by its children.
fn parts_of(
    alloc: Global,
    model: &Model,
    level: usize,
    pieces: &[usize],
) -> Result<DisjointSets, AllocError> {
    let children = model.draft.children_of(level);
    let mut parts = DisjointSets::singletons(alloc, children.len())?;
    for at in pieces {
        if let Some(piece) = model.piece(*at) {
            let from = place_in(children, piece.from.node(model));
            let to = place_in(children, piece.to.node(model));
            if let (Some(from), Some(to)) = (from, to) {
                parts.join(from, to);
            }
        }
    }
    Ok(parts)
}

// The first of some children in each part of a level, the part of one child left out.
fn in_other_parts(
    alloc: Global,
    mut parts: DisjointSets,
    one: usize,
    children: &[usize],
) -> Result<Vec<usize>, AllocError> {
    let mut seen = BTreeSet::new(alloc);
    seen.insert(parts.find(one))?;
    let mut others = Vec::new(alloc);
    for at in children {
        let part = parts.find(*at);
        if !seen.contains(&part) {
            seen.insert(part)?;
            others.push(*at)?;
        }
    }
    Ok(others)
}

fn spans_of(
    alloc: Global,
    frame: Frame,
    outlines: &[(Point, Size)],
) -> Result<Vec<Span>, AllocError> {
    let mut spans = Vec::new(alloc);
    for (place, size) in outlines {
        spans.push(frame.span_of(*place, *size))?;
    }
    Ok(spans)
}

// The children beside or beyond a border to which no helper edge leads yet.
fn beyond(
    alloc: Global,
    border: Span,
    is_last: bool,
    children: &[Span],
    known: &[Helper],
) -> Result<Vec<usize>, AllocError> {
    let mut found = Vec::new(alloc);
    for (at, span) in children.iter().enumerate() {
        let is_beyond = if is_last {
            span.to >= border.from
        } else {
            span.from <= border.to
        };
        if is_beyond && !known.contains(&Helper { is_last, at }) {
            found.push(at)?;
        }
    }
    Ok(found)
}

// How far a child stands towards a border and beyond.
fn reach_of(children: &[Span], at: usize, is_last: bool) -> f64 {
    match children.get(at) {
        Some(span) if is_last => span.from,
        Some(span) => -span.to,
        None => f64::NEG_INFINITY,
    }
}

fn furthest(children: &[Span], beyond: &[usize], is_last: bool) -> Option<usize> {
    let mut best = beyond.first().copied()?;
    for at in beyond {
        if reach_of(children, *at, is_last) > reach_of(children, best, is_last) {
            best = *at;
        }
    }
    Some(best)
}

/// The helper edges that a level lacks: between the leaf of its border and what stands furthest beside or beyond that. `outlines` has
/// the boxes of all that was sent, children and leaves, and `known` the helper edges with which it was sent.
pub fn missing_helpers(
    alloc: Global,
    model: &Model,
    level: usize,
    sent: &LevelGraph,
    outlines: &[(Point, Size)],
    known: &[Helper],
) -> Result<Vec<Helper>, AllocError> {
    let mut missing = Vec::new(alloc);
    let spans = spans_of(alloc, Frame(model.direction_of(level)), outlines)?;
    let children = match spans.as_slice().get(..sent.children) {
        Some(children) => children,
        None => return Ok(missing),
    };
    for (leaf, is_last) in [(sent.first, false), (sent.last, true)] {
        let border = match leaf {
            Some(leaf) => spans.get(leaf).copied(),
            None => None,
        };
        if let Some(border) = border {
            let found = beyond(alloc, border, is_last, children, known)?;
            if let Some(at) = furthest(children, found.as_slice(), is_last) {
                missing.push(Helper { is_last, at })?;
                // Parts that no edges join begin in the first layer each.
                if !is_last {
                    let parts = parts_of(alloc, model, level, sent.pieces.as_slice())?;
                    for at in in_other_parts(alloc, parts, at, found.as_slice())? {
                        missing.push(Helper { is_last, at })?;
                    }
                }
            }
        }
    }
    Ok(missing)
}
