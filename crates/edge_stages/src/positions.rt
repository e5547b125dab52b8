//! Positions of children, by an earlier drawing that a level keeps, or by the order of the document. The engine keeps the order of
//! children that have a position, and finds places for all others.

use graph_draft::{Draft, Element, number_value, says, text_value};
use std::alloc::{AllocError, Global};
use std::cmp::OrderedFloat;

const ORDER: &str = "layered.order";

const POSITION: &str = "layered.position";

fn has_order(alloc: Global, draft: &Draft, level: usize, order: &str) -> Result<bool, AllocError> {
    Ok(says(draft.sent_option(alloc, level, ORDER)?.as_ref(), order))
}

fn has_position(draft: &Draft, child: usize) -> bool {
    draft.option(Element::Node(child), POSITION).is_some()
}

fn ask_for_position(draft: &mut Draft, child: usize, rank: usize) -> Result<(), AllocError> {
    let position = u32::try_from(rank).unwrap_or(u32::MAX);
    draft.ask(
        Element::Node(child),
        POSITION,
        number_value(f64::from(position)),
    )
}

// Where the middle of a child stands across the direction of its level, if the graph gives it a place.
fn middle_of(draft: &Draft, child: usize, is_level: bool) -> Option<f64> {
    let node = draft.nodes.get(child)?;
    let given = node.given;
    if !node.has_place {
        None
    } else if is_level {
        Some(given.y + given.height / 2.0)
    } else {
        Some(given.x + given.width / 2.0)
    }
}

// Asks for the order of the places that children have, except of those that have a position.
fn keep_places_in(alloc: Global, draft: &mut Draft, level: usize) -> Result<(), AllocError> {
    let children = Vec::from_slice(alloc, draft.children_of(level))?;
    // Whoever asks the engine itself for KEPT gives it either all positions or none.
    let is_asked = draft.option(Element::Node(level), ORDER).is_some();
    if is_asked && children.iter().any(|child| has_position(draft, *child)) {
        return Ok(());
    }
    let is_level = draft.direction_of(level).is_level();
    let mut ranked = Vec::new(alloc);
    for child in children.iter() {
        if let Some(middle) = middle_of(draft, *child, is_level) {
            ranked.push((OrderedFloat(middle), *child))?;
        }
    }
    ranked.sort_by_key(|(middle, _)| *middle)?;
    for (rank, (_, child)) in ranked.iter().enumerate() {
        if !has_position(draft, *child) {
            ask_for_position(draft, *child, rank)?;
        }
    }
    Ok(())
}

/// In levels that keep an earlier drawing, children that have a place are sent with their rank in it.
pub fn keep_places(alloc: Global, draft: &mut Draft) -> Result<(), AllocError> {
    for level in 0..draft.given_nodes {
        if draft.is_level(level) && has_order(alloc, draft, level, "KEPT")? {
            keep_places_in(alloc, draft, level)?;
        }
    }
    Ok(())
}

/// In a level that keeps the order of the document, children keep it by their positions, so that nodes that are made stand where
/// their edges cross least. No node is made in the level before the first call.
pub fn keep_document_order(
    alloc: Global,
    draft: &mut Draft,
    level: usize,
) -> Result<(), AllocError> {
    if has_order(alloc, draft, level, "DOCUMENT")? {
        draft.ask(Element::Node(level), ORDER, text_value(alloc, "KEPT")?)?;
        for (at, child) in Vec::from_slice(alloc, draft.children_of(level))?
            .iter()
            .enumerate()
        {
            ask_for_position(draft, *child, at)?;
        }
    }
    Ok(())
}
