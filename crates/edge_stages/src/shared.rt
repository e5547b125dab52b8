//! What levels share that are laid out together, by the option `hierarchyHandling`.

use graph_draft::{Draft, Element, says, text_value};
use serde_json::Value;
use std::alloc::{AllocError, Global};

// What such levels have in common if they ask for nothing else.
const DIRECTION: &str = "direction";

const DIRECTIONS: &[&str] = &["RIGHT", "LEFT", "DOWN", "UP"];

const ROUTING: &str = "edgeRouting";

const ROUTINGS: &[&str] = &["ORTHOGONAL", "POLYLINE", "SPLINES"];

// Whether a node asks to be laid out with the level around it; nothing where it doesn't say.
fn handling_asked(draft: &Draft, node: usize) -> Option<bool> {
    let asked = draft.option(Element::Node(node), "hierarchyHandling");
    if says(asked, "INCLUDE_CHILDREN") {
        Some(true)
    } else if says(asked, "SEPARATE_CHILDREN") {
        Some(false)
    } else {
        None
    }
}

// Which nodes are laid out with the levels around them, by what they ask for, or else the nearest node around them that asks.
fn shared_nodes(alloc: Global, draft: &Draft) -> Result<Vec<bool>, AllocError> {
    let mut shared: Vec<bool> = Vec::new(alloc);
    // Each node stands behind its parent.
    for at in 0..draft.nodes.len() {
        let around = match draft.parent_of(at) {
            Some(parent) => shared.get(parent).copied().unwrap_or(false),
            None => false,
        };
        shared.push(handling_asked(draft, at).unwrap_or(around))?;
    }
    Ok(shared)
}

fn is_unset(value: Option<&Value>) -> bool {
    match value {
        None | Some(Value::Null) => true,
        value => says(value, "") || says(value, "UNDEFINED"),
    }
}

// What a level gets of the level around it by an option.
fn passed_on(
    draft: &Draft,
    level: usize,
    around: usize,
    name: &'static str,
    words: &[&'static str],
) -> Option<&'static str> {
    if !is_unset(draft.option(Element::Node(level), name)) {
        return None;
    }
    let asked = draft.option(Element::Node(around), name);
    for word in words {
        if says(asked, word) {
            return Some(*word);
        }
    }
    None
}

/// Gives levels the direction and the routing of the level around them, with which they are laid out, if they ask for none.
pub fn share_options(alloc: Global, draft: &mut Draft) -> Result<(), AllocError> {
    let shared = shared_nodes(alloc, draft)?;
    let is_shared = |node: usize| shared.get(node).copied().unwrap_or(false);
    for level in 0..draft.given_nodes {
        if let Some(around) = draft.parent_of(level) {
            if draft.is_level(level) && is_shared(level) && is_shared(around) {
                for (name, words) in [(DIRECTION, DIRECTIONS), (ROUTING, ROUTINGS)] {
                    if let Some(word) = passed_on(draft, level, around, name, words) {
                        draft.ask(Element::Node(level), name, text_value(alloc, word)?)?;
                    }
                }
            }
        }
    }
    Ok(())
}
