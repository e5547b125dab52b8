//! The labels of nodes with open levels. Those within the node are placed with its own level, those outside with the level around.

use crate::drawings::{ROOT, place_of_label};
use border_ring::Title;
use graph_draft::{Draft, Element};
use label_room::has_name;
use node_labels::{is_outside, placement_of};
use serde_json::Value;
use std::alloc::{AllocError, Global};

/// The labels of a level's node that are placed with its own level. There is no level around the root.
pub(crate) fn titles_of(
    alloc: Global,
    draft: &Draft,
    level: usize,
) -> Result<Vec<usize>, AllocError> {
    let is_root = draft.parent_of(level).is_none();
    let mut titles = Vec::new(alloc);
    for label in draft.labels_of(Element::Node(level)) {
        if is_root || !is_outside(draft, level, *label) {
            titles.push(*label)?;
        }
    }
    Ok(titles)
}

/// The labels of a node with an open level that are placed with the level around.
pub(crate) fn outer_labels(
    alloc: Global,
    draft: &Draft,
    node: usize,
) -> Result<Vec<usize>, AllocError> {
    let mut labels = Vec::new(alloc);
    for label in draft.labels_of(Element::Node(node)) {
        if is_outside(draft, node, *label) {
            labels.push(*label)?;
        }
    }
    Ok(labels)
}

/// The labels of a drawn level's own node, as they were drawn.
pub(crate) fn drawn_titles(alloc: Global, draft: &Draft) -> Result<Vec<Title>, AllocError> {
    let mut titles = Vec::new(alloc);
    for label in draft.labels_of(Element::Node(ROOT)) {
        titles.push(Title {
            place: place_of_label(draft, *label),
            size: draft.size_of(Element::Label(*label)),
        })?;
    }
    Ok(titles)
}

fn share_of(placement: Option<&Value>, middle: &str, end: &str) -> f64 {
    if has_name(placement, end) {
        1.0
    } else if has_name(placement, middle) {
        0.5
    } else {
        0.0
    }
}

/// For each label within a level's node which share of the node's growth in width and in height it follows.
pub(crate) fn shares_of(
    alloc: Global,
    draft: &Draft,
    level: usize,
) -> Result<Vec<(f64, f64)>, AllocError> {
    let mut shares = Vec::new(alloc);
    for label in titles_of(alloc, draft, level)? {
        let placement = placement_of(draft, level, label);
        let across = share_of(placement, "H_CENTER", "H_RIGHT");
        let down = share_of(placement, "V_CENTER", "V_BOTTOM");
        shares.push((across, down))?;
    }
    Ok(shares)
}
