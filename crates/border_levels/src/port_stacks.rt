//! Labels of ports, as a stack beside the line at the port.

use graph_draft::{Draft, Element, Size};
use label_room::{inside_asked, stack_of};
use std::alloc::{AllocError, Global};

/// The labels of a port, one below the other.
#[derive(Drop)]
pub struct PortStack {
    pub labels: Vec<usize>,
    /// The room between two of them.
    pub gap: f64,
    pub size: Size,
    /// Whether they stand within the node of the port.
    pub is_inside: bool,
}

fn has_size(draft: &Draft, label: usize) -> bool {
    let size = draft.size_of(Element::Label(label));
    size.width > 0.0 && size.height > 0.0
}

/// The labels of a port that are placed, in a draft whose labels are measured. Nothing where there are none.
pub fn port_stack_of(
    alloc: Global,
    draft: &Draft,
    port: usize,
) -> Result<Option<PortStack>, AllocError> {
    let Some(found) = draft.ports.get(port) else {
        return Ok(None);
    };
    let Some(is_inside) = inside_asked(draft, found.node) else {
        return Ok(None);
    };
    let mut labels = Vec::new(alloc);
    for label in found.labels.iter() {
        if has_size(draft, *label) {
            labels.push(*label)?;
        }
    }
    if labels.is_empty() {
        return Ok(None);
    }
    let level = Element::Node(draft.level_around(found.node));
    let gap = draft.number(level, "spacing.labelLabel", 0.0);
    let size = stack_of(draft, labels.as_slice(), gap);
    Ok(Some(PortStack {
        labels,
        gap,
        size,
        is_inside,
    }))
}
