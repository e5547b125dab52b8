//! Labels of ports outside of nodes. They stay there when their ports are moved into the nodes.

use graph_draft::{Draft, Element, Point};
use label_room::inside_asked;
use std::alloc::{AllocError, Global};

// Moves the labels of a port that have a place.
fn move_labels(alloc: Global, draft: &mut Draft, port: usize, by: Point) -> Result<(), AllocError> {
    for at in Vec::from_slice(alloc, draft.labels_of(Element::Port(port)))? {
        let is_placed = match draft.labels.get(at) {
            Some(label) => label.placed || label.has_place,
            None => false,
        };
        if is_placed {
            let place = draft.place_of(Element::Label(at)).moved(by);
            draft.put(Element::Label(at), place);
        }
    }
    Ok(())
}

fn stand_outside(draft: &Draft, port: usize) -> bool {
    match draft.ports.get(port) {
        Some(port) => matches!(inside_asked(draft, port.node), Some(false)),
        None => false,
    }
}

/// Leaves the labels outside of nodes where they are, after their ports were moved: each port by so much.
pub fn keep_outside(
    alloc: Global,
    draft: &mut Draft,
    moves: Vec<(usize, Point)>,
) -> Result<(), AllocError> {
    for (port, by) in moves {
        if stand_outside(draft, port) {
            let back = Point { x: -by.x, y: -by.y };
            move_labels(alloc, draft, port, back)?;
        }
    }
    Ok(())
}
