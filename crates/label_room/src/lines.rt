//! Where docks stand along a side, and where their lines lie.

use crate::docks::Dock;
use graph_draft::{Draft, Element, Kind, Side};
use std::alloc::{AllocError, Global};
use std::cmp::OrderedFloat;
use std::num::nearest_usize_to_f64;

pub(crate) fn sort_numbers(numbers: &mut Vec<f64>) -> Result<(), AllocError> {
    numbers.sort_by_key(|number| OrderedFloat(*number))
}

/// Where along a side of a leaf its docks stand, in ascending order. Which of them stands where is only known where they are pinned.
pub fn spots_at(
    alloc: Global,
    draft: &Draft,
    node: usize,
    side: Side,
    docks: &[Dock],
) -> Result<Vec<f64>, AllocError> {
    let length = side.along(draft.size_of(Element::Node(node)));
    let is_pinned = draft.is_pinned(node);
    let mut spots = Vec::new(alloc);
    let mut spread: usize = 0;
    for dock in docks {
        match dock {
            Dock::Port(port) if is_pinned => {
                let port = Element::Port(*port);
                spots.push(side.down(draft.place_of(port)) + side.middle(draft.size_of(port)))?;
            }
            _ => spread = spread.saturating_add(1),
        }
    }
    let parts = nearest_usize_to_f64(spread) + 1.0;
    for at in 0..spread {
        let share = nearest_usize_to_f64(at) + 1.0;
        spots.push((length * share / parts).floor())?;
    }
    sort_numbers(&mut spots)?;
    Ok(spots)
}

/// Where the line of a placed dock lies along a side, from the node's corner on.
pub fn axis_of(draft: &Draft, dock: Dock, node: usize, side: Side) -> f64 {
    match dock {
        Dock::Port(port) => {
            let port = Element::Port(port);
            side.down(draft.place_of(port)) + side.middle(draft.size_of(port))
        }
        Dock::End(edge, kind) => {
            let route = draft.route_of(edge);
            let point = match kind {
                Kind::Source => route.first(),
                Kind::Target => route.last(),
            };
            match point {
                Some(point) => side.down(*point) - side.down(draft.place_of(Element::Node(node))),
                None => 0.0,
            }
        }
    }
}

/// Where the lines of placed docks lie along a side, in ascending order.
pub fn lines_at(
    alloc: Global,
    draft: &Draft,
    node: usize,
    side: Side,
    docks: &[Dock],
) -> Result<Vec<f64>, AllocError> {
    let mut lines = Vec::new(alloc);
    for dock in docks {
        lines.push(axis_of(draft, *dock, node, side))?;
    }
    sort_numbers(&mut lines)?;
    Ok(lines)
}
