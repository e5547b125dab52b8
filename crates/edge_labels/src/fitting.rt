//! Whether labels have room beside the line at an end of an edge.

use graph_draft::{Draft, Element, End, Joined, Kind, Side};
use label_room::{Dock, Sides, has_name, spots_at, stack_of};
use std::alloc::{AllocError, Global};

// The end of an edge of one kind.
pub(crate) fn end_of(found: &Joined, kind: Kind) -> End {
    match kind {
        Kind::Source => found.source,
        Kind::Target => found.target,
    }
}

// Whether a node grows with the labels of its ports.
fn grows(draft: &Draft, node: usize) -> bool {
    let constraints = draft.option(Element::Node(node), "nodeSize.constraints");
    let has_both = has_name(constraints, "PORTS") && has_name(constraints, "PORT_LABELS");
    has_both && !draft.has_rule(node, "FIXED_POS")
}

// The least room between two docks of a side of a leaf.
fn least_room(
    alloc: Global,
    draft: &Draft,
    node: usize,
    side: Side,
    docks: &[Dock],
) -> Result<f64, AllocError> {
    let spots = spots_at(alloc, draft, node, side, docks)?;
    let mut room = f64::INFINITY;
    for (spot, next) in spots.iter().zip(spots.iter().skip(1)) {
        room = room.min(*next - *spot);
    }
    Ok(room)
}

// Half the length of the longest port of a side.
fn half_of_longest(draft: &Draft, side: Side, docks: &[Dock]) -> f64 {
    let mut half: f64 = 0.0;
    for dock in docks {
        if let Dock::Port(port) = dock {
            let length = side.along(draft.size_of(Element::Port(*port)));
            half = half.max((length / 2.0).ceil());
        }
    }
    half
}

/// Whether labels fit between the lines at a side of a node. Of two lines one has room above, the other below.
pub(crate) fn fits(
    alloc: Global,
    draft: &Draft,
    sides: &Sides,
    found: &Joined,
    kind: Kind,
    labels: &[usize],
) -> Result<bool, AllocError> {
    let end = end_of(found, kind);
    let node = end.node;
    let side = match sides.side_of_end(end, found.edge, kind) {
        Some(side) => side,
        None => return Ok(true),
    };
    let docks = sides.at(node, side);
    if draft.is_pinned(node) && docks.iter().any(|dock| dock.port().is_none()) {
        return Ok(false);
    }
    if docks.len() <= 2 || grows(draft, node) {
        return Ok(true);
    }
    // How long the side of a level will be is not known yet.
    if draft.is_level(node) {
        return Ok(false);
    }
    let room = least_room(alloc, draft, node, side, docks)?;
    let half = half_of_longest(draft, side, docks);
    let beside = draft.number(Element::Node(found.level), "spacing.edgeLabel", 2.0);
    let length = side.along(stack_of(draft, labels, 0.0));
    Ok(room >= length + half + beside)
}
