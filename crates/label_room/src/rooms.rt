//! The room that nodes keep beyond their sides: a port of the side is sent so deep, or one is made for that.

use crate::blocks::Block;
use crate::docks::{Dock, Sides};
use crate::strips::Strips;
use graph_draft::{Draft, Element, Kind, Side, number_value, text_value};
use std::alloc::{AllocError, Global};

// No port has a greater index, so that a spike stands behind all others of its side.
const LAST: f64 = 1048576.0;

// Room that a side has to have.
#[derive(Clone, Copy, Drop)]
struct Wanted {
    node: usize,
    side: Side,
    depth: f64,
}

// A port for an end of an edge at a node; none where its ports are pinned.
fn port_for(
    alloc: Global,
    draft: &mut Draft,
    edge: usize,
    kind: Kind,
) -> Result<Option<usize>, AllocError> {
    let (source, target) = match draft.ends_of(edge) {
        Some(ends) => ends,
        None => return Ok(None),
    };
    match kind {
        Kind::Source => {
            let found = draft.dock_of(alloc, source)?;
            draft.change_ends(alloc, edge, found, target)?;
            Ok(found.port)
        }
        Kind::Target => {
            let found = draft.dock_of(alloc, target)?;
            draft.change_ends(alloc, edge, source, found)?;
            Ok(found.port)
        }
    }
}

// The engine may choose the sides of ports only where nothing has to stand at a side.
fn fix_sides(alloc: Global, draft: &mut Draft, node: usize) -> Result<(), AllocError> {
    for port in Vec::from_slice(alloc, draft.ports_of(node))? {
        let anywhere = text_value(alloc, "UNDEFINED")?;
        draft.ask(Element::Port(port), "port.side", anywhere)?;
    }
    let fixed = text_value(alloc, "FIXED_SIDE")?;
    draft.ask(Element::Node(node), "portConstraints", fixed)
}

// A port without lines, as thin as can be, that reaches out from a side where no other stands.
fn add_spike(alloc: Global, draft: &mut Draft, wanted: Wanted) -> Result<(), AllocError> {
    let Wanted { node, side, depth } = wanted;
    if draft.is_free(node) {
        fix_sides(alloc, draft, node)?;
    }
    let size = side.box_at(0.0, depth);
    let place = side.place_at(size, 0.0, 0.0, draft.size_of(Element::Node(node)));
    let spike = Element::Port(draft.add_port(alloc, node, size, place)?);
    draft.ask(spike, "port.side", text_value(alloc, side.name())?)?;
    draft.ask(spike, "port.index", number_value(LAST))
}

// The port of a side that is made deeper: the first, or one for an end of an edge there.
fn port_at(alloc: Global, draft: &mut Draft, docks: &[Dock]) -> Result<Option<usize>, AllocError> {
    for dock in docks {
        if let Dock::Port(port) = dock {
            return Ok(Some(*port));
        }
    }
    match docks.first() {
        Some(Dock::End(edge, kind)) => port_for(alloc, draft, *edge, *kind),
        _ => Ok(None),
    }
}

fn deepen(
    alloc: Global,
    draft: &mut Draft,
    strips: &mut Strips,
    docks: &[Dock],
    wanted: Wanted,
) -> Result<(), AllocError> {
    match port_at(alloc, draft, docks)? {
        Some(port) => {
            let more = wanted.depth - strips.end_of(draft, port, wanted.side);
            let room = wanted.side.box_at(0.0, more);
            strips.add(alloc, port, Block::of_room(alloc, room))
        }
        None => add_spike(alloc, draft, wanted),
    }
}

fn deepest(draft: &Draft, strips: &Strips, docks: &[Dock], side: Side) -> f64 {
    let mut reach: f64 = 0.0;
    for dock in docks {
        if let Dock::Port(port) = dock {
            reach = reach.max(strips.end_of(draft, *port, side));
        }
    }
    reach
}

fn all_wanted(alloc: Global, strips: &Strips) -> Result<Vec<Wanted>, AllocError> {
    let mut all = Vec::new(alloc);
    for reserve in strips.reserves.nodes.iter() {
        for (side, depth) in reserve.depths.iter() {
            all.push(Wanted {
                node: reserve.node,
                side: *side,
                depth: *depth,
            })?;
        }
    }
    Ok(all)
}

// Keeps the room beyond sides that is asked for.
pub(crate) fn keep_room(
    alloc: Global,
    draft: &mut Draft,
    strips: &mut Strips,
    sides: &Sides,
) -> Result<(), AllocError> {
    for wanted in all_wanted(alloc, strips)? {
        let docks = sides.at(wanted.node, wanted.side);
        if wanted.depth > deepest(draft, strips, docks, wanted.side) {
            deepen(alloc, draft, strips, docks, wanted)?;
        }
    }
    Ok(())
}
