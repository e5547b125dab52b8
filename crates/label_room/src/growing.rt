//! Ports are sent so large that they hold what stands beside their lines, since the engine keeps clear of ports.

use crate::docks::{Dock, Sides, sides_of};
use crate::rooms::keep_room;
use crate::strips::Strips;
use graph_draft::{Draft, Element, Kind, Mark, Point, Side, Size, joined_edges, text_value};
use std::alloc::{AllocError, Global};

// A port that was made large.
#[derive(Clone, Copy, Drop)]
pub(crate) struct Grown {
    pub(crate) port: usize,
    // Its size before.
    pub(crate) small: Size,
    // How far what stands beside its lines reaches along the side.
    pub(crate) needs: f64,
    // Where it stands if it is pinned.
    pub(crate) given: Option<Point>,
}

// The ports of a side of a node that were made large.
#[derive(Drop)]
pub(crate) struct GrownSide {
    pub(crate) mark: Mark,
    pub(crate) node: usize,
    pub(crate) side: Side,
    pub(crate) docks: Vec<Dock>,
    pub(crate) ports: Vec<Grown>,
}

/// The ports that were made large. Once they are placed, they shrink, and their lines are drawn on to them.
#[derive(Drop)]
pub struct GrownPorts {
    pub(crate) strips: Strips,
    pub(crate) sides: Vec<GrownSide>,
    // The ends of edges at each port.
    pub(crate) ends: Vec<Vec<(usize, Kind)>>,
}

const NO_ENDS: &[(usize, Kind)] = &[];

impl GrownPorts {
    pub(crate) fn ends_at(&self, port: usize) -> &[(usize, Kind)] {
        match self.ends.get(port) {
            Some(ends) => ends.as_slice(),
            None => NO_ENDS,
        }
    }
}

fn ends_by_port(alloc: Global, draft: &Draft) -> Result<Vec<Vec<(usize, Kind)>>, AllocError> {
    let mut ends: Vec<Vec<(usize, Kind)>> = Vec::new(alloc);
    for _ in draft.ports.iter() {
        ends.push(Vec::new(alloc))?;
    }
    for found in joined_edges(alloc, draft)?.iter() {
        for (end, kind) in [(found.source, Kind::Source), (found.target, Kind::Target)] {
            if let Some(port) = end.port {
                if let Some(ends) = ends.get_mut(port) {
                    ends.push((found.edge, kind))?;
                }
            }
        }
    }
    Ok(ends)
}

// Where a port is sent that becomes large. Its middle stays where it is given, and so does its face towards the node.
fn large_place(side: Side, given: Point, small: Size, large: Size, is_pinned: bool) -> Point {
    let down = side.down(given) + side.middle(small) - side.middle(large);
    let place = side.with_down(given, down);
    if is_pinned && matches!(side, Side::North | Side::West) {
        let deeper = side.outward(large) - side.outward(small);
        return side.with_back(place, side.back(place) - deeper);
    }
    place
}

// Makes a port as large as what stands beside its lines.
fn grow_port(
    alloc: Global,
    draft: &mut Draft,
    strips: &Strips,
    node: usize,
    side: Side,
    port: usize,
) -> Result<Grown, AllocError> {
    let element = Element::Port(port);
    let small = draft.size_of(element);
    let given = draft.place_of(element);
    let reach = strips.reach_of(draft, port, side);
    let length = side.along(small).max(2.0 * reach.aside);
    let large = side.box_at(length, reach.out);
    let is_pinned = draft.is_pinned(node);
    if is_pinned {
        draft.ask(element, "port.side", text_value(alloc, side.name())?)?;
    }
    draft.change_port_size(port, large.width, large.height)?;
    draft.put(element, large_place(side, given, small, large, is_pinned));
    Ok(Grown {
        port,
        small,
        needs: reach.aside,
        given: if is_pinned { Some(given) } else { None },
    })
}

fn grow_side(
    alloc: Global,
    draft: &mut Draft,
    strips: &Strips,
    node: usize,
    side: Side,
    docks: &[Dock],
) -> Result<Option<GrownSide>, AllocError> {
    let mut ports = Vec::new(alloc);
    for dock in docks {
        match dock {
            Dock::Port(port) if !strips.at(*port).is_empty() => {
                ports.push(grow_port(alloc, draft, strips, node, side, *port)?)?;
            }
            _ => {}
        }
    }
    if ports.is_empty() {
        return Ok(None);
    }
    Ok(Some(GrownSide {
        mark: draft.mark(),
        node,
        side,
        docks: Vec::from_slice(alloc, docks)?,
        ports,
    }))
}

/// Makes ports as large as what stands beside their lines, and keeps the room beyond sides that is asked for. `before` tells what
/// stood at the sides when the room was asked for.
pub fn grow_ports(
    alloc: Global,
    draft: &mut Draft,
    mut strips: Strips,
    before: &Sides,
) -> Result<GrownPorts, AllocError> {
    keep_room(alloc, draft, &mut strips, before)?;
    let mut grown = Vec::new(alloc);
    if strips.is_empty() {
        return Ok(GrownPorts {
            strips,
            sides: grown,
            ends: Vec::new(alloc),
        });
    }
    let sides = sides_of(alloc, draft)?;
    let ends = ends_by_port(alloc, draft)?;
    for node in 0..draft.given_nodes {
        for side in Side::ALL {
            let docks = sides.at(node, side);
            if let Some(of_side) = grow_side(alloc, draft, &strips, node, side, docks)? {
                grown.push(of_side)?;
            }
        }
    }
    Ok(GrownPorts {
        strips,
        sides: grown,
        ends,
    })
}
