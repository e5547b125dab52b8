//! Anchors and docks of edges, by the sides of all ports and the edges that are written as reversed.
ghost use Rattle.std.specs.Prelude.{◌≡◌, ◌<◌, ◌^◌, length};
ghost use Rattle.elk_doc.specs.Fits.{Fits};
ghost use Rattle.elk_doc.specs.Places.{anchor_of, dock_of};
ghost use Rattle.elk_doc.specs.Sides.{side_of_end, side_of_port};
ghost use Rattle.drawing_types.specs.Ranges.{IsPlaceWithin};
ghost use Rattle.layout_check.specs.Shapes.{AreListed, AreSides};

use drawing_types::shape::{Dock, Point, Side};
use elk_doc::document::{Doc, End};
use elk_doc::drawing::Placed;
use elk_doc::level::{is_loop, node_of};
use elk_doc::places::{middle_of, offset_on, port_box, section_end};
use elk_doc::sides::{end_of, enters_at, frame_of, side_or};

// The side of a port, of the list of all.
fn side_in(_doc: &Doc, _placed: &Placed, sides: &[Side], port: u32) -> Side
    requires port_in { port < length _doc.now.ports }
    requires sides { AreSides _doc.now _placed.now sides.now }
    ensures { result ≡ side_of_port _doc.now _placed.now port }
{
    sides[port as usize]
}

// The side of an end of an edge.
fn side_for(
    doc: &Doc,
    placed: &Placed,
    sides: &[Side],
    listed: &[bool],
    edge: u32,
    at_source: bool,
) -> Side
    requires edge_in { edge < length doc.now.edges }
    requires sides { AreSides doc.now placed.now sides.now }
    requires listed { AreListed doc.now placed.now listed.now }
    ensures { result ≡ side_of_end doc.now placed.now edge at_source }
{
    match end_of(doc, edge, at_source) {
        End::Port(port) => side_in(doc, placed, sides, port),
        End::Node(node) => {
            let enters = enters_at(at_source, listed[edge as usize]) && !is_loop(doc, edge);
            side_or(None, enters, frame_of(doc, node))
        }
    }
}

/// The anchor of an end of an edge, relative to the node of the edge's level.
pub fn anchor_at(doc: &Doc, placed: &Placed, sides: &[Side], edge: u32, at_source: bool) -> Point
    requires edge_in { edge < length doc.now.edges }
    requires fits { Fits doc.now placed.now }
    requires sides { AreSides doc.now placed.now sides.now }
    ensures value { result ≡ anchor_of doc.now placed.now edge at_source }
    ensures near { IsPlaceWithin (2 ^ 55) result }
{
    match end_of(doc, edge, at_source) {
        End::Port(port) => {
            let side = side_in(doc, placed, sides, port);
            middle_of(side, port_box(doc, placed, port))
        }
        End::Node(_) => section_end(doc, placed, edge, at_source),
    }
}

// The dock of an end of an edge.
pub(crate) fn dock_for(
    doc: &Doc,
    placed: &Placed,
    sides: &[Side],
    listed: &[bool],
    edge: u32,
    at_source: bool,
) -> Dock
    requires edge_in { edge < length doc.now.edges }
    requires fits { Fits doc.now placed.now }
    requires sides { AreSides doc.now placed.now sides.now }
    requires listed { AreListed doc.now placed.now listed.now }
    ensures { result ≡ dock_of doc.now placed.now edge at_source }
{
    let node = node_of(doc, end_of(doc, edge, at_source));
    let side = side_for(doc, placed, sides, listed, edge, at_source);
    let place = anchor_at(doc, placed, sides, edge, at_source);
    let offset = offset_on(side, placed.box_of(node), place);
    Dock { node, side, offset }
}
