//! What a drawing has at each node, port or edge, each computed once.
ghost use Rattle.std.specs.Prelude.{◌≡◌, ◌<◌, length, IfOk, true, false};
ghost use Rattle.elk_doc.specs.Sides.{side_of_port};
ghost use Rattle.elk_doc.specs.Fits.{Fits};
ghost use Rattle.layout_check.specs.Shapes.{AreDocks, AreListed, AreOutlines, AreSides, AreTouched};

use crate::anchors::dock_for;
use crate::touch::touched;
use drawing_types::shape::{Dock, Rect, Side};
use elk_doc::document::Doc;
use elk_doc::drawing::Placed;
use elk_doc::places::outline;
use elk_doc::sides::{frame_of, given_side, is_listed, side_or};
use std::alloc::{AllocError, Global};

/// The outlines of all nodes, each relative to the node's parent.
pub fn outlines(alloc: Global, doc: &Doc, placed: &Placed) -> Result<Vec<Rect>, AllocError>
    requires { Fits doc.now placed.now }
    ensures { IfOk result (λ rects. AreOutlines doc.now placed.now rects.items) }
{
    let mut rects = Vec::new(alloc);
    for node in 0..doc.nodes().len() {
        rects.push(outline(doc, placed, node as u32))?;
    }
    Ok(rects)
}

/// Which edges are written as reversed.
pub fn listed(alloc: Global, doc: &Doc, placed: &Placed) -> Result<Vec<bool>, AllocError>
    requires { Fits doc.now placed.now }
    ensures { IfOk result (λ listed. AreListed doc.now placed.now listed.items) }
{
    let mut listed = Vec::new(alloc);
    for edge in 0..doc.edges().len() {
        listed.push(is_listed(doc, placed, edge as u32))?;
    }
    Ok(listed)
}

// The side of a port, by what edges enter and leave.
fn side_by(doc: &Doc, _placed: &Placed, entered: &[bool], left: &[bool], port: u32) -> Side
    requires port_in { port < length doc.now.ports }
    requires entered { AreTouched doc.now _placed.now true entered.now }
    requires left { AreTouched doc.now _placed.now false left.now }
    ensures { result ≡ side_of_port doc.now _placed.now port }
{
    let only_entered = entered[port as usize] && !left[port as usize];
    let frame = frame_of(doc, doc.port(port).node);
    side_or(given_side(doc, port), only_entered, frame)
}

/// The sides of all ports, by the edges that are written as reversed.
pub fn sides(
    alloc: Global,
    doc: &Doc,
    placed: &Placed,
    listed: &[bool],
) -> Result<Vec<Side>, AllocError>
    requires { AreListed doc.now placed.now listed.now }
    ensures { IfOk result (λ sides. AreSides doc.now placed.now sides.items) }
{
    let entered = touched(alloc, doc, placed, listed, true)?;
    let left = touched(alloc, doc, placed, listed, false)?;
    let mut sides = Vec::new(alloc);
    for port in 0..doc.ports().len() {
        let side = side_by(
            doc,
            placed,
            entered.as_slice(),
            left.as_slice(),
            port as u32,
        );
        sides.push(side)?;
    }
    Ok(sides)
}

/// The docks of all edges at their sources, or at their targets, by the sides of all ports and the edges that are written
/// as reversed.
pub fn docks(
    alloc: Global,
    doc: &Doc,
    placed: &Placed,
    sides: &[Side],
    listed: &[bool],
    at_source: bool,
) -> Result<Vec<Dock>, AllocError>
    requires fits { Fits doc.now placed.now }
    requires sides { AreSides doc.now placed.now sides.now }
    requires listed { AreListed doc.now placed.now listed.now }
    ensures { IfOk result (λ docks. AreDocks doc.now placed.now at_source docks.items) }
{
    let mut docks = Vec::new(alloc);
    for edge in 0..doc.edges().len() {
        docks.push(dock_for(doc, placed, sides, listed, edge as u32, at_source))?;
    }
    Ok(docks)
}
