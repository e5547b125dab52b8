//! Ports that are kept.
ghost use Rattle.std.specs.Prelude.{◌≡◌, ◌↔◌, ◌<◌, ◌&&◌, IsTrue, false, true, length};
ghost use Rattle.elk_doc.specs.Document.{node_of_port};
ghost use Rattle.elk_doc.specs.PortsKept.{KeepsPort, is_pinned};
ghost use Rattle.elk_doc.specs.Sides.{is_leaf, side_of_port};
ghost use Rattle.layout_check.specs.Faults.{IsFirst};
ghost use Rattle.layout_check.specs.Scenes.{IsScene};
ghost use Rattle.layout_check.specs.FirstPorts.{CountsWith, LowerHold, PairHolds, PortHolds, PortKept, PortPair};
ghost use Rattle.layout_check.specs.Spots.{IsRoomy};

use crate::order::order_holds;
use crate::scene::{Scene, side_at};
use crate::sides::{agree_across, agree_along, is_pinned, stands_flush};
use crate::spots::{are_apart, is_roomy, lies_on, port_spot};
use elk_doc::document::Doc;
use elk_doc::form::is_child;

// Whether a port is pinned across its side too.
fn is_pinned_across(doc: &Doc, port: u32) -> bool
    requires { port < length doc.now.ports }
    ensures { result ≡ (is_pinned doc.now port && is_leaf doc.now (node_of_port doc.now port)) }
{
    let leaf = doc.node(doc.port(port).node).level.is_none();
    is_pinned(doc, port) && leaf
}

// Whether a port obeys the constraints of its node by itself.
fn keeps_port(scene: &Scene<'_>, port: u32) -> bool
    requires port_in { port < length scene.now.doc.now.ports }
    requires scene { IsScene scene.now }
    ensures { IsTrue result ↔ KeepsPort scene.now.doc.now scene.now.placed.now port }
{
    let found = scene.doc.port(port);
    let side = side_at(scene, port);
    let place = scene.placed.port_place(port);
    let outer = scene.placed.box_of(found.node);
    let pinned = is_pinned(scene.doc, port);
    let across = is_pinned_across(scene.doc, port);
    if !agree_along(pinned, side, place, found.place) {
        return false;
    }
    if !agree_across(across, side, place, found.place) {
        return false;
    }
    if !stands_flush(!across, side, outer, place, found.size) {
        return false;
    }
    lies_on(!pinned, outer, port_spot(scene, port))
}

// Whether two ports of a node obey its constraints together.
fn pair_kept(scene: &Scene<'_>, roomy: bool, node: u32, one: u32, other: u32) -> bool
    requires node_in { node < length scene.now.doc.now.nodes }
    requires one_in { one < length scene.now.doc.now.ports }
    requires other_in { other < length scene.now.doc.now.ports }
    requires other_of { node_of_port scene.now.doc.now other ≡ node }
    requires scene { IsScene scene.now }
    requires roomy { IsTrue roomy ↔ IsRoomy scene.now.doc.now scene.now.placed.now node (side_of_port scene.now.doc.now scene.now.placed.now other) }
    ensures { IsTrue result ↔ PortPair scene.now.doc.now scene.now.placed.now node one other }
{
    if !order_holds(scene, node, one, other) {
        return false;
    }
    if !order_holds(scene, node, other, one) {
        return false;
    }
    let first = port_spot(scene, one);
    let second = port_spot(scene, other);
    are_apart(roomy, first, second)
}

// Whether a port, if it is one of a node, obeys the node's constraints together with another.
fn pair_holds(scene: &Scene<'_>, roomy: bool, node: u32, one: u32, other: u32) -> bool
    requires node_in { node < length scene.now.doc.now.nodes }
    requires one_in { one < length scene.now.doc.now.ports }
    requires other_in { other < length scene.now.doc.now.ports }
    requires other_of { node_of_port scene.now.doc.now other ≡ node }
    requires scene { IsScene scene.now }
    requires roomy { IsTrue roomy ↔ IsRoomy scene.now.doc.now scene.now.placed.now node (side_of_port scene.now.doc.now scene.now.placed.now other) }
    ensures { IsTrue result ↔ PairHolds scene.now.doc.now scene.now.placed.now node one other }
{
    if scene.doc.port(one).node != node {
        return true;
    }
    pair_kept(scene, roomy, node, one, other)
}

// Whether a port obeys the constraints of its node together with each of lower number.
fn lower_hold(scene: &Scene<'_>, port: u32) -> bool
    requires port_in { port < length scene.now.doc.now.ports }
    requires scene { IsScene scene.now }
    ensures { IsTrue result ↔ LowerHold scene.now.doc.now scene.now.placed.now port }
{
    let node = scene.doc.port(port).node;
    let side = side_at(scene, port);
    let roomy = is_roomy(scene, node, side);
    for other in 0..port {
        if !pair_holds(scene, roomy, node, other, port) {
            return false;
        }
    }
    true
}

// Whether a port obeys the constraints of its node, alone and with each of lower number.
fn port_kept(scene: &Scene<'_>, port: u32) -> bool
    requires port_in { port < length scene.now.doc.now.ports }
    requires scene { IsScene scene.now }
    ensures { IsTrue result ↔ PortKept scene.now.doc.now scene.now.placed.now port }
{
    if !keeps_port(scene, port) {
        return false;
    }
    lower_hold(scene, port)
}

// Whether the ports of a node count with a level: those of its children, and the root's with the root's own.
fn counts_with(doc: &Doc, node: u32, holder: u32) -> bool
    requires { holder < length doc.now.nodes }
    ensures { IsTrue result ↔ CountsWith doc.now node holder }
{
    if is_child(doc, node, holder) {
        return true;
    }
    if node != 0 {
        return false;
    }
    holder == 0
}

// Whether a port, if it counts with the level, is kept.
fn port_holds(scene: &Scene<'_>, node: u32, port: u32) -> bool
    requires port_in { port < length scene.now.doc.now.ports }
    requires scene { IsScene scene.now }
    ensures { IsTrue result ↔ PortHolds scene.now.doc.now scene.now.placed.now node port }
{
    if !counts_with(scene.doc, node, scene.doc.port(port).node) {
        return true;
    }
    port_kept(scene, port)
}

// The first port of the level that is not kept.
pub(crate) fn first_port(scene: &Scene<'_>, node: u32) -> Option<u32>
    requires scene { IsScene scene.now }
    ensures { IsFirst (PortHolds scene.now.doc.now scene.now.placed.now node) result }
{
    for port in 0..scene.doc.ports().len() {
        if !port_holds(scene, node, port as u32) {
            return Some(port as u32);
        }
    }
    None
}
