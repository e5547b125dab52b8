//! The order of the ports of a node under a fixed order.
ghost use Rattle.std.specs.Prelude.{◌≡◌, ◌↔◌, ◌<◌, IsTrue, length};
ghost use Rattle.elk_doc.specs.declared.document.PortRule.TheVariants.{FixedOrder};
ghost use Rattle.elk_doc.specs.PortsKept.{ComesBefore, clockwise, given_clockwise, port_offset};
ghost use Rattle.elk_doc.specs.Sides.{side_of_port};
ghost use Rattle.layout_check.specs.Scenes.{IsScene};
ghost use Rattle.layout_check.specs.FirstPorts.{OrderHolds};

use crate::scene::{Scene, side_at};
use crate::sides::clockwise;
use crate::spots::{is_side, middle_along, port_offset};
use elk_doc::document::PortRule;

// Whether a rule keeps the order of ports.
fn is_fixed_order(rule: PortRule) -> bool
    ensures { IsTrue result ↔ rule ≡ FixedOrder }
{
    match rule {
        PortRule::Free => false,
        PortRule::FixedSide => false,
        PortRule::FixedOrder => true,
        PortRule::FixedPos => false,
    }
}

// The given place of a port's anchor along its side, counted clockwise.
fn given_clockwise(scene: &Scene<'_>, port: u32) -> i128
    requires port_in { port < length scene.now.doc.now.ports }
    requires scene { IsScene scene.now }
    ensures { result ≡ given_clockwise scene.now.doc.now scene.now.placed.now port }
{
    let found = scene.doc.port(port);
    let side = side_at(scene, port);
    clockwise(side, middle_along(side, found.place, found.size))
}

// The offset of a port's anchor, counted clockwise.
fn offset_clockwise(scene: &Scene<'_>, port: u32) -> i128
    requires port_in { port < length scene.now.doc.now.ports }
    requires scene { IsScene scene.now }
    ensures { result ≡ clockwise (side_of_port scene.now.doc.now scene.now.placed.now port) (port_offset scene.now.doc.now scene.now.placed.now port) }
{
    let side = side_at(scene, port);
    clockwise(side, port_offset(scene, port))
}

// Whether a port comes before another.
fn comes_before(scene: &Scene<'_>, one: u32, other: u32) -> bool
    requires one_in { one < length scene.now.doc.now.ports }
    requires other_in { other < length scene.now.doc.now.ports }
    requires scene { IsScene scene.now }
    ensures { IsTrue result ↔ ComesBefore scene.now.doc.now scene.now.placed.now one other }
{
    let first = scene.doc.port(one).index;
    let second = scene.doc.port(other).index;
    if first < second {
        return true;
    }
    if second < first {
        return false;
    }
    let a = given_clockwise(scene, one);
    let b = given_clockwise(scene, other);
    if a < b {
        return true;
    }
    if b < a {
        return false;
    }
    one < other
}

// Whether a port, if the order is fixed and it comes before another of its side, stands no further clockwise.
pub(crate) fn order_holds(scene: &Scene<'_>, node: u32, one: u32, other: u32) -> bool
    requires node_in { node < length scene.now.doc.now.nodes }
    requires one_in { one < length scene.now.doc.now.ports }
    requires other_in { other < length scene.now.doc.now.ports }
    requires scene { IsScene scene.now }
    ensures { IsTrue result ↔ OrderHolds scene.now.doc.now scene.now.placed.now node one other }
{
    if !is_fixed_order(scene.doc.node(node).rule) {
        return true;
    }
    let first = side_at(scene, one);
    let second = side_at(scene, other);
    if !is_side(first, second) {
        return true;
    }
    if !comes_before(scene, one, other) {
        return true;
    }
    let place = offset_clockwise(scene, one);
    let most = offset_clockwise(scene, other);
    if place > most {
        return false;
    }
    true
}
