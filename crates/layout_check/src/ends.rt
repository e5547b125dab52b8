//! Ends of edges at nodes that are kept.
ghost use Rattle.std.specs.Prelude.{◌≡◌, ◌↔◌, ◌<◌, IsTrue, false, true, length};
ghost use Rattle.elk_doc.specs.declared.document.End.TheVariants.{Node as AtNode};
ghost use Rattle.elk_doc.specs.PortsKept.{KeepsEnd, an_end};
ghost use Rattle.elk_doc.specs.Sides.{end_of};
ghost use Rattle.layout_check.specs.Faults.{IsFirst};
ghost use Rattle.layout_check.specs.Scenes.{IsScene};
ghost use Rattle.layout_check.specs.FirstPorts.{EdgeClear, EdgesClear, EndApart, EndHolds, EndKept, EndsHold, HasRoom, PortClear, PortsClear, SpotsDiffer, Tells};

use crate::read::is_edge_of;
use crate::scene::Scene;
use crate::sides::is_on_side;
use crate::spots::{are_apart, end_spot, is_roomy, lies_on, port_spot};
use elk_doc::document::End;
use elk_doc::places::section_end;
use elk_doc::sides::end_of;

// Whether an end at a node lies on its side.
fn keeps_end(scene: &Scene<'_>, node: u32, edge: u32, at_source: bool) -> bool
    requires node_in { node < length scene.now.doc.now.nodes }
    requires edge_in { edge < length scene.now.doc.now.edges }
    requires at_node { end_of scene.now.doc.now edge at_source ≡ AtNode node }
    requires scene { IsScene scene.now }
    ensures { IsTrue result ↔ KeepsEnd scene.now.doc.now scene.now.placed.now node edge at_source }
{
    let outer = scene.placed.box_of(node);
    let spot = end_spot(scene, edge, at_source);
    let point = section_end(scene.doc, scene.placed, edge, at_source);
    if !is_on_side(spot.side, outer, point) {
        return false;
    }
    lies_on(true, outer, spot)
}

// Whether a port, if it is one of a node, keeps apart from an end at this node: asked by the room of the end's side, or as
// if the side had room. The tests below are asked in the same ways.
fn port_clear(
    scene: &Scene<'_>,
    roomy: bool,
    node: u32,
    edge: u32,
    at_source: bool,
    port: u32,
) -> bool
    requires edge_in { edge < length scene.now.doc.now.edges }
    requires port_in { port < length scene.now.doc.now.ports }
    requires at_node { end_of scene.now.doc.now edge at_source ≡ AtNode node }
    requires scene { IsScene scene.now }
    requires roomy { HasRoom scene.now.doc.now scene.now.placed.now node edge at_source → IsTrue roomy }
    ensures { Tells roomy (HasRoom scene.now.doc.now scene.now.placed.now node edge at_source)
        (PortClear scene.now.doc.now scene.now.placed.now node edge at_source port) result }
{
    if scene.doc.port(port).node != node {
        return true;
    }
    let first = port_spot(scene, port);
    let second = end_spot(scene, edge, at_source);
    are_apart(roomy, first, second)
}

// Whether all ports of a node keep apart from an end at it.
fn ports_clear(scene: &Scene<'_>, roomy: bool, node: u32, edge: u32, at_source: bool) -> bool
    requires edge_in { edge < length scene.now.doc.now.edges }
    requires at_node { end_of scene.now.doc.now edge at_source ≡ AtNode node }
    requires scene { IsScene scene.now }
    requires roomy { HasRoom scene.now.doc.now scene.now.placed.now node edge at_source → IsTrue roomy }
    ensures { Tells roomy (HasRoom scene.now.doc.now scene.now.placed.now node edge at_source)
        (PortsClear scene.now.doc.now scene.now.placed.now node edge at_source) result }
{
    for port in 0..scene.doc.ports().len() {
        let clear = port_clear(scene, roomy, node, edge, at_source, port as u32);
        if !clear {
            return false;
        }
    }
    true
}

// Whether an end of an edge keeps apart from an end at a node.
fn end_clear(
    scene: &Scene<'_>,
    roomy: bool,
    _node: u32,
    edge: u32,
    at_source: bool,
    other: u32,
    other_source: bool,
) -> bool
    requires edge_in { edge < length scene.now.doc.now.edges }
    requires other_in { other < length scene.now.doc.now.edges }
    requires at_node { end_of scene.now.doc.now edge at_source ≡ AtNode _node }
    requires scene { IsScene scene.now }
    requires roomy { HasRoom scene.now.doc.now scene.now.placed.now _node edge at_source → IsTrue roomy }
    ensures { Tells roomy (HasRoom scene.now.doc.now scene.now.placed.now _node edge at_source)
        (SpotsDiffer scene.now.doc.now scene.now.placed.now _node (an_end other other_source) (an_end edge at_source)) result }
{
    let first = end_spot(scene, other, other_source);
    let second = end_spot(scene, edge, at_source);
    are_apart(roomy, first, second)
}

// Whether both ends of an edge keep apart from an end at a node.
fn edge_clear(
    scene: &Scene<'_>,
    roomy: bool,
    node: u32,
    edge: u32,
    at_source: bool,
    other: u32,
) -> bool
    requires edge_in { edge < length scene.now.doc.now.edges }
    requires other_in { other < length scene.now.doc.now.edges }
    requires at_node { end_of scene.now.doc.now edge at_source ≡ AtNode node }
    requires scene { IsScene scene.now }
    requires roomy { HasRoom scene.now.doc.now scene.now.placed.now node edge at_source → IsTrue roomy }
    ensures { Tells roomy (HasRoom scene.now.doc.now scene.now.placed.now node edge at_source)
        (EdgeClear scene.now.doc.now scene.now.placed.now node edge at_source other) result }
{
    if !end_clear(scene, roomy, node, edge, at_source, other, true) {
        return false;
    }
    end_clear(scene, roomy, node, edge, at_source, other, false)
}

// Whether all ends of edges of lower numbers keep apart from an end at a node.
fn edges_clear(scene: &Scene<'_>, roomy: bool, node: u32, edge: u32, at_source: bool) -> bool
    requires edge_in { edge < length scene.now.doc.now.edges }
    requires at_node { end_of scene.now.doc.now edge at_source ≡ AtNode node }
    requires scene { IsScene scene.now }
    requires roomy { HasRoom scene.now.doc.now scene.now.placed.now node edge at_source → IsTrue roomy }
    ensures { Tells roomy (HasRoom scene.now.doc.now scene.now.placed.now node edge at_source)
        (EdgesClear scene.now.doc.now scene.now.placed.now node edge at_source) result }
{
    for other in 0..edge {
        if !edge_clear(scene, roomy, node, edge, at_source, other) {
            return false;
        }
    }
    true
}

// Whether an end at a node keeps apart from ports, lower edges and the edge's other end.
fn is_apart(scene: &Scene<'_>, roomy: bool, node: u32, edge: u32, at_source: bool) -> bool
    requires edge_in { edge < length scene.now.doc.now.edges }
    requires at_node { end_of scene.now.doc.now edge at_source ≡ AtNode node }
    requires scene { IsScene scene.now }
    requires roomy { HasRoom scene.now.doc.now scene.now.placed.now node edge at_source → IsTrue roomy }
    ensures { Tells roomy (HasRoom scene.now.doc.now scene.now.placed.now node edge at_source)
        (EndApart scene.now.doc.now scene.now.placed.now node edge at_source) result }
{
    if !ports_clear(scene, roomy, node, edge, at_source) {
        return false;
    }
    if !edges_clear(scene, roomy, node, edge, at_source) {
        return false;
    }
    end_clear(scene, roomy, node, edge, at_source, edge, !at_source)
}

// Whether an end at a node obeys the constraints of the node, alone and with ports, lower edges and the edge's other end.
// It is first asked as if the side had room: most ends keep apart even so, and counting the room takes long.
fn end_kept(scene: &Scene<'_>, node: u32, edge: u32, at_source: bool) -> bool
    requires node_in { node < length scene.now.doc.now.nodes }
    requires edge_in { edge < length scene.now.doc.now.edges }
    requires at_node { end_of scene.now.doc.now edge at_source ≡ AtNode node }
    requires scene { IsScene scene.now }
    ensures { IsTrue result ↔ EndKept scene.now.doc.now scene.now.placed.now node edge at_source }
{
    if !keeps_end(scene, node, edge, at_source) {
        return false;
    }
    if is_apart(scene, true, node, edge, at_source) {
        return true;
    }
    let spot = end_spot(scene, edge, at_source);
    let roomy = is_roomy(scene, node, spot.side);
    is_apart(scene, roomy, node, edge, at_source)
}

// Whether an end of an edge, if it stands at a node, is kept.
fn end_holds(scene: &Scene<'_>, edge: u32, at_source: bool) -> bool
    requires edge_in { edge < length scene.now.doc.now.edges }
    requires scene { IsScene scene.now }
    ensures { IsTrue result ↔ EndHolds scene.now.doc.now scene.now.placed.now edge at_source }
{
    match end_of(scene.doc, edge, at_source) {
        End::Port(_) => true,
        End::Node(node) => { end_kept(scene, node, edge, at_source) }
    }
}

// Whether the ends of an edge, if it belongs to the level, are kept where they stand at nodes.
fn ends_hold(scene: &Scene<'_>, node: u32, edge: u32) -> bool
    requires edge_in { edge < length scene.now.doc.now.edges }
    requires scene { IsScene scene.now }
    ensures { IsTrue result ↔ EndsHold scene.now.doc.now scene.now.placed.now node edge }
{
    if !is_edge_of(scene.doc, node, edge) {
        return true;
    }
    if !end_holds(scene, edge, true) {
        return false;
    }
    end_holds(scene, edge, false)
}

// The first edge of the level with an end at a node that is not kept.
pub(crate) fn first_edge(scene: &Scene<'_>, node: u32) -> Option<u32>
    requires scene { IsScene scene.now }
    ensures { IsFirst (EndsHold scene.now.doc.now scene.now.placed.now node) result }
{
    for edge in 0..scene.doc.edges().len() {
        if !ends_hold(scene, node, edge as u32) {
            return Some(edge as u32);
        }
    }
    None
}
