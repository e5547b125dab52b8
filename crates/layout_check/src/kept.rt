//! Ports and ends of edges that are kept at a level.
ghost use Rattle.std.specs.Prelude.{◌<◌, MatchOption, length};
ghost use Rattle.elk_doc.specs.PortsKept.{PortsKept};
ghost use Rattle.layout_check.specs.Scenes.{IsScene};
ghost use Rattle.layout_check.specs.FirstPorts.{FirstPorts};

use crate::Place;
use crate::ends::first_edge;
use crate::fault::Fault;
use crate::ports::first_port;
use crate::scene::Scene;

/// The first port of a node's children that breaks a constraint of its node alone or together with a port of lower number,
/// and else the first edge of the level with an end at a child that breaks one alone, or together with a port, an edge of
/// lower number or the edge's other end. The ports of the root count with the root's level.
pub fn ports_fault(scene: &Scene<'_>, node: u32) -> Option<Fault>
    requires node_in { node < length scene.now.doc.now.nodes }
    requires scene { IsScene scene.now }
    ensures { MatchOption result
        (PortsKept scene.now.doc.now scene.now.placed.now node)
        (FirstPorts scene.now.doc.now scene.now.placed.now node) }
{
    let _node = scene.doc.node(node);
    if let Some(port) = first_port(scene, node) {
        return Some(Fault::lone(Place::Port(port)));
    }
    match first_edge(scene, node) {
        Some(edge) => Some(Fault::lone(Place::Edge(edge))),
        None => None,
    }
}
