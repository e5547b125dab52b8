//! A drawing that is judged.
ghost use Rattle.std.specs.Prelude.{◌≡◌, ◌<◌, length};
ghost use Rattle.elk_doc.specs.Places.{dock_of, outline_of};
ghost use Rattle.elk_doc.specs.Sides.{side_of_port};
ghost use Rattle.layout_check.specs.Scenes.{IsScene};

use drawing_types::shape::{Dock, Rect, Side};
use elk_doc::document::Doc;
use elk_doc::drawing::Placed;

/// A document, a drawing of it, and what that has at each node, port or edge, each list made once: the outlines of all
/// nodes, the sides of all ports, and of all edges the docks at their sources and at their targets, the nodes at which they
/// enter and leave as they are oriented, and the weights.
#[derive(Clone, Copy)]
pub struct Scene<'a> {
    pub doc: &'a Doc,
    pub placed: &'a Placed,
    pub outlines: &'a [Rect],
    pub sides: &'a [Side],
    pub sources: &'a [Dock],
    pub targets: &'a [Dock],
    pub heads: &'a [u32],
    pub tails: &'a [u32],
    pub weights: &'a [u64],
}

/// The outline of a node, relative to the node's parent.
pub fn outline_at(scene: &Scene<'_>, node: u32) -> Rect
    requires node_in { node < length scene.now.doc.now.nodes }
    requires scene { IsScene scene.now }
    ensures { result ≡ outline_of scene.now.doc.now scene.now.placed.now node }
{
    scene.outlines[node as usize]
}

/// The side of a port.
pub fn side_at(scene: &Scene<'_>, port: u32) -> Side
    requires port_in { port < length scene.now.doc.now.ports }
    requires scene { IsScene scene.now }
    ensures { result ≡ side_of_port scene.now.doc.now scene.now.placed.now port }
{
    scene.sides[port as usize]
}

/// The dock of an edge at one of its ends.
pub fn dock_of(scene: &Scene<'_>, edge: u32, at_source: bool) -> Dock
    requires edge_in { edge < length scene.now.doc.now.edges }
    requires scene { IsScene scene.now }
    ensures { result ≡ dock_of scene.now.doc.now scene.now.placed.now edge at_source }
{
    if at_source {
        scene.sources[edge as usize]
    } else {
        scene.targets[edge as usize]
    }
}
