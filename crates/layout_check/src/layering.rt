//! Layers that rise along each edge, and their span.
ghost use Rattle.std.specs.Prelude.{◌≡◌, ◌↔◌, ◌*◌, ◌<◌, ◌≤◌, ◌^◌, pos, ◌+ℤ◌, ◌≤ℤ◌, IsTrue, MatchOption, length};
ghost use Rattle.elk_doc.specs.Layering.{Layering};
ghost use Rattle.elk_doc.specs.Level.{is_edge_of};
ghost use Rattle.elk_doc.specs.Numbers.{sum_below};
ghost use Rattle.elk_doc.specs.Sound.{IsSound};
ghost use Rattle.layout_check.specs.Faults.{IsFirst};
ghost use Rattle.layout_check.specs.Scenes.{IsScene};
ghost use Rattle.layout_check.specs.ListedLevels.{AreLayers};
ghost use Rattle.layout_check.specs.FirstLevels.{EdgeRises, FirstLayering, end_layer, length_of, rise_of};

use crate::Place;
use crate::fault::Fault;
use crate::lists::number_at;
use crate::read::is_edge_of;
use crate::scene::Scene;
use elk_doc::document::Doc;
use elk_doc::drawing::Certificate;
use elk_doc::level::is_loop;

// The layer of the node at an end of an edge, of the lists of all ends and layers.
fn layer_of(ends: &[u32], layers: &[u32], edge: u32) -> u32
    ensures { result ≡ end_layer ends.now layers.now edge }
{
    let node = number_at(ends, edge as usize);
    number_at(layers, node as usize)
}

// Whether a layer lies before another.
fn is_before(layer: u32, other: u32) -> bool
    ensures { IsTrue result ↔ ((pos layer +ℤ pos 1) ≤ℤ pos other) }
{
    layer < other
}

// Whether an oriented edge of the level, if it is no self-loop, leads to a greater layer.
fn edge_rises(
    scene: &Scene<'_>,
    node: u32,
    _certificate: &Certificate,
    layers: &[u32],
    edge: u32,
) -> bool
    requires sound { IsSound scene.now.doc.now }
    requires edge_in { edge < length scene.now.doc.now.edges }
    requires scene { IsScene scene.now }
    requires layers { AreLayers scene.now.doc.now node _certificate.now layers.now }
    ensures { IsTrue result ↔ EdgeRises scene.now.doc.now scene.now.placed.now node _certificate.now edge }
{
    if !is_edge_of(scene.doc, node, edge) {
        return true;
    }
    if is_loop(scene.doc, edge) {
        return true;
    }
    is_before(
        layer_of(scene.tails, layers, edge),
        layer_of(scene.heads, layers, edge),
    )
}

// The first edge that does not lead to a greater layer.
fn first_fall(
    scene: &Scene<'_>,
    node: u32,
    certificate: &Certificate,
    layers: &[u32],
) -> Option<u32>
    requires scene { IsScene scene.now }
    requires layers { AreLayers scene.now.doc.now node certificate.now layers.now }
    ensures { IsFirst (EdgeRises scene.now.doc.now scene.now.placed.now node certificate.now) result }
{
    for edge in 0..scene.doc.edges().len() {
        if !edge_rises(scene, node, certificate, layers, edge as u32) {
            return Some(edge as u32);
        }
    }
    None
}

// How far an edge rises, 0 if it falls.
fn rise_of(heads: &[u32], tails: &[u32], layers: &[u32], edge: u32) -> u32
    ensures { result ≡ rise_of heads.now tails.now layers.now edge }
{
    let head = layer_of(heads, layers, edge);
    let tail = layer_of(tails, layers, edge);
    head.saturating_sub(tail)
}

// A weight times a rise.
fn times(weight: u32, rise: u32) -> u64
    requires { weight ≤ 2 ^ 20 }
    ensures value { result ≡ weight * rise }
    ensures small { result ≤ 2 ^ 52 }
{
    u64::from(weight) * u64::from(rise)
}

// The weight of an edge times its rise.
fn length_of(doc: &Doc, heads: &[u32], tails: &[u32], layers: &[u32], edge: u32) -> u64
    requires { edge < length doc.now.edges }
    ensures value { result ≡ length_of doc.now heads.now tails.now layers.now edge }
    ensures small { result ≤ 2 ^ 52 }
{
    let weight = doc.edge(edge).weight;
    let rise = rise_of(heads, tails, layers, edge);
    times(weight, rise)
}

// The sum of weight times rise over the level's edges.
fn span(doc: &Doc, node: u32, heads: &[u32], tails: &[u32], layers: &[u32]) -> u64
    ensures value { result ≡ sum_below (is_edge_of doc.now node) (length_of doc.now heads.now tails.now layers.now) (length doc.now.edges) }
    ensures sound { IsSound doc.now }
{
    let mut span: u64 = 0;
    for edge in 0..doc.edges().len() {
        if is_edge_of(doc, node, edge as u32) {
            span += length_of(doc, heads, tails, layers, edge as u32);
        }
    }
    span
}

/// The first edge of a node's level that does not lead to a greater layer, as it is oriented, and else the node, where the
/// written span is not the sum of weight times length. The layers are those of the level, by node.
pub fn layering_fault(
    scene: &Scene<'_>,
    node: u32,
    certificate: &Certificate,
    layers: &[u32],
) -> Option<Fault>
    requires scene { IsScene scene.now }
    requires layers { AreLayers scene.now.doc.now node certificate.now layers.now }
    ensures { MatchOption result
        (Layering scene.now.doc.now scene.now.placed.now node certificate.now)
        (FirstLayering scene.now.doc.now scene.now.placed.now node certificate.now) }
{
    if let Some(edge) = first_fall(scene, node, certificate, layers) {
        return Some(Fault::lone(Place::Edge(edge)));
    }
    if span(scene.doc, node, scene.heads, scene.tails, layers) == certificate.span {
        return None;
    }
    Some(Fault::lone(Place::Node(node)))
}
