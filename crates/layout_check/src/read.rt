//! Readers of documents and drawings.
ghost use Rattle.std.specs.Prelude.{◌≡◌, ◌+◌, ◌<◌, length, slice_index_or};
ghost use Rattle.drawing_types.specs.Shapes.{origin};
ghost use Rattle.elk_doc.specs.Drawing.{head_node, points_of, tail_node};
ghost use Rattle.elk_doc.specs.Fits.{Fits};
ghost use Rattle.elk_doc.specs.Level.{is_edge_of};

use drawing_types::section::Section;
use drawing_types::shape::Point;
use elk_doc::document::Doc;
use elk_doc::drawing::Placed;
use elk_doc::level::{level_of, node_of};
use elk_doc::sides::is_listed;

/// Whether an edge belongs to the level of a node.
pub fn is_edge_of(doc: &Doc, node: u32, edge: u32) -> bool
    requires { edge < length doc.now.edges }
    ensures { result ≡ is_edge_of doc.now node edge }
{
    level_of(doc, edge) == node
}

/// The node at which the oriented edge leaves.
pub fn tail_node(doc: &Doc, placed: &Placed, edge: u32) -> u32
    requires edge_in { edge < length doc.now.edges }
    requires fits { Fits doc.now placed.now }
    ensures value { result ≡ tail_node doc.now placed.now edge }
    ensures inside { result < length doc.now.nodes }
{
    let found = doc.edge(edge);
    if is_listed(doc, placed, edge) {
        node_of(doc, found.target)
    } else {
        node_of(doc, found.source)
    }
}

/// The node at which the oriented edge enters.
pub fn head_node(doc: &Doc, placed: &Placed, edge: u32) -> u32
    requires edge_in { edge < length doc.now.edges }
    requires fits { Fits doc.now placed.now }
    ensures value { result ≡ head_node doc.now placed.now edge }
    ensures inside { result < length doc.now.nodes }
{
    let found = doc.edge(edge);
    if is_listed(doc, placed, edge) {
        node_of(doc, found.source)
    } else {
        node_of(doc, found.target)
    }
}

/// How many points a route has.
pub fn point_count(section: &Section) -> usize
    ensures { result ≡ length (points_of section.now) }
{
    section.bends.as_slice().len() + 2
}

/// A point of a route: its start, a bend or its end.
pub fn point_at(section: &Section, index: usize) -> Point
    requires { index < length (points_of section.now) }
    ensures { result ≡ slice_index_or (points_of section.now) index origin }
{
    let bends = section.bends.as_slice();
    if index == 0 {
        return section.start;
    }
    if index <= bends.len() {
        return bends[index - 1];
    }
    section.end
}
