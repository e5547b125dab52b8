//! The parts of a level's drawing, written into the drawing of the document.
ghost use Rattle.std.specs.Prelude.{◌≡◌, ℕ, ◌<◌, List, IfSome, length, map, slice_index_or};
ghost use Rattle.std.specs.List.{All};
ghost use Rattle.elk_doc.specs.Document.{node_at};
ghost use Rattle.drawing_types.specs.Shapes.{origin};
ghost use Rattle.elk_doc.specs.Drawing.{no_rect, no_section};
ghost use Rattle.elk_doc.specs.Sound.{IsSoundPadding};
ghost use Rattle.working_frame.specs.Ranges.{IsFarPoint, IsFarSection};
ghost use Rattle.level_io.specs.Canvas.{IsDrawingOf, drawing_of};
ghost use Rattle.level_io.specs.Changed.{AreChanged, AreDistinct, number_at};
ghost use Rattle.level_io.specs.Ranges.{IsLongBox};
ghost use Rattle.level_io.specs.Written.{AreNumbersAt, ArePortPlaces, ArePortsByNode, ArePortsWritten, IsWritable, IsWritten, box_change, numbered_by, port_change, section_change};

use crate::canvas::Canvas;
use crate::figure::LevelFigure;
use crate::rotating_back::{box_back, place_back, section_back};
use crate::start::start_of;
use drawing_types::list::Items;
use drawing_types::section::Section;
use drawing_types::shape::{Point, Rect};
use elk_doc::document::{Direction, Doc, LevelOptions};
use elk_doc::drawing::Certificate;

/// What is at a level, by its numbers in the document and in document order: the children of its node and the edges of the level.
/// Beside them the ports of each node of the document, by node.
#[derive(Clone, Copy)]
pub struct LevelNumbers<'a> {
    pub children: &'a [u32],
    pub edges: &'a [u32],
    pub ports: &'a [Vec<u32>],
}

// Puts the boxes of children at their places in the frame, moved by `by`.
fn write_boxes(way: Direction, by: Point, children: &[u32], places: &[Point], boxes: &mut [Rect])
    requires children { AreDistinct children.now (length boxes.old) }
    requires as_many { length places.now ≡ length children.now }
    requires places { All IsFarPoint places.now }
    requires by { IsFarPoint by }
    requires sizes { (i : ℕ) → i < length children.now → IsLongBox (slice_index_or boxes.old (number_at children.now i) no_rect) }
    ensures { AreChanged children.now (box_change way by places.now) no_rect boxes.old boxes.new }
{
    for i in 0..children.len() {
        let child = children[i] as usize;
        boxes[child] = box_back(way, by, places[i], boxes[child]);
    }
}

/// Puts the ports of one node, by their numbers, at their places in its box: each place is rotated back from the frame in which
/// this direction runs to the right. All other ports stay. Takes no memory.
///
/// Proved:
/// - The ports of a single node are written in the same way.
pub fn write_ports_of(
    doc: &Doc,
    way: Direction,
    outer: Rect,
    numbers: &[u32],
    places: &[Point],
    ports: &mut [Point],
)
    requires numbers { AreDistinct numbers.now (length ports.old) }
    requires all { length ports.old ≡ length doc.now.ports }
    requires as_many { length places.now ≡ length numbers.now }
    requires places { All IsFarPoint places.now }
    requires long { IsLongBox outer }
    ensures { AreChanged numbers.now (port_change doc.now way outer numbers.now places.now) origin ports.old ports.new }
{
    for j in 0..numbers.len() {
        let port = doc.port(numbers[j]);
        ports[numbers[j] as usize] = place_back(way, outer, port.size, places[j]);
    }
}

// Puts the ports of children at their places in their boxes.
fn write_ports(
    doc: &Doc,
    way: Direction,
    numbers: &LevelNumbers<'_>,
    boxes: &[Rect],
    places: &[Items<Point>],
    ports: &mut [Point],
)
    requires children { AreDistinct numbers.now.children.now (length doc.now.nodes) }
    requires by_node { ArePortsByNode doc.now numbers.now.ports.now }
    requires boxes { length boxes.now ≡ length doc.now.nodes }
    requires sizes { (i : ℕ) → i < length numbers.now.children.now → IsLongBox (slice_index_or boxes.now (number_at numbers.now.children.now i) no_rect) }
    requires places { ArePortPlaces doc.now numbers.now.children.now places.now }
    requires all { length ports.old ≡ length doc.now.ports }
    ensures { ArePortsWritten (length numbers.now.children.now) doc.now way numbers.now.children.now boxes.now places.now ports.old ports.new }
{
    for i in 0..numbers.children.len() {
        let child = numbers.children[i] as usize;
        let outer = boxes[child];
        let listed = numbers.ports[child].as_slice();
        write_ports_of(doc, way, outer, listed, places[i].as_slice(), ports);
    }
}

// Writes the sections of edges, moved by `by` in the frame.
fn write_sections(
    way: Direction,
    by: Point,
    edges: &[u32],
    sections: Vec<Section>,
    written: &mut [Section],
)
    requires edges { AreDistinct edges.now (length written.old) }
    requires as_many { length sections.items ≡ length edges.now }
    requires sections { All IsFarSection sections.items }
    requires by { IsFarPoint by }
    ensures { AreChanged edges.now (section_change way by sections.items) no_section written.old written.new }
{
    let mut i = 0;
    for section in sections {
        written[edges[i] as usize] = section_back(way, by, section);
        i += 1;
    }
}

// Takes the numbers that stand at these places.
fn rename(numbers: &[u32], places: &mut [u32])
    requires { All (λ (i : ℕ). i < length numbers.now) places.old }
    ensures { places.new ≡ map (number_at numbers.now) places.old }
{
    for i in 0..places.len() {
        places[i] = numbers[places[i] as usize];
    }
}

// A certificate of a level, with the document's numbers of edges.
fn numbered(edges: &[u32], certificate: Certificate) -> Certificate
    requires { All (λ (i : ℕ). i < length edges.now) certificate.reversed }
    ensures { result ≡ numbered_by edges.now certificate }
{
    let mut reversed = certificate.reversed.into_vec();
    rename(edges, reversed.as_mut_slice());
    Certificate {
        layers: certificate.layers,
        reversed: Items::from_vec(reversed),
        flow: certificate.flow,
        span: certificate.span,
        parts: certificate.parts,
    }
}

// Writes the drawing of a node's level, which has these options.
fn write_with(
    doc: &Doc,
    node: u32,
    numbers: &LevelNumbers<'_>,
    options: &LevelOptions,
    out: LevelFigure,
    canvas: &mut Canvas,
)
    requires node { node < length doc.now.nodes }
    requires padding { IsSoundPadding options.now.padding }
    requires numbers { AreNumbersAt doc.now node numbers.now }
    requires canvas { IsDrawingOf doc.now (drawing_of canvas.old) }
    requires out { IsWritable doc.now (drawing_of canvas.old) node out }
    ensures { IsWritten doc.now node options.now out (drawing_of canvas.old) (drawing_of canvas.new) }
{
    let way = options.direction;
    let by = start_of(way, options.padding, out.extent);
    let places = out.boxes.as_slice();
    write_boxes(
        way,
        by,
        numbers.children,
        places,
        canvas.boxes.as_mut_slice(),
    );
    let boxes = canvas.boxes.as_slice();
    let ports = canvas.ports.as_mut_slice();
    write_ports(doc, way, numbers, boxes, out.ports.as_slice(), ports);
    let sections = out.sections.into_vec();
    let written = canvas.sections.as_mut_slice();
    write_sections(way, by, numbers.edges, sections, written);
    canvas.levels[node as usize] = Some(numbered(numbers.edges, out.certificate));
}

/// Writes the drawing of a node's level into the drawing of the document: the places of the children and of their ports, the
/// sections of the edges and the certificate, all rotated back from the frame of the level's direction and moved to begin at the
/// padding. All else stays. Takes no memory.
///
/// Proved:
/// - The drawing of a level, in the frame of its direction, is written into the drawing of the document.
/// - The boxes of the children, their ports, the routes of the edges and the certificate come from the level's own drawing, rotated
///   back and moved to begin at the padding.
/// - Everything else stays the same, so all other levels are drawn as before.
pub fn write_level(
    doc: &Doc,
    node: u32,
    numbers: &LevelNumbers<'_>,
    out: LevelFigure,
    canvas: &mut Canvas,
)
    requires node { node < length doc.now.nodes }
    requires numbers { AreNumbersAt doc.now node numbers.now }
    requires canvas { IsDrawingOf doc.now (drawing_of canvas.old) }
    requires out { IsWritable doc.now (drawing_of canvas.old) node out }
    ensures { IfSome (node_at doc.now node).level (λ o. IsWritten doc.now node o out (drawing_of canvas.old) (drawing_of canvas.new)) }
{
    if let Some(options) = &doc.node(node).level {
        write_with(doc, node, numbers, options, out, canvas);
    }
}
