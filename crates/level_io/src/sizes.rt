//! The size that a node needs round the drawing of its level.
ghost use Rattle.std.specs.Prelude.{◌≡◌, ◌+ℤ◌, ◌<◌, ◌^◌, IfSome, length};
ghost use Rattle.elk_doc.specs.Document.{node_at};
ghost use Rattle.elk_doc.specs.Fitted.{IsGreatestOf};
ghost use Rattle.elk_doc.specs.Sound.{IsLength, IsSoundPadding, IsSoundSize};
ghost use Rattle.drawing_types.specs.Ranges.{IsPlaceWithin};
ghost use Rattle.working_frame.specs.Rotated as rotated;
ghost use Rattle.level_io.specs.Canvas.{IsDrawingOf, drawing_of};
ghost use Rattle.level_io.specs.Changed.{AreDistinct};
ghost use Rattle.level_io.specs.Ranges.{IsLong, IsLongSize};
ghost use Rattle.level_io.specs.Sizes as sizes;
ghost use Rattle.level_io.specs.Sizes.{AsksListed, IsNodeFramed, IsSizeListed};
ghost use Rattle.level_io.specs.Written.{AreNumbersAt};

use crate::canvas::Canvas;
use crate::writing::LevelNumbers;
use drawing_types::shape::{Point, Rect, Side, Size};
use elk_doc::document::{Direction, Doc, LevelOptions, PortRule};
use working_frame::rotated_size;

// The size in the document of content of this extent in the frame.
fn content_size(way: Direction, extent: Size) -> Size
    requires { IsLongSize extent }
    ensures value { result ≡ rotated.rotated_size way extent }
    ensures long { IsLongSize result }
{
    rotated_size(way, extent)
}

// The side on which a port of a compound node is pinned.
fn pinned_under(rule: PortRule, asked: Option<Side>) -> Option<Side>
    ensures { result ≡ sizes.pinned_under rule asked }
{
    match rule {
        PortRule::Free => None,
        PortRule::FixedSide => None,
        PortRule::FixedOrder => None,
        PortRule::FixedPos => asked,
    }
}

// Where a port ends that lies on the north or the south side.
fn end_across(side: Option<Side>, place: Point, size: Size) -> Option<i64>
    requires far { IsPlaceWithin (2 ^ 53) place }
    requires small { IsSoundSize size }
    ensures { result ≡ sizes.end_across side place size }
{
    match side {
        None => None,
        Some(Side::North) => Some(place.x + size.width),
        Some(Side::East) => None,
        Some(Side::South) => Some(place.x + size.width),
        Some(Side::West) => None,
    }
}

// Where a port ends that lies on the east or the west side.
fn end_down(side: Option<Side>, place: Point, size: Size) -> Option<i64>
    requires far { IsPlaceWithin (2 ^ 53) place }
    requires small { IsSoundSize size }
    ensures { result ≡ sizes.end_down side place size }
{
    match side {
        None => None,
        Some(Side::North) => None,
        Some(Side::East) => Some(place.y + size.height),
        Some(Side::South) => None,
        Some(Side::West) => Some(place.y + size.height),
    }
}

// Where a port of a compound node ends to which the node must reach: across on the north and south sides, down on the others.
fn end_of(doc: &Doc, across: bool, port: u32) -> Option<i64>
    requires { port < length doc.now.ports }
    ensures { result ≡ sizes.end_of doc.now across port }
{
    let port = doc.port(port);
    let side = pinned_under(doc.node(port.node).rule, port.side);
    if across {
        end_across(side, port.place, port.size)
    } else {
        end_down(side, port.place, port.size)
    }
}

// A length, and an end where there is one: the greater of them.
fn raised(length: i64, end: Option<i64>) -> i64
    ensures { result ≡ sizes.raised length end }
{
    match end {
        Some(end) => length.max(end),
        None => length,
    }
}

// The greatest of a length and the ends of these ports.
fn greatest_end(doc: &Doc, across: bool, ports: &[u32], base: i64) -> i64
    requires { AreDistinct ports.now (length doc.now.ports) }
    ensures { IsGreatestOf (AsksListed doc.now across base ports.now (length ports.now)) result }
{
    let mut greatest = base;
    for i in 0..ports.len() {
        greatest = raised(greatest, end_of(doc, across, ports[i]));
    }
    greatest
}

// A length with padding on both sides.
fn padded(before: i64, length: i64, after: i64) -> i64
    requires before { IsLength before }
    requires length { IsLong length }
    requires after { IsLength after }
    ensures { result ≡ (before +ℤ length) +ℤ after }
{
    before + length + after
}

// The size of a node with these ports round content of this extent in the frame.
fn size_round(doc: &Doc, ports: &[u32], options: &LevelOptions, extent: Size) -> Size
    requires ports { AreDistinct ports.now (length doc.now.ports) }
    requires padding { IsSoundPadding options.now.padding }
    requires extent { IsLongSize extent }
    ensures { IsSizeListed doc.now ports.now options.now extent result }
{
    let content = content_size(options.direction, extent);
    let padding = options.padding;
    let width = padded(padding.left, content.width, padding.right);
    let height = padded(padding.top, content.height, padding.bottom);
    Size {
        width: greatest_end(doc, true, ports, width),
        height: greatest_end(doc, false, ports, height),
    }
}

// Gives a box another size.
fn resize(boxes: &mut [Rect], node: u32, size: Size)
    requires { node < length boxes.old }
    ensures { boxes.new ≡ sizes.resized boxes.old node size }
{
    let place = boxes[node as usize];
    boxes[node as usize] = Rect {
        x: place.x,
        y: place.y,
        width: size.width,
        height: size.height,
    };
}

// Gives a node the size that it needs, where its level has these options.
fn frame_with(
    doc: &Doc,
    node: u32,
    numbers: &LevelNumbers<'_>,
    options: &LevelOptions,
    extent: Size,
    canvas: &mut Canvas,
)
    requires node { node < length doc.now.nodes }
    requires padding { IsSoundPadding options.now.padding }
    requires numbers { AreNumbersAt doc.now node numbers.now }
    requires canvas { IsDrawingOf doc.now (drawing_of canvas.old) }
    requires extent { IsLongSize extent }
    ensures { IsNodeFramed doc.now node options.now extent (drawing_of canvas.old) (drawing_of canvas.new) }
{
    let ports = numbers.ports[node as usize].as_slice();
    let size = size_round(doc, ports, options, extent);
    resize(canvas.boxes.as_mut_slice(), node, size);
}

/// Gives a node the size that it needs round the drawing of its level, of which `extent` is the extent in the frame: the content
/// with the padding on all sides, and more where a pinned port ends further. The node stays at its place, and all else stays.
/// The ports of the node are not placed.
///
/// Proved:
/// - The node gets the size that its content, its padding and its pinned ports need.
pub fn frame_node(
    doc: &Doc,
    node: u32,
    numbers: &LevelNumbers<'_>,
    extent: Size,
    canvas: &mut Canvas,
)
    requires node { node < length doc.now.nodes }
    requires numbers { AreNumbersAt doc.now node numbers.now }
    requires canvas { IsDrawingOf doc.now (drawing_of canvas.old) }
    requires extent { IsLongSize extent }
    ensures { IfSome (node_at doc.now node).level (λ o. IsNodeFramed doc.now node o extent (drawing_of canvas.old) (drawing_of canvas.new)) }
{
    if let Some(options) = &doc.node(node).level {
        frame_with(doc, node, numbers, options, extent, canvas);
    }
}
