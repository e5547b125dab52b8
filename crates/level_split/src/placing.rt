//! Outlines that stand in rows in the document, rotated into the frame.
ghost use Rattle.std.specs.Prelude.{◌≡◌, ◌+◌, ◌-◌, ◌^◌, map, length, pos, neg_ℤ, ◌+ℤ◌, ◌-ℤ◌, IfOk};
ghost use Rattle.drawing_types.specs.Ranges.{IsPlaceWithin, IsWithin};
ghost use Rattle.dock_table.specs.Narrow.{IsNearRect};
ghost use Rattle.working_frame.specs.Rotated as rotated;
ghost use Rattle.level_split.specs.Outlines.{outline_size};
ghost use Rattle.level_split.specs.Placing.{StandInRows, AreRoomy, IsBroad, IsBoxAt, IsNearSize, IsRoomyPlace};

use box_pack::Rows;
use drawing_types::shape::{Point, Rect, Size};
use elk_doc::document::Direction;
use std::alloc::{AllocError, Global};
use working_frame::rotated_size;

// Where a stretch begins that lies at `low` in one of this length, when both are mirrored.
fn mirrored(length: i64, low: i64, size: i64) -> i64
    requires length { IsWithin (pos 0) (pos (2 ^ 59)) length }
    requires low { IsWithin (pos 0) (pos (2 ^ 59)) low }
    requires size { IsWithin (pos 0) (pos (2 ^ 49)) size }
    ensures { result ≡ length -ℤ (low +ℤ size) }
{
    length - (low + size)
}

// What is left of a place when one near 0 is taken from it.
fn less(a: i64, b: i64) -> i64
    requires a { IsWithin (neg_ℤ (pos (2 ^ 59 + 2 ^ 50))) (pos (2 ^ 59 + 2 ^ 50)) a }
    requires b { IsWithin (neg_ℤ (pos (2 ^ 48 - 2 ^ 41))) (pos (2 ^ 48 - 2 ^ 41)) b }
    ensures { result ≡ a -ℤ b }
{
    a - b
}

// The place in the frame of something of this size that stands here in content of the given extent.
fn rotated_place(way: Direction, extent: Size, size: Size, place: Point) -> Point
    requires extent { IsBroad extent }
    requires size { IsNearSize size }
    requires place { IsRoomyPlace place }
    ensures value { result ≡ rotated.rotated_place way extent size place }
    ensures near { IsPlaceWithin (2 ^ 59 + 2 ^ 50) result }
{
    match way {
        Direction::Right => place,
        Direction::Left => Point {
            x: mirrored(extent.width, place.x, size.width),
            y: place.y,
        },
        Direction::Down => Point {
            x: place.y,
            y: place.x,
        },
        Direction::Up => Point {
            x: mirrored(extent.height, place.y, size.height),
            y: place.x,
        },
    }
}

// The size in the document of an outline in the frame.
fn outline_size(way: Direction, outline: Rect) -> Size
    ensures { result ≡ outline_size way outline }
{
    let size = Size {
        width: outline.width,
        height: outline.height,
    };
    rotated_size(way, size)
}

/// The sizes in the document of outlines in the frame.
pub(crate) fn sizes_of(
    alloc: Global,
    way: Direction,
    outlines: &[Rect],
) -> Result<Vec<Size>, AllocError>
    ensures { IfOk result (λ sizes. sizes.items ≡ map (outline_size way) outlines.now) }
{
    let mut sizes = Vec::with_capacity(alloc, outlines.len())?;
    for outline in outlines {
        sizes.push(outline_size(way, *outline))?;
    }
    Ok(sizes)
}

// The place in the frame of a box whose outline stands here in the document, in content of the given extent.
fn box_at(way: Direction, extent: Size, place: Point, outline: Rect) -> Point
    requires extent { IsBroad extent }
    requires place { IsRoomyPlace place }
    requires outline { IsNearRect outline }
    ensures { IsBoxAt way extent place outline result }
{
    let corner = rotated_place(way, extent, outline_size(way, outline), place);
    Point {
        x: less(corner.x, outline.x),
        y: less(corner.y, outline.y),
    }
}

/// The places in the frame of boxes whose outlines stand in rows in the document.
pub(crate) fn boxes_of(
    alloc: Global,
    way: Direction,
    rows: &Rows,
    outlines: &[Rect],
) -> Result<Vec<Point>, AllocError>
    requires { AreRoomy rows.now outlines.now }
    ensures { IfOk result (λ boxes. StandInRows way rows.now outlines.now (length outlines.now) boxes.items) }
{
    let places = rows.at.as_slice();
    let mut boxes = Vec::with_capacity(alloc, outlines.len())?;
    for i in 0..outlines.len() {
        boxes.push(box_at(way, rows.extent, places[i], outlines[i]))?;
    }
    Ok(boxes)
}
