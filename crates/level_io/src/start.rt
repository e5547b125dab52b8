//! Where the drawing of a level begins.
ghost use Rattle.std.specs.Prelude.{◌≡◌, ◌+ℤ◌, neg_ℤ};
ghost use Rattle.elk_doc.specs.Sound.{IsLength, IsSoundPadding};
ghost use Rattle.working_frame.specs.Ranges.{IsFar, IsFarPoint};
ghost use Rattle.rotated_levels.specs.Framed as framed;
ghost use Rattle.level_io.specs.Ranges.{IsLong, IsLongSize};

use drawing_types::shape::{Point, Size};
use elk_doc::document::{Direction, Padding};

// Where a stretch of this length begins that ends at `low` when it is mirrored at 0.
fn mirrored(low: i64, length: i64) -> i64
    requires low { IsLength low }
    requires length { IsLong length }
    ensures value { result ≡ neg_ℤ (low +ℤ length) }
    ensures far { IsFar result }
{
    -(low + length)
}

/// How far the drawing of a level of this extent is moved in the frame, so that in the document it begins at the padding.
pub(crate) fn start_of(way: Direction, padding: Padding, extent: Size) -> Point
    requires padding { IsSoundPadding padding }
    requires extent { IsLongSize extent }
    ensures value { result ≡ framed.start_of way padding extent }
    ensures far { IsFarPoint result }
{
    match way {
        Direction::Right => Point {
            x: padding.left,
            y: padding.top,
        },
        Direction::Left => Point {
            x: mirrored(padding.left, extent.width),
            y: padding.top,
        },
        Direction::Down => Point {
            x: padding.top,
            y: padding.left,
        },
        Direction::Up => Point {
            x: mirrored(padding.top, extent.width),
            y: padding.left,
        },
    }
}
