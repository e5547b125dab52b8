//! Sizes in the frame of a direction.
ghost use Rattle.std.specs.Prelude.{◌≡◌};
ghost use Rattle.working_frame.specs.Rotated.{rotated_size};

use drawing_types::shape::Size;
use elk_doc::document::Direction;

/// A size in the frame in which a direction runs to the right, of something that has this size in the document, or the other
/// way round.
pub fn rotated_size(way: Direction, size: Size) -> Size
    ensures { result ≡ rotated_size way size }
{
    let exchanged = Size {
        width: size.height,
        height: size.width,
    };
    match way {
        Direction::Right => size,
        Direction::Left => size,
        Direction::Down => exchanged,
        Direction::Up => exchanged,
    }
}
