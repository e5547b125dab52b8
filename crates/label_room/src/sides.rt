//! The sides of nodes.

use graph_draft::{Direction, Draft, Element, Side};

/// The sides at which what is measured along a side begins and ends.
pub fn borders(side: Side) -> (Side, Side) {
    if side.is_upright() {
        (Side::North, Side::South)
    } else {
        (Side::West, Side::East)
    }
}

// The side of a port that stands where it is given.
fn given_side(draft: &Draft, node: usize, port: usize) -> Side {
    let place = draft.place_of(Element::Port(port));
    let size = draft.size_of(Element::Port(port));
    let room = draft.size_of(Element::Node(node));
    let (right, low) = (place.x + size.width, place.y + size.height);
    let tests = [
        (Side::West, place.x < 0.0),
        (Side::East, right > room.width),
        (Side::North, place.y < 0.0),
        (Side::South, low > room.height),
        (Side::West, place.x == 0.0),
        (Side::East, right == room.width),
        (Side::North, place.y == 0.0),
    ];
    for (side, holds) in tests {
        if holds {
            return side;
        }
    }
    Side::South
}

// How edges meet a port.
#[derive(Clone, Copy, Drop)]
pub(crate) struct Met {
    pub(crate) is_left: bool,
    pub(crate) is_entered: bool,
}

// The side of a port, by how edges meet it.
pub(crate) fn side_of(
    draft: &Draft,
    node: usize,
    port: usize,
    direction: Direction,
    met: Met,
) -> Side {
    if !draft.is_free(node) {
        if let Some(asked) = draft.side_asked(port) {
            return asked;
        }
    }
    if draft.is_pinned(node) {
        return given_side(draft, node, port);
    }
    if met.is_entered && !met.is_left {
        direction.behind()
    } else {
        direction.ahead()
    }
}
