//! Labels inside of nodes, in the cells of three rows and three columns.

use crate::cells::room_of_cells;
use crate::frames::Frame;
use crate::groups::Group;
use graph_draft::{Draft, Element, Point, Size};
use label_room::{Align, Padding, Stack, place_stack};

// How a label stands in a column.
pub(crate) fn align_of(column: usize) -> Align {
    match column {
        0 => Align::Left,
        1 => Align::Center,
        _ => Align::Right,
    }
}

// Whether a node with pinned ports has room between what is at its borders to the left and right for all labels inside of it.
fn has_room_between(
    draft: &Draft,
    node: usize,
    groups: &[Group],
    frame: Frame,
    pad: Padding,
) -> bool {
    let room = draft.size_of(Element::Node(node));
    let needs = room_of_cells(groups, pad).width + frame.west + frame.east;
    draft.has_rule(node, "FIXED_POS") && room.width >= needs
}

fn corner_of(group: &Group, room: Size, frame: Frame, pad: Padding, between: bool) -> Point {
    let size = group.size;
    // Labels of the middle row stand beside what is at the borders to the left and right. Pinned ports may stand beside the other rows.
    let (left, right) = if group.spot.row == 1 || between {
        (frame.west, frame.east)
    } else {
        (0.0, 0.0)
    };
    let x = match group.spot.column {
        0 => pad.left + left,
        1 => (room.width + left - right - size.width) / 2.0,
        _ => room.width - pad.right - right - size.width,
    };
    let y = match group.spot.row {
        0 => pad.top + frame.north,
        1 => (room.height + frame.north - frame.south - size.height) / 2.0,
        _ => room.height - pad.bottom - frame.south - size.height,
    };
    Point { x, y }
}

// Places the labels inside of a node, within the room at its borders that others take.
pub(crate) fn place_inside(
    draft: &mut Draft,
    node: usize,
    groups: &[Group],
    frame: Frame,
    pad: Padding,
) {
    let room = draft.size_of(Element::Node(node));
    let between = has_room_between(draft, node, groups, frame, pad);
    for group in groups {
        if group.spot.side.is_none() {
            let stack = Stack {
                place: corner_of(group, room, frame, pad, between),
                width: group.size.width,
                gap: group.gap,
                align: align_of(group.spot.column),
            };
            place_stack(draft, group.labels.as_slice(), stack);
        }
    }
}
