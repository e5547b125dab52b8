//! The cells in which labels stand inside of nodes: three rows of three.

use crate::groups::Group;
use graph_draft::Size;
use label_room::Padding;

const BETWEEN_CELLS: f64 = 2.0;

fn width_at(groups: &[Group], row: usize, column: usize) -> f64 {
    for group in groups {
        let spot = group.spot;
        if spot.side.is_none() && spot.row == row && spot.column == column {
            return group.size.width;
        }
    }
    0.0
}

// How long a node has to be for three lengths along it, of which the middle one stays in the middle.
fn length_for(lengths: (f64, f64, f64), pads: (f64, f64), between: f64) -> f64 {
    let (first, middle, last) = lengths;
    let (before, behind) = pads;
    if middle == 0.0 {
        let gap = if first > 0.0 && last > 0.0 {
            between
        } else {
            0.0
        };
        return before + first + gap + last + behind;
    }
    let mut length = middle + before + behind;
    for (outer, pad) in [(first, before), (last, behind)] {
        if outer > 0.0 {
            length = length.max(middle + 2.0 * (pad + outer + between));
        }
    }
    length
}

// The height of a row in which labels inside stand.
pub(crate) fn height_of_row(groups: &[Group], row: usize) -> f64 {
    let mut most: f64 = 0.0;
    for group in groups {
        if group.spot.side.is_none() && group.spot.row == row {
            most = most.max(group.size.height);
        }
    }
    most
}

pub(crate) fn has_inside(groups: &[Group]) -> bool {
    groups.iter().any(|group| group.spot.side.is_none())
}

// The room that labels inside take.
pub(crate) fn room_of_cells(groups: &[Group], pad: Padding) -> Size {
    if !has_inside(groups) {
        return Size::NONE;
    }
    let mut width: f64 = 0.0;
    for row in 0..3 {
        let at = |column: usize| width_at(groups, row, column);
        let widths = (at(0), at(1), at(2));
        width = width.max(length_for(widths, (pad.left, pad.right), BETWEEN_CELLS));
    }
    let high = |row: usize| height_of_row(groups, row);
    let heights = (high(0), high(1), high(2));
    Size {
        width,
        height: length_for(heights, (pad.top, pad.bottom), 0.0),
    }
}
