//! The least sizes that nodes ask for.

use crate::at_ports::PortLabels;
use crate::cells::{height_of_row, room_of_cells};
use crate::frames::{Frame, inner_at};
use crate::groups::Group;
use graph_draft::{Draft, Element, Side, Size};
use label_room::{Dock, Padding, Sides, Strips, has_name, has_names, padding_in, size_in};
use serde_json::Value;
use std::alloc::{AllocError, Global};
use std::num::nearest_usize_to_f64;

// The least size of a node whose size asks for `MINIMUM_SIZE` and doesn't name one.
const LEAST_BY_DEFAULT: f64 = 20.0;

// What stands at and in nodes.
#[derive(Clone, Copy, Drop)]
pub(crate) struct Standing<'a> {
    pub(crate) sides: &'a Sides,
    pub(crate) strips: &'a Strips,
    pub(crate) port_labels: &'a PortLabels,
}

// A node with the labels in it.
#[derive(Clone, Copy, Drop)]
pub(crate) struct Within<'a> {
    pub(crate) node: usize,
    pub(crate) groups: &'a [Group],
    pub(crate) frame: Frame,
    pub(crate) pad: Padding,
}

pub(crate) fn label_padding(draft: &Draft, node: usize) -> Padding {
    padding_in(draft.option(Element::Node(node), "nodeLabels.padding"), 5.0)
}

fn widen(least: &mut Size, size: Size) {
    least.width = least.width.max(size.width);
    least.height = least.height.max(size.height);
}

// How long a dock has to be so that it stands clear of others with its labels.
fn length_of(draft: &Draft, standing: Standing<'_>, side: Side, dock: Dock, labelled: bool) -> f64 {
    let port = match dock {
        Dock::Port(port) => port,
        Dock::End(_, _) => return 0.0,
    };
    let own = side.along(draft.size_of(Element::Port(port)));
    if !labelled {
        return own;
    }
    let inside = match standing.port_labels.inside_of(port) {
        Some(size) => side.along(size),
        None => 0.0,
    };
    let aside = standing.strips.reach_of(draft, port, side).aside;
    let beside = if aside > 0.0 {
        aside + (own / 2.0).ceil() + 1.0
    } else {
        0.0
    };
    own.max(inside).max(beside)
}

// How long a side has to be so that its docks stand apart, since the engine spreads them at equal distances.
fn length_at(
    draft: &Draft,
    standing: Standing<'_>,
    node: usize,
    side: Side,
    labelled: bool,
    between: f64,
) -> f64 {
    let docks = standing.sides.at(node, side);
    let mut most: f64 = 0.0;
    for dock in docks {
        most = most.max(length_of(draft, standing, side, *dock, labelled));
    }
    let count = nearest_usize_to_f64(docks.len());
    if count == 0.0 {
        0.0
    } else if count > 1.0 {
        (count + 1.0) * (most + between)
    } else {
        (count + 1.0) * most
    }
}

fn room_for_ports(draft: &Draft, standing: Standing<'_>, node: usize, labelled: bool) -> Size {
    let level = Element::Node(draft.level_around(node));
    let between = draft.number(level, "spacing.portPort", 10.0);
    let length = |side: Side| length_at(draft, standing, node, side, labelled, between);
    Size {
        width: length(Side::North).max(length(Side::South)),
        height: length(Side::East).max(length(Side::West)),
    }
}

// Where the last port of a side ends along it.
fn end_of_ports(draft: &Draft, docks: &[Dock]) -> f64 {
    let mut end = f64::NEG_INFINITY;
    for dock in docks {
        end = end.max(match dock {
            Dock::Port(port) => {
                let port = Element::Port(*port);
                draft.place_of(port).y + draft.size_of(port).height
            }
            Dock::End(_, _) => 0.0,
        });
    }
    end
}

// How high a node has to be so that labels of ports inside it at a side keep clear of what stands above and below them.
fn height_at_corners(draft: &Draft, standing: Standing<'_>, within: Within<'_>, side: Side) -> f64 {
    let docks = standing.sides.at(within.node, side);
    let inner = inner_at(draft, side, docks, standing.port_labels);
    if !inner.is_there {
        return 0.0;
    }
    let beyond = |row: usize, frame: f64, pad: f64| {
        let height = height_of_row(within.groups, row);
        frame + if height > 0.0 { height + pad } else { 0.0 }
    };
    let above = beyond(0, within.frame.north, within.pad.top);
    let below = beyond(2, within.frame.south, within.pad.bottom);
    let half = (inner.longest / 2.0).ceil() + 1.0;
    if draft.has_rule(within.node, "FIXED_POS") {
        let lowest = end_of_ports(draft, docks) + half + below;
        return lowest.max(above + inner.longest.ceil() + below);
    }
    (nearest_usize_to_f64(docks.len()) + 1.0) * (above.max(below) + half)
}

// How large a node has to be so that labels of ports inside it keep clear of those at its other sides and its own.
fn room_at_corners(draft: &Draft, standing: Standing<'_>, within: Within<'_>) -> Size {
    let length = |side: Side| {
        inner_at(
            draft,
            side,
            standing.sides.at(within.node, side),
            standing.port_labels,
        )
        .longest
    };
    let west = height_at_corners(draft, standing, within, Side::West);
    let east = height_at_corners(draft, standing, within, Side::East);
    Size {
        width: length(Side::North).max(length(Side::South)),
        height: west.max(east),
    }
}

fn has_default(options: Option<&Value>) -> bool {
    matches!(options, None | Some(Value::Null)) || has_name(options, "DEFAULT_MINIMUM_SIZE")
}

fn minimum_of(alloc: Global, draft: &Draft, node: usize) -> Result<Size, AllocError> {
    let asked = size_in(alloc, draft.option(Element::Node(node), "nodeSize.minimum"))?;
    let is_asked = asked.width > 0.0 || asked.height > 0.0;
    if is_asked || !has_default(draft.option(Element::Node(node), "nodeSize.options")) {
        return Ok(asked);
    }
    Ok(Size {
        width: LEAST_BY_DEFAULT,
        height: LEAST_BY_DEFAULT,
    })
}

// The least size that a node asks for.
pub(crate) fn least_of(
    alloc: Global,
    draft: &Draft,
    standing: Standing<'_>,
    within: Within<'_>,
) -> Result<Size, AllocError> {
    let node = within.node;
    let constraints = draft.option(Element::Node(node), "nodeSize.constraints");
    let mut least = Size::NONE;
    if !has_names(constraints) {
        return Ok(least);
    }
    if has_name(constraints, "NODE_LABELS") {
        least = room_of_cells(within.groups, within.pad);
    }
    if has_name(constraints, "MINIMUM_SIZE") {
        widen(&mut least, minimum_of(alloc, draft, node)?);
    }
    let labelled = has_name(constraints, "PORT_LABELS");
    if labelled {
        least.width += within.frame.west + within.frame.east;
        least.height += within.frame.north + within.frame.south;
        widen(&mut least, room_at_corners(draft, standing, within));
    }
    if has_name(constraints, "PORTS") && !draft.has_rule(node, "FIXED_POS") {
        widen(&mut least, room_for_ports(draft, standing, node, labelled));
    }
    Ok(least)
}
