//! The room at the borders of nodes that labels of their ports take within them.

use crate::at_ports::{PortLabels, beside_port};
use graph_draft::{Draft, Side};
use label_room::{Dock, Sides};

// The room at the four borders of a node that others take.
#[derive(Clone, Copy, Drop)]
pub(crate) struct Frame {
    pub(crate) north: f64,
    pub(crate) east: f64,
    pub(crate) south: f64,
    pub(crate) west: f64,
}

impl Frame {
    pub(crate) const NONE: Frame = Frame {
        north: 0.0,
        east: 0.0,
        south: 0.0,
        west: 0.0,
    };

    pub(crate) fn is_none(self) -> bool {
        !(self.north > 0.0 || self.east > 0.0 || self.south > 0.0 || self.west > 0.0)
    }
}

// Whether labels of ports at docks stand inside the node, how long the longest are, and how deep they reach.
#[derive(Clone, Copy, Drop)]
pub(crate) struct Inner {
    pub(crate) is_there: bool,
    pub(crate) longest: f64,
    pub(crate) deepest: f64,
}

pub(crate) fn inner_at(draft: &Draft, side: Side, docks: &[Dock], labels: &PortLabels) -> Inner {
    let mut inner = Inner {
        is_there: false,
        longest: 0.0,
        deepest: 0.0,
    };
    for dock in docks {
        if let Dock::Port(port) = dock {
            if let Some(size) = labels.inside_of(*port) {
                inner.is_there = true;
                inner.longest = inner.longest.max(side.along(size));
                let depth = side.outward(size) + labels.reach_of(draft, *port, side);
                inner.deepest = inner.deepest.max(depth);
            }
        }
    }
    inner
}

fn depth_at(draft: &Draft, node: usize, side: Side, sides: &Sides, labels: &PortLabels) -> f64 {
    let inner = inner_at(draft, side, sides.at(node, side), labels);
    let room = if inner.is_there {
        2.0 * beside_port(draft, node, side).out
    } else {
        0.0
    };
    inner.deepest + room
}

pub(crate) fn frame_of(draft: &Draft, node: usize, sides: &Sides, labels: &PortLabels) -> Frame {
    if labels.is_empty() {
        return Frame::NONE;
    }
    Frame {
        north: depth_at(draft, node, Side::North, sides, labels),
        east: depth_at(draft, node, Side::East, sides, labels),
        south: depth_at(draft, node, Side::South, sides, labels),
        west: depth_at(draft, node, Side::West, sides, labels),
    }
}
