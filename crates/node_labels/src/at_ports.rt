//! Labels of ports, outside beside their lines or inside the node.

use graph_draft::{Draft, Element, Mark, Point, Side, Size};
use label_room::{
    Align, Beside, Block, Owner, Sides, Stack, Strips, inside_asked, measured_labels, place_stack,
    stack_of,
};
use std::alloc::{AllocError, Global};
use std::collections::BTreeMap;

// The labels of a port that are placed.
#[derive(Drop)]
pub(crate) struct PortLabel {
    labels: Vec<usize>,
    gap: f64,
    pub(crate) size: Size,
    pub(crate) is_inside: bool,
}

/// The labels of ports that are placed.
#[derive(Drop)]
pub struct PortLabels {
    ports: BTreeMap<usize, PortLabel>,
    // How far inside its node each of some ports will be moved.
    depths: BTreeMap<usize, f64>,
}

impl PortLabels {
    pub(crate) fn is_empty(&self) -> bool {
        self.ports.is_empty()
    }

    /// Tells how far inside its node each of some ports will be moved from the border, with its labels.
    pub fn with_depths(self, depths: BTreeMap<usize, f64>) -> PortLabels {
        let PortLabels { ports, .. } = self;
        PortLabels { ports, depths }
    }

    // How far a pinned port will reach into its node from a side.
    pub(crate) fn reach_of(&self, draft: &Draft, port: usize, side: Side) -> f64 {
        let node = match draft.ports.get(port) {
            Some(port) if draft.is_pinned(port.node) => port.node,
            _ => return 0.0,
        };
        let room = draft.size_of(Element::Node(node));
        let (place, size) = (
            draft.place_of(Element::Port(port)),
            draft.size_of(Element::Port(port)),
        );
        let reach = match side {
            Side::North => place.y + size.height,
            Side::East => room.width - place.x,
            Side::South => room.height - place.y,
            Side::West => place.x + size.width,
        };
        reach.max(0.0) + self.depths.get(&port).copied().unwrap_or(0.0)
    }

    // The size of the labels of a port that stand inside its node.
    pub(crate) fn inside_of(&self, port: usize) -> Option<Size> {
        match self.ports.get(&port) {
            Some(label) if label.is_inside => Some(label.size),
            _ => None,
        }
    }
}

fn add_labels(
    alloc: Global,
    draft: &mut Draft,
    found: &mut PortLabels,
    node: usize,
    is_inside: bool,
) -> Result<(), AllocError> {
    let level = Element::Node(draft.level_around(node));
    let gap = draft.number(level, "spacing.labelLabel", 0.0);
    for port in Vec::from_slice(alloc, draft.ports_of(node))? {
        let labels = measured_labels(alloc, draft, Element::Port(port))?;
        if !labels.is_empty() {
            let size = stack_of(draft, labels.as_slice(), gap);
            let label = PortLabel {
                labels,
                gap,
                size,
                is_inside,
            };
            found.ports.insert(port, label)?;
        }
    }
    Ok(())
}

/// The labels of the ports of each node that are placed. Those without a size get that of their text.
pub fn port_labels_of(alloc: Global, draft: &mut Draft) -> Result<PortLabels, AllocError> {
    let mut found = PortLabels {
        ports: BTreeMap::new(alloc),
        depths: BTreeMap::new(alloc),
    };
    for node in 0..draft.given_nodes {
        if let Some(is_inside) = inside_asked(draft, node) {
            add_labels(alloc, draft, &mut found, node, is_inside)?;
        }
    }
    Ok(found)
}

/// The room that labels of ports of a node keep at a side.
pub fn beside_port(draft: &Draft, node: usize, side: Side) -> Beside {
    let level = Element::Node(draft.level_around(node));
    let across = draft.number(level, "spacing.labelPortHorizontal", 1.0);
    let down = draft.number(level, "spacing.labelPortVertical", 1.0);
    let (out, aside) = if side.is_upright() {
        (across, down)
    } else {
        (down, across)
    };
    Beside {
        gap: draft.number(level, "spacing.labelLabel", 0.0),
        out,
        aside,
    }
}

// Labels of a port that stand inside its node.
#[derive(Drop)]
struct InnerLabel {
    mark: Mark,
    node: usize,
    port: usize,
    side: Side,
    // The size of the port as it is sent.
    port_size: Size,
    labels: Vec<usize>,
    gap: f64,
    size: Size,
    // The room between them and the port.
    out: f64,
}

/// The labels of ports inside nodes, which are placed once the ports are.
#[derive(Drop)]
pub struct InnerLabels {
    labels: Vec<InnerLabel>,
}

fn place_at_port(
    alloc: Global,
    draft: &Draft,
    strips: &mut Strips,
    inner: &mut InnerLabels,
    label: &PortLabel,
    at: (usize, Side, usize),
) -> Result<(), AllocError> {
    let (node, side, port) = at;
    let beside = beside_port(draft, node, side);
    let port_size = draft.size_of(Element::Port(port));
    let labels = Vec::from_slice(alloc, label.labels.as_slice())?;
    if label.is_inside {
        inner.labels.push(InnerLabel {
            mark: draft.mark(),
            node,
            port,
            side,
            port_size,
            labels,
            gap: label.gap,
            size: label.size,
            out: beside.out,
        })?;
        return Ok(());
    }
    let half = (side.along(port_size) / 2.0).ceil();
    let aside = half + beside.aside;
    let block = Block::of_labels(draft, labels, Beside { aside, ..beside }, Owner::Port);
    strips.add(alloc, port, block)
}

/// Lets the labels of ports stand beside their lines, or inside their nodes.
pub fn place_port_labels(
    alloc: Global,
    draft: &Draft,
    strips: &mut Strips,
    sides: &Sides,
    found: &PortLabels,
) -> Result<InnerLabels, AllocError> {
    let mut inner = InnerLabels {
        labels: Vec::new(alloc),
    };
    if found.is_empty() {
        return Ok(inner);
    }
    for node in 0..draft.given_nodes {
        for side in Side::ALL {
            for port in sides.at(node, side).iter().filter_map(|dock| dock.port()) {
                if let Some(label) = found.ports.get(&port) {
                    place_at_port(alloc, draft, strips, &mut inner, label, (node, side, port))?;
                }
            }
        }
    }
    Ok(inner)
}

// Where a label begins that stands in the middle of its port, but within the node.
fn within(room: f64, length: f64, middle: f64) -> f64 {
    (room - length).min(middle - length / 2.0).max(0.0)
}

fn stack_in(draft: &Draft, it: &InnerLabel) -> Stack {
    let room = draft.size_of(Element::Node(it.node));
    let port = draft.place_of(Element::Port(it.port));
    let Size { width, height } = it.port_size;
    let x = within(room.width, it.size.width, port.x + width / 2.0) - port.x;
    let y = within(room.height, it.size.height, port.y + height / 2.0) - port.y;
    // A pinned port may stand away from its node.
    let (right, low) = (room.width - port.x, room.height - port.y);
    let (x, y, align) = match it.side {
        Side::North => (x, height.max(-port.y) + it.out, Align::Center),
        Side::East => (right.min(0.0) - it.out - it.size.width, y, Align::Right),
        Side::South => (x, low.min(0.0) - it.out - it.size.height, Align::Center),
        Side::West => (width.max(-port.x) + it.out, y, Align::Left),
    };
    Stack {
        place: Point { x, y },
        width: it.size.width,
        gap: it.gap,
        align,
    }
}

/// Places the labels inside nodes at their ports.
pub fn raise_port_labels(draft: &mut Draft, inner: InnerLabels) -> Result<(), AllocError> {
    for it in inner.labels.iter().rev() {
        draft.undo_to(it.mark)?;
        let stack = stack_in(draft, it);
        place_stack(draft, it.labels.as_slice(), stack);
    }
    Ok(())
}
