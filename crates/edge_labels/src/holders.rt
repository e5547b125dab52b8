//! Leaves that hold labels of edges, below the line or on it.

use crate::columns::Shift;
use crate::slides::Slide;
use crate::spots::asked;
use edge_pieces::{Leaf, Shape, leaf_on};
use graph_draft::{Draft, Element, Joined, Kind, Side, Size, rounded, says};
use label_room::{Align, Stack, stack_of};
use std::alloc::{AllocError, Global};

// Labels that stand in a layer of their own, at an end of their edge or in mid-edge.
#[derive(Drop)]
pub(crate) struct Stop {
    pub(crate) labels: Vec<usize>,
    pub(crate) end: Option<Kind>,
}

// A leaf that holds labels.
#[derive(Drop)]
pub(crate) struct Holder {
    pub(crate) node: usize,
    pub(crate) end: Option<Kind>,
    labels: Vec<usize>,
    width: f64,
    gap: f64,
    // The room between the line and the labels.
    beside: f64,
    // How far from the leaf's corner the line passes.
    line: f64,
    is_inline: bool,
}

fn are_inline(draft: &Draft, edge: usize, labels: &[usize]) -> bool {
    labels.iter().all(|label| says(asked(draft, *label, edge, "edgeLabels.inline"), "TRUE"))
}

// The form of a leaf for a stack of labels at a line that runs out of a side.
fn shape_of(side: Side, stack: Size, beside: f64, is_inline: bool) -> Shape {
    let size = side.box_at(side.along(stack) + beside, side.outward(stack));
    let line = if is_inline { side.middle(size) } else { 0.0 };
    Shape { size, line }
}

/// Adds the leaf that holds a stop's labels.
pub(crate) fn hold(
    alloc: Global,
    draft: &mut Draft,
    found: &Joined,
    side: Side,
    stop: Stop,
) -> Result<(Holder, Leaf), AllocError> {
    let Stop { labels, end } = stop;
    let level = Element::Node(found.level);
    let is_inline = are_inline(draft, found.edge, labels.as_slice());
    let gap = draft.number(level, "spacing.labelLabel", 0.0);
    let beside = if is_inline {
        0.0
    } else {
        draft.number(level, "spacing.edgeLabel", 2.0)
    };
    let stack = stack_of(draft, labels.as_slice(), gap);
    let shape = shape_of(side, stack, beside, is_inline);
    let leaf = leaf_on(alloc, draft, found.level, shape)?;
    let holder = Holder {
        node: leaf.node,
        end,
        labels,
        width: stack.width,
        gap,
        beside,
        line: shape.line,
        is_inline,
    };
    Ok((holder, leaf))
}

impl Holder {
    // Where the labels stand in a placed draft: next to their node, or in the middle of their column.
    fn stack(&self, draft: &Draft, side: Side, free: Shift) -> Stack {
        let shift = match self.end {
            Some(Kind::Source) => free.behind,
            Some(Kind::Target) => free.ahead,
            None => rounded((free.behind + free.ahead) / 2.0),
        };
        let corner = draft.place_of(Element::Node(self.node));
        let place = side.with_back(corner, side.back(corner) + shift);
        Stack {
            place: side.with_down(place, side.down(corner) + self.beside),
            width: self.width,
            gap: self.gap,
            align: if self.is_inline || side.is_upright() {
                Align::Center
            } else {
                Align::Left
            },
        }
    }

    /// The labels with their place in a placed draft, from which they may move along their line.
    pub(crate) fn placed(
        self,
        draft: &Draft,
        (level, edge): (usize, usize),
        side: Side,
        free: Shift,
    ) -> Slide {
        let stack = self.stack(draft, side, free);
        let corner = draft.place_of(Element::Node(self.node));
        Slide {
            level,
            edge,
            side,
            stack,
            line: side.down(corner) + self.line,
            room: self.beside,
            labels: self.labels,
        }
    }
}
