//! Labels of nodes. Inside, they stand in cells, for which a leaf may grow and a level has padding. Outside, they stand beyond a side.

use crate::beyond::{Beyond, place_beyond, reserve_beyond};
use crate::cells::has_inside;
use crate::frames::Frame;
use crate::groups::NodeLabels;
use crate::inside::place_inside;
use crate::leasts::label_padding;
use crate::sizes::SizedNodes;
use graph_draft::{Draft, Mark, Side};
use label_room::{Padding, Sides, Strips};
use std::alloc::{AllocError, Global};

#[derive(Drop)]
enum Deed {
    Inside {
        node: usize,
        frame: Frame,
        pad: Padding,
    },
    Outside(Beyond),
}

/// The labels of nodes, which are placed once the nodes are.
#[derive(Drop)]
pub struct PlacedLabels {
    labels: NodeLabels,
    deeds: Vec<(Mark, Deed)>,
}

fn place_labels_of(
    alloc: Global,
    draft: &Draft,
    strips: &mut Strips,
    sides: &Sides,
    placed: &mut PlacedLabels,
    at: (usize, Frame),
) -> Result<(), AllocError> {
    let (node, frame) = at;
    let groups = placed.labels.of(node);
    if has_inside(groups) {
        let pad = label_padding(draft, node);
        let deed = Deed::Inside { node, frame, pad };
        placed.deeds.push((draft.mark(), deed))?;
    }
    for side in Side::ALL {
        if let Some(beyond) = reserve_beyond(alloc, draft, strips, sides, groups, (node, side))? {
            placed.deeds.push((draft.mark(), Deed::Outside(beyond)))?;
        }
    }
    Ok(())
}

/// Lets the labels of nodes stand inside, and asks for room beyond the sides where they stand outside.
pub fn place_node_labels(
    alloc: Global,
    draft: &Draft,
    strips: &mut Strips,
    sides: &Sides,
    labels: NodeLabels,
    sized: &SizedNodes,
) -> Result<PlacedLabels, AllocError> {
    let mut placed = PlacedLabels {
        labels,
        deeds: Vec::new(alloc),
    };
    for (node, frame) in sized.frames.iter().enumerate() {
        place_labels_of(alloc, draft, strips, sides, &mut placed, (node, *frame))?;
    }
    Ok(placed)
}

/// Places the labels of nodes in a placed draft.
pub fn raise_node_labels(
    alloc: Global,
    draft: &mut Draft,
    placed: PlacedLabels,
) -> Result<(), AllocError> {
    for (mark, deed) in placed.deeds.iter().rev() {
        draft.undo_to(*mark)?;
        match deed {
            Deed::Inside { node, frame, pad } => {
                place_inside(draft, *node, placed.labels.of(*node), *frame, *pad);
            }
            Deed::Outside(beyond) => {
                place_beyond(alloc, draft, placed.labels.of(beyond.node), beyond)?;
            }
        }
    }
    Ok(())
}
