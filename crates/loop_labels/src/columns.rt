//! What is known of loops before the engine's answer, by the sides of nodes at which they lie.

use graph_draft::{Mark, Side, Size};
use label_room::Dock;
use std::alloc::{AllocError, Global};
use std::collections::BTreeMap;

// The labels of a loop from a side of a node to the same side.
#[derive(Drop)]
pub(crate) struct LoopLabel {
    pub(crate) edge: usize,
    pub(crate) labels: Vec<usize>,
    pub(crate) size: Size,
    // What else stands at the side.
    pub(crate) foreign: Vec<Dock>,
}

// The loops at one side of a node.
#[derive(Drop)]
pub(crate) struct Column {
    pub(crate) node: usize,
    pub(crate) side: Side,
    pub(crate) labels: Vec<LoopLabel>,
    // All loops, with labels or without.
    pub(crate) loops: Vec<usize>,
    // How far from the node the first lane of loops is, and how far the others are from one another.
    pub(crate) depth: f64,
    pub(crate) between: f64,
    // How far from the node the labels begin.
    pub(crate) away: f64,
    // The room between two labels of a loop.
    pub(crate) gap: f64,
    // The room that the labels keep to lines.
    pub(crate) beside: f64,
    // How long the labels are together, each with the room behind it.
    pub(crate) length: f64,
}

/// The labels of loops beyond the sides of nodes, which are placed once the loops are.
#[derive(Drop)]
pub struct LoopLabels {
    pub(crate) mark: Mark,
    pub(crate) columns: Vec<Column>,
    places: BTreeMap<(usize, Side), usize>,
}

impl LoopLabels {
    pub(crate) fn none(alloc: Global, mark: Mark) -> LoopLabels {
        LoopLabels {
            mark,
            columns: Vec::new(alloc),
            places: BTreeMap::new(alloc),
        }
    }

    // Whether there are labels at a side yet.
    pub(crate) fn has(&self, node: usize, side: Side) -> bool {
        self.places.get(&(node, side)).is_some()
    }

    pub(crate) fn column_at(&mut self, node: usize, side: Side) -> Option<&mut Column> {
        let at = self.places.get(&(node, side)).copied();
        self.columns.get_mut(at.unwrap_or(usize::MAX))
    }

    pub(crate) fn add_column(&mut self, column: Column) -> Result<(), AllocError> {
        let key = (column.node, column.side);
        self.places.insert(key, self.columns.len())?;
        self.columns.push(column)?;
        Ok(())
    }
}
