//! The page: the frame of the drawing, widened by all that reaches beyond it.

use crate::element::{box_at, elements_of, placed_labels};
use crate::geometry::{Point, Rect};
use crate::levels::Levels;
use crate::look::MARGIN;
use serde_json::Value;
use std::alloc::{AllocError, Global};

#[derive(Clone, Copy, Drop)]
struct Frame {
    left: f64,
    top: f64,
    right: f64,
    bottom: f64,
}

impl Frame {
    fn widen(&mut self, at: Rect) {
        self.left = self.left.min(at.left);
        self.top = self.top.min(at.top);
        self.right = self.right.max(at.right());
        self.bottom = self.bottom.max(at.bottom());
    }

    fn widen_by_labels(
        &mut self,
        alloc: Global,
        element: &Value,
        origin: Point,
    ) -> Result<(), AllocError> {
        for label in placed_labels(alloc, element)? {
            self.widen(box_at(label, origin));
        }
        Ok(())
    }

    fn widen_by_nodes(&mut self, alloc: Global, levels: &Levels<'_>) -> Result<(), AllocError> {
        for node in levels.nodes.iter() {
            self.widen(node.at);
            self.widen_by_labels(alloc, node.value, node.origin)?;
            for port in elements_of(alloc, node.value, "ports")? {
                let at = box_at(port, node.origin);
                self.widen(at);
                self.widen_by_labels(alloc, port, at.origin())?;
            }
        }
        Ok(())
    }

    fn widen_by_edges(&mut self, alloc: Global, levels: &Levels<'_>) -> Result<(), AllocError> {
        for edge in levels.edges.iter() {
            let origin = levels.origin_of(edge.home);
            for section in edge.sections.iter() {
                for point in section.points.iter() {
                    let Point { x: left, y: top } = point.moved(origin);
                    self.widen(Rect {
                        left,
                        top,
                        width: 0.0,
                        height: 0.0,
                    });
                }
            }
            self.widen_by_labels(alloc, edge.value, origin)?;
        }
        Ok(())
    }
}

// The page of a picture, with a margin on each side.
pub(crate) fn page_of(alloc: Global, levels: &Levels<'_>) -> Result<Rect, AllocError> {
    let mut frame = Frame {
        left: 0.0,
        top: 0.0,
        right: 0.0,
        bottom: 0.0,
    };
    frame.widen_by_nodes(alloc, levels)?;
    frame.widen_by_edges(alloc, levels)?;
    Ok(Rect {
        left: frame.left - MARGIN,
        top: frame.top - MARGIN,
        width: frame.right - frame.left + 2.0 * MARGIN,
        height: frame.bottom - frame.top + 2.0 * MARGIN,
    })
}
