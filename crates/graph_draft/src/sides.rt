//! What stands at the sides of nodes: lengths along a side and outward from it.

use crate::draft::Draft;
use crate::element::Element;
use crate::kinds::Side;
use crate::points::{Point, Size};
use std::alloc::{AllocError, Global};

impl Side {
    /// The length of a box along the side.
    pub fn along(self, size: Size) -> f64 {
        if self.is_upright() {
            size.height
        } else {
            size.width
        }
    }

    /// How far a box reaches out from the side.
    pub fn outward(self, size: Size) -> f64 {
        if self.is_upright() {
            size.width
        } else {
            size.height
        }
    }

    /// Where the middle of a box lies along the side.
    pub fn middle(self, size: Size) -> f64 {
        (self.along(size) / 2.0).floor()
    }

    /// A box with a length along the side and one outward from it.
    pub fn box_at(self, length: f64, depth: f64) -> Size {
        if self.is_upright() {
            Size {
                width: depth,
                height: length,
            }
        } else {
            Size {
                width: length,
                height: depth,
            }
        }
    }

    /// The place of a box at the side of a node, from the corner of the node on: `from` is measured along the side, `away` outward
    /// from it to the near side of the box.
    pub fn place_at(self, size: Size, from: f64, away: f64, node: Size) -> Point {
        match self {
            Side::North => Point {
                x: from,
                y: -away - size.height,
            },
            Side::East => Point {
                x: node.width + away,
                y: from,
            },
            Side::South => Point {
                x: from,
                y: node.height + away,
            },
            Side::West => Point {
                x: -away - size.width,
                y: from,
            },
        }
    }

    /// The coordinate of a point that runs along the side.
    pub fn down(self, point: Point) -> f64 {
        if self.is_upright() { point.y } else { point.x }
    }

    /// The coordinate of a point that runs across the side.
    pub fn back(self, point: Point) -> f64 {
        if self.is_upright() { point.x } else { point.y }
    }

    /// The point with another coordinate along the side.
    pub fn with_down(self, point: Point, down: f64) -> Point {
        if self.is_upright() {
            Point { y: down, ..point }
        } else {
            Point { x: down, ..point }
        }
    }

    /// The point with another coordinate across the side.
    pub fn with_back(self, point: Point, back: f64) -> Point {
        if self.is_upright() {
            Point { x: back, ..point }
        } else {
            Point { y: back, ..point }
        }
    }
}

/// Which end of an edge.
#[derive(Clone, Copy, Debug, Drop, PartialEq, Eq)]
pub enum Kind {
    Source,
    Target,
}

impl Draft {
    /// Draws the route of an edge on to where it ends now at a side of a node, so far outward from the node.
    pub fn draw_on(
        &mut self,
        alloc: Global,
        edge: usize,
        end: Kind,
        node: usize,
        side: Side,
        away: f64,
    ) -> Result<(), AllocError> {
        let size = self.size_of(Element::Node(node));
        let place = side.place_at(Size::NONE, 0.0, away, size);
        let back = side.back(place) + side.back(self.place_of(Element::Node(node)));
        let mut points = self.copy_of_route(alloc, edge)?;
        let at = match end {
            Kind::Source => 0,
            Kind::Target => points.len().saturating_sub(1),
        };
        if let Some(point) = points.get_mut(at) {
            *point = side.with_back(*point, back);
        }
        self.set_route(alloc, edge, points)
    }
}
