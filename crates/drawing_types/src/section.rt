//! Routes.
use crate::list::Items;
use crate::shape::Point;

/// A route: its two ends and the bends between them.
#[derive(Drop)]
pub struct Section {
    pub start: Point,
    pub bends: Items<Point>,
    pub end: Point,
}
