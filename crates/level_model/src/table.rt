//! What a drawing needs to know of the children and ends of a level, in whole document units in the working frame.
ghost use Rattle.std.specs.Prelude.{◌≡◌, ◌<◌, length};
ghost use Rattle.level_model.specs.Level.{end_at};
ghost use Rattle.level_model.specs.Table.{end_number, end_of};

use drawing_types::list::Items;
use drawing_types::shape::{Dock, Point, Rect};

/// An end of an edge: its dock, its anchor from the corner of its child's box, and the height of the dock's lane below the
/// top of the child's unit, which counts only where the dock has a lane.
#[derive(Clone, Copy)]
pub struct EndAt {
    pub dock: Dock,
    pub anchor: Point,
    pub lane: i64,
}

/// The heights of a self-loop's lanes below the top of its child's unit. Each counts only where the edge has that lane.
#[derive(Clone, Copy)]
pub struct LoopAt {
    pub north: i64,
    pub south: i64,
}

/// A child: the number of its unit, its outline and its ports from the corner of its box, and how many lanes it has above
/// and below its outline.
#[derive(Drop)]
pub struct ChildAt {
    pub unit: u32,
    pub outline: Rect,
    pub ports: Items<Point>,
    pub north: u32,
    pub south: u32,
}

/// The children, the ends and the edges of a level. Edge e has its source at the end 2e and its target at the end 2e + 1.
#[derive(Drop)]
pub struct Table {
    pub children: Items<ChildAt>,
    pub ends: Items<EndAt>,
    pub loops: Items<LoopAt>,
}

/// The number of an end of an edge among the ends of its level: two for each edge, its source first.
pub fn end_number(edge: u32, at_source: bool) -> usize
    ensures { result ≡ end_number (end_at edge at_source) }
{
    let first = 2 * edge as usize;
    if at_source { first } else { first + 1 }
}

impl Table {
    /// An end of an edge.
    pub fn end(&self, edge: u32, at_source: bool) -> EndAt
        requires { end_number (end_at edge at_source) < length self.now.ends }
        ensures { result ≡ end_of self.now edge at_source }
    {
        *self.ends.at(end_number(edge, at_source))
    }
}
