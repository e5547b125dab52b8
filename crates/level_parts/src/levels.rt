//! The parts of a level, and where its children and edges are in them.
use drawing_types::list::Items;
use level_model::LevelIn;

/// For each of some things in order, the number of its part and its place there.
#[derive(Drop)]
pub struct Seats {
    pub parts: Items<u32>,
    pub places: Items<u32>,
}

/// A part as a level of its own, and the numbers of its children and edges in the whole level, in ascending order.
#[derive(Drop)]
pub struct PartLevel {
    pub level: LevelIn,
    pub children: Items<u32>,
    pub edges: Items<u32>,
}

/// The parts of a level, and where its children and edges are in them.
#[derive(Drop)]
pub struct PartLevels {
    pub parts: Items<PartLevel>,
    pub children: Seats,
    pub edges: Seats,
}
