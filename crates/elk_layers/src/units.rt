//! Units in layers, the links between them, the orders of their rows, and their places.

/// A child with its lanes, or one lane of a long edge.
///
/// All lengths are whole document units in the working frame, in which the layers follow each other to
/// the right and heights grow downwards.
#[derive(Clone, Copy)]
pub struct Unit {
    pub layer: u32,
    /// The child's number, or `None` at a lane of a long edge.
    pub child: Option<u32>,
    /// From the uppermost to the lowermost of the lanes and the outline; 0 at a lane of a long edge.
    pub height: i64,
    /// From the unit's top down to the child's outline.
    pub body_top: i64,
    /// The height of the child's outline.
    pub body_height: i64,
    /// How many lanes the child has above its outline.
    pub north: u32,
    /// How many lanes the child has below its outline.
    pub south: u32,
}

/// A piece of an edge that joins units of neighbouring layers. Its number is its place in the list of links.
#[derive(Clone, Copy)]
pub struct Link {
    pub edge: u32,
    /// The number of the unit in the left one of the two layers.
    pub tail: u32,
    /// The number of the unit in the right one of the two layers.
    pub head: u32,
    /// The place of the link's pin among those of its tail, from the top.
    pub tail_rank: u32,
    /// The place of the link's pin among those of its head, from the top.
    pub head_rank: u32,
    /// The height of the link's pin below the top of its tail.
    pub tail_at: i64,
    /// The height of the link's pin below the top of its head.
    pub head_at: i64,
}

/// The units and links of a level, and the distances that they keep.
#[derive(Drop)]
pub struct Layered {
    pub layers: u32,
    pub units: Vec<Unit>,
    pub links: Vec<Link>,
    pub node_node: i64,
    pub edge_node: i64,
    pub edge_edge: i64,
}

/// For each layer the numbers of its units, from the top.
#[derive(Drop)]
pub struct Order {
    pub rows: Vec<Vec<u32>>,
}

/// The heights of the units' tops, by unit.
#[derive(Drop)]
pub struct Lines {
    pub top: Vec<i64>,
}
