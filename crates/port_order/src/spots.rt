//! The spots of a child: its ports, and the ends of edges that name the child itself.

/// The mean of positions, as their sum and their count.
#[derive(Clone, Copy)]
pub struct Mean {
    pub sum: u64,
    pub count: u32,
}

/// A port or an implicit end. `number` is its place among the spots of its child in document order: the ports by number,
/// then the implicit ends by the numbers of their edges. `leaves` and `enters` say whether an oriented edge that is no
/// self-loop does; `mean` is that of the positions of the units at the far ends of its links, if it has any.
#[derive(Clone, Copy)]
pub struct Spot {
    pub port: Option<u32>,
    pub number: u32,
    pub leaves: bool,
    pub enters: bool,
    pub mean: Option<Mean>,
}
