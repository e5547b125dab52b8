//! Sides, directions and kinds of routes.

/// A side of a node.
#[derive(Clone, Copy, Debug, Drop, PartialEq, Eq, PartialOrd, Ord)]
pub enum Side {
    North,
    East,
    South,
    West,
}

/// The direction in which the edges of a level run.
#[derive(Clone, Copy, Debug, Drop, PartialEq, Eq)]
pub enum Direction {
    Right,
    Left,
    Down,
    Up,
}

/// How the routes of a level are drawn.
#[derive(Clone, Copy, Debug, Drop, PartialEq, Eq)]
pub enum Routing {
    Orthogonal,
    Polyline,
    Splines,
}

impl Side {
    /// All sides, in the order in which ELK names them.
    pub const ALL: [Side; 4] = [Side::North, Side::East, Side::South, Side::West];

    /// The name that ELK has for it.
    pub fn name(self) -> &'static str {
        match self {
            Side::North => "NORTH",
            Side::East => "EAST",
            Side::South => "SOUTH",
            Side::West => "WEST",
        }
    }

    /// Whether what stands at the side has its place along it from top to bottom.
    pub fn is_upright(self) -> bool {
        matches!(self, Side::East | Side::West)
    }
}

impl Direction {
    /// The side at which edges leave nodes.
    pub fn ahead(self) -> Side {
        match self {
            Direction::Right => Side::East,
            Direction::Left => Side::West,
            Direction::Down => Side::South,
            Direction::Up => Side::North,
        }
    }

    /// The side at which edges enter nodes.
    pub fn behind(self) -> Side {
        match self {
            Direction::Right => Side::West,
            Direction::Left => Side::East,
            Direction::Down => Side::North,
            Direction::Up => Side::South,
        }
    }

    /// Whether layers stand side by side.
    pub fn is_level(self) -> bool {
        matches!(self, Direction::Right | Direction::Left)
    }
}
