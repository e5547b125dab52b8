//! Directions of edges, sides of nodes, and points of the compass.

/// The direction in which edges run.
#[derive(Clone, Copy, Debug, Drop, PartialEq, Eq)]
pub(crate) enum Direction {
    Down,
    Up,
    Right,
    Left,
}

/// A side of a node.
#[derive(Clone, Copy, Debug, Drop, PartialEq, Eq, PartialOrd, Ord)]
pub(crate) enum Side {
    North,
    East,
    South,
    West,
}

/// Which end of an edge.
#[derive(Clone, Copy, Debug, Drop, PartialEq, Eq)]
pub(crate) enum Way {
    Tail,
    Head,
}

impl Direction {
    /// The direction that a value of `rankdir` names.
    pub(crate) fn named(name: &str) -> Option<Direction> {
        match name {
            "TB" => Some(Direction::Down),
            "BT" => Some(Direction::Up),
            "LR" => Some(Direction::Right),
            "RL" => Some(Direction::Left),
            _ => None,
        }
    }

    /// Its name among the options of layouts.
    pub(crate) fn name(self) -> &'static str {
        match self {
            Direction::Down => "DOWN",
            Direction::Up => "UP",
            Direction::Right => "RIGHT",
            Direction::Left => "LEFT",
        }
    }

    /// Whether edges run up or down.
    pub(crate) fn is_upright(self) -> bool {
        matches!(self, Direction::Down | Direction::Up)
    }

    /// The side at which an end of an edge meets its node if nothing else is asked.
    pub(crate) fn side_at(self, way: Way) -> Side {
        let ahead = match self {
            Direction::Down => Side::South,
            Direction::Up => Side::North,
            Direction::Right => Side::East,
            Direction::Left => Side::West,
        };
        match way {
            Way::Tail => ahead,
            Way::Head => ahead.opposite(),
        }
    }
}

impl Side {
    /// Its name among the options of ports.
    pub(crate) fn name(self) -> &'static str {
        match self {
            Side::North => "NORTH",
            Side::East => "EAST",
            Side::South => "SOUTH",
            Side::West => "WEST",
        }
    }

    pub(crate) fn opposite(self) -> Side {
        match self {
            Side::North => Side::South,
            Side::East => Side::West,
            Side::South => Side::North,
            Side::West => Side::East,
        }
    }

    /// Whether it is the left or the right side.
    pub(crate) fn is_beside(self) -> bool {
        matches!(self, Side::East | Side::West)
    }

    // The side between it and its opposite that an edge takes first. Tails and heads take different ones.
    pub(crate) fn next(self, way: Way) -> Side {
        match (self.is_beside(), way) {
            (true, Way::Tail) => Side::South,
            (true, Way::Head) => Side::North,
            (false, Way::Tail) => Side::East,
            (false, Way::Head) => Side::West,
        }
    }
}

/// A point of the compass: -1, 0 or 1 from left to right, and from top to bottom. The middle leaves the side open.
#[derive(Clone, Copy, Debug, Drop, PartialEq)]
pub(crate) struct Compass {
    pub(crate) across: f64,
    pub(crate) down: f64,
}

fn towards(across: f64, down: f64) -> Option<Compass> {
    Some(Compass { across, down })
}

impl Compass {
    pub(crate) const MIDDLE: Compass = Compass {
        across: 0.0,
        down: 0.0,
    };

    /// The point of a name.
    pub(crate) fn named(name: &str) -> Option<Compass> {
        match name {
            "n" => towards(0.0, -1.0),
            "ne" => towards(1.0, -1.0),
            "e" => towards(1.0, 0.0),
            "se" => towards(1.0, 1.0),
            "s" => towards(0.0, 1.0),
            "sw" => towards(-1.0, 1.0),
            "w" => towards(-1.0, 0.0),
            "nw" => towards(-1.0, -1.0),
            "c" | "_" => towards(0.0, 0.0),
            _ => None,
        }
    }

    fn side_beside(self) -> Option<Side> {
        if self.across > 0.0 {
            Some(Side::East)
        } else if self.across < 0.0 {
            Some(Side::West)
        } else {
            None
        }
    }

    fn side_upright(self) -> Option<Side> {
        if self.down > 0.0 {
            Some(Side::South)
        } else if self.down < 0.0 {
            Some(Side::North)
        } else {
            None
        }
    }

    /// The sides at which it lies. An edge that would leave a corner against its direction goes sideways.
    pub(crate) fn sides(self, wanted: Side) -> (Option<Side>, Option<Side>) {
        let (beside, upright) = (self.side_beside(), self.side_upright());
        let is_upright_first = if wanted.is_beside() {
            beside != Some(wanted)
        } else {
            upright == Some(wanted)
        };
        if is_upright_first {
            (upright, beside)
        } else {
            (beside, upright)
        }
    }
}
