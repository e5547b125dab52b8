//! What rules find.

use json_places::Step;
use option_names::Description;
use serde_json::Value;

/// An end of edges.
#[derive(Clone, Copy, Debug, Drop, PartialEq, Eq)]
pub enum End {
    Source,
    Target,
}

impl End {
    pub fn name(self) -> &'static str {
        match self {
            End::Source => "source",
            End::Target => "target",
        }
    }

    /// The member that lists the ids of the ends.
    pub fn list(self) -> &'static str {
        match self {
            End::Source => "sources",
            End::Target => "targets",
        }
    }

    /// The member that names the port of the end.
    pub fn port(self) -> &'static str {
        match self {
            End::Source => "sourcePort",
            End::Target => "targetPort",
        }
    }
}

/// What documents may have too many of.
#[derive(Clone, Copy, Debug, Drop, PartialEq, Eq)]
pub enum Plenty {
    Nodes,
    Ports,
    Edges,
}

/// A side of a node.
#[derive(Clone, Copy, Debug, Drop, PartialEq, Eq)]
pub enum Side {
    North,
    East,
    South,
    West,
}

impl Side {
    pub fn name(self) -> &'static str {
        match self {
            Side::North => "NORTH",
            Side::East => "EAST",
            Side::South => "SOUTH",
            Side::West => "WEST",
        }
    }
}

/// A place and a size.
#[derive(Clone, Copy, Drop)]
pub struct Outline {
    pub x: f64,
    pub y: f64,
    pub width: f64,
    pub height: f64,
}

/// What is wrong. Elements are told by their numbers.
#[derive(Clone, Copy, Drop)]
pub enum Case<'a> {
    Fraction(&'a Value),
    /// A value of the wrong kind, and what may stand there.
    Form(&'a Value, &'static str),
    Unmeasured(&'a Value),
    Missing(&'static str),
    NoId,
    NoEnds,
    Size(&'a Value),
    Place(&'a Value, &'static str),
    Many(usize, Plenty),
    Deep(usize),
    /// An id that another element has.
    Double(&'a Value, usize),
    Unknown(End, &'a Value),
    /// An id that names no port of a node.
    NoPort(End, &'a Value, usize),
    /// So many ids at one end.
    Ends(End, usize),
    ManyToMany(usize),
    /// The nodes of an edge.
    Cross(usize, usize),
    Whole(End),
    /// A value that an option doesn't take.
    Asked(&'a Value, &'static Description),
    /// An edge at a level of boxes.
    Boxes(usize),
    /// A port within its node: where it is, the side that it faces, and the bound there.
    Facing(f64, Side, f64),
    Inside(Outline, Outline),
}

/// What a rule finds at an element: the steps are those behind the element.
#[derive(Drop)]
pub struct Find<'a> {
    pub rule: u32,
    pub element: Option<usize>,
    pub names: Vec<Step>,
    pub case: Case<'a>,
}

pub const PLACE: &str = "whole, -1,048,576 to 1,048,576";

pub const FAR_PLACE: &str = "whole, -2^53 to 2^53";
