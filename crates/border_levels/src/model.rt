//! The model of a graph with edges that cross borders.

use crate::crossings::{Crossing, Piece};
use crate::pairs::Pair;
use graph_draft::{Direction, Draft, Element, Routing, Side};
use label_room::Padding;
use std::collections::BTreeMap;

/// The rule for the ports of a node.
#[derive(Clone, Copy, Debug, Drop, PartialEq, Eq)]
pub enum PortRule {
    Free,
    FixedSide,
    FixedOrder,
    FixedPos,
    /// FIXED_RATIO, or a word that is no rule.
    Other,
}

/// What is known of a node of the draft.
#[derive(Drop)]
pub struct LevelNode {
    /// How many nodes are around it.
    pub depth: usize,
    pub direction: Direction,
    pub rule: PortRule,
    /// How routes of its level are drawn, if they aren't orthogonal.
    pub routing: Option<Routing>,
    pub is_open: bool,
    /// The pairs that belong to its content, in document order.
    pub pairs: Vec<usize>,
    /// The crossings of its border, in the order in which edges find them.
    pub crossings: Vec<usize>,
    /// The pieces at its level, in the order in which edges find them.
    pub pieces: Vec<usize>,
}

/// What is known of a port of the draft. Only ports of open levels have a side, a rank and room.
#[derive(Clone, Copy, Debug, Drop)]
pub struct LevelPort {
    pub side: Side,
    /// Where it comes at its side, from the left or the top. Others may stand between.
    pub rank: i64,
    /// The room of its labels within its node, inwards from the side.
    pub depth: f64,
    /// The room of its labels within its node, along the side behind the port's line.
    pub length: f64,
    pub is_labelled_inside: bool,
}

impl LevelPort {
    pub(crate) const UNKNOWN: LevelPort = LevelPort {
        side: Side::North,
        rank: 0,
        depth: 0.0,
        length: 0.0,
        is_labelled_inside: false,
    };
}

/// A graph with edges that cross borders.
#[derive(Drop)]
pub struct Model {
    /// The draft of the graph, with the options that levels share, places of earlier drawings, and whole numbers if these are asked for.
    pub draft: Draft,
    pub nodes: Vec<LevelNode>,
    pub ports: Vec<LevelPort>,
    pub pairs: Vec<Pair>,
    pub crossings: Vec<Crossing>,
    pub pieces: Vec<Piece>,
    /// By edge the side of its common end at a node without a port, if pairs lead to that end both from within and from outside.
    pub stems: BTreeMap<usize, Side>,
    /// The open levels, each behind those around it, in document order.
    pub levels: Vec<usize>,
    /// Whether some edge leads from a node to itself.
    pub has_loops: bool,
    /// Whether some routes are slanted or curved.
    pub is_bent: bool,
}

const NO_NUMBERS: &[usize] = &[];

impl Model {
    pub fn node(&self, at: usize) -> Option<&LevelNode> {
        self.nodes.get(at)
    }

    pub fn port(&self, at: usize) -> LevelPort {
        self.ports.get(at).copied().unwrap_or(LevelPort::UNKNOWN)
    }

    pub fn pair(&self, at: usize) -> Option<&Pair> {
        self.pairs.get(at)
    }

    pub fn crossing(&self, at: usize) -> Option<Crossing> {
        self.crossings.get(at).copied()
    }

    pub fn piece(&self, at: usize) -> Option<&Piece> {
        self.pieces.get(at)
    }

    /// The direction of a node's level.
    pub fn direction_of(&self, node: usize) -> Direction {
        match self.nodes.get(node) {
            Some(node) => node.direction,
            None => Direction::Right,
        }
    }

    /// The rule for the ports of a node.
    pub fn rule_of(&self, node: usize) -> PortRule {
        match self.nodes.get(node) {
            Some(node) => node.rule,
            None => PortRule::Free,
        }
    }

    /// How routes of a node's level are drawn, if they aren't orthogonal.
    pub fn routing_of(&self, node: usize) -> Option<Routing> {
        match self.nodes.get(node) {
            Some(node) => node.routing,
            None => None,
        }
    }

    pub fn depth_of(&self, node: usize) -> usize {
        match self.nodes.get(node) {
            Some(node) => node.depth,
            None => 0,
        }
    }

    /// Whether the level of a node is open.
    pub fn is_open(&self, node: usize) -> bool {
        match self.nodes.get(node) {
            Some(node) => node.is_open,
            None => false,
        }
    }

    /// The pairs that belong to the content of a node.
    pub fn pairs_of(&self, node: usize) -> &[usize] {
        match self.nodes.get(node) {
            Some(node) => node.pairs.as_slice(),
            None => NO_NUMBERS,
        }
    }

    /// The crossings of a node's border.
    pub fn crossings_of(&self, node: usize) -> &[usize] {
        match self.nodes.get(node) {
            Some(node) => node.crossings.as_slice(),
            None => NO_NUMBERS,
        }
    }

    /// The pieces at the level of a node.
    pub fn pieces_of(&self, node: usize) -> &[usize] {
        match self.nodes.get(node) {
            Some(node) => node.pieces.as_slice(),
            None => NO_NUMBERS,
        }
    }
}

impl Model {
    fn label_depth_at(&self, node: usize, side: Side) -> f64 {
        let mut depth: f64 = 0.0;
        for port in self.draft.ports_of(node) {
            let port = self.port(*port);
            if port.side == side {
                depth = depth.max(port.depth);
            }
        }
        depth
    }

    /// The room at each side of an open level's node that labels of its ports take within it.
    pub fn label_rooms_of(&self, level: usize) -> Padding {
        Padding {
            top: self.label_depth_at(level, Side::North),
            left: self.label_depth_at(level, Side::West),
            bottom: self.label_depth_at(level, Side::South),
            right: self.label_depth_at(level, Side::East),
        }
    }
}

/// Where the line of a port lies along a side, from the node's corner on.
pub fn line_of(draft: &Draft, port: usize, side: Side) -> f64 {
    let port = Element::Port(port);
    side.down(draft.place_of(port)) + side.middle(draft.size_of(port))
}

/// Whether clockwise runs from the left or the top along a side.
pub fn is_forward(side: Side) -> bool {
    matches!(side, Side::North | Side::East)
}
