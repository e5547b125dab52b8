//! Crossings of borders, and the pieces of edges between them.

use crate::model::Model;
use crate::pairs::{Dock, PairEnd};
use edge_labels::Spot;
use graph_draft::Side;

/// Where edges of one dock cross the border of a node.
#[derive(Clone, Copy, Debug, Drop)]
pub struct Crossing {
    pub node: usize,
    /// The side at which they cross, and go on around the node.
    pub side: Side,
    /// The side of the node's own level to which they are led within.
    pub exit: Side,
    pub dock: Dock,
    /// The node's own port at which they end from within.
    pub port: Option<usize>,
    /// Whether they end at the border from within.
    pub is_inner: bool,
}

impl Crossing {
    /// Whether edges go straight from the last column to the border.
    pub fn is_on_axis(&self) -> bool {
        self.exit == self.side
    }
}

/// An end of a piece. Crossings are named by their numbers.
#[derive(Clone, Copy, Debug, Drop)]
pub enum PieceEnd {
    /// The end of an edge itself.
    Own(PairEnd),
    /// The border of a child of the level.
    Border(usize),
    /// The border of the level.
    Frame(usize),
}

impl PieceEnd {
    /// Whether it is the border of the level.
    pub fn is_frame(self) -> bool {
        matches!(self, PieceEnd::Frame(_))
    }

    /// The crossing of a border.
    pub fn crossing(self) -> Option<usize> {
        match self {
            PieceEnd::Own(_) => None,
            PieceEnd::Border(at) | PieceEnd::Frame(at) => Some(at),
        }
    }

    /// The child of the level at which it lies; none for the border of the level.
    pub fn node(self, model: &Model) -> Option<usize> {
        match self {
            PieceEnd::Own(end) => Some(end.node),
            PieceEnd::Border(at) => match model.crossings.get(at) {
                Some(crossing) => Some(crossing.node),
                None => None,
            },
            PieceEnd::Frame(_) => None,
        }
    }
}

/// What of edges lies at one level.
#[derive(Drop)]
pub struct Piece {
    pub level: usize,
    /// The first edge to which it belongs.
    pub edge: usize,
    pub from: PieceEnd,
    pub to: PieceEnd,
    /// Whether it is sent from the target of its edge to the source.
    pub is_turned: bool,
    pub labels: Vec<SentLabel>,
}

/// A label of an edge as it is sent with a piece.
#[derive(Clone, Copy, Debug, Drop)]
pub struct SentLabel {
    pub label: usize,
    pub spot: Spot,
}
