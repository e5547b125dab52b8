//! The elements of a draft. They name one another by their numbers in its lists.

use crate::kinds::Routing;
use crate::options::Options;
use crate::points::Point;
use serde_json::Value;

/// An element of a draft.
#[derive(Clone, Copy, Debug, Drop, PartialEq, Eq, PartialOrd, Ord)]
pub enum Element {
    Node(usize),
    Port(usize),
    Edge(usize),
    Label(usize),
}

/// An end of an edge: a node, and its port if the edge names one.
#[derive(Clone, Copy, Debug, Drop, PartialEq, Eq)]
pub struct End {
    pub node: usize,
    pub port: Option<usize>,
}

/// A node. Its place is relative to the place of its parent.
#[derive(Drop)]
pub struct Node {
    /// Its id. The root may have none.
    pub id: Option<Value>,
    pub parent: Option<usize>,
    pub children: Vec<usize>,
    pub ports: Vec<usize>,
    pub edges: Vec<usize>,
    pub labels: Vec<usize>,
    pub width: f64,
    pub height: f64,
    pub x: f64,
    pub y: f64,
    /// Whether the graph gives it a place, which is that of an earlier drawing.
    pub has_place: bool,
    /// The graph's own size and place, before numbers are made whole.
    pub given: Given,
    /// The element for which a stage made it, if that isn't the node around it.
    pub owner: Option<Element>,
    pub options: Options,
    /// The certificate of its level in the engine's answer.
    pub layering: Option<Value>,
    /// Whether the certificate isn't told, since the level was sent with other nodes or edges than given.
    pub altered: bool,
}

/// A size and a place as the graph gives them; 0 where it gives none.
#[derive(Clone, Copy, Drop)]
pub struct Given {
    pub width: f64,
    pub height: f64,
    pub x: f64,
    pub y: f64,
}

/// A port. Its place is relative to the place of its node.
#[derive(Drop)]
pub struct Port {
    pub id: Option<Value>,
    pub node: usize,
    pub labels: Vec<usize>,
    pub width: f64,
    pub height: f64,
    pub x: f64,
    pub y: f64,
    pub options: Options,
}

/// An edge. Its points are relative to the node to whose content it belongs.
#[derive(Drop)]
pub struct Edge {
    pub id: Option<Value>,
    /// The node that declares it.
    pub home: usize,
    pub sources: Vec<End>,
    pub targets: Vec<End>,
    pub labels: Vec<usize>,
    /// The element for which a stage made it, if that isn't the node that declares it.
    pub owner: Option<Element>,
    pub options: Options,
    /// Its route. An edge of several ends has a tree of sections.
    pub sections: Vec<Section>,
    /// How the route is drawn, if it isn't orthogonal.
    pub routing: Option<Routing>,
    /// Where its route parts from others of the same dock, or joins them.
    pub junctions: Vec<Point>,
}

/// A part of a route, between two points where routes of one edge part or join. Sections name one another by their numbers.
#[derive(Drop)]
pub struct Section {
    pub points: Vec<Point>,
    pub incoming: Vec<usize>,
    pub outgoing: Vec<usize>,
    /// Which of the edge's sources it begins at.
    pub source: Option<usize>,
    /// Which of the edge's targets it ends at.
    pub target: Option<usize>,
}

/// A label. Its place is relative to its node or port, and that of a label of an edge to the node of the edge's points.
#[derive(Drop)]
pub struct Label {
    /// Its text; empty if it has none.
    pub text: String,
    /// The size of letters that its style asks for.
    pub letters: Option<f64>,
    pub width: f64,
    pub height: f64,
    pub x: f64,
    pub y: f64,
    /// Whether the graph gives it a place.
    pub has_place: bool,
    /// Whether a stage gives it a place.
    pub placed: bool,
    pub options: Options,
}
