//! The draft of a graph.

use crate::element::{Edge, Element, End, Label, Node, Port};
use crate::journal::Change;
use crate::kinds::{Direction, Side};
use crate::options::{Options, number_said, says, standing};
use crate::points::{Point, Size};
use option_names::OptionTable;
use serde_json::Value;
use std::alloc::{AllocError, Global};
use std::collections::BTreeSet;

/// How a graph is read.
#[derive(Drop)]
pub struct How {
    /// The table of all options.
    pub table: OptionTable,
    /// Whether numbers are made whole.
    pub whole: bool,
    /// The options that count wherever an element has none of its own.
    pub general: Options,
}

/// The lists of a graph. Those that the graph has come first, in document order; those that stages make follow.
#[derive(Drop)]
pub struct Draft {
    pub nodes: Vec<Node>,
    pub ports: Vec<Port>,
    pub edges: Vec<Edge>,
    pub labels: Vec<Label>,
    /// How many of the nodes, the ports and the edges the graph has.
    pub given_nodes: usize,
    pub given_ports: usize,
    pub given_edges: usize,
    /// The ports whose ids are those of nodes too. They are sent under others.
    pub renamed: BTreeSet<usize>,
    pub table: OptionTable,
    pub general: Options,
    pub(crate) journal: Vec<Change>,
}

const NO_NUMBERS: &[usize] = &[];

impl Draft {
    pub(crate) fn empty(alloc: Global, table: OptionTable, general: Options) -> Draft {
        Draft {
            nodes: Vec::new(alloc),
            ports: Vec::new(alloc),
            edges: Vec::new(alloc),
            labels: Vec::new(alloc),
            given_nodes: 0,
            given_ports: 0,
            given_edges: 0,
            renamed: BTreeSet::new(alloc),
            table,
            general,
            journal: Vec::new(alloc),
        }
    }

    pub(crate) fn options_of(&self, element: Element) -> Option<&Options> {
        match element {
            Element::Node(at) => match self.nodes.get(at) {
                Some(node) => Some(&node.options),
                None => None,
            },
            Element::Port(at) => match self.ports.get(at) {
                Some(port) => Some(&port.options),
                None => None,
            },
            Element::Edge(at) => match self.edges.get(at) {
                Some(edge) => Some(&edge.options),
                None => None,
            },
            Element::Label(at) => match self.labels.get(at) {
                Some(label) => Some(&label.options),
                None => None,
            },
        }
    }

    pub(crate) fn options_of_mut(&mut self, element: Element) -> Option<&mut Options> {
        match element {
            Element::Node(at) => match self.nodes.get_mut(at) {
                Some(node) => Some(&mut node.options),
                None => None,
            },
            Element::Port(at) => match self.ports.get_mut(at) {
                Some(port) => Some(&mut port.options),
                None => None,
            },
            Element::Edge(at) => match self.edges.get_mut(at) {
                Some(edge) => Some(&mut edge.options),
                None => None,
            },
            Element::Label(at) => match self.labels.get_mut(at) {
                Some(label) => Some(&mut label.options),
                None => None,
            },
        }
    }

    /// What an element asks for by an option, or else what the call asks of all; nothing where neither does.
    pub fn option(&self, element: Element, name: &'static str) -> Option<&Value> {
        let own = match self.options_of(element) {
            Some(options) => options.get(name),
            None => None,
        };
        match own {
            Some(value) => Some(value),
            None => self.general.get(name),
        }
    }

    /// The value of an option that a level is sent with: its own, or one that stands for it.
    pub fn sent_option(
        &self,
        alloc: Global,
        level: usize,
        name: &'static str,
    ) -> Result<Option<Value>, AllocError> {
        if let Some(options) = self.options_of(Element::Node(level)) {
            let children = self.children_of(level).len();
            for (sent, value) in standing(alloc, options, &self.general, children)? {
                if sent == name {
                    return Ok(Some(value));
                }
            }
        }
        match self.option(Element::Node(level), name) {
            Some(value) => Ok(Some(value.clone()?)),
            None => Ok(None),
        }
    }

    /// Whether an element asks for a word by an option.
    pub fn asks(&self, element: Element, name: &'static str, word: &str) -> bool {
        says(self.option(element, name), word)
    }

    /// The number that an element asks for, or else ELK's default, rounded up.
    pub fn number(&self, element: Element, name: &'static str, by_default: f64) -> f64 {
        match number_said(self.option(element, name)) {
            Some(number) => number.ceil(),
            None => by_default,
        }
    }

    /// The direction of a level.
    pub fn direction_of(&self, level: usize) -> Direction {
        let asked = self.option(Element::Node(level), "direction");
        if says(asked, "LEFT") {
            Direction::Left
        } else if says(asked, "DOWN") {
            Direction::Down
        } else if says(asked, "UP") {
            Direction::Up
        } else {
            Direction::Right
        }
    }

    /// Whether a node asks for a rule for its ports.
    pub fn has_rule(&self, node: usize, rule: &str) -> bool {
        self.asks(Element::Node(node), "portConstraints", rule)
    }

    /// Whether the engine may put the ports of a node at any side.
    pub fn is_free(&self, node: usize) -> bool {
        match self.option(Element::Node(node), "portConstraints") {
            None => true,
            rule => says(rule, "FREE") || says(rule, "UNDEFINED"),
        }
    }

    /// The side that a port asks for.
    pub fn side_asked(&self, port: usize) -> Option<Side> {
        let asked = self.option(Element::Port(port), "port.side");
        for side in Side::ALL {
            if says(asked, side.name()) {
                return Some(side);
            }
        }
        None
    }

    /// Whether a node has a level, as the root does in any case.
    pub fn is_level(&self, node: usize) -> bool {
        match self.nodes.get(node) {
            Some(node) => !node.children.is_empty() || node.parent.is_none(),
            None => false,
        }
    }

    /// Whether the ports of a node stand where they are given, those that are made too.
    pub fn is_pinned(&self, node: usize) -> bool {
        self.children_of(node).is_empty() && self.has_rule(node, "FIXED_POS")
    }

    pub fn parent_of(&self, node: usize) -> Option<usize> {
        match self.nodes.get(node) {
            Some(node) => node.parent,
            None => None,
        }
    }

    /// The node around another one; the root itself.
    pub fn level_around(&self, node: usize) -> usize {
        self.parent_of(node).unwrap_or(node)
    }

    pub fn children_of(&self, node: usize) -> &[usize] {
        match self.nodes.get(node) {
            Some(node) => node.children.as_slice(),
            None => NO_NUMBERS,
        }
    }

    pub fn ports_of(&self, node: usize) -> &[usize] {
        match self.nodes.get(node) {
            Some(node) => node.ports.as_slice(),
            None => NO_NUMBERS,
        }
    }

    pub fn edges_of(&self, node: usize) -> &[usize] {
        match self.nodes.get(node) {
            Some(node) => node.edges.as_slice(),
            None => NO_NUMBERS,
        }
    }

    /// The labels of an element.
    pub fn labels_of(&self, element: Element) -> &[usize] {
        match element {
            Element::Node(at) => match self.nodes.get(at) {
                Some(node) => node.labels.as_slice(),
                None => NO_NUMBERS,
            },
            Element::Port(at) => match self.ports.get(at) {
                Some(port) => port.labels.as_slice(),
                None => NO_NUMBERS,
            },
            Element::Edge(at) => match self.edges.get(at) {
                Some(edge) => edge.labels.as_slice(),
                None => NO_NUMBERS,
            },
            Element::Label(_) => NO_NUMBERS,
        }
    }

    /// The size of an element. An edge has none.
    pub fn size_of(&self, element: Element) -> Size {
        let size = match element {
            Element::Node(at) => match self.nodes.get(at) {
                Some(node) => Some((node.width, node.height)),
                None => None,
            },
            Element::Port(at) => match self.ports.get(at) {
                Some(port) => Some((port.width, port.height)),
                None => None,
            },
            Element::Label(at) => match self.labels.get(at) {
                Some(label) => Some((label.width, label.height)),
                None => None,
            },
            Element::Edge(_) => None,
        };
        match size {
            Some((width, height)) => Size { width, height },
            None => Size::NONE,
        }
    }

    /// The place of an element. An edge has none.
    pub fn place_of(&self, element: Element) -> Point {
        let place = match element {
            Element::Node(at) => match self.nodes.get(at) {
                Some(node) => Some((node.x, node.y)),
                None => None,
            },
            Element::Port(at) => match self.ports.get(at) {
                Some(port) => Some((port.x, port.y)),
                None => None,
            },
            Element::Label(at) => match self.labels.get(at) {
                Some(label) => Some((label.x, label.y)),
                None => None,
            },
            Element::Edge(_) => None,
        };
        match place {
            Some((x, y)) => Point { x, y },
            None => Point { x: 0.0, y: 0.0 },
        }
    }

    /// Puts an element to a place.
    pub fn put(&mut self, element: Element, place: Point) {
        match element {
            Element::Node(at) => {
                if let Some(node) = self.nodes.get_mut(at) {
                    node.x = place.x;
                    node.y = place.y;
                }
            }
            Element::Port(at) => {
                if let Some(port) = self.ports.get_mut(at) {
                    port.x = place.x;
                    port.y = place.y;
                }
            }
            Element::Label(at) => {
                if let Some(label) = self.labels.get_mut(at) {
                    label.x = place.x;
                    label.y = place.y;
                    label.placed = true;
                }
            }
            Element::Edge(_) => {}
        }
    }

    /// Gives an element another size, which it keeps.
    pub fn resize(&mut self, element: Element, size: Size) {
        match element {
            Element::Node(at) => {
                if let Some(node) = self.nodes.get_mut(at) {
                    node.width = size.width;
                    node.height = size.height;
                }
            }
            Element::Port(at) => {
                if let Some(port) = self.ports.get_mut(at) {
                    port.width = size.width;
                    port.height = size.height;
                }
            }
            Element::Label(at) => {
                if let Some(label) = self.labels.get_mut(at) {
                    label.width = size.width;
                    label.height = size.height;
                }
            }
            Element::Edge(_) => {}
        }
    }

    /// Tells that a level is sent with other nodes or edges than given, so that its certificate isn't told.
    pub fn alter(&mut self, level: usize) {
        if let Some(node) = self.nodes.get_mut(level) {
            node.altered = true;
        }
    }

    /// Adds a port to a node. It answers its number.
    pub fn add_port(
        &mut self,
        alloc: Global,
        node: usize,
        size: Size,
        place: Point,
    ) -> Result<usize, AllocError> {
        let at = self.ports.len();
        self.ports.push(Port {
            id: None,
            node,
            labels: Vec::new(alloc),
            width: size.width,
            height: size.height,
            x: place.x,
            y: place.y,
            options: Options::none(alloc),
        })?;
        if let Some(node) = self.nodes.get_mut(node) {
            node.ports.push(at)?;
        }
        Ok(at)
    }

    /// Adds an edge that is declared at a node. It answers its number.
    pub fn add_edge(
        &mut self,
        alloc: Global,
        home: usize,
        source: End,
        target: End,
        options: Options,
    ) -> Result<usize, AllocError> {
        let at = self.edges.len();
        self.edges.push(Edge {
            id: None,
            home,
            sources: vec![in alloc; source]?,
            targets: vec![in alloc; target]?,
            labels: Vec::new(alloc),
            owner: None,
            options,
            sections: Vec::new(alloc),
            routing: None,
            junctions: Vec::new(alloc),
        })?;
        if let Some(node) = self.nodes.get_mut(home) {
            node.edges.push(at)?;
        }
        Ok(at)
    }

    /// Adds a leaf to a level. It answers its number.
    pub fn add_leaf(
        &mut self,
        alloc: Global,
        level: usize,
        size: Size,
    ) -> Result<usize, AllocError> {
        let at = self.nodes.len();
        self.nodes.push(Node {
            id: None,
            parent: Some(level),
            children: Vec::new(alloc),
            ports: Vec::new(alloc),
            edges: Vec::new(alloc),
            labels: Vec::new(alloc),
            width: size.width,
            height: size.height,
            x: 0.0,
            y: 0.0,
            has_place: false,
            given: crate::element::Given {
                width: size.width,
                height: size.height,
                x: 0.0,
                y: 0.0,
            },
            owner: None,
            options: Options::none(alloc),
            layering: None,
            altered: false,
        })?;
        if let Some(level) = self.nodes.get_mut(level) {
            level.children.push(at)?;
        }
        Ok(at)
    }

    /// A port of size 0 for an end at a node, which several edges may share; nothing where ports are pinned.
    pub fn dock_at(&mut self, alloc: Global, node: usize) -> Result<Option<End>, AllocError> {
        if self.is_pinned(node) {
            return Ok(None);
        }
        let port = self.add_port(alloc, node, Size::NONE, Point { x: 0.0, y: 0.0 })?;
        Ok(Some(End {
            node,
            port: Some(port),
        }))
    }

    /// An end of an edge as one at a port; the end as it is where none can be made.
    pub fn dock_of(&mut self, alloc: Global, end: End) -> Result<End, AllocError> {
        if end.port.is_some() {
            return Ok(end);
        }
        Ok(self.dock_at(alloc, end.node)?.unwrap_or(end))
    }
}
