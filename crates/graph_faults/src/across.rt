//! Which edges of a graph cross borders between levels that are laid out together, by the option `hierarchyHandling`.

use graph_rules::{End, Key, is_extended, key_of};
use json_places::{Element, Kind, carried_key, elements_of, general_key};
use option_names::OptionTable;
use serde_json::Value;
use std::alloc::{AllocError, Global};
use std::collections::BTreeMap;

// An edge with more pairs of ends is sent as more edges than a document may have.
const MOST_PAIRS: usize = 2048;

// A graph with its nodes by their ids and those of their ports.
#[derive(Drop)]
pub(crate) struct Levels<'a> {
    elements: Vec<Element<'a>>,
    nodes: BTreeMap<Key<'a>, usize>,
    ports: BTreeMap<Key<'a>, usize>,
    table: &'a OptionTable,
    general: &'a Value,
}

// How the way of an edge between two nodes runs.
#[derive(Clone, Copy, Debug, Drop, PartialEq, Eq)]
enum Way {
    // Within one level.
    Level,
    Across,
    // It crosses the border of a level that is laid out by itself.
    Shut,
}

// The levels of a graph with the options of a call.
pub(crate) fn levels_of<'a>(
    alloc: Global,
    table: &'a OptionTable,
    graph: &'a Value,
    general: &'a Value,
) -> Result<Levels<'a>, AllocError> {
    let mut levels = Levels {
        elements: elements_of(alloc, graph)?,
        nodes: BTreeMap::new(alloc),
        ports: BTreeMap::new(alloc),
        table,
        general,
    };
    levels.name()?;
    Ok(levels)
}

impl<'a> Levels<'a> {
    fn name(&mut self) -> Result<(), AllocError> {
        for (number, element) in self.elements.iter().enumerate() {
            if let Some(key) = key_of(element.value.get("id")) {
                match (element.kind, element.holder) {
                    (Kind::Node, _) => {
                        self.nodes.insert(key, number)?;
                    }
                    (Kind::Port, Some(node)) => {
                        self.ports.insert(key, node)?;
                    }
                    _ => {}
                }
            }
        }
        Ok(())
    }

    fn port_named(&self, id: Option<&'a Value>) -> Option<usize> {
        self.ports.get(&key_of(id)?).copied()
    }

    // The node of an id, or that of the port of an id.
    fn node_named(&self, id: Option<&'a Value>) -> Option<usize> {
        match self.nodes.get(&key_of(id)?) {
            Some(node) => Some(*node),
            None => self.port_named(id),
        }
    }

    fn plain_end(&self, edge: &'a Value, end: End) -> Option<usize> {
        match edge.get(end.port()) {
            None | Some(Value::Null) => self.node_named(edge.get(end.name())),
            port => self.port_named(port),
        }
    }

    // The nodes at one end of an edge that are there.
    fn ends_of(&self, alloc: Global, edge: &'a Value, end: End) -> Result<Vec<usize>, AllocError> {
        let mut nodes = Vec::new(alloc);
        if !is_extended(edge) {
            if let Some(node) = self.plain_end(edge, end) {
                nodes.push(node)?;
            }
            return Ok(nodes);
        }
        if let Some(Value::Array(ids)) = edge.get(end.list()) {
            for id in ids {
                if let Some(node) = self.node_named(Some(id)) {
                    nodes.push(node)?;
                }
            }
        }
        Ok(nodes)
    }

    fn holder_of(&self, node: usize) -> Option<usize> {
        self.elements.get(node)?.holder
    }

    fn depth_of(&self, node: usize) -> usize {
        match self.elements.get(node) {
            Some(element) => element.depth,
            None => 0,
        }
    }

    // The nearest node that holds both, each counted among the nodes that it holds itself.
    fn common(&self, one: usize, other: usize) -> Option<usize> {
        let (mut one, mut other) = (one, other);
        for _ in 0..self.elements.len() {
            if one == other {
                return Some(one);
            }
            if self.depth_of(one) >= self.depth_of(other) {
                one = self.holder_of(one)?;
            } else {
                other = self.holder_of(other)?;
            }
        }
        None
    }

    fn asked(&self, node: usize) -> Option<&'a Value> {
        let element = self.elements.get(node)?;
        match carried_key(self.table, element.value, "hierarchyHandling") {
            Some(carried) => Some(carried.value),
            None => {
                let (_, value) = general_key(self.table, self.general, "hierarchyHandling")?;
                Some(value)
            }
        }
    }

    // Whether a level is laid out by itself, as it or the nearest node around it that asks for something says.
    fn is_shut(&self, node: usize) -> bool {
        let mut at = Some(node);
        for _ in 0..self.elements.len() {
            let Some(node) = at else {
                break;
            };
            let word = match self.asked(node) {
                Some(Value::String(text)) => text.as_str(),
                _ => "",
            };
            if word.eq_ignore_ascii_case("SEPARATE_CHILDREN") {
                return true;
            }
            if word.eq_ignore_ascii_case("INCLUDE_CHILDREN") {
                return false;
            }
            at = self.holder_of(node);
        }
        false
    }

    // Whether all levels between a node and one that holds it are open.
    fn is_open_up_to(&self, node: usize, level: usize) -> bool {
        let mut at = self.holder_of(node);
        for _ in 0..self.elements.len() {
            match at {
                Some(inner) if inner != level && node != level => {
                    if self.is_shut(inner) {
                        return false;
                    }
                    at = self.holder_of(inner);
                }
                _ => break,
            }
        }
        true
    }

    // The way between two nodes. A loop of the root has none.
    fn way(&self, one: usize, other: usize) -> Option<Way> {
        let level = if one == other {
            self.holder_of(one)?
        } else {
            self.common(one, other)?
        };
        let next = self.depth_of(level).saturating_add(1);
        if self.depth_of(one) == next && self.depth_of(other) == next {
            return Some(Way::Level);
        }
        let is_open = !self.is_shut(level)
            && self.is_open_up_to(one, level)
            && self.is_open_up_to(other, level);
        Some(if is_open { Way::Across } else { Way::Shut })
    }

    // Whether an edge crosses borders and is drawn.
    pub(crate) fn is_drawn_across(
        &self,
        alloc: Global,
        edge: &'a Value,
    ) -> Result<bool, AllocError> {
        let sources = self.ends_of(alloc, edge, End::Source)?;
        let targets = self.ends_of(alloc, edge, End::Target)?;
        if sources.len().saturating_mul(targets.len()) > MOST_PAIRS {
            return Ok(false);
        }
        let mut is_across = false;
        for source in sources.iter() {
            for target in targets.iter() {
                match self.way(*source, *target) {
                    Some(Way::Level) => {}
                    Some(Way::Across) => is_across = true,
                    Some(Way::Shut) | None => return Ok(false),
                }
            }
        }
        Ok(is_across)
    }
}
