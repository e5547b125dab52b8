//! For which elements of the graph others are made.

use crate::document::{made_id, stem_of};
use crate::draft::Draft;
use crate::element::{Element, Port};
use serde_json::Value;
use std::alloc::{AllocError, Global};
use std::collections::BTreeMap;

impl Draft {
    // The element that an element was made for: one that the graph has, and itself if the graph has it.
    fn owner_of(&self, element: Element) -> Element {
        let owner = match element {
            Element::Node(at) => match self.nodes.get(at) {
                Some(node) if at >= self.given_nodes => node.owner.or(around(node.parent)),
                _ => None,
            },
            Element::Edge(at) => match self.edges.get(at) {
                Some(edge) if at >= self.given_edges => edge.owner.or(around(Some(edge.home))),
                _ => None,
            },
            _ => None,
        };
        owner.unwrap_or(element)
    }

    /// Tells for which other element a stage made a node or an edge. Otherwise it counts as made for the node around it.
    pub fn set_owner(&mut self, made: Element, owner: Element) {
        let owner = Some(self.owner_of(owner));
        match made {
            Element::Node(at) => {
                if let Some(node) = self.nodes.get_mut(at) {
                    node.owner = owner;
                }
            }
            Element::Edge(at) => {
                if let Some(edge) = self.edges.get_mut(at) {
                    edge.owner = owner;
                }
            }
            _ => {}
        }
    }

    // The id of a node or an edge of the graph; null where it has none.
    fn id_of(&self, element: Element) -> Result<Value, AllocError> {
        let id = match element {
            Element::Node(at) => match self.nodes.get(at) {
                Some(node) => node.id.as_ref(),
                None => None,
            },
            Element::Edge(at) => match self.edges.get(at) {
                Some(edge) => edge.id.as_ref(),
                None => None,
            },
            _ => None,
        };
        match id {
            Some(id) => id.clone(),
            None => Ok(Value::Null),
        }
    }

    // The id that a port has in the graph, or else that of the element for which it was made.
    fn port_owner(&self, port: &Port) -> Result<Value, AllocError> {
        match port.id.as_ref() {
            Some(id) => id.clone(),
            None => self.id_of(self.owner_of(Element::Node(port.node))),
        }
    }
}

fn around(node: Option<usize>) -> Option<Element> {
    Some(Element::Node(node?))
}

/// For each id that stands in the document of a draft and not in the graph, the id of the element that it stands for: of the same port,
/// if its id is that of a node too, or else of the element for which a stage made it. Null where that has no id.
pub fn owners_of(alloc: Global, draft: &Draft) -> Result<BTreeMap<String, Value>, AllocError> {
    let stem = stem_of(alloc, draft)?;
    let stem = stem.as_str();
    let mut owners = BTreeMap::new(alloc);
    for at in draft.given_nodes..draft.nodes.len() {
        let owner = draft.id_of(draft.owner_of(Element::Node(at)))?;
        owners.insert(made_id(alloc, stem, "n", at)?, owner)?;
    }
    for (at, port) in draft.ports.iter().enumerate() {
        if port.id.is_none() || draft.renamed.contains(&at) {
            owners.insert(made_id(alloc, stem, "p", at)?, draft.port_owner(port)?)?;
        }
    }
    for at in draft.given_edges..draft.edges.len() {
        let owner = draft.id_of(draft.owner_of(Element::Edge(at)))?;
        owners.insert(made_id(alloc, stem, "e", at)?, owner)?;
    }
    Ok(owners)
}
