//! Nodes as they are planned before edges come to them: with sizes, labels, and the areas of their fields.

use crate::ids::Ids;
use crate::sides::Side;
use crate::spots::{Area, Spot};
use dot_looks::Form;
use dot_records::Extent;
use serde_json::Value;
use std::alloc::{AllocError, Global};
use std::collections::BTreeMap;
use std::num::saturating_f64_to_usize;

/// The area of a field of a record.
#[derive(Drop)]
pub(crate) struct FieldArea {
    /// What edges call it.
    pub(crate) port: Option<String>,
    pub(crate) area: Area,
    /// Whether it has no fields of its own.
    pub(crate) is_leaf: bool,
}

/// A port, at which edges meet a node.
#[derive(Drop)]
pub(crate) struct Port {
    pub(crate) id: String,
    pub(crate) spot: Spot,
}

/// A node as it is planned. Its size is in whole points.
#[derive(Drop)]
pub(crate) struct Planned {
    pub(crate) form: Form,
    pub(crate) extent: Extent,
    pub(crate) labels: Vec<Value>,
    /// The fields of a record; none for another node.
    pub(crate) fields: Vec<FieldArea>,
    pub(crate) ports: Vec<Port>,
    // The places of the ports in their list, by where they are.
    places: BTreeMap<(Side, usize), usize>,
}

impl Planned {
    /// A node without ports.
    pub(crate) fn new(
        alloc: Global,
        form: Form,
        extent: Extent,
        labels: Vec<Value>,
        fields: Vec<FieldArea>,
    ) -> Planned {
        Planned {
            form,
            extent,
            labels,
            fields,
            ports: Vec::new(alloc),
            places: BTreeMap::new(alloc),
        }
    }

    /// The area of the field of a name.
    pub(crate) fn field_named(&self, name: &str) -> Option<Area> {
        for field in self.fields.iter() {
            if let Some(port) = &field.port {
                if port.as_str() == name {
                    return Some(field.area);
                }
            }
        }
        None
    }

    fn port_there(&self, key: (Side, usize)) -> Option<&Port> {
        let place = *self.places.get(&key)?;
        self.ports.get(place)
    }

    /// The id of the port at a spot. A port that is made gets an id like the name.
    pub(crate) fn port_at(
        &mut self,
        ids: &mut Ids,
        spot: Spot,
        name: &str,
    ) -> Result<String, AllocError> {
        let key = (spot.side, saturating_f64_to_usize(spot.along));
        if let Some(port) = self.port_there(key) {
            return port.id.clone();
        }
        let id = ids.take(name)?;
        let copy = id.clone()?;
        self.places.insert(key, self.ports.len())?;
        self.ports.push(Port { id, spot })?;
        Ok(copy)
    }
}
