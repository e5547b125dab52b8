//! The ends of edges: nodes, ports of nodes, and clusters.

use crate::ids::Ids;
use crate::known::tell_value;
use crate::levels::Levels;
use crate::naming::node_name;
use crate::planned::Planned;
use crate::sides::{Compass, Direction, Way};
use crate::spots::{Area, Meeting, reach_of, spot_at};
use dot_looks::Notes;
use dot_syntax::{Edge, Graph, Written};
use std::alloc::{AllocError, Global};

/// What edges find their ends in.
#[derive(Drop)]
pub(crate) struct Ends {
    /// The ids of nodes, levels and ports.
    pub(crate) ids: Ids,
    /// By node.
    pub(crate) planned: Vec<Planned>,
    /// By level.
    pub(crate) level_ids: Vec<String>,
    pub(crate) direction: Direction,
    /// Whether edges may end at clusters.
    pub(crate) is_compound: bool,
}

// What a port names: a field of a record, a point of the compass, or both.
#[derive(Clone, Copy, Drop)]
struct Named {
    field: Option<Area>,
    // Nothing if the text names no point.
    compass: Option<Compass>,
}

fn named_by(planned: &Planned, port: &str) -> Option<Named> {
    let (name, point) = match port.split_once(":") {
        Some((name, point)) => (name, Some(point)),
        None => (port, None),
    };
    if let Some(area) = planned.field_named(name) {
        return Some(Named {
            field: Some(area),
            compass: match point {
                Some(point) => Compass::named(point),
                None => Some(Compass::MIDDLE),
            },
        });
    }
    match Compass::named(name) {
        Some(compass) => Some(Named {
            field: None,
            compass: Some(compass),
        }),
        None => None,
    }
}

// The port that an end of an edge names.
fn port_of<'a>(graph: &'a Graph, edge: &Edge, way: Way) -> Option<&'a Written> {
    let (port, name) = match way {
        Way::Tail => (edge.tail_port, "tailport"),
        Way::Head => (edge.head_port, "headport"),
    };
    let written = match port {
        Some(port) => graph.attributes.written(port)?,
        None => graph.attributes.value(edge.set, name)?,
    };
    if written.text.is_empty() {
        None
    } else {
        Some(written)
    }
}

fn node_of(edge: &Edge, way: Way) -> usize {
    match way {
        Way::Tail => edge.tail,
        Way::Head => edge.head,
    }
}

fn tell_port(
    alloc: Global,
    node: &str,
    written: &Written,
    notes: &mut Notes,
) -> Result<(), AllocError> {
    let port = written.text.as_str();
    let message = format!(in alloc; "the node \"{node}\" has no port \"{port}\"")?;
    notes.add(written.place, message.as_str())
}

fn tell_point(alloc: Global, written: &Written, notes: &mut Notes) -> Result<(), AllocError> {
    let points = "n, ne, e, se, s, sw, w, nw, c or _";
    tell_value(alloc, written, "a point of the compass", points, notes)
}

fn tell_cluster(
    alloc: Global,
    written: &Written,
    fault: &str,
    notes: &mut Notes,
) -> Result<(), AllocError> {
    let name = written.text.as_str();
    let message = format!(in alloc; "{fault} the cluster \"{name}\"")?;
    notes.add(written.place, message.as_str())
}

impl Ends {
    // What an end of an edge asks of its node; nothing if it may meet the node anywhere.
    fn meeting(
        &self,
        alloc: Global,
        graph: &Graph,
        node: usize,
        written: &Written,
        way: Way,
        notes: &mut Notes,
    ) -> Result<Option<(Area, Meeting)>, AllocError> {
        let Some(planned) = self.planned.get(node) else {
            return Ok(None);
        };
        let Some(named) = named_by(planned, written.text.as_str()) else {
            tell_port(alloc, node_name(graph, node), written, notes)?;
            return Ok(None);
        };
        if named.compass.is_none() {
            tell_point(alloc, written, notes)?;
        }
        let compass = named.compass.unwrap_or(Compass::MIDDLE);
        if named.field.is_none() && compass == Compass::MIDDLE {
            return Ok(None);
        }
        let meeting = Meeting {
            compass,
            wanted: self.direction.side_at(way),
            way,
            reach: reach_of(planned.form),
        };
        let area = named.field.unwrap_or(Area::whole(planned.extent));
        Ok(Some((area, meeting)))
    }

    // The id of the port at which an edge meets its node; nothing if it may meet the node anywhere.
    fn port_id(
        &mut self,
        alloc: Global,
        graph: &Graph,
        node: usize,
        written: &Written,
        way: Way,
        notes: &mut Notes,
    ) -> Result<Option<String>, AllocError> {
        let asked = self.meeting(alloc, graph, node, written, way, notes)?;
        let Some((area, meeting)) = asked else {
            return Ok(None);
        };
        let Some(planned) = self.planned.get_mut(node) else {
            return Ok(None);
        };
        let spot = spot_at(area, planned.extent, meeting);
        let (name, port) = (node_name(graph, node), written.text.as_str());
        let id = format!(in alloc; "{name}:{port}")?;
        let id = planned.port_at(&mut self.ids, spot, id.as_str())?;
        Ok(Some(id))
    }

    // The cluster at which an edge ends, if it leads into it or out of it.
    fn cluster_of(
        &self,
        alloc: Global,
        graph: &Graph,
        levels: &Levels,
        edge: &Edge,
        way: Way,
        notes: &mut Notes,
    ) -> Result<Option<usize>, AllocError> {
        let (name, outside) = match way {
            Way::Tail => ("ltail", edge.head),
            Way::Head => ("lhead", edge.tail),
        };
        let Some(written) = graph.attributes.value(edge.set, name) else {
            return Ok(None);
        };
        if written.text.is_empty() {
            return Ok(None);
        }
        if !self.is_compound {
            notes.add(
                written.place,
                "edges end at clusters only if the graph has compound=true",
            )?;
            return Ok(None);
        }
        let Some(level) = levels.named(written.text.as_str()) else {
            tell_cluster(alloc, written, "there is no node in", notes)?;
            return Ok(None);
        };
        if levels.holds(level, node_of(edge, way)) && !levels.holds(level, outside) {
            return Ok(Some(level));
        }
        tell_cluster(alloc, written, "the edge crosses no border of", notes)?;
        Ok(None)
    }

    /// The id of what an edge ends at.
    pub(crate) fn id_of(
        &mut self,
        alloc: Global,
        graph: &Graph,
        levels: &Levels,
        edge: &Edge,
        way: Way,
        notes: &mut Notes,
    ) -> Result<String, AllocError> {
        let node = node_of(edge, way);
        if let Some(level) = self.cluster_of(alloc, graph, levels, edge, way, notes)? {
            if let Some(id) = self.level_ids.get(level) {
                return id.clone();
            }
        }
        if let Some(written) = port_of(graph, edge, way) {
            if let Some(id) = self.port_id(alloc, graph, node, written, way, notes)? {
                return Ok(id);
            }
        }
        String::from_str(alloc, node_name(graph, node))
    }
}
