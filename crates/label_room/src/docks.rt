//! Which ports and ends of edges stand at the sides of nodes.

use crate::sides::{Met, side_of};
use graph_draft::{Direction, Draft, End, Joined, Kind, Side, joined_edges};
use std::alloc::{AllocError, Global};

/// What stands at a side of a node: a port, or an end of an edge that names the node itself.
#[derive(Clone, Copy, Debug, Drop, PartialEq, Eq)]
pub enum Dock {
    Port(usize),
    End(usize, Kind),
}

impl Dock {
    /// Its port; none where an edge names the node.
    pub fn port(self) -> Option<usize> {
        match self {
            Dock::Port(port) => Some(port),
            Dock::End(_, _) => None,
        }
    }
}

// The docks of one node.
#[derive(Drop)]
struct Docks {
    north: Vec<Dock>,
    east: Vec<Dock>,
    south: Vec<Dock>,
    west: Vec<Dock>,
}

impl Docks {
    fn none(alloc: Global) -> Docks {
        Docks {
            north: Vec::new(alloc),
            east: Vec::new(alloc),
            south: Vec::new(alloc),
            west: Vec::new(alloc),
        }
    }

    fn list(&self, side: Side) -> &Vec<Dock> {
        match side {
            Side::North => &self.north,
            Side::East => &self.east,
            Side::South => &self.south,
            Side::West => &self.west,
        }
    }

    fn add(&mut self, side: Side, dock: Dock) -> Result<(), AllocError> {
        match side {
            Side::North => self.north.push(dock)?,
            Side::East => self.east.push(dock)?,
            Side::South => self.south.push(dock)?,
            Side::West => self.west.push(dock)?,
        }
        Ok(())
    }
}

/// What stands at the sides of each node of the graph: the ends of edges that name the node itself, and then its ports.
#[derive(Drop)]
pub struct Sides {
    nodes: Vec<Docks>,
    ports: Vec<Option<Side>>,
    sources: Vec<Option<Side>>,
    targets: Vec<Option<Side>>,
}

const NO_DOCKS: &[Dock] = &[];

fn side_in(sides: &[Option<Side>], at: usize) -> Option<Side> {
    sides.get(at).copied().flatten()
}

fn set_side(sides: &mut [Option<Side>], at: usize, side: Side) {
    if let Some(place) = sides.get_mut(at) {
        *place = Some(side);
    }
}

impl Sides {
    fn none(alloc: Global, draft: &Draft) -> Result<Sides, AllocError> {
        let mut nodes = Vec::new(alloc);
        for _ in 0..draft.given_nodes {
            nodes.push(Docks::none(alloc))?;
        }
        Ok(Sides {
            nodes,
            ports: vec![in alloc; None; draft.ports.len()]?,
            sources: vec![in alloc; None; draft.edges.len()]?,
            targets: vec![in alloc; None; draft.edges.len()]?,
        })
    }

    /// What stands at a side of a node.
    pub fn at(&self, node: usize, side: Side) -> &[Dock] {
        match self.nodes.get(node) {
            Some(docks) => docks.list(side).as_slice(),
            None => NO_DOCKS,
        }
    }

    /// The side at which an end of an edge stands.
    pub fn side_of_end(&self, end: End, edge: usize, kind: Kind) -> Option<Side> {
        match (end.port, kind) {
            (Some(port), _) => side_in(self.ports.as_slice(), port),
            (None, Kind::Source) => side_in(self.sources.as_slice(), edge),
            (None, Kind::Target) => side_in(self.targets.as_slice(), edge),
        }
    }

    fn add(&mut self, node: usize, side: Side, dock: Dock) -> Result<(), AllocError> {
        match dock {
            Dock::Port(port) => set_side(self.ports.as_mut_slice(), port, side),
            Dock::End(edge, Kind::Source) => set_side(self.sources.as_mut_slice(), edge, side),
            Dock::End(edge, Kind::Target) => set_side(self.targets.as_mut_slice(), edge, side),
        }
        match self.nodes.get_mut(node) {
            Some(docks) => docks.add(side, dock),
            None => Ok(()),
        }
    }
}

fn tell(flags: &mut [bool], at: usize) {
    if let Some(flag) = flags.get_mut(at) {
        *flag = true;
    }
}

fn is_told(flags: &[bool], at: usize) -> bool {
    flags.get(at).copied().unwrap_or(false)
}

// Which ports edges leave and enter, self-loops left out.
#[derive(Drop)]
struct MetPorts {
    left: Vec<bool>,
    entered: Vec<bool>,
}

impl MetPorts {
    fn at(&self, port: usize) -> Met {
        Met {
            is_left: is_told(self.left.as_slice(), port),
            is_entered: is_told(self.entered.as_slice(), port),
        }
    }

    fn meet(&mut self, port: usize, kind: Kind) {
        match kind {
            Kind::Source => tell(self.left.as_mut_slice(), port),
            Kind::Target => tell(self.entered.as_mut_slice(), port),
        }
    }
}

fn side_of_kind(direction: Direction, found: &Joined, kind: Kind) -> Side {
    if kind == Kind::Source || found.is_loop() {
        direction.ahead()
    } else {
        direction.behind()
    }
}

fn add_edge(
    sides: &mut Sides,
    met: &mut MetPorts,
    direction: Direction,
    found: &Joined,
) -> Result<(), AllocError> {
    for (end, kind) in [(found.source, Kind::Source), (found.target, Kind::Target)] {
        match end.port {
            None => {
                let side = side_of_kind(direction, found, kind);
                sides.add(end.node, side, Dock::End(found.edge, kind))?;
            }
            Some(port) if !found.is_loop() => met.meet(port, kind),
            Some(_) => {}
        }
    }
    Ok(())
}

/// What stands at the sides of the nodes of a draft.
pub fn sides_of(alloc: Global, draft: &Draft) -> Result<Sides, AllocError> {
    let mut sides = Sides::none(alloc, draft)?;
    let mut met = MetPorts {
        left: vec![in alloc; false; draft.ports.len()]?,
        entered: vec![in alloc; false; draft.ports.len()]?,
    };
    for found in joined_edges(alloc, draft)?.iter() {
        add_edge(&mut sides, &mut met, draft.direction_of(found.level), found)?;
    }
    for node in 0..draft.given_nodes {
        let direction = draft.direction_of(draft.level_around(node));
        for port in draft.ports_of(node) {
            let side = side_of(draft, node, *port, direction, met.at(*port));
            sides.add(node, side, Dock::Port(*port))?;
        }
    }
    Ok(sides)
}
