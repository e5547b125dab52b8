//! The connected parts of a network as networks of their own, in one pass over the nodes and one over the edges.

ghost use Rattle.std.specs.Prelude.{◌≡◌, ◌+◌, ◌<◌, ◌≤◌, ◌^◌, ◌++◌, ◌∷◌, [], ℕ, List, length, slice_index, slice_set, IfOk, OnOk};
ghost use Rattle.network_laws.specs.declared.network.NetEdge.{NetEdge as EdgeOf};
ghost use Rattle.network_laws.specs.Network.{EndsBelow};
ghost use Rattle.network_parts.specs.Dividing.{AreCounted, ArePlaces, HoldEdges, HoldNodes, row_at, rows_of, sizes_of};

use network_laws::{NetEdge, Network};
use std::alloc::{AllocError, Global};

/// How many parts there are, by the number of each node's part.
pub fn count_parts(numbers: &[u32]) -> u32
    requires { (v : ℕ) → v < length numbers.now → slice_index numbers.now v < 2 ^ 23 }
    ensures { AreCounted numbers.now (length numbers.now) result }
{
    let mut count = 0;
    for number in numbers {
        if *number >= count {
            count = *number + 1;
        }
    }
    count
}

/// So many networks without nodes.
pub(crate) fn empty_networks(alloc: Global, count: u32) -> Result<Vec<Network>, AllocError>
    ensures as_many { IfOk result (λ networks. length networks.items ≡ count) }
    ensures nodes { IfOk result (λ networks. (numbers : List ℕ) → HoldNodes numbers 0 (sizes_of networks.items)) }
    ensures edges { IfOk result (λ networks. (numbers : List ℕ) (edges : List EdgeOf) → HoldEdges numbers edges 0 (rows_of networks.items)) }
{
    let mut networks = Vec::with_capacity(alloc, count as usize)?;
    for _ in 0..count {
        networks.push(Network {
            nodes: 0,
            edges: Vec::new(alloc),
        })?;
    }
    Ok(networks)
}

// Adds a node to one of the networks, and gives its number there.
fn add_node(networks: &mut [Network], part: u32) -> u32
    requires there { part < length networks.old }
    requires few { slice_index (sizes_of networks.old) part < 2 ^ 23 }
    ensures place { result ≡ slice_index (sizes_of networks.old) part }
    ensures sizes { sizes_of networks.new ≡ slice_set (sizes_of networks.old) part (slice_index (sizes_of networks.old) part + 1) }
    ensures edges { rows_of networks.new ≡ rows_of networks.old }
{
    let place = networks[part as usize].nodes;
    networks[part as usize].nodes = place + 1;
    place
}

/// Adds each node to the network of its part, and gives its number there.
pub(crate) fn place_nodes(
    alloc: Global,
    numbers: &[u32],
    networks: &mut [Network],
) -> Result<Vec<u32>, AllocError>
    requires few { length numbers.now ≤ 2 ^ 23 }
    requires below { (v : ℕ) → v < length numbers.now → slice_index numbers.now v < length networks.old }
    requires empty { HoldNodes numbers.now 0 (sizes_of networks.old) }
    ensures places { IfOk result (λ places. ArePlaces numbers.now (length numbers.now) places.items) }
    ensures nodes { OnOk result (HoldNodes numbers.now (length numbers.now) (sizes_of networks.new)) }
    ensures edges { OnOk result (rows_of networks.new ≡ rows_of networks.old) }
{
    let mut places = Vec::with_capacity(alloc, numbers.len())?;
    for number in numbers {
        places.push(add_node(networks, *number))?;
    }
    Ok(places)
}

// Adds an edge to one of the networks.
fn add_edge(networks: &mut [Network], part: u32, edge: NetEdge) -> Result<(), AllocError>
    requires { part < length networks.old }
    ensures sizes { OnOk result (sizes_of networks.new ≡ sizes_of networks.old) }
    ensures edges { OnOk result (rows_of networks.new ≡ slice_set (rows_of networks.old) part (row_at (rows_of networks.old) part ++ edge ∷ [])) }
{
    networks[part as usize].edges.push(edge)?;
    Ok(())
}

// The edge between the places of its ends.
fn renumber(places: &[u32], edge: NetEdge) -> NetEdge
    requires tail { edge.tail < length places.now }
    requires head { edge.head < length places.now }
    ensures { result ≡ record { tail = slice_index places.now edge.tail; head = slice_index places.now edge.head; least = edge.least; weight = edge.weight } }
{
    NetEdge {
        tail: places[edge.tail as usize],
        head: places[edge.head as usize],
        least: edge.least,
        weight: edge.weight,
    }
}

/// Adds each edge to the network of its part.
pub(crate) fn give_edges(
    numbers: &[u32],
    places: &[u32],
    edges: &[NetEdge],
    networks: &mut [Network],
) -> Result<(), AllocError>
    requires ends { EndsBelow (length numbers.now) edges.now }
    requires places { ArePlaces numbers.now (length numbers.now) places.now }
    requires below { (v : ℕ) → v < length numbers.now → slice_index numbers.now v < length networks.old }
    requires empty { HoldEdges numbers.now edges.now 0 (rows_of networks.old) }
    ensures nodes { OnOk result (sizes_of networks.new ≡ sizes_of networks.old) }
    ensures edges { OnOk result (HoldEdges numbers.now edges.now (length edges.now) (rows_of networks.new)) }
{
    for edge in edges {
        let part = numbers[edge.tail as usize];
        add_edge(networks, part, renumber(places, *edge))?;
    }
    Ok(())
}
