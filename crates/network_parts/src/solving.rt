//! Each connected part of a network is solved by pivots, within a budget of its own.

ghost use Rattle.std.specs.Prelude.{◌≡◌, ◌<◌, ℕ, length, IfOk};
ghost use Rattle.network_laws.specs.Network.{IsNetwork};
ghost use Rattle.network_laws.specs.Layering.{IsSolution};
ghost use Rattle.network_laws.specs.Parts.{ArePartNumbers};
ghost use Rattle.network_parts.specs.Answers.{ArePartsSolved, AreSolved, AreWhole, IsWhole};
ghost use Rattle.network_parts.specs.Dividing.{AreCounted, ArePlaces, HoldEdges, HoldNodes, rows_of, sizes_of};
ghost use Rattle.network_parts.specs.Solved.{budget, IsSolved, IsSolvedByParts};

use crate::dividing::{count_parts, empty_networks, give_edges, place_nodes};
use crate::joining::{join_flows, join_layers, total_cost};
use flow_dual::parts;
use net_simplex::{Solved, solve};
use network_laws::{NetEdge, Network, Solution};
use std::alloc::{AllocError, Global};

// 64 pivots for each node and each edge.
fn budget_of(net: &Network) -> u64
    requires { IsNetwork net.now.nodes net.now.edges.items }
    ensures { result ≡ budget net.now.nodes net.now.edges.items }
{
    64 * (u64::from(net.nodes) + net.edges.as_slice().len() as u64)
}

// The layering of a connected network.
fn solve_alone(alloc: Global, net: &Network) -> Result<Solution, AllocError>
    requires { IsWhole net.now.nodes net.now.edges.items }
    ensures { IfOk result (λ s. IsSolved net.now.nodes net.now.edges.items s.layer.items s.flow.items s.cost) }
{
    let solved = solve(alloc, net, budget_of(net))?;
    Ok(solved.solution)
}

// The layerings of connected networks.
fn solve_each(alloc: Global, networks: &[Network]) -> Result<Vec<Solution>, AllocError>
    requires { AreWhole (sizes_of networks.now) (rows_of networks.now) }
    ensures { IfOk result (λ solutions. AreSolved (sizes_of networks.now) (rows_of networks.now) (length networks.now) solutions.items) }
{
    let mut solutions = Vec::with_capacity(alloc, networks.len())?;
    for net in networks {
        solutions.push(solve_alone(alloc, net)?)?;
    }
    Ok(solutions)
}

// The layering of a network whose parts are solved.
fn join_all(
    alloc: Global,
    numbers: &[u32],
    places: &[u32],
    edges: &[NetEdge],
    solutions: &[Solution],
) -> Result<Solution, AllocError>
    requires network { IsNetwork (length numbers.now) edges.now }
    requires parts { ArePartNumbers (length numbers.now) edges.now numbers.now }
    requires count { AreCounted numbers.now (length numbers.now) (length solutions.now) }
    requires places { ArePlaces numbers.now (length numbers.now) places.now }
    requires solved { ArePartsSolved numbers.now edges.now solutions.now }
    ensures solution { IfOk result (λ s. IsSolution (length numbers.now) edges.now s.layer.items s.flow.items s.cost) }
    ensures parts { IfOk result (λ s. IsSolvedByParts (length numbers.now) edges.now s.layer.items s.flow.items) }
{
    let layer = join_layers(alloc, numbers, places, solutions)?;
    let flow = join_flows(alloc, numbers, edges, solutions)?;
    let cost = total_cost(solutions);
    Ok(Solution { layer, flow, cost })
}

// The layering of a network by its parts, whose networks are still without nodes.
fn solve_in(
    alloc: Global,
    numbers: &[u32],
    edges: &[NetEdge],
    networks: &mut [Network],
) -> Result<Solution, AllocError>
    requires network { IsNetwork (length numbers.now) edges.now }
    requires parts { ArePartNumbers (length numbers.now) edges.now numbers.now }
    requires count { AreCounted numbers.now (length numbers.now) (length networks.old) }
    requires nodes { HoldNodes numbers.now 0 (sizes_of networks.old) }
    requires edges { HoldEdges numbers.now edges.now 0 (rows_of networks.old) }
    ensures solution { IfOk result (λ s. IsSolution (length numbers.now) edges.now s.layer.items s.flow.items s.cost) }
    ensures parts { IfOk result (λ s. IsSolvedByParts (length numbers.now) edges.now s.layer.items s.flow.items) }
{
    let places = place_nodes(alloc, numbers, networks)?;
    give_edges(numbers, places.as_slice(), edges, networks)?;
    let solutions = solve_each(alloc, networks)?;
    join_all(
        alloc,
        numbers,
        places.as_slice(),
        edges,
        solutions.as_slice(),
    )
}

/// A layering of least cost of any network, and a flow that proves it. Each connected part is solved as a network of its
/// own, its nodes and edges in the order of their numbers, by network simplex with 64 pivots for each node and each edge of
/// the part, and by the primal-dual flow where these don't suffice. The least layer of each part is 0.
///
/// Layers are by node and flows by edge. The only error is out of memory.
///
/// Proved:
/// - The promise of flow_dual for every network.
/// - In each connected part, what net_simplex promises of the part alone, with its nodes and edges in the order of their numbers.
/// - The budget is 64 pivots for each node and each edge. If they don't suffice, any minimal layering may be the answer.
pub fn solve_parts(alloc: Global, net: &Network) -> Result<Solution, AllocError>
    requires { IsNetwork net.now.nodes net.now.edges.items }
    ensures solution { IfOk result (λ s. IsSolution net.now.nodes net.now.edges.items s.layer.items s.flow.items s.cost) }
    ensures parts { IfOk result (λ s. IsSolvedByParts net.now.nodes net.now.edges.items s.layer.items s.flow.items) }
{
    let numbers = parts(alloc, net)?;
    let mut networks = empty_networks(alloc, count_parts(numbers.as_slice()))?;
    solve_in(
        alloc,
        numbers.as_slice(),
        net.edges.as_slice(),
        networks.as_mut_slice(),
    )
}
