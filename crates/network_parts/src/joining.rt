//! The answers for the parts of a network, put together.

ghost use Rattle.std.specs.Prelude.{◌≡◌, ◌+◌, ◌<◌, ◌≤◌, ◌^◌, ℕ, pos, ◌<ℤ◌, length, slice_index, slice_set, IfOk};
ghost use Rattle.std.specs.List.{sum_by};
ghost use Rattle.network_laws.specs.Network.{EndsBelow, edge_at};
ghost use Rattle.network_laws.specs.Layering.{layer_of};
ghost use Rattle.network_parts.specs.Divided.{links_of, links_to};
ghost use Rattle.network_parts.specs.Answers.{flow_in, layers_in};
ghost use Rattle.network_laws.specs.declared.network.Solution.{Solution as SolutionOf};

use network_laws::{NetEdge, Solution};
use std::alloc::{AllocError, Global};

// The layer of a node, by its part and its place there.
fn layer_at(solutions: &[Solution], part: u32, place: u32) -> i64
    requires part { part < length solutions.now }
    requires place { place < length (layers_in solutions.now part) }
    ensures value { result ≡ layer_of (layers_in solutions.now part) place }
    ensures small { result <ℤ pos (2 ^ 63) }
{
    solutions[part as usize].layer.as_slice()[place as usize]
}

/// The layer of each node.
pub(crate) fn join_layers(
    alloc: Global,
    numbers: &[u32],
    places: &[u32],
    solutions: &[Solution],
) -> Result<Vec<i64>, AllocError>
    requires same { length places.now ≡ length numbers.now }
    requires parts { (v : ℕ) → v < length numbers.now → slice_index numbers.now v < length solutions.now }
    requires there { (v : ℕ) → v < length numbers.now → slice_index places.now v < length (layers_in solutions.now (slice_index numbers.now v)) }
    ensures as_many { IfOk result (λ layers. length layers.items ≡ length numbers.now) }
    ensures each { IfOk result
        (λ layers. (v : ℕ) → v < length numbers.now
        → layer_of layers.items v ≡ layer_of (layers_in solutions.now (slice_index numbers.now v)) (slice_index places.now v)) }
    ensures small { IfOk result (λ layers. (v : ℕ) → v < length numbers.now → layer_of layers.items v <ℤ pos (2 ^ 63)) }
{
    let mut layers = Vec::with_capacity(alloc, numbers.len())?;
    for v in 0..numbers.len() {
        layers.push(layer_at(solutions, numbers[v], places[v]))?;
    }
    Ok(layers)
}

// The flow of an edge, by its part and its place there.
fn flow_at(solutions: &[Solution], part: u32, place: u32) -> u64
    requires part { part < length solutions.now }
    requires place { place < length (flow_in solutions.now part) }
    ensures { result ≡ slice_index (flow_in solutions.now part) place }
{
    solutions[part as usize].flow.as_slice()[place as usize]
}

// Counts one edge more of a part, and gives how many there were.
fn next_place(next: &mut [u32], part: u32) -> u32
    requires there { part < length next.old }
    requires few { slice_index next.old part < 2 ^ 24 }
    ensures place { result ≡ slice_index next.old part }
    ensures next { next.new ≡ slice_set next.old part (slice_index next.old part + 1) }
{
    let place = next[part as usize];
    next[part as usize] = place + 1;
    place
}

// The flow of each edge, where no edge of a part is counted yet.
fn flows_from(
    alloc: Global,
    numbers: &[u32],
    edges: &[NetEdge],
    solutions: &[Solution],
    next: &mut [u32],
) -> Result<Vec<u64>, AllocError>
    requires few { length edges.now ≤ 2 ^ 24 }
    requires ends { EndsBelow (length numbers.now) edges.now }
    requires parts { (v : ℕ) → v < length numbers.now → slice_index numbers.now v < length solutions.now }
    requires there { (k : ℕ) → k < length solutions.now → length (flow_in solutions.now k) ≡ length (links_of numbers.now edges.now k) }
    requires counts { length next.old ≡ length solutions.now }
    requires none { (k : ℕ) → slice_index next.old k ≡ 0 }
    ensures as_many { IfOk result (λ flow. length flow.items ≡ length edges.now) }
    ensures each { IfOk result
        (λ flow. (e : ℕ) → e < length edges.now
        → slice_index flow.items e
        ≡ slice_index (flow_in solutions.now (slice_index numbers.now (edge_at edges.now e).tail))
        (length (links_to numbers.now edges.now (slice_index numbers.now (edge_at edges.now e).tail) e))) }
{
    let mut flow = Vec::with_capacity(alloc, edges.len())?;
    for edge in edges {
        let part = numbers[edge.tail as usize];
        let place = next_place(next, part);
        flow.push(flow_at(solutions, part, place))?;
    }
    Ok(flow)
}

/// The flow of each edge.
pub(crate) fn join_flows(
    alloc: Global,
    numbers: &[u32],
    edges: &[NetEdge],
    solutions: &[Solution],
) -> Result<Vec<u64>, AllocError>
    requires few { length edges.now ≤ 2 ^ 24 }
    requires ends { EndsBelow (length numbers.now) edges.now }
    requires parts { (v : ℕ) → v < length numbers.now → slice_index numbers.now v < length solutions.now }
    requires there { (k : ℕ) → k < length solutions.now → length (flow_in solutions.now k) ≡ length (links_of numbers.now edges.now k) }
    ensures as_many { IfOk result (λ flow. length flow.items ≡ length edges.now) }
    ensures each { IfOk result
        (λ flow. (e : ℕ) → e < length edges.now
        → slice_index flow.items e
        ≡ slice_index (flow_in solutions.now (slice_index numbers.now (edge_at edges.now e).tail))
        (length (links_to numbers.now edges.now (slice_index numbers.now (edge_at edges.now e).tail) e))) }
{
    let mut next: Vec<u32> = vec![in alloc; 0; solutions.len()]?;
    flows_from(alloc, numbers, edges, solutions, next.as_mut_slice())
}

/// The costs of the parts together.
pub(crate) fn total_cost(solutions: &[Solution]) -> u128
    requires { sum_by (λ (s : SolutionOf). s.cost) solutions.now < 2 ^ 128 }
    ensures { result ≡ sum_by (λ (s : SolutionOf). s.cost) solutions.now }
{
    let mut total: u128 = 0;
    for solution in solutions {
        total += solution.cost;
    }
    total
}
