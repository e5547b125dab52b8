//! Layerings of least cost: the start, the augmentations, and each part lowered to begin at layer 0.

ghost use Rattle.std.specs.Prelude.{◌≡◌, ◌≤◌, ◌<◌, ◌^◌, ℕ, pos, ◌≤ℤ◌, ◌<ℤ◌, length, OnOk, IfOk, slice_index};
ghost use Rattle.network_laws.specs.Network.{EndsBelow, IsNetwork};
ghost use Rattle.network_laws.specs.Layering.{IsLayering, layer_of, IsSolution};
ghost use Rattle.network_laws.specs.Parts.{ArePartNumbers};
ghost use Rattle.network_laws.specs.Tight.{IsDone};
ghost use Rattle.flow_dual.specs.Searching.{IsBetween, IsCleared};
ghost use Rattle.flow_dual.specs.Augmented.{AreDrained};

use crate::augment::drain_all;
use crate::finish;
use crate::marks::{Linked, Marks, no_marks};
use crate::start::{as_layers, begin};
use network_laws::{
    End, NetEdge, Network, Solution, begin_at_zero, greatest_sums, link_edges, part_numbers,
};
use std::alloc::{AllocError, Global};

/// The number of each node's connected part. The parts are numbered 0, 1, 2 in the order of their least nodes.
///
/// Proved:
/// - Parts are numbered by least node.
pub fn parts(alloc: Global, net: &Network) -> Result<Vec<u32>, AllocError>
    requires { IsNetwork net.now.nodes net.now.edges.items }
    ensures { IfOk result (λ numbers. ArePartNumbers net.now.nodes net.now.edges.items numbers.items) }
{
    part_numbers(alloc, net.nodes, net.edges.as_slice())
}

/// Searches and pushes from the first state on until the flow balances.
fn run(
    alloc: Global,
    edges: &[NetEdge],
    layer: &mut [i64],
    flow: &mut [u64],
    excess: &mut [i64],
    marks: &mut Marks,
) -> Result<(), AllocError>
    requires network { IsNetwork (length layer.old) edges.now }
    requires layering { IsLayering edges.now layer.old }
    requires from_zero { (v : ℕ) → v < length layer.old → pos 0 ≤ℤ layer_of layer.old v }
    requires low { (v : ℕ) → v < length layer.old → layer_of layer.old v <ℤ pos (2 ^ 62) }
    requires flow { length flow.old ≡ length edges.now }
    requires no_flow { (k : ℕ) → slice_index flow.old k ≡ 0 }
    requires excess { length excess.old ≡ length layer.old }
    requires no_excess { (v : ℕ) → layer_of excess.old v ≡ pos 0 }
    requires cleared { IsCleared (length layer.old) marks.old.reached.items marks.old.labels.items }
    requires dist { length marks.old.dist.items ≡ length layer.old }
    ensures { OnOk result (IsDone (length layer.old) edges.now layer.new flow.new) }
{
    let tails = link_edges(alloc, layer.len() as u32, edges, End::Tail)?;
    let heads = link_edges(alloc, layer.len() as u32, edges, End::Head)?;
    begin(edges, layer, flow, excess);
    let net = Linked {
        edges,
        tails: &tails,
        heads: &heads,
    };
    drain_all(alloc, &net, layer, flow, excess, marks)?;
    begin_at_zero(alloc, layer.len() as u32, edges, layer)?;
    Ok(())
}

/// Makes what the searches need, and runs them from this layering on.
fn run_from(
    alloc: Global,
    edges: &[NetEdge],
    layer: &mut [i64],
    flow: &mut [u64],
) -> Result<(), AllocError>
    requires network { IsNetwork (length layer.old) edges.now }
    requires layering { IsLayering edges.now layer.old }
    requires from_zero { (v : ℕ) → v < length layer.old → pos 0 ≤ℤ layer_of layer.old v }
    requires low { (v : ℕ) → v < length layer.old → layer_of layer.old v <ℤ pos (2 ^ 62) }
    requires flow { length flow.old ≡ length edges.now }
    requires no_flow { (k : ℕ) → slice_index flow.old k ≡ 0 }
    ensures { OnOk result (IsDone (length layer.old) edges.now layer.new flow.new) }
{
    let nodes = layer.len();
    let mut excess: Vec<i64> = vec![in alloc; 0; nodes]?;
    let mut marks = no_marks(alloc, nodes)?;
    run(alloc, edges, layer, flow, excess.as_mut_slice(), &mut marks)
}

/// A layering of least cost, and a flow that proves it, found from a layering whose layers are from 0 on: each head
/// stands at least `least` above its tail, the least layer of each part is 0, and no layering costs less. The method
/// is the primal-dual one of Ford and Fulkerson: from the first layering on it raises what a node with a surplus
/// reaches over tight edges and used ones, and pushes the surplus to a node that asks for more. The nearer the first
/// layering is to one of least cost, the fewer nodes a search reaches.
pub fn solve_from(alloc: Global, net: &Network, first: Vec<i64>) -> Result<Solution, AllocError>
    requires network { IsNetwork net.now.nodes net.now.edges.items }
    requires as_many { length first.items ≡ net.now.nodes }
    requires layering { IsLayering net.now.edges.items first.items }
    requires from_zero { (v : ℕ) → v < net.now.nodes → pos 0 ≤ℤ layer_of first.items v }
    requires low { (v : ℕ) → v < net.now.nodes → layer_of first.items v <ℤ pos (2 ^ 62) }
    ensures { IfOk result (λ s. IsSolution net.now.nodes net.now.edges.items s.layer.items s.flow.items s.cost) }
{
    let edges = net.edges.as_slice();
    let mut layer = first;
    let mut flow: Vec<u64> = vec![in alloc; 0; edges.len()]?;
    run_from(alloc, edges, layer.as_mut_slice(), flow.as_mut_slice())?;
    Ok(finish(net.nodes, edges, layer, flow))
}

/// A layering of least cost, and a flow that proves it, as `solve_from` finds them from the layering of greatest path
/// sums.
///
/// Proved:
/// - The layers keep each edge's length, and the least layer of each part is 0. The flow balances, and its value is the cost.
///   (`solve_from`)
/// - So no layering costs less, for every network and from any layering to begin with. (`solve_from`)
pub fn solve(alloc: Global, net: &Network) -> Result<Solution, AllocError>
    requires { IsNetwork net.now.nodes net.now.edges.items }
    ensures { IfOk result (λ s. IsSolution net.now.nodes net.now.edges.items s.layer.items s.flow.items s.cost) }
{
    let edges = net.edges.as_slice();
    let sums = greatest_sums(alloc, net.nodes, edges)?;
    let first = as_layers(alloc, sums.as_slice())?;
    solve_from(alloc, net, first)
}
