//! Layerings of least cost: the first tree, the chain of pivots up to the budget, and each layer lowered by the least.

ghost use Rattle.std.specs.Prelude.{◌≡◌, ◌↔◌, false, replicate, ◌+◌, ◌<◌, ◌≤◌, ◌^◌, ℕ, cond, pos, ◌≤ℤ◌, ◌<ℤ◌, ◌+ℤ◌, ◌-ℤ◌, true, map, length, slice_index, IfOk, OnOk, IfSome, IfNone};
ghost use Rattle.network_laws.specs.Network.{IsNetwork};
ghost use Rattle.network_laws.specs.Layering.{layer_of, natural, IsLayering, IsSolution};
ghost use Rattle.network_laws.specs.Linked.{is_marked};
ghost use Rattle.network_laws.specs.Paths.{AreGreatestSums};
ghost use Rattle.net_simplex.specs.Pivots.{lowered};
ghost use Rattle.net_simplex.specs.Answer.{EndsInTime, RunsOut};
ghost use Rattle.net_simplex.specs.Grown.{IsConnected, IsSmall};
ghost use Rattle.net_simplex.specs.Cuts.{AreCutValues};
ghost use Rattle.net_simplex.specs.Outcome.{Leads, Outcome};
ghost use Rattle.net_simplex.specs.declared.solving.Way.TheVariants.{Simplex, Flow};
ghost use Rattle.net_simplex.specs.Kept.{Keeps};
ghost use Rattle.net_simplex.specs.Walks.{HasWalk};

use crate::chain::{leaving, pivot};
use crate::cuts::sum_cuts;
use crate::first_walk::walk_tree;
use crate::growing::grow;
use crate::tree::{Tree, Walk, bare_tree};
use flow_dual::finish;
use network_laws::{NetEdge, Network, Solution, greatest_sums};
use std::alloc::{AllocError, Global};

/// How a layering was found: by pivots alone, or by the flow after the budget of pivots was spent.
#[derive(Clone, Copy)]
pub enum Way {
    Simplex,
    Flow,
}

/// A layering of least cost with the flow that proves it, the number of pivots that were made, and the way.
#[derive(Drop)]
pub struct Solved {
    pub solution: Solution,
    pub pivots: u64,
    pub way: Way,
}

/// The sums as layers.
fn as_layers(alloc: Global, sums: &[u64]) -> Result<Vec<i64>, AllocError>
    requires { (v : ℕ) → v < length sums.now → slice_index sums.now v < 2 ^ 63 }
    ensures { IfOk result (λ layers. layers.items ≡ map pos sums.now) }
{
    let mut layers: Vec<i64> = vec![in alloc; 0; sums.len()]?;
    for v in 0..sums.len() {
        layers[v] = sums[v] as i64;
    }
    Ok(layers)
}

fn least_of_all(layers: &[i64]) -> i64
    requires some { 0 < length layers.now }
    ensures no_more { (v : ℕ) → v < length layers.now → result ≤ℤ layer_of layers.now v }
    ensures there { (v : ℕ) × (v < length layers.now) × (layer_of layers.now v ≡ result) }
{
    let mut least = layers[0];
    for v in 1..layers.len() {
        if layers[v] < least {
            least = layers[v];
        }
    }
    least
}

fn lowered_by(layer: i64, by: i64) -> i64
    requires layer { IsSmall layer }
    requires by { IsSmall by }
    ensures { result ≡ layer -ℤ by }
{
    layer - by
}

/// Lowers each layer by the least one.
fn lower(layers: &mut [i64])
    requires some { 0 < length layers.old }
    requires small { (v : ℕ) → v < length layers.old → IsSmall (layer_of layers.old v) }
    ensures { layers.new ≡ lowered layers.old }
{
    let least = least_of_all(layers);
    for v in 0..layers.len() {
        layers[v] = lowered_by(layers[v], least);
    }
}

fn amount(marked: bool, cut: i64) -> u64
    requires { marked ≡ true → pos 0 ≤ℤ cut }
    ensures { result ≡ cond marked (natural cut) 0 }
{
    if marked {
        return cut as u64;
    }
    0
}

/// The cut values of the tree's edges as flow, 0 off the tree.
fn write_flow(marks: &[bool], cut: &[i64], flow: &mut [u64])
    requires cut { length cut.now ≡ length marks.now }
    requires flow { length flow.old ≡ length marks.now }
    requires from_zero { (k : ℕ) → k < length marks.now → is_marked marks.now k ≡ true → pos 0 ≤ℤ layer_of cut.now k }
    ensures same { length flow.new ≡ length marks.now }
    ensures is { (k : ℕ) → k < length marks.now → slice_index flow.new k ≡ cond (is_marked marks.now k) (natural (layer_of cut.now k)) 0 }
{
    for k in 0..marks.len() {
        flow[k] = amount(marks[k], cut[k]);
    }
}

/// Pivots until no cut value is negative, and gives their number. None where the budget is spent before.
fn run(
    edges: &[NetEdge],
    budget: u64,
    tree: &mut Tree,
    walk: &mut Walk,
    layers: &mut [i64],
    cut: &mut [i64],
) -> Option<u64>
    requires network { IsNetwork (length layers.old) edges.now }
    requires kept { Keeps (length layers.old) edges.now tree.old layers.old }
    requires values { AreCutValues (length layers.old) edges.now tree.old.marks.items cut.old }
    requires walk { HasWalk (length layers.old) edges.now tree.old walk.old }
    ensures kept { Keeps (length layers.old) edges.now tree.new layers.new }
    ensures leads { Leads (length layers.old) edges.now budget result tree.old.marks.items layers.old tree.new.marks.items layers.new cut.new }
{
    let mut made: u64 = 0;
    'pivots: loop {
        match leaving(edges, tree, cut) {
            Some(out) => {
                if made == budget {
                    return None;
                }
                pivot(edges, out, tree, walk, layers, cut);
                made += 1;
            }
            None => return Some(made),
        }
    }
}

/// The first tree, the chain, and its answer, from the start layering on.
fn run_on(
    alloc: Global,
    edges: &[NetEdge],
    budget: u64,
    layers: &mut [i64],
    flow: &mut [u64],
) -> Result<Option<u64>, AllocError>
    requires network { IsNetwork (length layers.old) edges.now }
    requires some { 0 < length layers.old }
    requires connected { IsConnected (length layers.old) edges.now }
    requires greatest { AreGreatestSums (length layers.old) edges.now layers.old }
    requires layering { IsLayering edges.now layers.old }
    requires flow { length flow.old ≡ length edges.now }
    ensures { IfOk result (λ o. Outcome (length layers.old) edges.now budget o layers.new flow.new) }
{
    let mut tree = bare_tree(alloc, layers.len(), edges.len())?;
    grow(alloc, edges, &mut tree, layers)?;
    let mut walk = walk_tree(alloc, edges, &mut tree)?;
    let mut cut = sum_cuts(alloc, edges, &tree)?;
    let ended = run(edges, budget, &mut tree, &mut walk, layers, &mut cut);
    match ended {
        Some(pivots) => {
            write_flow(&tree.marks, &cut, flow);
            lower(layers);
            Ok(Some(pivots))
        }
        None => Ok(None),
    }
}

/// A layering of least cost of a connected network, and a flow that proves it, by network simplex: from a tree of tight
/// edges on, a tree edge of negative cut value leaves and the edge of least slack that leads back enters, until no cut
/// value is negative (Gansner, Koutsofios, North, Vo 1993). The lowest-numbered edge leaves, and ties go to the lowest
/// number. Where a cut value is still negative after `budget` pivots, the primal-dual flow finds the layering.
///
/// Proved:
/// - The promise of flow_dual for every connected network, by pivots.
/// - The method of flow_dual is used exactly if a cut value is still negative after the budget of pivots.
/// - Otherwise the layers are those of the first tree without a negative cut value, lowered to 0, and the flow is its cut values.
pub fn solve(alloc: Global, net: &Network, budget: u64) -> Result<Solved, AllocError>
    requires network { IsNetwork net.now.nodes net.now.edges.items }
    requires some { 0 < net.now.nodes }
    requires connected { IsConnected net.now.nodes net.now.edges.items }
    ensures solution { IfOk result (λ s. IsSolution net.now.nodes net.now.edges.items s.solution.layer.items s.solution.flow.items s.solution.cost) }
    ensures by_pivots { IfOk result
        (λ s. s.way ≡ Simplex → EndsInTime net.now.nodes net.now.edges.items budget s.pivots s.solution.layer.items s.solution.flow.items) }
    ensures by_flow { IfOk result (λ s. (s.way ≡ Flow) ↔ RunsOut net.now.nodes net.now.edges.items budget) }
    ensures spent { IfOk result (λ s. s.way ≡ Flow → s.pivots ≡ budget) }
{
    let edges = net.edges.as_slice();
    let sums = greatest_sums(alloc, net.nodes, edges)?;
    let mut layers = as_layers(alloc, sums.as_slice())?;
    let mut flow: Vec<u64> = vec![in alloc; 0; edges.len()]?;
    let ended = run_on(
        alloc,
        edges,
        budget,
        layers.as_mut_slice(),
        flow.as_mut_slice(),
    )?;
    match ended {
        Some(pivots) => Ok(Solved {
            solution: finish(net.nodes, edges, layers, flow),
            pivots,
            way: Way::Simplex,
        }),
        None => {
            let solution = flow_dual::solve(alloc, net)?;
            Ok(Solved {
                solution,
                pivots: budget,
                way: Way::Flow,
            })
        }
    }
}
