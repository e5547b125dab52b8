//! The sums of flow and of weight at all nodes, each kind made in one pass over the edges, and whether they balance.
ghost use Rattle.std.specs.Prelude.{◌≡◌, ◌↔◌, ◌+◌, ◌^◌, ℕ, ◌<◌, IfOk, IsTrue, length, slice_index};
ghost use Rattle.elk_doc.specs.Sound.{IsSound};
ghost use Rattle.layout_check.specs.Scenes.{IsScene};
ghost use Rattle.layout_check.specs.FirstLevels.{AreFlows, IsBalanced, ends_at};
ghost use Rattle.layout_check.specs.Sums.{AreLevelSums, AreSums, AreSumsBelow};

use crate::lists::flow_at;
use crate::read::is_edge_of;
use crate::scene::Scene;
use elk_doc::document::Doc;
use elk_doc::drawing::Certificate;
use elk_doc::form::is_child;
use elk_doc::level::is_loop;
use std::alloc::{AllocError, Global};

// For each node, the sums of the flow and of the weights of the edges that enter there, and of those that leave.
#[derive(Drop)]
pub(crate) struct LevelSums {
    pub flow_in: Vec<u128>,
    pub flow_out: Vec<u128>,
    pub weight_in: Vec<u128>,
    pub weight_out: Vec<u128>,
}

// The number of an edge in a list, and 0 past its end.
pub(crate) fn value_at(values: &[u64], edge: usize) -> u128
    ensures value { result ≡ slice_index values.now edge }
    ensures fits { result < 2 ^ 64 }
{
    u128::from(flow_at(values, edge))
}

// Whether an edge of the level that is no self-loop has its end at a child.
fn ends_at(doc: &Doc, node: u32, ends: &[u32], child: u32, edge: u32) -> bool
    requires edge_in { edge < length doc.now.edges }
    requires ends { length ends.now ≡ length doc.now.edges }
    ensures { result ≡ ends_at doc.now node ends.now child edge }
{
    if ends[edge as usize] != child {
        return false;
    }
    is_edge_of(doc, node, edge) && !is_loop(doc, edge)
}

// Adds the number of an edge to the sum of the node at which it has its end, if it counts.
fn add(doc: &Doc, node: u32, ends: &[u32], values: &[u64], sums: &mut [u128], edge: u32)
    requires sound { IsSound doc.now }
    requires edge_in { edge < length doc.now.edges }
    requires ends { length ends.now ≡ length doc.now.edges }
    requires sums { AreSumsBelow doc.now node ends.now values.now edge sums.old }
    ensures { AreSumsBelow doc.now node ends.now values.now (edge + 1) sums.new }
{
    let end = ends[edge as usize];
    if end as usize >= sums.len() {
        return;
    }
    if ends_at(doc, node, ends, end, edge) {
        sums[end as usize] += value_at(values, edge as usize);
    }
}

// Adds the numbers of all edges.
fn add_all(doc: &Doc, node: u32, ends: &[u32], values: &[u64], sums: &mut [u128])
    requires ends { length ends.now ≡ length doc.now.edges }
    requires sums { AreSumsBelow doc.now node ends.now values.now 0 sums.old }
    ensures { AreSums doc.now node ends.now values.now sums.new }
{
    for edge in 0..doc.edges().len() {
        add(doc, node, ends, values, sums, edge as u32);
    }
}

// For each node, the sum of the numbers of the edges that have their end there.
fn sums(
    alloc: Global,
    doc: &Doc,
    node: u32,
    ends: &[u32],
    values: &[u64],
) -> Result<Vec<u128>, AllocError>
    requires { length ends.now ≡ length doc.now.edges }
    ensures { IfOk result (λ sums. AreSums doc.now node ends.now values.now sums.items) }
{
    let mut sums = vec![in alloc; 0; doc.nodes().len()]?;
    add_all(doc, node, ends, values, sums.as_mut_slice());
    Ok(sums)
}

// The sums of the flow and of the weights of a level.
fn level_sums(
    alloc: Global,
    scene: &Scene<'_>,
    node: u32,
    _certificate: &Certificate,
    flows: &[u64],
) -> Result<LevelSums, AllocError>
    requires scene { IsScene scene.now }
    requires flows { AreFlows scene.now.doc.now node _certificate.now flows.now }
    ensures { IfOk result (AreLevelSums scene.now.doc.now scene.now.placed.now node _certificate.now) }
{
    Ok(LevelSums {
        flow_in: sums(alloc, scene.doc, node, scene.heads, flows)?,
        flow_out: sums(alloc, scene.doc, node, scene.tails, flows)?,
        weight_in: sums(alloc, scene.doc, node, scene.heads, scene.weights)?,
        weight_out: sums(alloc, scene.doc, node, scene.tails, scene.weights)?,
    })
}

// Whether the flow in and the weight out at a child, if it is one, are the flow out and the weight in.
fn balances(
    scene: &Scene<'_>,
    node: u32,
    _certificate: &Certificate,
    sums: &LevelSums,
    child: u32,
) -> bool
    requires sound { IsSound scene.now.doc.now }
    requires child_in { child < length scene.now.doc.now.nodes }
    requires sums { AreLevelSums scene.now.doc.now scene.now.placed.now node _certificate.now sums.now }
    ensures { IsTrue result ↔ IsBalanced scene.now.doc.now scene.now.placed.now node _certificate.now child }
{
    if !is_child(scene.doc, node, child) {
        return true;
    }
    let place = child as usize;
    let flow_in = sums.flow_in.as_slice();
    let flow_out = sums.flow_out.as_slice();
    let weight_in = sums.weight_in.as_slice();
    let weight_out = sums.weight_out.as_slice();
    let given = flow_in[place] + weight_out[place];
    let asked = flow_out[place] + weight_in[place];
    given == asked
}

// Whether the flow balances at every child, by the sums at all nodes.
fn all_balance(scene: &Scene<'_>, node: u32, certificate: &Certificate, sums: &LevelSums) -> bool
    requires { AreLevelSums scene.now.doc.now scene.now.placed.now node certificate.now sums.now }
    ensures { IsTrue result ↔ ((a : ℕ) → IsBalanced scene.now.doc.now scene.now.placed.now node certificate.now a) }
{
    for child in 0..scene.doc.nodes().len() {
        if !balances(scene, node, certificate, sums, child as u32) {
            return false;
        }
    }
    true
}

// Whether the flow balances at every child.
pub(crate) fn are_balanced(
    alloc: Global,
    scene: &Scene<'_>,
    node: u32,
    certificate: &Certificate,
    flows: &[u64],
) -> Result<bool, AllocError>
    requires scene { IsScene scene.now }
    requires flows { AreFlows scene.now.doc.now node certificate.now flows.now }
    ensures { IfOk result (λ balanced. IsTrue balanced ↔ ((a : ℕ) → IsBalanced scene.now.doc.now scene.now.placed.now node certificate.now a)) }
{
    let sums = level_sums(alloc, scene, node, certificate, flows)?;
    Ok(all_balance(scene, node, certificate, &sums))
}
