//! Steps from reached nodes to others: which an edge offers, and which is the nearest.

ghost use Rattle.std.specs.Prelude.{◌≡◌, ◌+◌, ◌≤◌, ◌<◌, ◌^◌, ℕ, pos, ◌≤ℤ◌, ◌<ℤ◌, ◌+ℤ◌, length, slice_index, slice_index_or, IsTrue, ◌↔◌, IfSome, IfNone, OnOk};
ghost use Rattle.std.specs.List.{All};
ghost use Rattle.network_laws.specs.Network.{EndsBelow, edge_at};
ghost use Rattle.network_laws.specs.Layering.{IsLayering, layer_of};
ghost use Rattle.network_laws.specs.Links.{AreLinks, end_of};
ghost use Rattle.network_laws.specs.declared.links.End.TheVariants.{Head};
ghost use Rattle.flow_dual.specs.State.{marked};
ghost use Rattle.flow_dual.specs.Queue.{nearness, waiting, AreInOrder, Crosses, IsOpen, IsStepFrom, Offers, links_at, TakesStep, HasNoStep, IsBack};

use crate::marks::{Linked, Marks};
use crate::queue::{Step, Steps, add_step, take_nearest};
use network_laws::{End, NetEdge, first_of, next_of};
use std::alloc::AllocError;

/// Whether a node that is not reached may be reached over the edge from this end.
fn is_open(marks: &Marks, e: NetEdge, amount: u64, end: End) -> bool
    requires tail { e.tail < length marks.now.reached.items }
    requires head { e.head < length marks.now.reached.items }
    ensures { IsTrue result ↔ IsOpen (marked marks.now.reached.items) end e amount }
{
    match end {
        End::Tail => !marks.reached[e.head as usize],
        End::Head => is_open_back(marks, e, amount),
    }
}

fn is_open_back(marks: &Marks, e: NetEdge, amount: u64) -> bool
    requires tail { e.tail < length marks.now.reached.items }
    ensures { IsTrue result ↔ IsOpen (marked marks.now.reached.items) Head e amount }
{
    if marks.reached[e.tail as usize] {
        return false;
    }
    amount > 0
}

/// How much further down the head stands than it has to.
pub fn slack_of(layer: &[i64], e: NetEdge) -> u64
    requires tail { e.tail < length layer.now }
    requires head { e.head < length layer.now }
    requires from_zero { (v : ℕ) → v < length layer.now → pos 0 ≤ℤ layer_of layer.now v }
    requires up { (layer_of layer.now e.tail +ℤ pos e.least) ≤ℤ layer_of layer.now e.head }
    ensures value { layer_of layer.now e.tail +ℤ pos e.least +ℤ pos result ≡ layer_of layer.now e.head }
    ensures small { (layer_of layer.now e.tail +ℤ pos result) <ℤ pos (2 ^ 63) }
{
    rest_of(layer[e.tail as usize], layer[e.head as usize], e.least)
}

fn rest_of(low: i64, high: i64, least: u64) -> u64
    requires from_zero { pos 0 ≤ℤ low }
    requires up { (low +ℤ pos least) ≤ℤ high }
    ensures value { low +ℤ pos least +ℤ pos result ≡ high }
    ensures small { (low +ℤ pos result) <ℤ pos (2 ^ 63) }
{
    (high - low) as u64 - least
}

/// How far all is raised when the edge can be stepped over from this end.
fn step_near(layer: &[i64], e: NetEdge, amount: u64, end: End, near: u64) -> u64
    requires tail { e.tail < length layer.now }
    requires head { e.head < length layer.now }
    requires from_zero { (v : ℕ) → v < length layer.now → pos 0 ≤ℤ layer_of layer.now v }
    requires up { (layer_of layer.now e.tail +ℤ pos e.least) ≤ℤ layer_of layer.now e.head }
    requires low { pos near ≤ℤ (layer_of layer.now (end_of end e) +ℤ pos (2 ^ 62)) }
    ensures step { (IsBack end → 0 < amount) → IsStepFrom layer.now e amount near end result }
    ensures later { near ≤ result }
{
    let _amount = amount;
    match end {
        End::Tail => near + slack_of(layer, e),
        End::Head => near,
    }
}

/// Adds the steps from v over its edges at one end to nodes that are not reached.
pub fn offer(
    net: &Linked,
    end: End,
    layer: &[i64],
    flow: &[u64],
    marks: &Marks,
    v: u32,
    steps: &mut Steps,
) -> Result<(), AllocError>
    requires few { length net.now.edges.now ≤ 2 ^ 24 }
    requires ends { EndsBelow (length layer.now) net.now.edges.now }
    requires links { AreLinks (length layer.now) net.now.edges.now end
        (links_at end net.now.tails.now net.now.heads.now).first.items
        (links_at end net.now.tails.now net.now.heads.now).next.items }
    requires layering { IsLayering net.now.edges.now layer.now }
    requires from_zero { (v : ℕ) → v < length layer.now → pos 0 ≤ℤ layer_of layer.now v }
    requires flow { length flow.now ≡ length net.now.edges.now }
    requires marks { length marks.now.reached.items ≡ length layer.now }
    requires there { v < length layer.now }
    requires low { pos steps.old.now ≤ℤ (layer_of layer.now v +ℤ pos (2 ^ 62)) }
    requires order { AreInOrder steps.old }
    ensures order { OnOk result (AreInOrder steps.new) }
    ensures now { OnOk result (steps.new.now ≡ steps.old.now) }
    ensures offers { OnOk result
        (Offers net.now.edges.now layer.now flow.now (marked marks.now.reached.items) end v steps.old.now
        (length net.now.edges.now) (waiting steps.old) (waiting steps.new)) }
{
    let edges = net.edges;
    let links = net.links_at(end);
    let near = steps.now;
    let mut k = first_of(links, v);
    while (k as usize) < edges.len() {
        let e = edges[k as usize];
        let amount = flow[k as usize];
        if is_open(marks, e, amount, end) {
            add_step(steps, step_near(layer, e, amount, end, near), k)?;
        }
        k = next_of(links, k);
    }
    Ok(())
}

fn crosses(marks: &Marks, e: NetEdge) -> bool
    requires tail { e.tail < length marks.now.reached.items }
    requires head { e.head < length marks.now.reached.items }
    ensures { IsTrue result ↔ Crosses (marked marks.now.reached.items) e }
{
    marks.reached[e.tail as usize] != marks.reached[e.head as usize]
}

/// Takes out the nearest step over an edge of which one end is reached.
pub fn next_step(edges: &[NetEdge], marks: &Marks, steps: &mut Steps) -> Option<Step>
    requires ends { EndsBelow (length marks.now.reached.items) edges.now }
    requires in_range { All (λ t. t.edge < length edges.now) (waiting steps.old) }
    requires order { AreInOrder steps.old }
    ensures order { IfSome result (λ s. AreInOrder steps.new) }
    ensures some { IfSome result (λ s. TakesStep edges.now (marked marks.now.reached.items) (waiting steps.old) s (waiting steps.new)) }
    ensures now { IfSome result (λ s. steps.new.now ≡ nearness s) }
    ensures none { IfNone result (HasNoStep edges.now (marked marks.now.reached.items) (waiting steps.old)) }
{
    while let Some(step) = take_nearest(steps) {
        if crosses(marks, edges[step.edge as usize]) {
            return Some(step);
        }
    }
    None
}
