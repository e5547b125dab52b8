//! An order of the edges in which those that enter a node come before those that leave it. A pass in this order finds
//! the greatest sums over paths at once; no contract rests on it.

ghost use Rattle.std.specs.Prelude.{◌≡◌, ◌<◌, ◌≤◌, ◌^◌, length, IfOk, OnOk, slice_index, ℕ};
ghost use Rattle.std.specs.List.{All};
ghost use Rattle.network_laws.specs.Network.{EndsBelow};
ghost use Rattle.network_laws.specs.Links.{AreLinks};
ghost use Rattle.network_laws.specs.declared.links.End.TheVariants.{Tail};

use crate::links::{End, Links, first_of, link_edges, next_of};
use crate::network::NetEdge;
use std::alloc::{AllocError, Global};

/// Counts the edges that enter each node.
fn count_heads(edges: &[NetEdge], counts: &mut [u32])
    requires few { length edges.now ≤ 2 ^ 24 }
    requires ends { EndsBelow (length counts.old) edges.now }
    requires none { (v : ℕ) → slice_index counts.old v ≡ 0 }
{
    for e in edges {
        counts[e.head as usize] += 1;
    }
}

/// The nodes that no edge enters.
fn first_ready(alloc: Global, counts: &[u32]) -> Result<Vec<u32>, AllocError>
    requires { length counts.now ≤ 2 ^ 23 }
    ensures { IfOk result (λ ready. All (λ v. v < length counts.now) ready.items) }
{
    let mut ready: Vec<u32> = Vec::new(alloc);
    for v in 0..counts.len() {
        if counts[v] == 0 {
            ready.push(v as u32)?;
        }
    }
    Ok(ready)
}

/// One edge less is left to enter this node, which is ready where it was the last.
fn enter(left: &mut [u32], v: u32, ready: &mut Vec<u32>) -> Result<(), AllocError>
    requires there { v < length left.old }
    requires ready { All (λ u. u < length left.old) ready.old.items }
    ensures ready { All (λ u. u < length left.old) ready.new.items }
{
    if left[v as usize] == 1 {
        ready.push(v)?;
    }
    if left[v as usize] > 0 {
        left[v as usize] -= 1;
    }
    Ok(())
}

/// Takes the edges that leave the node.
fn leave(
    edges: &[NetEdge],
    tails: &Links,
    v: u32,
    left: &mut [u32],
    ready: &mut Vec<u32>,
    order: &mut Vec<u32>,
) -> Result<(), AllocError>
    requires few { length edges.now ≤ 2 ^ 24 }
    requires ends { EndsBelow (length left.old) edges.now }
    requires links { AreLinks (length left.old) edges.now Tail tails.now.first.items tails.now.next.items }
    requires there { v < length left.old }
    requires ready { All (λ u. u < length left.old) ready.old.items }
    requires order { All (λ k. k < length edges.now) order.old.items }
    ensures ready { All (λ u. u < length left.old) ready.new.items }
    ensures order { All (λ k. k < length edges.now) order.new.items }
{
    let mut k = first_of(tails, v);
    while (k as usize) < edges.len() {
        order.push(k)?;
        enter(left, edges[k as usize].head, ready)?;
        k = next_of(tails, k);
    }
    Ok(())
}

/// Leaves each node as soon as it is ready.
fn leave_all(
    edges: &[NetEdge],
    tails: &Links,
    left: &mut [u32],
    ready: &mut Vec<u32>,
    order: &mut Vec<u32>,
) -> Result<(), AllocError>
    requires few { length edges.now ≤ 2 ^ 24 }
    requires ends { EndsBelow (length left.old) edges.now }
    requires links { AreLinks (length left.old) edges.now Tail tails.now.first.items tails.now.next.items }
    requires ready { All (λ u. u < length left.old) ready.old.items }
    requires order { All (λ k. k < length edges.now) order.old.items }
    ensures { All (λ k. k < length edges.now) order.new.items }
{
    for turn in 0..left.len() {
        let _turn = turn;
        if let Some(v) = ready.pop() {
            leave(edges, tails, v, left, ready, order)?;
        }
    }
    Ok(())
}

/// The numbers of the edges, by the nodes that they leave, each node after those before it.
pub fn passing_order(alloc: Global, nodes: u32, edges: &[NetEdge]) -> Result<Vec<u32>, AllocError>
    requires few_nodes { nodes ≤ 2 ^ 23 }
    requires few { length edges.now ≤ 2 ^ 24 }
    requires ends { EndsBelow nodes edges.now }
    ensures { IfOk result (λ order. All (λ k. k < length edges.now) order.items) }
{
    let tails = link_edges(alloc, nodes, edges, End::Tail)?;
    let mut left: Vec<u32> = vec![in alloc; 0; nodes as usize]?;
    count_heads(edges, left.as_mut_slice());
    let mut ready = first_ready(alloc, left.as_slice())?;
    let mut order: Vec<u32> = Vec::new(alloc);
    leave_all(edges, &tails, left.as_mut_slice(), &mut ready, &mut order)?;
    Ok(order)
}
