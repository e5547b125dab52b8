//! The edges of each node, as a chain in the order of their numbers.

ghost use Rattle.std.specs.Prelude.{◌≡◌, ◌+◌, ◌<◌, ◌≤◌, ◌^◌, length, IfOk, slice_index, ℕ};
ghost use Rattle.network_laws.specs.Network.{EndsBelow, edge_at};
ghost use Rattle.network_laws.specs.Links.{end_of, far_of, AreLinks, AreLinksFrom, IsNextAt};

use crate::network::NetEdge;
use std::alloc::{AllocError, Global};

/// An end of an edge.
#[derive(Clone, Copy)]
pub enum End {
    Tail,
    Head,
}

/// The node at this end.
pub fn end_node(e: NetEdge, end: End) -> u32
    ensures { result ≡ end_of end e }
{
    match end {
        End::Tail => e.tail,
        End::Head => e.head,
    }
}

/// The node at the other end.
pub fn far_node(e: NetEdge, end: End) -> u32
    ensures { result ≡ far_of end e }
{
    match end {
        End::Tail => e.head,
        End::Head => e.tail,
    }
}

/// Each node's first edge at one end, and after each edge the next one of the same node. The number of edges stands
/// for none.
#[derive(Drop)]
pub struct Links {
    pub first: Vec<u32>,
    pub next: Vec<u32>,
}

/// Puts one edge before those of its node that have greater numbers.
fn link_edge(first: &mut [u32], next: &mut [u32], edges: &[NetEdge], end: End, k: u32)
    requires ends { EndsBelow (length first.old) edges.now }
    requires there { k < length edges.now }
    requires later { AreLinksFrom (length first.old) edges.now end (k + 1) first.old next.old }
    ensures { AreLinksFrom (length first.old) edges.now end k first.new next.new }
{
    let v = end_node(edges[k as usize], end);
    next[k as usize] = first[v as usize];
    first[v as usize] = k;
}

fn link_all(first: &mut [u32], next: &mut [u32], edges: &[NetEdge], end: End)
    requires few { length edges.now ≤ 2 ^ 24 }
    requires ends { EndsBelow (length first.old) edges.now }
    requires empty { AreLinksFrom (length first.old) edges.now end (length edges.now) first.old next.old }
    ensures { AreLinks (length first.old) edges.now end first.new next.new }
{
    let mut left = edges.len() as u32;
    while left > 0 {
        left -= 1;
        link_edge(first, next, edges, end, left);
    }
}

/// The edges of each node by one end, in time linear in the network.
pub fn link_edges(
    alloc: Global,
    nodes: u32,
    edges: &[NetEdge],
    end: End,
) -> Result<Links, AllocError>
    requires few { length edges.now ≤ 2 ^ 24 }
    requires ends { EndsBelow nodes edges.now }
    ensures { IfOk result (λ links. AreLinks nodes edges.now end links.first.items links.next.items) }
{
    let none = edges.len() as u32;
    let mut first: Vec<u32> = vec![in alloc; none; nodes as usize]?;
    let mut next: Vec<u32> = vec![in alloc; none; edges.len()]?;
    link_all(first.as_mut_slice(), next.as_mut_slice(), edges, end);
    Ok(Links { first, next })
}

/// The lowest-numbered edge of the node at this end.
pub fn first_of(links: &Links, v: u32) -> u32
    requires { v < length links.now.first.items }
    ensures { result ≡ slice_index links.now.first.items v }
{
    let first = links.first.as_slice();
    first[v as usize]
}

/// The next edge of the same node.
pub fn next_of(links: &Links, k: u32) -> u32
    requires { k < length links.now.next.items }
    ensures { result ≡ slice_index links.now.next.items k }
{
    let next = links.next.as_slice();
    next[k as usize]
}
