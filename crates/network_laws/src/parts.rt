//! The connected parts of a network. Each node has the name of a node of its part that is no later, and the names
//! fall until both ends of each edge have one.

ghost use Rattle.std.specs.Prelude.{◌≡◌, ◌<◌, ◌≤◌, ◌^◌, ◌+◌, ◌||◌, length, IfOk, slice_index, slice_set, cond, nat_lt, ℕ};
ghost use Rattle.std.specs.List.{sum};
ghost use Rattle.network_laws.specs.Network.{EndsBelow, edge_at};
ghost use Rattle.network_laws.specs.Joining.{ArePassed, IsPassed};
ghost use Rattle.network_laws.specs.Parts.{ArePartNumbers, AreNames, HaveOneName, NumbersAll};

use crate::network::NetEdge;
use crate::sums::either;
use std::alloc::{AllocError, Global};

/// Gives the node this name where it is lower than the node's own.
fn lower_name(names: &mut [u32], v: u32, name: u32)
    requires { v < length names.old }
    ensures { names.new ≡ cond (nat_lt name (slice_index names.old v)) (slice_set names.old v name) names.old }
{
    if name < names[v as usize] {
        names[v as usize] = name;
    }
}

/// Gives both ends of an edge the lower one of their names, and tells whether they had two.
fn join_edge(edges: &[NetEdge], k: u32, names: &mut [u32]) -> bool
    requires there { k < length edges.now }
    requires ends { EndsBelow (length names.old) edges.now }
    requires names { AreNames (length names.old) edges.now names.old }
    ensures { IsPassed edges.now k names.old names.new result }
{
    let e = edges[k as usize];
    let tail = names[e.tail as usize];
    let head = names[e.head as usize];
    if tail < head {
        names[e.head as usize] = tail;
        lower_name(names, head, tail);
        return true;
    }
    if head < tail {
        names[e.tail as usize] = head;
        lower_name(names, tail, head);
        return true;
    }
    false
}

/// Passes all edges once, and tells whether a name fell.
fn join_once(edges: &[NetEdge], names: &mut [u32]) -> bool
    requires few { length edges.now ≤ 2 ^ 24 }
    requires ends { EndsBelow (length names.old) edges.now }
    requires names { AreNames (length names.old) edges.now names.old }
    ensures { ArePassed edges.now (length edges.now) names.old names.new result }
{
    let mut changed = false;
    for k in 0..edges.len() {
        let now = join_edge(edges, k as u32, names);
        changed = either(changed, now);
    }
    changed
}

/// Gives each node the name of the node that it is named after.
fn flatten(edges: &[NetEdge], names: &mut [u32])
    requires names { AreNames (length names.old) edges.now names.old }
    ensures names { AreNames (length names.old) edges.now names.new }
    ensures less { sum names.new ≤ sum names.old }
{
    let _edges = edges.len();
    for v in 0..names.len() {
        names[v] = names[names[v] as usize];
    }
}

fn join_all(edges: &[NetEdge], names: &mut [u32])
    requires few { length edges.now ≤ 2 ^ 24 }
    requires ends { EndsBelow (length names.old) edges.now }
    requires names { AreNames (length names.old) edges.now names.old }
    ensures names { AreNames (length names.old) edges.now names.new }
    ensures joined { HaveOneName edges.now names.new (length edges.now) }
{
    let mut changed = true;
    while changed {
        flatten(edges, names);
        changed = join_once(edges, names);
    }
}

fn name_nodes(names: &mut [u32])
    requires { length names.old ≤ 2 ^ 23 }
    ensures { (v : ℕ) → v < length names.old → slice_index names.new v ≡ v }
{
    for v in 0..names.len() {
        names[v] = v as u32;
    }
}

/// Numbers the names in the order of their nodes.
fn number_names(edges: &[NetEdge], names: &[u32], numbers: &mut [u32])
    requires few { length names.now ≤ 2 ^ 23 }
    requires same { length numbers.old ≡ length names.now }
    requires names { AreNames (length names.now) edges.now names.now }
    ensures { NumbersAll names.now numbers.new }
{
    let _edges = edges.len();
    let mut count: u32 = 0;
    for v in 0..names.len() {
        let name = names[v] as usize;
        if name == v {
            numbers[v] = count;
            count += 1;
        } else {
            numbers[v] = numbers[name];
        }
    }
}

fn number_nodes(edges: &[NetEdge], names: &mut [u32], numbers: &mut [u32])
    requires few_nodes { length names.old ≤ 2 ^ 23 }
    requires few { length edges.now ≤ 2 ^ 24 }
    requires same { length numbers.old ≡ length names.old }
    requires ends { EndsBelow (length names.old) edges.now }
    ensures { ArePartNumbers (length names.old) edges.now numbers.new }
{
    name_nodes(names);
    join_all(edges, names);
    number_names(edges, names, numbers);
}

/// The number of each node's connected part. The parts are numbered 0, 1, 2 in the order of their least nodes.
///
/// Proved:
/// - Parts are numbered by least node.
pub fn part_numbers(alloc: Global, nodes: u32, edges: &[NetEdge]) -> Result<Vec<u32>, AllocError>
    requires few_nodes { nodes ≤ 2 ^ 23 }
    requires few { length edges.now ≤ 2 ^ 24 }
    requires ends { EndsBelow nodes edges.now }
    ensures { IfOk result (λ numbers. ArePartNumbers nodes edges.now numbers.items) }
{
    let mut names: Vec<u32> = vec![in alloc; 0; nodes as usize]?;
    let mut numbers: Vec<u32> = vec![in alloc; 0; nodes as usize]?;
    number_nodes(edges, names.as_mut_slice(), numbers.as_mut_slice());
    Ok(numbers)
}
