//! Networks of tests, read off texts, and a check of what solvers ask of one.
ghost use Rattle.std.specs.Prelude.{IsTrue};
ghost use Rattle.network_laws.specs.Network.{IsNetwork};

use network_laws::{NetEdge, Network, is_sorted_network};
use std::alloc::Global;
use std::test::Fail;

/// The numbers of a text, with spaces between.
pub fn numbers(alloc: Global, text: &str) -> Result<Vec<u32>, Fail> {
    let mut numbers = Vec::new(alloc);
    for word in text.split_whitespace() {
        numbers.push(word.parse::<u32>()?)?;
    }
    Ok(numbers)
}

/// A number of a list, or another one where the list ends before it.
pub fn number_or(numbers: &[u32], place: usize, other: u32) -> u32 {
    match numbers.get(place) {
        Some(number) => *number,
        None => other,
    }
}

/// A network of edges that are written with commas between: tail, head, least length and weight, of which the last two may be
/// left out where they are 1.
pub fn network(alloc: Global, nodes: u32, text: &str) -> Result<Network, Fail> {
    let mut edges = Vec::new(alloc);
    for edge in text.split(',') {
        let written = numbers(alloc, edge)?;
        let numbers = written.as_slice();
        if !numbers.is_empty() {
            edges.push(NetEdge {
                tail: number_or(numbers, 0, 1),
                head: number_or(numbers, 1, 1),
                least: u64::from(number_or(numbers, 2, 1)),
                weight: number_or(numbers, 3, 1),
            })?;
        }
    }
    Ok(Network { nodes, edges })
}

pub fn is_sound(net: &Network) -> bool
    ensures { IsTrue result → IsNetwork net.now.nodes net.now.edges.items }
{
    is_sorted_network(net.nodes, net.edges.as_slice())
}
