//! A test that a network keeps the conditions of the solvers, for networks whose edges lead to greater numbers.

ghost use Rattle.std.specs.Prelude.{◌≡◌, ◌<◌, ◌≤◌, ◌^◌, ◌+◌, length, IsTrue, IfSome, ◌↔◌};
ghost use Rattle.network_laws.specs.Network.{IsNetwork};
ghost use Rattle.network_laws.specs.Sorted.{SumsEdges};

use crate::network::NetEdge;

fn plus(total: u128, by: u64) -> u128
    requires { total ≤ 2 ^ 100 }
    ensures value { result ≡ total + by }
    ensures small { by < 2 ^ 64 }
{
    total + u128::from(by)
}

/// The sums of `least` and of `weight`, where each edge leads from a lower-numbered node to a higher-numbered one.
fn sorted_sums(nodes: u32, edges: &[NetEdge]) -> Option<(u128, u128)>
    requires { length edges.now ≤ 2 ^ 24 }
    ensures { IfSome result (λ s. SumsEdges nodes edges.now (length edges.now) s.0 s.1) }
{
    let mut least: u128 = 0;
    let mut weight: u128 = 0;
    for e in edges {
        if e.head >= nodes || e.tail >= e.head {
            return None;
        }
        least = plus(least, e.least);
        weight = plus(weight, u64::from(e.weight));
    }
    Some((least, weight))
}

/// Whether each edge leads from a lower-numbered node to a higher-numbered one, and the network is as small as the
/// solvers ask. Such a network has no cycle, so the solvers take it.
pub fn is_sorted_network(nodes: u32, edges: &[NetEdge]) -> bool
    ensures { IsTrue result → IsNetwork nodes edges.now }
{
    if nodes > 1 << 23 || edges.len() > 1 << 24 {
        return false;
    }
    match sorted_sums(nodes, edges) {
        Some((least, weight)) => both_below(least, weight),
        None => false,
    }
}

fn both_below(least: u128, weight: u128) -> bool
    ensures { IsTrue result ↔ ((least < 2 ^ 62) × (weight < 2 ^ 62)) }
{
    if least >= 1 << 62 {
        return false;
    }
    weight < 1 << 62
}
