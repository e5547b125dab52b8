//! Worked networks, whose answers were found by hand, and the costs of two solvers on random networks.
ghost use Rattle.std.specs.Prelude.{◌≡◌, ◌<◌, ℕ, IsTrue, IfOk, length, slice_index};
ghost use Rattle.network_laws.specs.Network.{IsNetwork};
ghost use Rattle.net_simplex.specs.Grown.{IsConnected};

use crate::networks::{is_sound, network};
use flow_dual::{parts, solve};
use net_simplex::{Solved, Way};
use network_laws::{NetEdge, Network, Solution};
use network_parts::solve_parts;
use std::alloc::{AllocError, Global};
use std::test::Fail;

fn all_first(numbers: &[u32]) -> bool
    ensures { IsTrue result → (v : ℕ) → v < length numbers.now → slice_index numbers.now v ≡ 0 }
{
    for n in numbers {
        if *n != 0 {
            return false;
        }
    }
    true
}

fn is_connected(alloc: Global, net: &Network) -> Result<bool, AllocError>
    requires { IsNetwork net.now.nodes net.now.edges.items }
    ensures { IfOk result (λ yes. IsTrue yes → IsConnected net.now.nodes net.now.edges.items) }
{
    let numbers = parts(alloc, net)?;
    Ok(all_first(numbers.as_slice()))
}

// The solution of a sound network by its parts, of which nothing more is known.
fn by_parts(alloc: Global, net: &Network) -> Result<Option<Solution>, AllocError> {
    if !is_sound(net) {
        return Ok(None);
    }
    Ok(Some(solve_parts(alloc, net)?))
}

// The solution of a sound network by a flow.
fn by_flow(alloc: Global, net: &Network) -> Result<Option<Solution>, AllocError> {
    if !is_sound(net) {
        return Ok(None);
    }
    Ok(Some(solve(alloc, net)?))
}

// The solution of a connected network with at most so many pivots.
fn by_pivots(alloc: Global, net: &Network, budget: u64) -> Result<Option<Solved>, AllocError> {
    if !is_sound(net) || net.nodes == 0 {
        return Ok(None);
    }
    if !is_connected(alloc, net)? {
        return Ok(None);
    }
    Ok(Some(net_simplex::solve(alloc, net, budget)?))
}

fn parts_of(alloc: Global, net: &Network) -> Result<Option<Vec<u32>>, AllocError> {
    if !is_sound(net) {
        return Ok(None);
    }
    Ok(Some(parts(alloc, net)?))
}

fn solution_text(alloc: Global, solution: &Solution) -> Result<String, AllocError> {
    let layers = &solution.layer;
    let cost = solution.cost;
    let flow = &solution.flow;
    format!(in alloc; " layers {layers:?}; cost {cost}; flow {flow:?};")
}

fn parts_text(alloc: Global, net: &Network) -> Result<String, Fail> {
    let solution = by_parts(alloc, net)?.ok_or("unsound")?;
    Ok(solution_text(alloc, &solution)?)
}

fn flow_text(alloc: Global, net: &Network) -> Result<String, Fail> {
    let solution = by_flow(alloc, net)?.ok_or("unsound")?;
    let text = solution_text(alloc, &solution)?;
    let parts = parts_of(alloc, net)?.ok_or("unsound")?;
    Ok(format!(in alloc; "{text} parts {parts:?};")?)
}

fn way_text(way: Way) -> &'static str {
    match way {
        Way::Simplex => "pivots",
        Way::Flow => "flow",
    }
}

fn pivots_text(alloc: Global, net: &Network, budget: u64) -> Result<String, Fail> {
    if !is_sound(net) {
        Err("unsound")?;
    }
    match by_pivots(alloc, net, budget)? {
        None => Ok(String::from_str(alloc, " not connected;")?),
        Some(found) => {
            let text = solution_text(alloc, &found.solution)?;
            let pivots = found.pivots;
            let way = way_text(found.way);
            Ok(format!(in alloc; "{text} pivots {pivots}; by {way};")?)
        }
    }
}

// What is found of a network, which is given by a way to solve it, its number of nodes and its edges.
fn answer(alloc: Global, problem: &str) -> Result<String, Fail> {
    let (head, edges) = problem.split_once(':').ok_or("no edges")?;
    let (way, nodes) = head.split_once(' ').ok_or("no nodes")?;
    let net = network(alloc, nodes.parse::<u32>()?, edges)?;
    match way {
        "parts" => parts_text(alloc, &net),
        "flow" => flow_text(alloc, &net),
        budget => pivots_text(alloc, &net, budget.parse::<u64>()?),
    }
}

fn has_each(answer: &str, wanted: &str) -> bool {
    for fact in wanted.split_inclusive(';') {
        if !answer.contains(fact) {
            return false;
        }
    }
    true
}

// A way is `parts`, `flow` or the greatest number of pivots. The network of six nodes needs one pivot. In that of nine, 0, 2, 4, 6,
// 7 and 8 are a part that needs one pivot, 1 and 3 are joined by two edges, and 5 stands alone. Of the two edges the first is in
// the tree, so it has the whole flow.
const WORKED: &str = "\
flow 6: 0 1, 1 4, 1 5, 0 2, 2 3, 3 4, 3 5| layers [0, 2, 1, 2, 3, 3]; cost 8; parts [0, 0, 0, 0, 0, 0];
flow 3: 0 1 5 2, 1 2 0 1, 0 2 9 1| layers [0, 5, 9]; cost 23; flow [1, 0, 2];
flow 0:| layers []; cost 0; flow [];
flow 5: 1 3 2 0, 2 4 0 7| layers [0, 0, 0, 2, 0]; cost 0; parts [0, 1, 2, 1, 2];
parts 9: 1 3, 0 2, 2 7, 2 8, 1 3, 0 4, 4 6, 6 7, 6 8| layers [0, 0, 2, 1, 1, 0, 2, 3, 3]; cost 10; flow [2, 0, 1, 0, 0, 2, 2, 1, 2];
parts 0:| layers []; cost 0; flow [];
1 6: 0 1, 1 4, 1 5, 0 2, 2 3, 3 4, 3 5| layers [0, 2, 1, 2, 3, 3]; cost 8; flow [0, 1, 0, 2, 2, 1, 2]; pivots 1; by pivots;
0 6: 0 1, 1 4, 1 5, 0 2, 2 3, 3 4, 3 5| layers [0, 2, 1, 2, 3, 3]; cost 8; pivots 0; by flow;
0 1:| layers [0]; cost 0; pivots 0; by pivots;
256 3: 0 1, 0 1, 0 2 1 0| layers [0, 1, 1]; cost 2; flow [2, 0, 0]; pivots 0;
256 3: 0 1 5 2, 1 2 0 1, 0 2 9 1| layers [0, 5, 9]; cost 23; flow [1, 0, 2]; pivots 0;
256 3: 0 1 1 0, 1 2 1 0, 0 2 1 1| layers [0, 1, 2]; cost 2; flow [1, 1, 0]; pivots 0;
256 3: 0 1 0 1, 1 2 0 1, 0 2 0 1| layers [0, 0, 0]; cost 0; flow [2, 2, 0]; pivots 0;
0 4: 0 1 2 3, 0 2 1 1, 2 3 0 5| layers [0, 2, 1, 1]; cost 7; flow [3, 1, 5]; by pivots;
0 4: 0 1 2 3, 2 3 0 5| not connected;";

#[test]
fn worked_networks(rt: HostRuntime) -> Result<(), Fail> {
    for row in WORKED.lines() {
        let (problem, wanted) = row.split_once('|').ok_or("no answer")?;
        let answer = answer(rt.alloc(), problem)?;
        assert!(rt; has_each(answer.as_str(), wanted), "{row}, but{answer}");
    }
    Ok(())
}

// The next number below `n` of a sequence.
fn draw(seed: &mut u64, n: u64) -> u64
    requires { 0 < n }
    ensures { result < n }
{
    *seed = seed
        .wrapping_mul(6364136223846793005)
        .wrapping_add(1442695040888963407);
    (*seed >> 33) % n
}

// A connected network of up to nine nodes, whose edges lead to greater numbers.
fn draw_network(alloc: Global, seed: &mut u64) -> Result<Network, AllocError> {
    let nodes = 1 + draw(seed, 9);
    let mut edges: Vec<NetEdge> = Vec::new(alloc);
    for head in 1..nodes {
        for _ in 0..draw(seed, 3) + 1 {
            edges.push(NetEdge {
                tail: draw(seed, head) as u32,
                head: head as u32,
                least: draw(seed, 4),
                weight: draw(seed, 5) as u32,
            })?;
        }
    }
    Ok(Network {
        nodes: nodes as u32,
        edges,
    })
}

#[test]
fn costs_of_both_solvers(rt: HostRuntime) -> Result<(), Fail> {
    let mut seed: u64 = 20_26;
    for _ in 0..200 {
        let net = draw_network(rt.alloc(), &mut seed)?;
        let budget = draw(&mut seed, 8);
        let pivoted = by_pivots(rt.alloc(), &net, budget)?.ok_or("not connected")?;
        let flowed = by_flow(rt.alloc(), &net)?.ok_or("unsound")?;
        assert!(rt; pivoted.solution.cost == flowed.cost);
    }
    Ok(())
}
