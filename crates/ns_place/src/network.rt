//! The network of a placing.

ghost use Rattle.std.specs.Prelude.{◌≡◌, ℕ, ◌+◌, ◌<◌, ◌≤◌, ◌^◌, ◌++◌, pos, ◌≤ℤ◌, map, length, IfOk};
ghost use Rattle.std.specs.List.{All};
ghost use Rattle.elk_layers.specs.Layered.{plain, IsSound};
ghost use Rattle.ns_place.specs.Pairs.{IsPair};
ghost use Rattle.ns_place.specs.Weighed.{AreWeights};
ghost use Rattle.ns_place.specs.Network.{edge_of, edge_between, edge_for, joining, edges_of, alone_of, HasPins};

use crate::least::PairFlow;
use crate::pairs::distance;
use elk_layers::{Layered, Link};
use flow_dual::{NetEdge, Network};
use std::alloc::{AllocError, Global};

/// The edge from a link's own node to one of its ends.
fn joint_edge(joint: u32, end: u32, pin: i64, weight: u32) -> NetEdge
    requires { pos 0 ≤ℤ pin }
    ensures { result ≡ edge_of joint end pin weight }
{
    NetEdge {
        tail: joint,
        head: end,
        least: pin as u64,
        weight,
    }
}

/// Adds the edges of links with their weights, whose own nodes are numbered from `first` on.
fn push_joints(
    links: &[Link],
    weights: &[u32],
    first: u32,
    edges: &mut Vec<NetEdge>,
) -> Result<(), AllocError>
    requires few { first + length links.now < 2 ^ 32 }
    requires one_each { length weights.now ≡ length links.now }
    requires pins { All HasPins links.now }
    ensures { IfOk result (λ _. edges.new.items ≡ edges.old.items ++ joining first links.now weights.now) }
{
    for (k, link) in links.iter().enumerate() {
        let joint = first + k as u32;
        edges.push(joint_edge(joint, link.tail, link.head_at, weights[k]))?;
        edges.push(joint_edge(joint, link.head, link.tail_at, weights[k]))?;
    }
    Ok(())
}

/// The edge of two units that are this far apart.
fn pair_edge(alone: u32, pair: PairFlow, far: i64) -> NetEdge
    ensures { result ≡ edge_between alone pair far }
{
    if far < 0 {
        return NetEdge {
            tail: alone,
            head: pair.lower,
            least: 0,
            weight: 0,
        };
    }
    NetEdge {
        tail: pair.upper,
        head: pair.lower,
        least: far as u64,
        weight: 0,
    }
}

/// Adds the edges of pairs.
fn push_pairs(
    layered: &Layered,
    pairs: &[PairFlow],
    alone: u32,
    edges: &mut Vec<NetEdge>,
) -> Result<(), AllocError>
    requires sound { IsSound (plain layered.now) }
    requires pairs { All (IsPair (plain layered.now)) pairs.now }
    ensures { IfOk result (λ _. edges.new.items ≡ edges.old.items ++ map (edge_for (plain layered.now) alone) pairs.now) }
{
    for pair in pairs {
        edges.push(pair_edge(alone, *pair, distance(layered, *pair)))?;
    }
    Ok(())
}

/// The network whose layers are the tops of the units.
pub(crate) fn network_of(
    alloc: Global,
    layered: &Layered,
    weights: &[u32],
    pairs: &[PairFlow],
) -> Result<Network, AllocError>
    requires sound { IsSound (plain layered.now) }
    requires few_units { length (plain layered.now).units ≤ 2 ^ 21 }
    requires few_links { length (plain layered.now).links ≤ 2 ^ 21 }
    requires weights { AreWeights (plain layered.now) weights.now }
    requires pairs { All (IsPair (plain layered.now)) pairs.now }
    ensures nodes { IfOk result (λ net. net.nodes ≡ alone_of (plain layered.now) + 1) }
    ensures edges { IfOk result (λ net. net.edges.items ≡ edges_of (plain layered.now) weights.now pairs.now) }
{
    let units = layered.units.as_slice().len() as u32;
    let links = layered.links.as_slice();
    let alone = units + links.len() as u32;
    let mut edges = Vec::new(alloc);
    push_joints(links, weights, units, &mut edges)?;
    push_pairs(layered, pairs, alone, &mut edges)?;
    Ok(Network {
        nodes: alone + 1,
        edges,
    })
}
