//! The network of a level's oriented edges.
ghost use Rattle.std.specs.Prelude.{◌≡◌, ◌≤◌, length, IfOk};
ghost use Rattle.network_laws.specs.Network.{IsNetwork};
ghost use Rattle.level_model.specs.Conditions.{plain_level, IsLevel};
ghost use Rattle.level_layout.specs.Certificate.{AreReversed, network, oriented};
ghost use Rattle.layer_units.specs.Marks.{listed};

use level_model::{LevelEdge, LevelIn};
use network_parts::{NetEdge, Network};
use std::alloc::{AllocError, Global};

/// The numbers of the marked edges, in ascending order.
pub(crate) fn list_marked(alloc: Global, marks: &[bool]) -> Result<Vec<u32>, AllocError>
    requires { length marks.now ≤ 2048 }
    ensures { IfOk result (λ numbers. numbers.items ≡ listed marks.now) }
{
    let mut numbers = Vec::new(alloc);
    for (e, mark) in marks.iter().enumerate() {
        if *mark {
            numbers.push(e as u32)?;
        }
    }
    Ok(numbers)
}

/// The edge as one of a network, as given or reversed.
pub(crate) fn network_edge(edge: LevelEdge, is_reversed: bool) -> NetEdge
    ensures { result ≡ oriented is_reversed edge }
{
    let source = edge.source.child;
    let target = edge.target.child;
    NetEdge {
        tail: if is_reversed { target } else { source },
        head: if is_reversed { source } else { target },
        least: 1,
        weight: edge.weight,
    }
}

// The oriented edges that are no self-loops, where the marked ones are reversed.
fn network_edges(alloc: Global, level: &LevelIn, marks: &[bool]) -> Result<Vec<NetEdge>, AllocError>
    requires { length marks.now ≡ length level.now.edges }
    ensures { IfOk result (λ edges. edges.items ≡ network (plain_level level.now) (listed marks.now)) }
{
    let mut edges = Vec::new(alloc);
    for (e, edge) in level.edges.as_slice().iter().enumerate() {
        if !edge.is_loop() {
            edges.push(network_edge(*edge, marks[e]))?;
        }
    }
    Ok(edges)
}

/// The network of a level whose marked edges are reversed.
pub(crate) fn network_of(
    alloc: Global,
    level: &LevelIn,
    marks: &[bool],
) -> Result<Network, AllocError>
    requires level { IsLevel (plain_level level.now) }
    requires marks { length marks.now ≡ length level.now.edges }
    requires reversed { AreReversed (plain_level level.now) (listed marks.now) }
    ensures nodes { IfOk result (λ net. net.nodes ≡ length level.now.children) }
    ensures edges { IfOk result (λ net. net.edges.items ≡ network (plain_level level.now) (listed marks.now)) }
    ensures network { IfOk result (λ net. IsNetwork net.nodes net.edges.items) }
{
    let edges = network_edges(alloc, level, marks)?;
    let nodes = level.children.len() as u32;
    Ok(Network { nodes, edges })
}
