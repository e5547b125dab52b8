//! The certificate of a level.
ghost use Rattle.std.specs.Prelude.{◌≡◌, ◌<◌, ◌<ℤ◌, ◌≤ℤ◌, ℕ, pos, map, length, IfOk, IsTrue};
ghost use Rattle.network_laws.specs.Layering.{IsSolution, layer_of};
ghost use Rattle.network_parts.specs.Solved.{IsSolvedByParts};
ghost use Rattle.level_model.specs.Conditions.{plain_level, IsLevel};
ghost use Rattle.level_model.specs.Level as plan;
ghost use Rattle.level_layout.specs.Certificate.{AreReversed, IsCertificateOf, flow_at, link_flows, links, network};
ghost use Rattle.layer_units.specs.Marks.{listed};

use crate::networks::{list_marked, network_of};
use drawing_types::list::Items;
use elk_doc::drawing::Certificate;
use level_model::LevelIn;
use network_parts::{Solution, solve_parts};
use std::alloc::{AllocError, Global};

// A layer that is low, as an unsigned number.
fn unsigned(layer: i64) -> u32
    requires not_below { pos 0 ≤ℤ layer }
    requires low { layer <ℤ pos 2048 }
    ensures { pos result ≡ layer }
{
    layer as u32
}

// Layers that are low, as unsigned numbers.
fn layers_of(alloc: Global, layers: &[i64]) -> Result<Vec<u32>, AllocError>
    requires not_below { (v : ℕ) → v < length layers.now → pos 0 ≤ℤ layer_of layers.now v }
    requires low { (v : ℕ) → v < length layers.now → layer_of layers.now v <ℤ pos 2048 }
    ensures { IfOk result (λ found. map pos found.items ≡ layers.now) }
{
    let mut found = Vec::with_capacity(alloc, layers.len())?;
    for layer in layers {
        found.push(unsigned(*layer))?;
    }
    Ok(found)
}

// The flow of each edge of a level, 0 at self-loops, from those of the others.
fn flows_of(alloc: Global, level: &LevelIn, flow: &[u64]) -> Result<Vec<u64>, AllocError>
    requires { length flow.now ≡ length (links (plain_level level.now)) }
    ensures len { IfOk result (λ flows. length flows.items ≡ length level.now.edges) }
    ensures loops { IfOk result (λ flows. (e : ℕ) → e < length level.now.edges → IsTrue (plan.is_loop (plain_level level.now) e) → flow_at flows.items e ≡ 0) }
    ensures links { IfOk result (λ flows. link_flows (plain_level level.now) flows.items ≡ flow.now) }
{
    let mut flows = Vec::with_capacity(alloc, level.edges.len())?;
    let mut next = 0;
    for edge in level.edges.as_slice() {
        if edge.is_loop() {
            flows.push(0)?;
        } else {
            flows.push(flow[next])?;
            next += 1;
        }
    }
    Ok(flows)
}

// The certificate from the edges that are reversed and a solution of the network.
fn certificate_from(
    alloc: Global,
    level: &LevelIn,
    reversed: Vec<u32>,
    solution: Solution,
) -> Result<Certificate, AllocError>
    requires level { IsLevel (plain_level level.now) }
    requires reversed { AreReversed (plain_level level.now) reversed.items }
    requires solution { IsSolution (length level.now.children) (network (plain_level level.now) reversed.items)
        solution.layer.items solution.flow.items solution.cost }
    requires by_parts { IsSolvedByParts (length level.now.children) (network (plain_level level.now) reversed.items) solution.layer.items solution.flow.items }
    ensures certificate { IfOk result (IsCertificateOf (plain_level level.now)) }
    ensures listed { IfOk result (λ c. c.reversed ≡ reversed.items) }
{
    let layers = layers_of(alloc, solution.layer.as_slice())?;
    let flow = flows_of(alloc, level, solution.flow.as_slice())?;
    Ok(Certificate {
        layers: Items::from_vec(layers),
        reversed: Items::from_vec(reversed),
        flow: Items::from_vec(flow),
        span: solution.cost as u64,
        parts: Items::from_vec(Vec::new(alloc)),
    })
}

/// The certificate of a level, in the frame in which its direction runs to the right, by the marks of the edges that are reversed
/// round so that no cycle is left: these edges, by number and in ascending order; by child its layer, where each part of the
/// level begins at layer 0; by edge its flow, 0 at self-loops; and the span, which no layering of these edges goes below. Each
/// connected part is layered by itself, by network simplex (Gansner, Koutsofios, North, Vo 1993) with 64 pivots for each of its
/// children and edges, and by the primal-dual flow where these don't suffice. Parts are left empty.
///
/// The only error is out of memory.
pub fn certificate_for(
    alloc: Global,
    level: &LevelIn,
    is_reversed: &[bool],
) -> Result<Certificate, AllocError>
    requires level { IsLevel (plain_level level.now) }
    requires marks { length is_reversed.now ≡ length level.now.edges }
    requires reversed { AreReversed (plain_level level.now) (listed is_reversed.now) }
    ensures certificate { IfOk result (IsCertificateOf (plain_level level.now)) }
    ensures listed { IfOk result (λ c. c.reversed ≡ listed is_reversed.now) }
{
    let reversed = list_marked(alloc, is_reversed)?;
    let network = network_of(alloc, level, is_reversed)?;
    let solution = solve_parts(alloc, &network)?;
    certificate_from(alloc, level, reversed, solution)
}
