//! Units and links of a level: a unit for each child, lanes for long edges, and a link for each gap that an edge passes.
ghost use Rattle.std.specs.Prelude.{◌≡◌, ◌⊎◌, ℕ, ℤ, ◌+◌, ◌-◌, ◌<◌, ◌≤◌, ◌^◌, List, length, IfOk, OnOk};
ghost use Rattle.elk_layers.specs.Layered.{IsSound, plain};
ghost use Rattle.level_model.specs.Conditions.{IsLevel, plain_level};
ghost use Rattle.level_model.specs.Units.{AreLinked};
ghost use Rattle.layer_units.specs.Chained.{AreChained, IsLength};
ghost use Rattle.layer_units.specs.Grown.{AreGrown, IsShort, child_units, grown};
ghost use Rattle.layer_units.specs.Layering.{layering, AreLayersOf, IsLayerCount, layer_in, plan_with};
ghost use Rattle.layer_units.specs.Marks.{listed};
ghost use Rattle.layer_units.specs.Numbered.{AreNumberedUnits, flat_unit, lane_on, link_on};

use crate::runs::{Run, lanes, run_of, stop};
use elk_layers::{Layered, Link, Unit};
use graph_arena::EdgeKey;
use level_model::LevelIn;
use long_edges::Chains;
use std::alloc::{AllocError, Global};

// A unit in a layer without heights: that of a child, or a lane.
fn flat_unit(layer: u32, child: Option<u32>) -> Unit
    ensures { result ≡ flat_unit layer child }
{
    Unit {
        layer,
        child,
        height: 0,
        body_top: 0,
        body_height: 0,
        north: 0,
        south: 0,
    }
}

// The units of children.
fn units_of_children(alloc: Global, layers: &[u32]) -> Result<Vec<Unit>, AllocError>
    requires { length layers.now ≤ 2048 }
    ensures { IfOk result (λ units. units.items ≡ child_units layers.now (length layers.now)) }
{
    let mut units = Vec::with_capacity(alloc, layers.len())?;
    for child in 0..layers.len() as u32 {
        units.push(flat_unit(layers[child as usize], Some(child)))?;
    }
    Ok(units)
}

// Pushes the lanes of a run.
fn push_lanes(units: &mut Vec<Unit>, run: Run) -> Result<(), AllocError>
    requires { IsShort run }
    ensures { OnOk result (units.new.items ≡ grown (lane_on run) units.old.items (run.gaps - 1)) }
{
    for lane in 0..lanes(run) {
        units.push(flat_unit(run.layer + 1 + lane, None))?;
    }
    Ok(())
}

// The link of a run through one of its gaps.
fn link_in(run: Run, gap: u32) -> Link
    requires short { IsShort run }
    requires gap { gap < run.gaps }
    ensures { result ≡ link_on run gap }
{
    Link {
        edge: run.edge,
        tail: stop(run, gap),
        head: stop(run, gap + 1),
        tail_rank: 0,
        head_rank: 0,
        tail_at: 0,
        head_at: 0,
    }
}

// Pushes the links of a run.
fn push_links(links: &mut Vec<Link>, run: Run) -> Result<(), AllocError>
    requires { IsShort run }
    ensures { OnOk result (links.new.items ≡ grown (link_on run) links.old.items run.gaps) }
{
    for gap in 0..run.gaps {
        links.push(link_in(run, gap))?;
    }
    Ok(())
}

// A count that is raised above a layer.
fn raised(count: u32, layer: u32) -> u32
    requires { layer < 2048 }
    ensures kept { count ≤ result }
    ensures above { layer < result }
    ensures least { (result ≡ count) ⊎ (result ≡ layer + 1) }
{
    if layer < count {
        return count;
    }
    layer + 1
}

// One more than the greatest layer, 0 where there is none.
fn layer_count(layers: &[u32]) -> u32
    requires { (c : ℕ) → c < length layers.now → layer_in layers.now c < 2048 }
    ensures { IsLayerCount layers.now result }
{
    let mut count = 0;
    for child in 0..layers.len() {
        count = raised(count, layers[child]);
    }
    count
}

// How many edges the chain under a key has, 0 without a key.
fn links_at(chains: &Chains, key: Option<EdgeKey>) -> u32
    requires few { (n : ℕ) × IsLength chains.now key n × (n < 2 ^ 32) }
    ensures { (n : ℕ) → IsLength chains.now key n → result ≡ n }
{
    match key {
        None => 0,
        Some(key) => chains.chain_of(key).len() as u32,
    }
}

// The units and links of a level.
fn grow(
    alloc: Global,
    level: &LevelIn,
    layers: &[u32],
    is_reversed: &[bool],
    keys: &[Option<EdgeKey>],
    chains: &Chains,
) -> Result<Layered, AllocError>
    requires level { IsLevel (plain_level level.now) }
    requires layering { AreLayersOf (plain_level level.now) (listed is_reversed.now) layers.now }
    requires marks { length is_reversed.now ≡ length level.now.edges }
    requires chained { AreChained (layering (plain_level level.now) (listed is_reversed.now) layers.now) keys.now chains.now }
    ensures { IfOk result (λ v. AreGrown (layering (plain_level level.now) (listed is_reversed.now) layers.now) (plain v)) }
{
    let mut units = units_of_children(alloc, layers)?;
    let mut links = Vec::new(alloc);
    for edge in 0..level.edges.len() as u32 {
        let gaps = links_at(chains, keys[edge as usize]);
        let run = run_of(
            level,
            layers,
            is_reversed[edge as usize],
            edge,
            gaps,
            units.len() as u32,
        );
        push_lanes(&mut units, run)?;
        push_links(&mut links, run)?;
    }
    Ok(Layered {
        layers: layer_count(layers),
        units,
        links,
        node_node: level.spacing.node_node,
        edge_node: level.spacing.edge_node,
        edge_edge: level.spacing.edge_edge,
    })
}

/// The units and links of a level whose children lie in these layers, without heights, pins and ranks. `is_reversed` marks
/// the edges that are reversed. They are read off the chains that the edges were split into, which are found by the key of
/// each edge: a link for each edge of a chain, and a lane between two of them.
///
/// Unit c is that of child c. The lanes of long edges follow by edge, and those of an edge from its tail on; so do links.
///
/// Proved:
/// - The units and links of a level, from the layers of its children and the chains of its edges.
/// - There is a unit for each child, and a lane for each layer that a long edge passes.
/// - There is a chain of links for each edge that isn't a self-loop.
/// - Units and links are numbered by child and edge.
pub fn units_of(
    alloc: Global,
    level: &LevelIn,
    layers: &[u32],
    is_reversed: &[bool],
    keys: &[Option<EdgeKey>],
    chains: &Chains,
) -> Result<Layered, AllocError>
    requires level { IsLevel (plain_level level.now) }
    requires layering { AreLayersOf (plain_level level.now) (listed is_reversed.now) layers.now }
    requires marks { length is_reversed.now ≡ length level.now.edges }
    requires chained { AreChained (layering (plain_level level.now) (listed is_reversed.now) layers.now) keys.now chains.now }
    ensures linked { IfOk result
        (λ v. (rows : List (List ℕ)) (tops : List ℤ) → AreLinked (plain_level level.now) (plan_with v rows tops (listed is_reversed.now)) layers.now) }
    ensures sound { IfOk result (λ v. IsSound (plain v)) }
    ensures numbered { IfOk result (λ v. AreNumberedUnits (layering (plain_level level.now) (listed is_reversed.now) layers.now) (plain v)) }
    ensures layers { IfOk result (λ v. IsLayerCount layers.now v.layers) }
    ensures few_layers { IfOk result (λ v. v.layers ≤ 2048) }
    ensures node_node { IfOk result (λ v. v.node_node ≡ level.now.spacing.node_node) }
    ensures edge_node { IfOk result (λ v. v.edge_node ≡ level.now.spacing.edge_node) }
    ensures edge_edge { IfOk result (λ v. v.edge_edge ≡ level.now.spacing.edge_edge) }
{
    grow(alloc, level, layers, is_reversed, keys, chains)
}
