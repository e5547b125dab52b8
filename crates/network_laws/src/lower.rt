//! Layers lowered so that the least of each part is 0.

ghost use Rattle.std.specs.Prelude.{◌≡◌, ◌<◌, ◌≤◌, ◌^◌, ◌-◌, ℕ, pos, ◌≤ℤ◌, ◌<ℤ◌, ◌+ℤ◌, length, OnOk, slice_index};
ghost use Rattle.network_laws.specs.Network.{EndsBelow};
ghost use Rattle.network_laws.specs.Layering.{layer_of, PartsBeginAtZero};
ghost use Rattle.network_laws.specs.Parts.{ArePartNumbers};
ghost use Rattle.network_laws.specs.Lowering.{KeepsRises, AreLeast, AreLowered};

use crate::network::NetEdge;
use crate::parts::part_numbers;
use std::alloc::{AllocError, Global};

/// The least layer of each part.
fn find_least(parts: &[u32], layers: &[i64], least: &mut [i64])
    requires same { length layers.now ≡ length parts.now }
    requires one_each { length least.old ≡ length parts.now }
    requires in_range { (v : ℕ) → v < length parts.now → slice_index parts.now v < length parts.now }
    requires none { (p : ℕ) → p < length parts.now → layer_of least.old p ≡ pos (2 ^ 63 - 1) }
    requires low { (v : ℕ) → v < length parts.now → layer_of layers.now v <ℤ pos (2 ^ 63 - 1) }
    ensures { AreLeast parts.now layers.now (length parts.now) least.new }
{
    for v in 0..parts.len() {
        let part = parts[v] as usize;
        if layers[v] < least[part] {
            least[part] = layers[v];
        }
    }
}

fn lowered(layer: i64, by: i64) -> i64
    requires low { pos 0 ≤ℤ by }
    requires le { by ≤ℤ layer }
    ensures { result +ℤ by ≡ layer }
{
    layer - by
}

/// Lowers each node by the least layer of its part.
fn lower_all(parts: &[u32], least: &[i64], layers: &mut [i64])
    requires same { length layers.old ≡ length parts.now }
    requires in_range { (v : ℕ) → v < length parts.now → slice_index parts.now v < length least.now }
    requires from_zero { (v : ℕ) → v < length parts.now → pos 0 ≤ℤ layer_of least.now (slice_index parts.now v) }
    requires no_more { (v : ℕ) → v < length parts.now → layer_of least.now (slice_index parts.now v) ≤ℤ layer_of layers.old v }
    ensures { AreLowered parts.now least.now (length parts.now) layers.old layers.new }
{
    for v in 0..parts.len() {
        layers[v] = lowered(layers[v], least[parts[v] as usize]);
    }
}

/// Lowers each part by its least layer.
fn lower_parts(edges: &[NetEdge], parts: &[u32], least: &mut [i64], layers: &mut [i64])
    requires ends { EndsBelow (length layers.old) edges.now }
    requires parts { ArePartNumbers (length layers.old) edges.now parts.now }
    requires one_each { length least.old ≡ length parts.now }
    requires none { (p : ℕ) → p < length parts.now → layer_of least.old p ≡ pos (2 ^ 63 - 1) }
    requires from_zero { (v : ℕ) → v < length layers.old → pos 0 ≤ℤ layer_of layers.old v }
    requires low { (v : ℕ) → v < length layers.old → layer_of layers.old v <ℤ pos (2 ^ 63 - 1) }
    ensures from_zero { PartsBeginAtZero (length layers.old) edges.now layers.new }
    ensures rises { KeepsRises edges.now layers.old layers.new }
{
    let _edges = edges.len();
    find_least(parts, layers, least);
    lower_all(parts, least, layers);
}

/// Lowers the layers so that the least of each part is 0.
pub fn begin_at_zero(
    alloc: Global,
    nodes: u32,
    edges: &[NetEdge],
    layers: &mut [i64],
) -> Result<(), AllocError>
    requires few_nodes { nodes ≤ 2 ^ 23 }
    requires few { length edges.now ≤ 2 ^ 24 }
    requires ends { EndsBelow nodes edges.now }
    requires same { length layers.old ≡ nodes }
    requires from_zero { (v : ℕ) → v < nodes → pos 0 ≤ℤ layer_of layers.old v }
    requires low { (v : ℕ) → v < nodes → layer_of layers.old v <ℤ pos (2 ^ 63 - 1) }
    ensures from_zero { OnOk result (PartsBeginAtZero nodes edges.now layers.new) }
    ensures rises { OnOk result (KeepsRises edges.now layers.old layers.new) }
{
    let parts = part_numbers(alloc, nodes, edges)?;
    let mut least: Vec<i64> = vec![in alloc; i64::MAX; nodes as usize]?;
    lower_parts(edges, parts.as_slice(), least.as_mut_slice(), layers);
    Ok(())
}
