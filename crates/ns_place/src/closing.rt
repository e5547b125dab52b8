//! Gaps that no unit reaches over are closed.

ghost use Rattle.std.specs.Prelude.{◌≡◌, ◌≢◌, ℕ, ◌+◌, ◌<◌, ◌≤◌, ◌^◌, pos, ◌+ℤ◌, ◌≤ℤ◌, map, length, slice_index, IfOk};
ghost use Rattle.std.specs.List.{All, sum_by};
ghost use Rattle.std.specs.List.Sorted.{IsNonDecreasingBy};
ghost use Rattle.elk_layers.specs.Layered.{unit_at};
ghost use Rattle.network_laws.specs.Layering.{layer_of};
ghost use Rattle.ns_place.specs.Closing.{standing_at, IsClosedTo, IsClosedUp, AreStandings, StandByNumber};
ghost use Rattle.ns_place.specs.declared.closing.Standing.{Standing};

use elk_layers::Unit;
use std::alloc::{AllocError, Global};

/// A unit with its top, and how far from there no gap is closed.
#[derive(Clone, Copy)]
pub(crate) struct Standing {
    pub top: u64,
    pub span: u64,
    pub unit: u32,
}

fn standing_of(unit: u32, top: i64, height: i64, spacing: i64) -> Standing
    requires top { pos 0 ≤ℤ top }
    requires height { pos 0 ≤ℤ height }
    requires height_small { height ≤ℤ pos (2 ^ 57) }
    requires spacing { pos 0 ≤ℤ spacing }
    requires spacing_small { spacing ≤ℤ pos (2 ^ 20) }
    ensures top { pos result.top ≡ top }
    ensures span { pos result.span ≡ height +ℤ spacing }
    ensures unit { result.unit ≡ unit }
{
    Standing {
        top: top as u64,
        span: (height + spacing) as u64,
        unit,
    }
}

/// The units by number, each with its height and a spacing as its span.
pub(crate) fn standings(
    alloc: Global,
    units: &[Unit],
    layers: &[i64],
    spacing: i64,
) -> Result<Vec<Standing>, AllocError>
    requires few { length units.now ≤ 2 ^ 24 }
    requires as_many { length units.now ≤ length layers.now }
    requires layers { (u : ℕ) → u < length units.now → pos 0 ≤ℤ layer_of layers.now u }
    requires heights { (u : ℕ) → u < length units.now → pos 0 ≤ℤ (unit_at units.now u).height }
    requires heights_small { (u : ℕ) → u < length units.now → (unit_at units.now u).height ≤ℤ pos (2 ^ 57) }
    requires spacing { pos 0 ≤ℤ spacing }
    requires spacing_small { spacing ≤ℤ pos (2 ^ 20) }
    ensures { IfOk result (λ v. AreStandings units.now layers.now spacing v.items) }
{
    let mut all = Vec::with_capacity(alloc, units.len())?;
    for u in 0..units.len() {
        all.push(standing_of(u as u32, layers[u], units[u].height, spacing))?;
    }
    Ok(all)
}

/// Moves the units up, from the topmost one down, as far as the reach of those above them and by no less than
/// these were moved.
fn close_all(standings: &[Standing], closed: &mut [u64])
    requires in_range { All (λ (s : Standing). s.unit < length closed.old) standings.now }
    requires sorted { IsNonDecreasingBy (λ (s : Standing). s.top) standings.now }
    requires apart { (i j : ℕ) → i < j → j < length standings.now → (standing_at standings.now i).unit ≢ (standing_at standings.now j).unit }
    requires small { sum_by (λ (s : Standing). s.span) standings.now < 2 ^ 63 }
    ensures { (last : ℕ) × (shift : ℕ) × (reach : ℕ) × IsClosedTo standings.now (length standings.now) last shift reach closed.new }
{
    let mut shift: u64 = 0;
    let mut reach: u64 = 0;
    for s in standings {
        let top = (s.top - shift).min(reach);
        shift = s.top - top;
        reach = reach.max(top + s.span);
        closed[s.unit as usize] = top;
    }
}

/// The tops of the units with all gaps closed that no span reaches over.
pub(crate) fn close_up(alloc: Global, mut standings: Vec<Standing>) -> Result<Vec<u64>, AllocError>
    requires numbered { StandByNumber standings.items }
    requires small { sum_by (λ (s : Standing). s.span) standings.items < 2 ^ 63 }
    ensures { IfOk result (λ v. IsClosedUp standings.items v.items) }
{
    let mut closed: Vec<u64> = vec![in alloc; 0; standings.len()]?;
    standings.sort_by_key(|s| s.top)?;
    close_all(standings.as_slice(), closed.as_mut_slice());
    Ok(closed)
}

/// The same numbers with a sign.
pub(crate) fn as_tops(alloc: Global, closed: &[u64]) -> Result<Vec<i64>, AllocError>
    requires { All (λ n. n < 2 ^ 63) closed.now }
    ensures { IfOk result (λ v. v.items ≡ map pos closed.now) }
{
    let mut top = Vec::with_capacity(alloc, closed.len())?;
    for n in closed {
        top.push(*n as i64)?;
    }
    Ok(top)
}
