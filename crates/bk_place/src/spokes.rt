//! The links of each unit to the layer that the sweep looks to.
ghost use Rattle.std.specs.Prelude.{◌≡◌, ℕ, ◌+◌, ◌-◌, ◌≤◌, ◌<◌, ◌*◌, ◌^◌, [], ◌∷◌, ◌++◌, cond, not, length, slice_index, slice_index_or, take, drop, IfOk};
ghost use Rattle.std.specs.List.{filter};
ghost use Rattle.std.specs.List.Sorted.{IsNonDecreasingBy};
ghost use Rattle.elk_layers.specs.Layered.{plain, link_at, IsSound, IsSoundLink};
ghost use Rattle.bk_place.specs.Spokes as spec;
ghost use Rattle.bk_place.specs.Spokes.{spoke_of, all_spokes, is_at, AreSpokes, AreFirsts, IsFirst, is_of};

use crate::ends::{far_key, goes_left, near_end};
use crate::marking::is_lane;
use drawing_types::sweep::Sweep;
use elk_layers::{Layered, Link};
use std::alloc::{AllocError, Global};

/// A link's number under the key by which it is sorted.
#[derive(Clone, Copy)]
pub(crate) struct Spoke {
    pub(crate) key: u128,
    pub(crate) number: u32,
}

/// A link as it is sorted: by its near unit, then by the key of its far end, then by number.
fn spoke_for(layered: &Layered, sweep: Sweep, place: &[u32], number: u32) -> Spoke
    requires sound { IsSound (plain layered.now) }
    requires places { length place.now ≡ length (plain layered.now).units }
    requires number { number < length (plain layered.now).links }
    ensures { result ≡ spoke_of (plain layered.now) sweep place.now number }
{
    let links = layered.links.as_slice();
    let link = links[number as usize];
    let far = far_key(sweep, place, link) * 4294967296 + number as u128;
    Spoke {
        key: near_end(sweep, link) as u128 * 1208925819614629174706176 + far,
        number,
    }
}

/// Whether the near end of a link is a lane of a long edge.
fn is_at_lane(layered: &Layered, sweep: Sweep, number: u32) -> bool
    requires sound { IsSound (plain layered.now) }
    requires number { number < length (plain layered.now).links }
    ensures { result ≡ spec.is_at_lane (plain layered.now) sweep number }
{
    let links = layered.links.as_slice();
    let link = links[number as usize];
    if goes_left(sweep) {
        is_lane(layered, link.head)
    } else {
        is_lane(layered, link.tail)
    }
}

/// The test, or its opposite.
fn matches(wanted: bool, test: bool) -> bool
    ensures { result ≡ cond wanted test (not test) }
{
    if wanted { test } else { !test }
}

/// Adds a link where its near end is a lane, or where it is none.
fn push_spoke(
    layered: &Layered,
    sweep: Sweep,
    place: &[u32],
    lanes: bool,
    number: u32,
    spokes: &mut Vec<Spoke>,
) -> Result<(), AllocError>
    requires sound { IsSound (plain layered.now) }
    requires places { length place.now ≡ length (plain layered.now).units }
    requires number { number < length (plain layered.now).links }
    ensures { IfOk result
        (λ _. spokes.new.items
        ≡ spokes.old.items
        ++ cond (is_at (plain layered.now) sweep lanes (spoke_of (plain layered.now) sweep place.now number))
        (spoke_of (plain layered.now) sweep place.now number ∷ []) []) }
{
    if matches(lanes, is_at_lane(layered, sweep, number)) {
        spokes.push(spoke_for(layered, sweep, place, number))?;
    }
    Ok(())
}

/// Adds the links whose near end is a lane, or those where it is none.
fn push_spokes(
    layered: &Layered,
    sweep: Sweep,
    place: &[u32],
    lanes: bool,
    spokes: &mut Vec<Spoke>,
) -> Result<(), AllocError>
    requires sound { IsSound (plain layered.now) }
    requires places { length place.now ≡ length (plain layered.now).units }
    ensures { IfOk result
        (λ _. spokes.new.items
        ≡ spokes.old.items ++ filter (is_at (plain layered.now) sweep lanes) (all_spokes (plain layered.now) sweep place.now)) }
{
    let count = layered.links.as_slice().len();
    for k in 0..count {
        push_spoke(layered, sweep, place, lanes, k as u32, spokes)?;
    }
    Ok(())
}

/// All links, sorted.
///
/// The links of lanes come last, since they stand in order where edges have their lanes one after the other.
pub(crate) fn spokes_of(
    alloc: Global,
    layered: &Layered,
    sweep: Sweep,
    place: &[u32],
) -> Result<Vec<Spoke>, AllocError>
    requires sound { IsSound (plain layered.now) }
    requires places { length place.now ≡ length (plain layered.now).units }
    ensures { IfOk result (λ v. AreSpokes (plain layered.now) sweep place.now v.items) }
{
    let mut spokes = Vec::with_capacity(alloc, layered.links.as_slice().len())?;
    push_spokes(layered, sweep, place, false, &mut spokes)?;
    push_spokes(layered, sweep, place, true, &mut spokes)?;
    spokes.sort_by_key(|s| s.key)?;
    Ok(spokes)
}

/// The first place, from one on, that links of earlier units don't have.
fn first_from(spokes: &[Spoke], from: usize, unit: u64) -> usize
    requires sorted { IsNonDecreasingBy (λ (s : Spoke). s.key) spokes.now }
    requires unit { unit ≤ 2 ^ 32 }
    requires bound { from ≤ length spokes.now }
    requires before { (j : ℕ) (d : Spoke) → j < from → (slice_index_or spokes.now j d).key < unit * 2 ^ 80 }
    ensures { IsFirst spokes.now unit result }
{
    let key = unit as u128 * 1208925819614629174706176;
    for at in from..spokes.len() {
        if spokes[at].key >= key {
            return at;
        }
    }
    spokes.len()
}

/// By unit, the place of its first link among all links, and the number of links last.
pub(crate) fn firsts_of(
    alloc: Global,
    spokes: &[Spoke],
    units: usize,
) -> Result<Vec<u32>, AllocError>
    requires sorted { IsNonDecreasingBy (λ (s : Spoke). s.key) spokes.now }
    requires few { length spokes.now ≤ 2 ^ 24 }
    requires few_units { units ≤ 2 ^ 24 }
    ensures { IfOk result (λ v. AreFirsts spokes.now units v.items) }
{
    let mut firsts = Vec::with_capacity(alloc, units + 1)?;
    let mut at = 0;
    for unit in 0..units + 1 {
        at = first_from(spokes, at, unit as u64);
        firsts.push(at as u32)?;
    }
    Ok(firsts)
}

/// The links from one place to below another.
fn window(spokes: &[Spoke], begin: usize, end: usize) -> &[Spoke]
    requires order { begin ≤ end }
    requires bound { end ≤ length spokes.now }
    ensures { result.now ≡ take (end - begin) (drop begin spokes.now) }
{
    &spokes[begin..end]
}

/// The links of a unit.
pub(crate) fn fan<'a>(spokes: &'a [Spoke], firsts: &[u32], unit: u32) -> &'a [Spoke]
    requires unit { unit + 1 < length firsts.now }
    requires firsts { (u : ℕ) → u < length firsts.now → IsFirst spokes.now u (slice_index firsts.now u) }
    ensures { result.now ≡ filter (is_of unit) spokes.now }
{
    let begin = firsts[unit as usize] as usize;
    let end = firsts[unit as usize + 1] as usize;
    window(spokes, begin, end)
}
