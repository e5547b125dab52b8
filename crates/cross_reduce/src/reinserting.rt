//! Moves of whole chains and of single units to places where they cross less.

use crate::budget::Budget;
use crate::chains::Chains;
use crate::crossing_units::crossing_units;
use crate::flat::Flat;
use crate::held_starts::is_held;
use crate::joints::Joints;
use crate::sifting::sift;
use crate::windows::{row_of, rows_by_unit};
use std::alloc::{AllocError, Global};

/// How far a unit of a chain moves at most at one time.
const REACH: usize = 12;

/// How far it moves at most where chains are put in anew.
const FARTHEST: usize = 64;

/// How far a single unit moves at most.
const FAR: usize = 64;

/// How many pairs of slots are as much work as a pair of links.
const SLOTS: u64 = 3;

/// Whether a unit is marked in a list of all units.
fn is_marked(marked: &[bool], unit: u32) -> bool {
    let unit = unit as usize;
    unit < marked.len() && marked[unit]
}

/// How many units there are, or none where they are too many.
fn count_of(flat: &Flat) -> u32 {
    match u32::try_from(flat.place.len()) {
        Ok(count) => count,
        Err(_) => 0,
    }
}

/// Puts all chains with a marked unit where they cross less, so far at most; tells how many crossings that takes away.
fn move_chains(
    flat: &mut Flat,
    chains: &mut Chains,
    marked: &[bool],
    reach: usize,
    budget: &mut Budget,
) -> Result<i64, AllocError> {
    let mut gain: i64 = 0;
    for unit in 0..count_of(flat) {
        if budget.is_spent() {
            return Ok(gain);
        }
        let (more, work) = chains.reinsert(flat, marked, unit, reach)?;
        budget.spend(work / SLOTS);
        gain = gain.saturating_add(more.max(0));
    }
    Ok(gain)
}

/// Puts a unit where it crosses less, if it is marked and free and no part of a chain; tells how many crossings that takes away.
fn move_unit_alone(
    flat: &mut Flat,
    chains: &Chains,
    marked: &[bool],
    held: &[bool],
    unit: u32,
    budget: &mut Budget,
) -> i64 {
    if !is_marked(marked, unit) || chains.moves(unit) || is_held(held, unit) {
        return 0;
    }
    let (more, work) = sift(flat, row_of(chains.rows(), unit), unit, FAR);
    budget.spend(work);
    more.max(0)
}

/// Puts all free units that are marked and no part of a chain where they cross less.
fn move_units(
    flat: &mut Flat,
    chains: &Chains,
    marked: &[bool],
    held: &[bool],
    budget: &mut Budget,
) -> i64 {
    let mut gain: i64 = 0;
    for unit in 0..count_of(flat) {
        if budget.is_spent() {
            return gain;
        }
        let more = move_unit_alone(flat, chains, marked, held, unit, budget);
        gain = gain.saturating_add(more);
    }
    gain
}

/// Chains of free units that have one link to each side.
pub(crate) fn chains_for(alloc: Global, flat: &Flat, held: &[bool]) -> Result<Chains, AllocError> {
    let mut movable: Vec<bool> = Vec::with_capacity(alloc, flat.place.len())?;
    let joints = Joints::of(alloc, flat)?;
    for unit in 0..count_of(flat) {
        movable.push(joints.has(unit) && !is_held(held, unit))?;
    }
    let rows = rows_by_unit(alloc, flat)?;
    Ok(Chains::of(alloc, movable, rows))
}

/// Puts each chain that crosses something where it crosses less, not far from where it stands.
pub(crate) fn reinsert(
    alloc: Global,
    flat: &mut Flat,
    chains: &mut Chains,
    work: u64,
) -> Result<(), AllocError> {
    let mut budget = Budget::of(work);
    let marked = crossing_units(alloc, flat)?;
    move_chains(flat, chains, marked.as_slice(), REACH, &mut budget)?;
    Ok(())
}

/// How far units may move so that chains are put in anew with a quarter of the work.
fn reach_for(units: u64, work: u64) -> usize {
    let pairs = (work / 4).saturating_mul(SLOTS) / units.max(1);
    let mut reach = REACH;
    for more in REACH..FARTHEST {
        let slots = (more as u64).saturating_mul(2).saturating_add(1);
        if slots.saturating_mul(slots) <= pairs {
            reach = more;
        }
    }
    reach
}

/// Puts chains in anew, and then single units, as long as the work lasts and it takes crossings away.
pub(crate) fn reinsert_anew(
    alloc: Global,
    flat: &mut Flat,
    held: &[bool],
    work: u64,
) -> Result<(), AllocError> {
    let mut chains = chains_for(alloc, flat, held)?;
    let mut budget = Budget::of(work);
    let reach = reach_for(u64::from(count_of(flat)), work);
    for _ in 0..8_u64 {
        let marked = crossing_units(alloc, flat)?;
        let by_chains = move_chains(flat, &mut chains, marked.as_slice(), reach, &mut budget)?;
        let by_units = move_units(flat, &chains, marked.as_slice(), held, &mut budget);
        if by_chains.saturating_add(by_units) <= 0 || budget.is_spent() {
            return Ok(());
        }
    }
    Ok(())
}
