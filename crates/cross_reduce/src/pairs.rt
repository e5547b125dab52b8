//! What is known of pairs of units whose exchange was tried.
//!
//! How many more crossings two units of a row have the other way round depends on the rows beside it alone,
//! and two units there that are exchanged change it by two for each of their links to both. So what was
//! counted once is kept true by each exchange, in place of being counted anew at each trial.

use crate::fans::Far;
use crate::flat::Flat;
use crate::joints::Joints;
use crate::neighbours::compare;
use std::alloc::{AllocError, Global};

/// What is known of two units of a row: how many more crossings their links have where the unit of the lesser number stands below
/// the other. Where nothing is known the greater one is 0.
#[derive(Clone, Copy)]
struct Pair {
    greater: u32,
    more: i32,
}

/// Where nothing is known.
const NOTHING: Pair = Pair {
    greater: 0,
    more: 0,
};

/// For each unit so many others are kept, by their numbers.
const KEPT: usize = 16;

/// The work of a look at two units, in pairs of links that are compared.
pub(crate) const LOOK: u64 = 4;

/// What is known of pairs of units. A pair may take the place of another.
#[derive(Drop)]
pub(crate) struct Pairs {
    list: Vec<Pair>,
    joints: Joints,
}

impl Pairs {
    /// Nothing is known yet of pairs of so many units.
    pub(crate) fn of(alloc: Global, units: usize) -> Result<Pairs, AllocError> {
        let list: Vec<Pair> = vec![in alloc; NOTHING; units.saturating_mul(KEPT)]?;
        Ok(Pairs {
            list,
            joints: Joints::none(alloc),
        })
    }

    /// From now on crossings of links between joints weigh twice. What was known is forgotten.
    pub(crate) fn weigh(&mut self, joints: Joints) {
        self.list.as_mut_slice().fill(NOTHING);
        self.joints = joints;
    }

    /// The joints between which crossings weigh twice.
    pub(crate) fn joints(&self) -> &Joints {
        &self.joints
    }

    /// What is kept at a place.
    fn at(&self, i: usize) -> Pair {
        if i < self.list.len() {
            self.list[i]
        } else {
            NOTHING
        }
    }

    /// Keeps a pair at a place.
    fn put(&mut self, i: usize, pair: Pair) {
        if i < self.list.len() {
            self.list[i] = pair;
        }
    }

    /// Adds to what is known of two units, if they are kept.
    fn add(&mut self, lesser: u32, greater: u32, more: i32) {
        let i = place_of(lesser, greater);
        if i < self.list.len() && self.list[i].greater == greater {
            self.list[i].more = self.list[i].more.wrapping_add(more);
        }
    }
}

/// Where two units are kept.
fn place_of(lesser: u32, greater: u32) -> usize {
    (lesser as usize * KEPT).wrapping_add(greater as usize % KEPT)
}

/// What is known of two units, once their links are compared, and the work of that.
fn compared(flat: &Flat, joints: &Joints, lesser: u32, greater: u32) -> (Pair, u64) {
    let (more, looks) = compare(flat, lesser, greater);
    let more = more.wrapping_add(joints.more_of(flat, lesser, greater));
    (Pair { greater, more }, looks.wrapping_add(LOOK))
}

/// What is known of two units, and the work of finding it.
fn pair_of(flat: &Flat, pairs: &mut Pairs, lesser: u32, greater: u32) -> (Pair, u64) {
    let i = place_of(lesser, greater);
    let known = pairs.at(i);
    if known.greater == greater {
        return (known, LOOK);
    }
    let (pair, work) = compared(flat, &pairs.joints, lesser, greater);
    pairs.put(i, pair);
    (pair, work)
}

/// A number, or its negative where the upper unit is the greater one.
fn signed(upper: u32, lower: u32, number: i32) -> i32 {
    let sign = 1_i32.wrapping_sub(((upper > lower) as i32).wrapping_mul(2));
    number.wrapping_mul(sign)
}

/// How many more crossings the exchange of two neighbours brings, and the work of finding it.
pub(crate) fn more_by_exchange(
    flat: &Flat,
    pairs: &mut Pairs,
    upper: u32,
    lower: u32,
) -> (i32, u64) {
    let (pair, work) = pair_of(flat, pairs, upper.min(lower), upper.max(lower));
    (signed(upper, lower, pair.more), work)
}

/// Two links whose near ends are exchanged cross where they didn't, or don't where they did: their far ends
/// bring less the other way round, or more.
fn flip_ends(pairs: &mut Pairs, upper: u32, lower: u32) {
    pairs.add(upper.min(lower), upper.max(lower), signed(upper, lower, -2));
}

/// The same for one link of the upper and each of the lower.
fn flip_end(pairs: &mut Pairs, upper: u32, lower: &[Far]) {
    for far in lower {
        flip_ends(pairs, upper, far.unit);
    }
}

/// The same for the links to one side.
fn flip_side(pairs: &mut Pairs, upper: &[Far], lower: &[Far]) {
    if lower.is_empty() {
        return;
    }
    for far in upper {
        flip_end(pairs, far.unit, lower);
    }
}

/// What is flipped once more where the links of two joints lead to joints.
fn flip_joints(pairs: &mut Pairs, upper: &[Far], lower: &[Far]) {
    if upper.is_empty() || lower.is_empty() {
        return;
    }
    let (above, below) = (upper[0].unit, lower[0].unit);
    if pairs.joints.have(above, below) {
        flip_ends(pairs, above, below);
    }
}

/// Two neighbours are to be exchanged: what is known of units beside their row is kept true.
pub(crate) fn flip(flat: &Flat, pairs: &mut Pairs, upper: u32, lower: u32) {
    let (left, right) = flat.ends.of(upper);
    let (lower_left, lower_right) = flat.ends.of(lower);
    flip_side(pairs, left, lower_left);
    flip_side(pairs, right, lower_right);
    if pairs.joints.have(upper, lower) {
        flip_joints(pairs, left, lower_left);
        flip_joints(pairs, right, lower_right);
    }
}
