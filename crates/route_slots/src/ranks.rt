//! Nets are ranked one after another, each once all that precede it are.
ghost use Rattle.std.specs.Prelude.{◌≡◌, ◌+◌, ◌<◌, ◌≤◌, ℕ, true, false, length, IfOk, IfSome, IfNone};
ghost use Rattle.net_routes.specs.Limits.{net_limit};
ghost use Rattle.route_slots.specs.NetDepths.{AreNetDepths, net_depth};
ghost use Rattle.net_routes.specs.Uncrossed.{Precedes, IsOrderable};
ghost use Rattle.route_slots.specs.Ranks.{no_rank, AreRanks, IsHeldBack, AreHeldBack};

use crate::precedence::precedes;
use net_routes::Net;
use std::alloc::{AllocError, Global};

// In place of the depth of a net without a rank.
const NO_RANK: u32 = 4294967295;

// Whether a net without a rank precedes this one.
fn is_held_back(nets: &[Net], depths: &[u32], number: usize) -> bool
    requires len { length depths.now ≡ length nets.now }
    requires net { number < length nets.now }
    ensures yes { result ≡ true → IsHeldBack nets.now depths.now number }
    ensures no { result ≡ false → (j : ℕ) → j < length nets.now → net_depth depths.now j ≡ no_rank → Precedes nets.now j number → ⊥ }
{
    'nets: for other in 0..nets.len() {
        if depths[other] == NO_RANK {
            if precedes(nets, other, number) {
                return true;
            }
        }
    }
    false
}

// Ranks the net, if it has no rank and none without one precedes it.
fn rank(nets: &[Net], depths: &mut [u32], next: u32, number: usize) -> bool
    requires few { length nets.now ≤ net_limit }
    requires net { number < length nets.now }
    requires ranks { AreRanks nets.now depths.old next }
    ensures yes { result ≡ true → AreRanks nets.now depths.new (next + 1) }
    ensures no { result ≡ false → depths.new ≡ depths.old }
    ensures held { result ≡ false → net_depth depths.old number ≡ no_rank → IsHeldBack nets.now depths.old number }
{
    if depths[number] != NO_RANK {
        return false;
    }
    if is_held_back(nets, depths, number) {
        return false;
    }
    depths[number] = next;
    true
}

// Ranks all nets that can be, in their order, and gives the next rank.
fn sweep(nets: &[Net], depths: &mut [u32], next: u32) -> u32
    requires few { length nets.now ≤ net_limit }
    requires ranks { AreRanks nets.now depths.old next }
    ensures ranks { AreRanks nets.now depths.new result }
    ensures more { next ≤ result }
    ensures none { result ≡ next → AreHeldBack nets.now depths.new (length nets.now) }
{
    let mut then = next;
    'nets: for number in 0..nets.len() {
        if rank(nets, depths, then, number) {
            then += 1;
        }
    }
    then
}

// Ranks the nets by these numbers, as far as they can be.
fn follow(nets: &[Net], depths: &mut [u32], order: &[usize]) -> u32
    requires few { length nets.now ≤ net_limit }
    requires ranks { AreRanks nets.now depths.old 0 }
    ensures { AreRanks nets.now depths.new result }
{
    let mut next = 0;
    'order: for at in 0..order.len() {
        let number = order[at];
        if number < nets.len() {
            if rank(nets, depths, next, number) {
                next += 1;
            }
        }
    }
    next
}

// Ranks all nets that can be.
fn rank_all(nets: &[Net], depths: &mut [u32], order: &[usize]) -> u32
    requires few { length nets.now ≤ net_limit }
    requires ranks { AreRanks nets.now depths.old 0 }
    ensures ranks { AreRanks nets.now depths.new result }
    ensures none { AreHeldBack nets.now depths.new (length nets.now) }
{
    let mut next = follow(nets, depths, order);
    'sweeps: loop {
        let then = sweep(nets, depths, next);
        if then == next {
            return next;
        }
        next = then;
    }
}

// Whether all nets have ranks.
fn all_ranked(depths: &[u32]) -> bool
    ensures yes { result ≡ true → (k : ℕ) → k < length depths.now → net_depth depths.now k ≡ no_rank → ⊥ }
    ensures no { result ≡ false → (k : ℕ) × (k < length depths.now) × (net_depth depths.now k ≡ no_rank) }
{
    'depths: for k in 0..depths.len() {
        if depths[k] == NO_RANK {
            return false;
        }
    }
    true
}

// Ranks all nets, if that can be.
fn rank_nets(nets: &[Net], depths: &mut [u32], order: &[usize]) -> bool
    requires few { length nets.now ≤ net_limit }
    requires ranks { AreRanks nets.now depths.old 0 }
    ensures yes { result ≡ true → AreNetDepths nets.now depths.new }
    ensures no { result ≡ false → IsOrderable nets.now → ⊥ }
{
    let _next = rank_all(nets, depths, order);
    all_ranked(depths)
}

/// A depth of its own for each net, above those of the nets that precede it, if the nets can be ranked so.
///
/// Tries the nets in the order given, and then again and again in theirs, until none more can be ranked. An order in which each net
/// comes after those that precede it saves the further tries.
pub fn ranked(alloc: Global, nets: &[Net], order: &[usize]) -> Result<Option<Vec<u32>>, AllocError>
    requires few { length nets.now ≤ net_limit }
    ensures some { IfOk result (λ found. IfSome found (λ depths. AreNetDepths nets.now depths.items)) }
    ensures none { IfOk result (λ found. IfNone found (IsOrderable nets.now → ⊥)) }
{
    let mut depths = vec![in alloc; NO_RANK; nets.len()]?;
    if !rank_nets(nets, depths.as_mut_slice(), order) {
        return Ok(None);
    }
    Ok(Some(depths))
}
