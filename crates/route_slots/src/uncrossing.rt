//! Slots along which each two nets cross no more often than they have to.
ghost use Rattle.std.specs.Prelude.{◌≡◌, ◌<◌, ◌≤◌, ℕ, true, length, IfOk, IfSome, IfNone};
ghost use Rattle.std.specs.List.{All};
ghost use Rattle.net_routes.specs.Limits.{net_limit};
ghost use Rattle.net_routes.specs.GapFree.{IsNet, AreHeights};
ghost use Rattle.net_routes.specs.Promised.{AreUncrossed};
ghost use Rattle.route_slots.specs.NetDepths.{AreNetDepths, IsDepthMark, AreDepthMarks, net_depth};
ghost use Rattle.net_routes.specs.Uncrossed.{Precedes, IsOrderable};

use crate::assigning::place;
use crate::fitting::{depth_in, fitted_nets};
use crate::marks::{Mark, is_straight};
use crate::middles::middles_of;
use crate::precedence::precedes;
use crate::ranks::ranked;
use crate::untangling::untangle;
use net_routes::{Net, Slots};
use std::alloc::{AllocError, Global};

// Whether the first net's depth is below those of all that it precedes.
fn rises_from(nets: &[Net], depths: &[u32], first: usize) -> bool
    requires { first < length nets.now }
    ensures { result ≡ true → (k : ℕ) → k < length nets.now → Precedes nets.now first k → net_depth depths.now first < net_depth depths.now k }
{
    let depth = depth_in(depths, first);
    'nets: for second in 0..nets.len() {
        if depth >= depth_in(depths, second) {
            if precedes(nets, first, second) {
                return false;
            }
        }
    }
    true
}

// Whether each net's depth is above those of all that precede it.
fn rise(nets: &[Net], depths: &[u32]) -> bool
    ensures { result ≡ true → AreNetDepths nets.now depths.now }
{
    if depths.len() != nets.len() {
        return false;
    }
    'nets: for first in 0..nets.len() {
        if !rises_from(nets, depths, first) {
            return false;
        }
    }
    true
}

// A depth for each net, above those of the nets that precede it, if the nets can be ranked so.
fn ranked_depths(alloc: Global, nets: &[Net], near: i64) -> Result<Option<Vec<u32>>, AllocError>
    requires few { length nets.now ≤ net_limit }
    ensures some { IfOk result (λ found. IfSome found (λ depths. AreNetDepths nets.now depths.items)) }
    ensures none { IfOk result (λ found. IfNone found (IsOrderable nets.now → ⊥)) }
{
    let fitted = fitted_nets(alloc, nets, near)?;
    if rise(nets, fitted.depths.as_slice()) {
        return Ok(Some(fitted.depths));
    }
    ranked(alloc, nets, fitted.order.as_slice())
}

// The mark of a net that is not split.
fn depth_mark(net: Net, depth: u32) -> Mark
    ensures { IsDepthMark net depth result }
{
    Mark {
        straight: is_straight(net),
        split: false,
        at_a: depth,
        at_b: depth,
    }
}

// The marks of all nets by their depths.
fn depth_marks(alloc: Global, nets: &[Net], depths: &[u32]) -> Result<Vec<Mark>, AllocError>
    requires { length depths.now ≡ length nets.now }
    ensures { IfOk result (λ marks. AreDepthMarks nets.now depths.now marks.items (length nets.now)) }
{
    let mut marks = Vec::new(alloc);
    'nets: for k in 0..nets.len() {
        marks.push(depth_mark(nets[k], depths[k]))?;
    }
    Ok(marks)
}

// Places the nets by their depths, each in one slot.
fn place_by_depths(alloc: Global, nets: &[Net], depths: &[u32]) -> Result<Slots, AllocError>
    requires few { length nets.now ≤ net_limit }
    requires pins { All IsNet nets.now }
    requires heights { All AreHeights nets.now }
    requires depths { AreNetDepths nets.now depths.now }
    ensures { IfOk result (λ slots. AreUncrossed nets.now slots.count slots.routes.items) }
{
    let marks = depth_marks(alloc, nets, depths)?;
    let middles = middles_of(alloc, nets, marks.as_slice())?;
    let slots = place(alloc, nets, marks.as_slice(), middles.as_slice())?;
    Ok(slots)
}

// The slots of both calls below.
fn uncrossed_slots(alloc: Global, nets: &[Net], near: i64) -> Result<Slots, AllocError>
    requires few { length nets.now ≤ net_limit }
    requires pins { All IsNet nets.now }
    requires heights { All AreHeights nets.now }
    ensures { IfOk result (λ slots. AreUncrossed nets.now slots.count slots.routes.items) }
{
    match ranked_depths(alloc, nets, near)? {
        None => untangle(alloc, nets, near),
        Some(depths) => place_by_depths(alloc, nets, depths.as_slice()),
    }
}

/// A route for each net as by `assign`, by which each two nets cross no more often than they have to, if that can be.
///
/// Pins of two nets alternate round the border of the gap, or they don't. If they do, the nets have to cross, and once is enough.
/// A net precedes another if the two would overlap, or cross more often than they have to, with the other's slot first. If the
/// nets can be ranked so that each ranks behind those that precede it, the slots follow such an order, and each two nets cross
/// once if their pins alternate, and otherwise not at all. So they do in each gap with no conflict, or with one. In other gaps
/// the lightest of these wishes are dropped, and nets that lie on a cycle of conflicts are split; they get the routes of
/// `assign` if those cross as little. In a gap of up to 1,024 nets no exchange of two neighbouring slots that keeps segments apart
/// gives fewer crossings.
///
/// This takes time in proportion to the square of the nets, and a byte of memory for each two segments: 64 MiB for 8,192 nets.
///
/// Proved:
/// - If the nets of a gap can be ranked so that each ranks behind those that precede it, two nets cross once if their pins alternate
///   around the border of the gap, and otherwise not at all. (`assign_uncrossed_near`)
/// - The same holds if no nets conflict, or if there is a single conflict, of one net with another in one direction. A pair that
///   conflicts in both directions has two. (`assign_uncrossed_near`, `orders`)
pub fn assign_uncrossed(alloc: Global, nets: &[Net]) -> Result<Slots, AllocError>
    requires few { length nets.now ≤ net_limit }
    requires pins { All IsNet nets.now }
    requires heights { All AreHeights nets.now }
    ensures { IfOk result (λ slots. AreUncrossed nets.now slots.count slots.routes.items) }
{
    assign_uncrossed_near(alloc, nets, 1)
}

/// The same, where lines shall not run side by side nearer than a distance.
///
/// With a net's pin on the left that is nearer to another's pin on the right than `near`, the lines at the two pins run side by
/// side if the net of the pin on the left stands behind. It stands before the other where that makes no more crossings.
pub fn assign_uncrossed_near(alloc: Global, nets: &[Net], near: i64) -> Result<Slots, AllocError>
    requires few { length nets.now ≤ net_limit }
    requires pins { All IsNet nets.now }
    requires heights { All AreHeights nets.now }
    ensures { IfOk result (λ slots. AreUncrossed nets.now slots.count slots.routes.items) }
{
    uncrossed_slots(alloc, nets, near)
}
