//! Slots of few crossings in place of those by low ends.
ghost use Rattle.std.specs.Prelude.{◌≡◌, ◌<◌, ◌≤◌, ◌+◌, ℕ, List, true, false, length, IfOk};
ghost use Rattle.net_routes.specs.Limits.{exchange_limit, net_limit};
ghost use Rattle.net_routes.specs.Pieces.{net_at};
ghost use Rattle.net_routes.specs.Crossings.{crossings};
ghost use Rattle.route_slots.specs.Middles.{AreMiddles};
ghost use Rattle.route_slots.specs.Marks.{mark_at, AreNetMarks, AreFlat};
ghost use Rattle.route_slots.specs.Choosing.{IsMovedMark, AreMovedMarks, KeepsOrder, AreInOrder, AreGood};

use crate::assigning::place;
use crate::crossings::crossings_of;
use crate::filling::fill;
use crate::fitting::depth_in;
use crate::marks::Mark;
use crate::middles::Height;
use crate::segments::{depths_by_place, rank_segments};
use crate::sifting::sift;
use crate::tracks::exchange_tracks;
use net_routes::{Net, Pin, Slots};
use std::alloc::{AllocError, Global};

// The mark with other depths, with one where the net is not split.
fn moved_to(mark: Mark, at_a: u32, at_b: u32) -> Mark
    ensures { IsMovedMark mark result }
{
    if mark.split {
        return Mark {
            straight: mark.straight,
            split: mark.split,
            at_a,
            at_b,
        };
    }
    Mark {
        straight: mark.straight,
        split: mark.split,
        at_a,
        at_b: at_a,
    }
}

/// All marks with other depths, two for each net.
pub fn marks_by(alloc: Global, marks: &[Mark], depths: &[u32]) -> Result<Vec<Mark>, AllocError>
    requires { length marks.now ≤ net_limit }
    ensures { IfOk result (λ others. AreMovedMarks marks.now others.items) }
{
    let mut others = Vec::new(alloc);
    'marks: for k in 0..marks.len() {
        let at_a = depth_in(depths, k + k);
        let at_b = depth_in(depths, k + k + 1);
        others.push(moved_to(marks[k], at_a, at_b))?;
    }
    Ok(others)
}

// Whether a segment with the first pin is before one with the second, if it has to be.
fn keeps_order(pin: Pin, depth: u32, other: Pin, other_depth: u32) -> bool
    ensures { result ≡ true → KeepsOrder pin depth other other_depth }
{
    if !pin.on_left {
        return true;
    }
    if other.on_left {
        return true;
    }
    if pin.height != other.height {
        return true;
    }
    depth < other_depth
}

// Whether the segments of the first net are before those of the second, where they have to be.
fn keep_order(net: Net, mark: Mark, other: Net, other_mark: Mark) -> bool
    ensures { result ≡ true → AreInOrder net mark other other_mark }
{
    if mark.straight {
        return true;
    }
    if other_mark.straight {
        return true;
    }
    if !keeps_order(net.a, mark.at_a, other.a, other_mark.at_a) {
        return false;
    }
    if !keeps_order(net.a, mark.at_a, other.b, other_mark.at_b) {
        return false;
    }
    if !keeps_order(net.b, mark.at_b, other.a, other_mark.at_a) {
        return false;
    }
    keeps_order(net.b, mark.at_b, other.b, other_mark.at_b)
}

// Whether the segments of one net are before those of all others, where they have to be.
fn row_keeps_order(nets: &[Net], marks: &[Mark], j: usize) -> bool
    requires len { length marks.now ≡ length nets.now }
    requires net { j < length nets.now }
    ensures { result ≡ true → (k : ℕ) → k < length nets.now → AreInOrder (net_at nets.now j) (mark_at marks.now j) (net_at nets.now k) (mark_at marks.now k) }
{
    'nets: for k in 0..nets.len() {
        if !keep_order(nets[j], marks[j], nets[k], marks[k]) {
            return false;
        }
    }
    true
}

/// Whether all segments are before those before which they have to be.
pub fn all_keep_order(nets: &[Net], marks: &[Mark]) -> bool
    requires len { length marks.now ≡ length nets.now }
    ensures { result ≡ true → (j k : ℕ) → j < length nets.now → k < length nets.now
        → AreInOrder (net_at nets.now j) (mark_at marks.now j) (net_at nets.now k) (mark_at marks.now k) }
{
    'nets: for j in 0..nets.len() {
        if !row_keeps_order(nets, marks, j) {
            return false;
        }
    }
    true
}

// Whether a net is split, or stands behind others.
fn is_deep(mark: Mark) -> bool
    ensures { result ≡ true → mark.split ≡ false → (mark.straight ≡ false → mark.at_a ≡ 0) → ⊥ }
{
    if mark.split {
        return true;
    }
    if mark.straight {
        return false;
    }
    mark.at_a > 0
}

// Whether any net is split, or stands behind others.
fn any_is_deep(marks: &[Mark]) -> bool
    ensures { result ≡ true → (nets : List Net) → length marks.now ≡ length nets → AreFlat nets marks.now → ⊥ }
{
    'marks: for k in 0..marks.len() {
        if is_deep(marks[k]) {
            return true;
        }
    }
    false
}

// Depths for few crossings, two for each net: as many tracks as by low ends where no nets conflict, and else as many as the
// order with few crossings asks for.
fn light_depths(
    alloc: Global,
    nets: &[Net],
    marks: &[Mark],
    middles: &[Height],
    deep: bool,
) -> Result<Vec<u32>, AllocError>
    requires few { length nets.now ≤ exchange_limit }
    requires marks { length marks.now ≡ length nets.now }
    requires middles { length middles.now ≡ length nets.now }
{
    let segments = rank_segments(alloc, nets, marks, middles)?;
    let mut segments = fill(alloc, segments)?;
    if deep {
        segments = sift(alloc, segments)?;
    }
    let exchanged = exchange_tracks(alloc, segments)?;
    depths_by_place(alloc, exchanged.as_slice(), nets.len())
}

// Whether slots may be that many in place of as many as they are.
fn may_be(deep: bool, count: u32, other: u32) -> bool
    ensures { result ≡ true → deep ≡ false → other ≡ count }
{
    if deep {
        return true;
    }
    other == count
}

// The other slots, if they give fewer crossings, and are as many unless there are conflicts.
fn lighter(nets: &[Net], slots: Slots, other: Slots, deep: bool) -> Slots
    requires few { length nets.now ≤ exchange_limit }
    requires len { length slots.routes.items ≡ length nets.now }
    requires other { length other.routes.items ≡ length nets.now }
    ensures good { (ms : List Mark) → AreGood nets.now ms slots.count slots.routes.items
        → AreGood nets.now ms other.count other.routes.items → AreGood nets.now ms result.count result.routes.items }
    ensures count { deep ≡ false → result.count ≡ slots.count }
    ensures most { crossings nets.now result.routes.items ≤ crossings nets.now slots.routes.items }
{
    if !may_be(deep, slots.count, other.count) {
        return slots;
    }
    let now = crossings_of(nets, slots.routes.as_slice());
    if crossings_of(nets, other.routes.as_slice()) >= now {
        return slots;
    }
    other
}

/// Slots chosen for few crossings in place of these, if they keep all conflicts and give fewer crossings. Where no nets
/// conflict, they are as many. In a gap of more than 1,024 nets none are looked for.
pub fn choose(
    alloc: Global,
    nets: &[Net],
    marks: &[Mark],
    middles: &[Height],
    slots: Slots,
) -> Result<Slots, AllocError>
    requires few { length nets.now ≤ net_limit }
    requires marks { AreNetMarks nets.now marks.now }
    requires middles { AreMiddles nets.now middles.now }
    requires good { AreGood nets.now marks.now slots.count slots.routes.items }
    ensures good { IfOk result (λ chosen. AreGood nets.now marks.now chosen.count chosen.routes.items) }
    ensures count { IfOk result (λ chosen. AreFlat nets.now marks.now → chosen.count ≡ slots.count) }
    ensures most { IfOk result (λ chosen. crossings nets.now chosen.routes.items ≤ crossings nets.now slots.routes.items) }
{
    if nets.len() > 1024 {
        return Ok(slots);
    }
    let deep = any_is_deep(marks);
    let depths = light_depths(alloc, nets, marks, middles, deep)?;
    let others = marks_by(alloc, marks, depths.as_slice())?;
    if !all_keep_order(nets, others.as_slice()) {
        return Ok(slots);
    }
    let other = place(alloc, nets, others.as_slice(), middles)?;
    Ok(lighter(nets, slots, other, deep))
}
