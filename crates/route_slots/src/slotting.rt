//! Slots for segments.
ghost use Rattle.std.specs.Prelude.{◌≡◌, ◌+◌, ◌<◌, ◌≤◌, ◌^◌, ◌⊎◌, ◌≤ℤ◌, ℕ, true, length, IfOk, OnOk, IfSome, IfNone};
ghost use Rattle.std.specs.BTreeSet.{btree_set_len};
ghost use Rattle.route_slots.specs.Slotting.{Key, key_of, has_key, AreWaiting, AreSlots, End, has_end, Takes, Picks, Frees, IsFull, segment_at};

use std::alloc::{AllocError, Global};
use std::collections::BTreeSet;

/// A segment between two heights, or a place without one.
#[derive(Clone, Copy)]
pub struct Segment {
    pub real: bool,
    pub depth: u32,
    pub low: i64,
    pub high: i64,
}

/// Slots of segments, by the numbers of these.
#[derive(Drop)]
pub struct Standing {
    pub count: u32,
    pub slots: Vec<u32>,
}

// The slots that the segments of one depth have taken, by the ends of the last segments in them.
#[derive(Drop)]
struct Row {
    busy: BTreeSet<(i64, u32)>,
    depth: u32,
    count: u32,
}

// Begins a depth, at which no slot is taken.
fn enter(row: &mut Row, depth: u32)
    ensures depth { row.new.depth ≡ depth }
    ensures count { row.new.count ≡ row.old.count }
    ensures from { (q : End) → has_end row.new.busy q ≡ true → (depth ≡ row.old.depth) × (has_end row.old.busy q ≡ true) }
    ensures kept { depth ≡ row.old.depth → (q : End) → has_end row.old.busy q ≡ true → has_end row.new.busy q ≡ true }
{
    if depth != row.depth {
        row.busy.clear();
        row.depth = depth;
    }
}

// The slot that ends first, if it ends above the segment.
fn pop_free(row: &mut Row, segment: Segment) -> Option<u32>
    ensures free { IfSome result (Frees row.old row.new segment.low) }
    ensures none { IfNone result (row.new ≡ row.old) }
    ensures full { IfNone result (IsFull row.old segment.low) }
{
    let end = match row.busy.first() {
        None => return None,
        Some(end) => *end,
    };
    if end.0 >= segment.low {
        return None;
    }
    let _found = row.busy.remove(&end);
    Some(end.1)
}

// A slot that is free above the segment, or else a new one.
fn pick(row: &mut Row, segment: Segment) -> u32
    requires { row.old.count < 2 ^ 26 }
    ensures picks { Picks row.old row.new segment result }
    ensures depth { row.new.depth ≡ row.old.depth }
{
    if let Some(slot) = pop_free(row, segment) {
        return slot;
    }
    let slot = row.count;
    row.count += 1;
    slot
}

// The slot for a segment.
fn take(row: &mut Row, segment: Segment) -> Result<u32, AllocError>
    requires { row.old.count < 2 ^ 26 }
    ensures takes { IfOk result (Takes row.old row.new segment) }
    ensures depth { OnOk result (row.new.depth ≡ segment.depth) }
{
    enter(row, segment.depth);
    let slot = pick(row, segment);
    row.busy.insert((segment.high, slot))?;
    Ok(slot)
}

// Adds a segment that is real.
fn insert_segment(
    waiting: &mut BTreeSet<(u32, (i64, u32))>,
    segment: Segment,
    number: u32,
) -> Result<(), AllocError>
    ensures from { OnOk result ((q : Key) → has_key waiting.new q ≡ true
        → (has_key waiting.old q ≡ true) ⊎ ((segment.real ≡ true) × (q ≡ key_of segment number))) }
    ensures kept { OnOk result ((q : Key) → has_key waiting.old q ≡ true → has_key waiting.new q ≡ true) }
    ensures added { OnOk result (segment.real ≡ true → has_key waiting.new (key_of segment number) ≡ true) }
    ensures few { OnOk result (btree_set_len waiting.new ≤ btree_set_len waiting.old + 1) }
{
    if segment.real {
        waiting.insert((segment.depth, (segment.low, number)))?;
    }
    Ok(())
}

// All segments that are real, by their depths and low ends.
fn waiting_of(
    alloc: Global,
    segments: &[Segment],
) -> Result<BTreeSet<(u32, (i64, u32))>, AllocError>
    requires { length segments.now ≤ 2 ^ 25 }
    ensures { IfOk result (AreWaiting segments.now (length segments.now)) }
{
    let mut waiting = BTreeSet::new(alloc);
    'segments: for number in 0..segments.len() as u32 {
        insert_segment(&mut waiting, segments[number as usize], number)?;
    }
    Ok(waiting)
}

/// A slot for each segment. Segments of a lower depth stand before those of a higher one, and segments in one slot have no height
/// in common. Where all segments are at one depth, there are as few slots as there can be.
///
/// At each depth the segments come by their low ends, and each takes the slot that ends first, if it ends above the segment. (The
/// left-edge rule of Hashimoto and Stevens 1971.)
pub fn slots_of(alloc: Global, segments: &[Segment]) -> Result<Standing, AllocError>
    requires few { length segments.now ≤ 2 ^ 25 }
    requires proper { (i : ℕ) → i < length segments.now → (segment_at segments.now i).low ≤ℤ (segment_at segments.now i).high }
    ensures { IfOk result (λ standing. AreSlots segments.now standing.slots.items standing.count) }
{
    let mut waiting = waiting_of(alloc, segments)?;
    let mut slots = vec![in alloc; 0; segments.len()]?;
    let mut row = Row {
        busy: BTreeSet::new(alloc),
        depth: 0,
        count: 0,
    };
    'segments: while let Some(key) = waiting.pop_first() {
        let number = key.1.1 as usize;
        slots[number] = take(&mut row, segments[number])?;
    }
    Ok(Standing {
        count: row.count,
        slots,
    })
}
