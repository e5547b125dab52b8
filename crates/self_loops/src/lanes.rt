//! The lanes and gaps of self-loops.
ghost use Rattle.std.specs.Prelude.{◌≡◌, ◌++◌, IfOk};
ghost use Rattle.self_loops.specs.Loops.{has_one_dock, lanes_of, lanes_of_all, passes, passes_left, passes_right, way};

use drawing_types::shape::Side;
use std::alloc::{AllocError, Global};

/// The two ends of a self-loop, by the sides of their docks and the offsets along them, from the left or the top.
#[derive(Clone, Copy)]
pub struct LoopEnds {
    pub edge: u32,
    pub source: Side,
    pub target: Side,
    pub source_at: i64,
    pub target_at: i64,
}

/// A lane of a self-loop, above (north) or below (south) its child.
#[derive(Clone, Copy, PartialEq, Eq, Debug)]
pub struct LoopLane {
    pub edge: u32,
    pub side: Side,
}

/// The lanes of these loops, in the order of the loops. A loop between the north and the south side has its northern
/// lane first.
///
/// Proved:
/// - Lanes of self-loops by the sides of their docks.
pub fn lanes_of_loops(alloc: Global, loops: &[LoopEnds]) -> Result<Vec<LoopLane>, AllocError>
    ensures { IfOk result (λ lanes. lanes.items ≡ lanes_of_all loops.now) }
{
    let mut lanes = Vec::new(alloc);
    for ends in loops {
        push_lanes(&mut lanes, ends)?;
    }
    Ok(lanes)
}

/// Whether the loop passes the gap left of its child, and whether it passes the one on the right.
///
/// Proved:
/// - Gaps of self-loops by the sides of their docks.
pub fn loop_legs(ends: &LoopEnds) -> (bool, bool)
    ensures left { result.0 ≡ passes_left ends.now.source ends.now.target (has_one_dock ends.now) }
    ensures right { result.1 ≡ passes_right ends.now.source ends.now.target (has_one_dock ends.now) }
{
    if has_one_dock(ends) {
        return (false, false);
    }
    (
        passes(ends.source, ends.target, Side::West),
        passes(ends.source, ends.target, Side::East),
    )
}

/// Whether a loop between two different docks on these sides passes a side of its child.
pub fn passes(source: Side, target: Side, side: Side) -> bool
    ensures { result ≡ passes source target side }
{
    for passed in way(source, target) {
        if side == *passed {
            return true;
        }
    }
    false
}

/// The way of a loop between two different docks on these sides: its lanes above (north) and below (south) the child, and
/// the gaps on the left (west) and the right (east), in the order in which it passes them.
pub fn way(source: Side, target: Side) -> &'static [Side]
    ensures { result.now ≡ way source target }
{
    match source {
        Side::North => match target {
            Side::North => &[Side::North],
            Side::East => &[Side::North, Side::East],
            Side::South => &[Side::North, Side::East, Side::South],
            Side::West => &[Side::North, Side::West],
        },
        Side::East => match target {
            Side::North => &[Side::East, Side::North],
            Side::East => &[Side::East],
            Side::South => &[Side::East, Side::South],
            Side::West => &[Side::East, Side::North, Side::West],
        },
        Side::South => match target {
            Side::North => &[Side::South, Side::East, Side::North],
            Side::East => &[Side::South, Side::East],
            Side::South => &[Side::South],
            Side::West => &[Side::South, Side::West],
        },
        Side::West => match target {
            Side::North => &[Side::West, Side::North],
            Side::East => &[Side::West, Side::North, Side::East],
            Side::South => &[Side::West, Side::South],
            Side::West => &[Side::West],
        },
    }
}

// Adds the lanes of one loop, that in the north first.
fn push_lanes(lanes: &mut Vec<LoopLane>, ends: &LoopEnds) -> Result<(), AllocError>
    ensures { IfOk result (λ _. lanes.new.items ≡ lanes.old.items ++ lanes_of ends.now) }
{
    if has_one_dock(ends) {
        return Ok(());
    }
    for side in [Side::North, Side::South] {
        if passes(ends.source, ends.target, side) {
            lanes.push(LoopLane {
                edge: ends.edge,
                side,
            })?;
        }
    }
    Ok(())
}

// Whether both ends of the loop have one dock.
fn has_one_dock(ends: &LoopEnds) -> bool
    ensures { result ≡ has_one_dock ends.now }
{
    ends.source == ends.target && ends.source_at == ends.target_at
}
