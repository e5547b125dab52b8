//! Routes for the nets of a gap.
ghost use Rattle.std.specs.Prelude.{◌≡◌, ◌+◌, ◌≤◌, length, IfOk};
ghost use Rattle.std.specs.List.{All};
ghost use Rattle.net_routes.specs.Limits.{net_limit};
ghost use Rattle.net_routes.specs.GapFree.{IsNet, AreHeights};
ghost use Rattle.net_routes.specs.Density.{IsDensity};
ghost use Rattle.route_slots.specs.Choosing.{AreGood};
ghost use Rattle.net_routes.specs.Promised.{AreFewest};
ghost use Rattle.route_slots.specs.Middles.{AreMiddles};
ghost use Rattle.route_slots.specs.NetDepths.{StandByDepths};
ghost use Rattle.route_slots.specs.Marks.{AreNetMarks, AreFlat, AreSegments, HaveSlots, segment_a, segment_b, other_end, route_by};

use crate::choosing::choose;
use crate::depths::depths_of;
use crate::marks::{Mark, net_marks};
use crate::middles::{Height, middles_of};
use crate::settling::settle;
use crate::slotting::{Segment, slots_of};
use net_routes::{Net, NetRoute, Slots};
use std::alloc::{AllocError, Global};

// The height to which the segment at the pin `a` leads.
fn end_of_a(mark: Mark, net: Net, height: Height) -> Height
    ensures { result.value ≡ other_end mark net height.value }
{
    if mark.split {
        height
    } else {
        Height {
            value: net.b.height,
        }
    }
}

// The segment at the pin `a`, which is that of the whole net where this is not split.
fn first_segment(mark: Mark, net: Net, height: Height) -> Segment
    ensures { result ≡ segment_a mark net height.value }
{
    let end = end_of_a(mark, net, height);
    Segment {
        real: !mark.straight,
        depth: mark.at_a,
        low: net.a.height.min(end.value),
        high: net.a.height.max(end.value),
    }
}

// The segment at the pin `b` of a net that is split.
fn second_segment(mark: Mark, net: Net, height: Height) -> Segment
    ensures { result ≡ segment_b mark net height.value }
{
    Segment {
        real: mark.split,
        depth: mark.at_b,
        low: height.value.min(net.b.height),
        high: height.value.max(net.b.height),
    }
}

// The segments of all nets, two places for each.
fn segments_of(
    alloc: Global,
    nets: &[Net],
    marks: &[Mark],
    middles: &[Height],
) -> Result<Vec<Segment>, AllocError>
    requires len { length marks.now ≡ length nets.now }
    requires middles { length middles.now ≡ length nets.now }
    requires few { length nets.now ≤ net_limit }
    ensures { IfOk result (λ segments. AreSegments nets.now marks.now middles.now segments.items) }
{
    let mut segments = Vec::new(alloc);
    'nets: for number in 0..nets.len() as u32 {
        let net = nets[number as usize];
        let mark = marks[number as usize];
        let height = middles[number as usize];
        segments.push(first_segment(mark, net, height))?;
        segments.push(second_segment(mark, net, height))?;
    }
    Ok(segments)
}

// The route of a net by the slots of its segments.
fn route_of(mark: Mark, first: u32, height: Height, second: u32) -> NetRoute
    ensures { result ≡ route_by mark first height.value second }
{
    if mark.straight {
        return NetRoute::Straight;
    }
    if mark.split {
        return NetRoute::Two {
            first,
            height: height.value,
            second,
        };
    }
    NetRoute::One { slot: first }
}

// The routes of all nets.
fn routes_of(
    alloc: Global,
    nets: &[Net],
    marks: &[Mark],
    middles: &[Height],
    slots: &[u32],
) -> Result<Vec<NetRoute>, AllocError>
    requires len { length marks.now ≡ length nets.now }
    requires places { length slots.now ≡ length nets.now + length nets.now }
    requires middles { length middles.now ≡ length nets.now }
    requires few { length nets.now ≤ net_limit }
    ensures { IfOk result (λ routes. HaveSlots nets.now marks.now middles.now slots.now routes.items) }
{
    let mut routes = Vec::new(alloc);
    'nets: for number in 0..nets.len() as u32 {
        let place = (number + number) as usize;
        routes.push(route_of(
            marks[number as usize],
            slots[place],
            middles[number as usize],
            slots[place + 1],
        ))?;
    }
    Ok(routes)
}

/// Places the nets by their marks.
pub fn place(
    alloc: Global,
    nets: &[Net],
    marks: &[Mark],
    middles: &[Height],
) -> Result<Slots, AllocError>
    requires few { length nets.now ≤ net_limit }
    requires marks { AreNetMarks nets.now marks.now }
    requires middles { AreMiddles nets.now middles.now }
    ensures good { IfOk result (λ slots. AreGood nets.now marks.now slots.count slots.routes.items) }
    ensures density { IfOk result (λ slots. AreFlat nets.now marks.now → IsDensity nets.now slots.count) }
    ensures order { IfOk result (λ slots. StandByDepths nets.now marks.now slots.routes.items) }
{
    let segments = segments_of(alloc, nets, marks, middles)?;
    let standing = slots_of(alloc, segments.as_slice())?;
    let routes = routes_of(alloc, nets, marks, middles, standing.slots.as_slice())?;
    Ok(Slots {
        count: standing.count,
        routes,
    })
}

/// A route for each net: straight exactly where its pins are on both sides at one height, and otherwise by one slot or two.
/// Segments of two nets overlap only where the nets have a common pin.
///
/// A net takes two slots only where it lies on a cycle of conflicts, and where no nets conflict there are as many slots as
/// there are segments at the height with the most. A split net turns in the middle of the longest free stretch between its pins,
/// and where none is free past the greatest height of a pin, which lies below it on the page.
///
/// Slots are chosen for few crossings in a gap of up to 1,024 nets: nets take slots by the depths of their conflicts and by
/// their low ends, then others are looked for that give fewer crossings. These are as many where no nets conflict; where some
/// do, they are as many as an order of few crossings takes. Last, neighbouring slots are exchanged as a whole, until no
/// exchange that keeps segments apart gives fewer crossings. This takes time in proportion to the square of the nets for all but
/// the exchanges at the end, of which there are seldom any left.
///
/// Proved:
/// - Pieces of two nets of a gap overlap only at a common pin. (`assign_near`)
/// - Every slot is used. (`assign_near`)
/// - Heights of split nets are fresh and in range. (`assign_near`)
/// - A net is split only if it lies on a cycle of height conflicts. (`assign_near`)
/// - Without conflicts there are as many slots as the density of the gap: the greatest number of bent nets that reach or pass one
///   height. Two nets with a common pin count as two, so fewer slots may be possible. With conflicts nothing is promised of the number
///   of slots. (`assign_near`)
/// - In a gap of up to 1,024 nets, exchanging two neighbouring slots never gives fewer crossings, among the exchanges that keep pieces
///   apart. (`assign_near`)
/// - In all these calls vertical pieces keep apart. (`assign_near`, `assign_uncrossed`, `assign_uncrossed_near`)
pub fn assign(alloc: Global, nets: &[Net]) -> Result<Slots, AllocError>
    requires few { length nets.now ≤ net_limit }
    requires pins { All IsNet nets.now }
    requires heights { All AreHeights nets.now }
    ensures { IfOk result (λ slots. AreFewest nets.now slots.count slots.routes.items) }
{
    let depths = depths_of(alloc, nets)?;
    let marks = net_marks(alloc, nets, &depths)?;
    let middles = middles_of(alloc, nets, marks.as_slice())?;
    let slots = place(alloc, nets, marks.as_slice(), middles.as_slice())?;
    let chosen = choose(alloc, nets, marks.as_slice(), middles.as_slice(), slots)?;
    settle(alloc, nets, chosen)
}
