//! Which nets have a segment in a slot, which two, and at which depths.
ghost use Rattle.std.specs.Prelude.{◌≡◌, ◌↔◌, length, IsTrue, IfOk};
ghost use Rattle.net_routes.specs.GapFree.{IsStraightNet};
ghost use Rattle.route_slots.specs.Depths.{depth, depth_of, AreDepths, AreSized};
ghost use Rattle.route_slots.specs.Marks.{IsMarkOf, AreMarked, AreNetMarks};

use crate::depths::Depths;
use net_routes::{Net, Pin};
use std::alloc::{AllocError, Global};

/// What becomes of a net: it is straight, or it has one segment, or one at each pin; and the depths of its segments.
#[derive(Clone, Copy)]
pub struct Mark {
    pub straight: bool,
    pub split: bool,
    pub at_a: u32,
    pub at_b: u32,
}

/// Whether the pins are on both sides at one height.
pub fn is_straight(net: Net) -> bool
    ensures { IsTrue result ↔ IsStraightNet net }
{
    if net.a.on_left == net.b.on_left {
        return false;
    }
    net.a.height == net.b.height
}

// How far back a segment with this pin stands.
fn pin_depth(depths: &Depths, pin: Pin) -> u32
    requires { AreSized depths.now }
    ensures { result ≡ depth_of (depth depths.now) pin }
{
    if pin.on_left {
        return 0;
    }
    match depths.numbers.get(&pin.height) {
        None => 0,
        Some(number) => depths.depths[*number as usize] + 1,
    }
}

// The mark of a net by the depths of its pins.
fn mark_of(net: Net, depth_a: u32, depth_b: u32, split: bool) -> Mark
    ensures { IsMarkOf net depth_a depth_b split result }
{
    if split {
        return Mark {
            straight: false,
            split: true,
            at_a: depth_a,
            at_b: depth_b,
        };
    }
    let depth = depth_a.max(depth_b);
    Mark {
        straight: is_straight(net),
        split: false,
        at_a: depth,
        at_b: depth,
    }
}

/// The marks of all nets.
pub fn net_marks(alloc: Global, nets: &[Net], depths: &Depths) -> Result<Vec<Mark>, AllocError>
    requires depths { AreDepths nets.now depths.now.splits.items (depth depths.now) }
    requires sized { AreSized depths.now }
    ensures marks { IfOk result (λ marks. AreNetMarks nets.now marks.items) }
    ensures marked { IfOk result (λ marks. AreMarked nets.now depths.now.splits.items (depth depths.now) marks.items (length nets.now)) }
{
    let mut marks = Vec::new(alloc);
    'nets: for number in 0..nets.len() {
        let net = nets[number];
        let mark = mark_of(
            net,
            pin_depth(depths, net.a),
            pin_depth(depths, net.b),
            depths.splits[number],
        );
        marks.push(mark)?;
    }
    Ok(marks)
}
