//! Heights at which the two segments of a split net meet.
ghost use Rattle.std.specs.Prelude.{◌≡◌, ◌<◌, ◌≤◌, ◌≤ℤ◌, ℤ, true, false, length, IfOk, OnOk};
ghost use Rattle.std.specs.List.{All};
ghost use Rattle.std.specs.Int.{int_min, int_max};
ghost use Rattle.net_routes.specs.Limits.{net_limit};
ghost use Rattle.net_routes.specs.GapFree.{IsHeight, AreHeights};
ghost use Rattle.route_slots.specs.Middles.{IsTop, above_top, holds, HoldPins, IsMiddle, AreMiddles};

use crate::marks::Mark;
use net_routes::Net;
use std::alloc::{AllocError, Global};
use std::collections::BTreeSet;

/// A height.
#[derive(Clone, Copy)]
pub struct Height {
    pub value: i64,
}

// The greater of the height and those of the net's pins.
fn raised(top: Height, net: Net) -> Height
    ensures { result.value ≡ int_max top.value (int_max net.a.height net.b.height) }
{
    Height {
        value: top.value.max(net.a.height.max(net.b.height)),
    }
}

// The greatest height of a pin, and the least height that there is where there is no pin.
fn highest(nets: &[Net]) -> Height
    requires { All AreHeights nets.now }
    ensures top { IsTop nets.now result.value }
    ensures range { IsHeight result.value }
{
    let mut top = Height { value: -(1 << 50) };
    'nets: for net in nets {
        top = raised(top, *net);
    }
    top
}

// A height greater than that of all pins, another for each net.
fn above_pins(top: Height, number: u32) -> Height
    requires number { number < net_limit }
    requires range { IsHeight top.value }
    ensures { result.value ≡ above_top top.value number }
{
    Height {
        value: top.value + i64::from(number) + 1,
    }
}

// A stretch of heights.
#[derive(Clone, Copy)]
struct Stretch {
    low: i64,
    high: i64,
}

// The stretch that is longer.
fn longer(best: Stretch, other: Stretch) -> Stretch {
    if other.high.wrapping_sub(other.low) > best.high.wrapping_sub(best.low) {
        other
    } else {
        best
    }
}

// The longest stretch within this one whose ends alone are taken.
fn longest_free(taken: &BTreeSet<i64>, whole: Stretch) -> Stretch {
    let mut low = whole.low;
    let mut best = Stretch { low, high: low };
    'heights: for height in taken.iter() {
        if *height > low && *height <= whole.high {
            best = longer(best, Stretch { low, high: *height });
            low = *height;
        }
    }
    best
}

// The height in the middle of the longest free stretch between the pins of the net.
fn middle_of(taken: &BTreeSet<i64>, net: Net) -> Height {
    let free = longest_free(
        taken,
        Stretch {
            low: net.a.height.min(net.b.height),
            high: net.a.height.max(net.b.height),
        },
    );
    Height {
        value: free.low.wrapping_add(free.high.wrapping_sub(free.low) / 2),
    }
}

// Whether the height is not taken and lies between the pins of the net.
fn is_free(taken: &BTreeSet<i64>, net: Net, height: Height) -> bool
    ensures free { result ≡ true → holds taken.now height.value ≡ false }
    ensures low { result ≡ true → int_min net.a.height net.b.height ≤ℤ height.value }
    ensures high { result ≡ true → height.value ≤ℤ int_max net.a.height net.b.height }
{
    if height.value < net.a.height.min(net.b.height) {
        return false;
    }
    if height.value > net.a.height.max(net.b.height) {
        return false;
    }
    !taken.contains(&height.value)
}

// Adds a height.
fn take(taken: &mut BTreeSet<i64>, height: i64) -> Result<(), AllocError>
    ensures kept { OnOk result ((h : ℤ) → holds taken.old h ≡ true → holds taken.new h ≡ true) }
    ensures added { OnOk result (holds taken.new height ≡ true) }
{
    taken.insert(height)?;
    Ok(())
}

// Takes a height for the net: between its pins, where one that is free is found and looked for, and else the one above.
fn take_height(
    taken: &mut BTreeSet<i64>,
    net: Net,
    looks: bool,
    above: Height,
) -> Result<Height, AllocError>
    ensures kept { OnOk result ((h : ℤ) → holds taken.old h ≡ true → holds taken.new h ≡ true) }
    ensures middle { IfOk result (λ height. IsMiddle taken.old taken.new net above.value height.value) }
{
    if !looks {
        return Ok(above);
    }
    let height = middle_of(taken, net);
    if !is_free(taken, net, height) {
        return Ok(above);
    }
    take(taken, height.value)?;
    Ok(height)
}

// The heights of all pins.
fn pins_of(alloc: Global, nets: &[Net]) -> Result<BTreeSet<i64>, AllocError>
    ensures { IfOk result (λ taken. HoldPins nets.now (length nets.now) taken) }
{
    let mut taken = BTreeSet::new(alloc);
    'nets: for net in nets {
        take(&mut taken, net.a.height)?;
        take(&mut taken, net.b.height)?;
    }
    Ok(taken)
}

// The greatest number of nets among which heights between pins are looked for.
const MANY: usize = 1024;

/// A height for each net, at which its two segments meet where it is split: that of no pin, and another for each net.
///
/// It is the middle of the longest free stretch between the net's pins, where there is a free height; else it lies above all
/// pins, as it does where the net is not split, and in a gap of more than 1,024 nets.
pub fn middles_of(alloc: Global, nets: &[Net], marks: &[Mark]) -> Result<Vec<Height>, AllocError>
    requires len { length marks.now ≡ length nets.now }
    requires few { length nets.now ≤ net_limit }
    requires heights { All AreHeights nets.now }
    ensures { IfOk result (λ middles. AreMiddles nets.now middles.items) }
{
    let top = highest(nets);
    let few = nets.len() <= MANY;
    let mut taken = pins_of(alloc, nets)?;
    let mut middles = Vec::new(alloc);
    'nets: for number in 0..nets.len() as u32 {
        let split = marks[number as usize].split;
        let above = above_pins(top, number);
        let looks = few && split;
        middles.push(take_height(&mut taken, nets[number as usize], looks, above)?)?;
    }
    Ok(middles)
}
