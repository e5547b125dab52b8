//! Numbers for the heights at which nets have pins on the left.
ghost use Rattle.std.specs.Prelude.{◌≡◌, ◌+◌, ◌<◌, ◌≤◌, ◌^◌, ◌⊎◌, ℕ, ℤ, true, length, IfOk, OnOk, Some, IsSome};
ghost use Rattle.std.specs.Ordering.{int_cmp};
ghost use Rattle.std.specs.BTreeMap.{get};
ghost use Rattle.net_routes.specs.Limits.{net_limit};
ghost use Rattle.net_routes.specs.GapFree.{HasPin, IsStraightNet};
ghost use Rattle.route_slots.specs.Numbers.{AreNumbers, AreHeightNumbers, HasLeftAt};

use crate::marks::is_straight;
use net_routes::{Net, Pin};
use std::alloc::{AllocError, Global};
use std::collections::BTreeMap;

/// The numbers of heights, and one that is above them all.
#[derive(Drop)]
pub struct Heights {
    pub numbers: BTreeMap<i64, u32>,
    pub bound: u32,
}

// Adds the height of a pin on the left.
fn insert_pin(heights: &mut Heights, pin: Pin) -> Result<(), AllocError>
    requires { heights.old.bound < 2 ^ 31 }
    ensures numbers { OnOk result (AreNumbers heights.old → 2 ≤ heights.old.bound → AreNumbers heights.new) }
    ensures kept { OnOk result ((h : ℤ) (x : ℕ) → get int_cmp heights.old.numbers h ≡ Some x → get int_cmp heights.new.numbers h ≡ Some x) }
    ensures from { OnOk result
        ((h : ℤ) (x : ℕ) → get int_cmp heights.new.numbers h ≡ Some x
        → (get int_cmp heights.old.numbers h ≡ Some x) ⊎ ((pin.on_left ≡ true) × (pin.height ≡ h))) }
    ensures added { OnOk result (pin.on_left ≡ true → IsSome (get int_cmp heights.new.numbers pin.height)) }
    ensures more { OnOk result (heights.old.bound ≤ heights.new.bound) }
    ensures few { OnOk result (heights.new.bound ≤ heights.old.bound + 1) }
{
    if !pin.on_left {
        return Ok(());
    }
    if heights.numbers.contains_key(&pin.height) {
        return Ok(());
    }
    heights.numbers.insert(pin.height, heights.bound)?;
    heights.bound += 1;
    Ok(())
}

// Adds the heights of a net's pins on the left, unless it is straight.
fn insert_net(heights: &mut Heights, net: Net) -> Result<(), AllocError>
    requires { heights.old.bound < 2 ^ 30 }
    ensures numbers { OnOk result (AreNumbers heights.old → 2 ≤ heights.old.bound → AreNumbers heights.new) }
    ensures kept { OnOk result ((h : ℤ) (x : ℕ) → get int_cmp heights.old.numbers h ≡ Some x → get int_cmp heights.new.numbers h ≡ Some x) }
    ensures from { OnOk result ((h : ℤ) (x : ℕ) → get int_cmp heights.new.numbers h ≡ Some x → (get int_cmp heights.old.numbers h ≡ Some x) ⊎ HasLeftAt net h) }
    ensures added { OnOk result ((p : Pin) → (IsStraightNet net → ⊥) → HasPin net p → p.on_left ≡ true → IsSome (get int_cmp heights.new.numbers p.height)) }
    ensures more { OnOk result (heights.old.bound ≤ heights.new.bound) }
    ensures few { OnOk result (heights.new.bound ≤ heights.old.bound + 2) }
{
    if is_straight(net) {
        return Ok(());
    }
    insert_pin(heights, net.a)?;
    insert_pin(heights, net.b)?;
    Ok(())
}

/// The heights of all pins on the left of nets that are not straight.
pub fn heights_of(alloc: Global, nets: &[Net]) -> Result<Heights, AllocError>
    requires { length nets.now ≤ net_limit }
    ensures { IfOk result (λ heights. AreHeightNumbers nets.now (length nets.now) heights) }
{
    let mut heights = Heights {
        numbers: BTreeMap::new(alloc),
        bound: 2,
    };
    'nets: for net in nets {
        insert_net(&mut heights, *net)?;
    }
    Ok(heights)
}
