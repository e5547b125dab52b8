//! The end of a search: each reached node is raised by what was raised since it came.

ghost use Rattle.std.specs.Prelude.{◌≡◌, ◌+◌, ◌≤◌, ◌<◌, ◌^◌, ◌-◌, ℕ, pos, ◌≤ℤ◌, ◌+ℤ◌, length};
ghost use Rattle.std.specs.List.{All};
ghost use Rattle.network_laws.specs.Layering.{layer_of};
ghost use Rattle.flow_dual.specs.State.{marked};
ghost use Rattle.flow_dual.specs.Searching.{IsSettled, RiseFits, IsEarlier};

use crate::Label;

fn lifted(layer: i64, now: u64, dist: u64) -> i64
    requires from_zero { pos 0 ≤ℤ layer }
    requires later { dist ≤ now }
    requires fits { (layer +ℤ pos now) ≤ℤ (pos dist +ℤ pos (2 ^ 63 - 1)) }
    ensures { result +ℤ pos dist ≡ layer +ℤ pos now }
{
    layer + (now - dist) as i64
}

/// Raises the nodes of the list, and takes their marks and labels away.
pub fn settle(
    order: &[u32],
    now: u64,
    dist: &[u64],
    layer: &mut [i64],
    reached: &mut [bool],
    labels: &mut [Label],
)
    requires marks { length reached.old ≡ length layer.old }
    requires labels { length labels.old ≡ length layer.old }
    requires dist { length dist.now ≡ length layer.old }
    requires order { All (λ v. v < length layer.old) order.now }
    requires from_zero { (v : ℕ) → v < length layer.old → pos 0 ≤ℤ layer_of layer.old v }
    requires earlier { IsEarlier (marked reached.old) dist.now now }
    requires fits { RiseFits layer.old (marked reached.old) dist.now now }
    ensures { IsSettled layer.old reached.old labels.old dist.now now order.now (length order.now) layer.new reached.new labels.new }
{
    for x in order {
        let v = *x as usize;
        if reached[v] {
            layer[v] = lifted(layer[v], now, dist[v]);
            reached[v] = false;
            labels[v] = Label {
                parent: 0,
                depth: 0,
                room: 0,
            };
        }
    }
}
