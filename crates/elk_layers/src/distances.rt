//! The distances that units of a row keep.
ghost use Rattle.std.specs.Prelude.{◌≡◌, ◌<◌, ◌^◌, ◌≤ℤ◌, pos, length, true};
ghost use Rattle.elk_layers.specs.Layered.{plain, IsSound, is_child};
ghost use Rattle.elk_layers.specs.Lines as lines;

use crate::units::{Layered, Unit};

/// The distance from top to top that two neighbouring units need.
///
/// It is the upper unit's height and, from its lowermost line or outline to the uppermost of the lower
/// one, `node_node` between two outlines, `edge_node` between a lane and an outline, and `edge_edge`
/// between two lanes.
///
/// Proved:
/// - The distances that neighbouring units keep.
pub fn room(layered: &Layered, upper: u32, lower: u32) -> i64
    requires sound { IsSound (plain layered.now) }
    requires upper { upper < length (plain layered.now).units }
    requires lower { lower < length (plain layered.now).units }
    ensures { result ≡ lines.room (plain layered.now) upper lower }
{
    let units = layered.units.as_slice();
    let above = units[upper as usize];
    let below = units[lower as usize];
    let distance = facing(
        layered,
        shows_lane(above, above.south),
        shows_lane(below, below.north),
    );
    above.height + distance
}

/// The distance from top to top of two consecutive children of a row, so that their outlines are
/// `node_node` apart.
///
/// Proved:
/// - The distances that consecutive children keep.
pub fn body_room(layered: &Layered, upper: u32, lower: u32) -> i64
    requires sound { IsSound (plain layered.now) }
    requires upper { upper < length (plain layered.now).units }
    requires lower { lower < length (plain layered.now).units }
    requires upper_child { is_child (plain layered.now) upper ≡ true }
    requires lower_child { is_child (plain layered.now) lower ≡ true }
    ensures { result ≡ lines.body_room (plain layered.now) upper lower }
{
    let units = layered.units.as_slice();
    let above = units[upper as usize];
    let below = units[lower as usize];
    above.body_top + above.body_height + layered.node_node - below.body_top
}

/// Whether a lane, and no outline, is what the unit shows on a side with this many lanes of a child.
fn shows_lane(unit: Unit, lanes: u32) -> bool
    ensures { result ≡ lines.shows_lane unit lanes }
{
    unit.child.is_none() || lanes != 0
}

/// The distance of a lane or outline from the lane or outline below it.
fn facing(layered: &Layered, upper: bool, lower: bool) -> i64
    requires { IsSound (plain layered.now) }
    ensures value { result ≡ lines.facing (plain layered.now) upper lower }
    ensures low { pos 1 ≤ℤ result }
    ensures high { result ≤ℤ pos (2 ^ 20) }
{
    if upper && lower {
        layered.edge_edge
    } else if upper || lower {
        layered.edge_node
    } else {
        layered.node_node
    }
}
