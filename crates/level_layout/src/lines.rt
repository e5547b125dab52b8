//! The lines of a level's units, by the placing that the level asks for.
ghost use Rattle.std.specs.Prelude.{◌≡◌, ◌^◌, ◌≤◌, pos, ◌+ℤ◌, ◌<ℤ◌, IfOk};
ghost use Rattle.elk_layers.specs.Layered.{plain, rows_of, total_height, AreRows, IsSound};
ghost use Rattle.unit_blocks.specs.Constraints.{EndsWithinStack};
ghost use Rattle.ns_place.specs.Heights.{pins_together};
ghost use Rattle.ns_place.specs.Weighed.{greatest_weight};
ghost use Rattle.level_layout.specs.Bounds.{AreFew};
ghost use Rattle.level_layout.specs.Chosen.{AreLeastHigh, AreChosenLines, straightness_for};

use bk_place::place;
use elk_doc::document::Placing;
use elk_layers::{Layered, Lines, Order};
use level_choices::straightness_of;
use level_model::LevelIn;
use ns_place::place_straight;
use std::alloc::{AllocError, Global};

// What a link weighs that alignment keeps straight.
fn straightness_for(level: &LevelIn) -> u32
    ensures is { result ≡ straightness_for level.now }
    ensures small { result ≤ greatest_weight }
{
    straightness_of(&level.choices).min(64)
}

// Lines at which the links are least high together, where those that alignment keeps straight weigh so much.
fn least_lines(
    alloc: Global,
    layered: &Layered,
    order: &Order,
    straightness: u32,
) -> Result<Lines, AllocError>
    requires sound { IsSound (plain layered.now) }
    requires rows { AreRows (plain layered.now) (rows_of order.now) }
    requires few { AreFew (plain layered.now) }
    requires low { (total_height (plain layered.now).units +ℤ pins_together (plain layered.now).links) <ℤ pos (2 ^ 60) }
    requires straightness { straightness ≤ greatest_weight }
    ensures least { IfOk result (λ v. AreLeastHigh (plain layered.now) (rows_of order.now) straightness v.top.items) }
    ensures within { IfOk result (λ v. EndsWithinStack (plain layered.now) v.top.items) }
{
    let placing = place_straight(alloc, layered, order, straightness)?;
    Ok(placing.lines)
}

/// The lines of a level's units: those that alignment chooses, or those at which the links are least high together by their weights,
/// as the level asks. A fixed sweep counts for alignment alone.
pub(crate) fn lines_for(
    alloc: Global,
    level: &LevelIn,
    layered: &Layered,
    order: &Order,
) -> Result<Lines, AllocError>
    requires sound { IsSound (plain layered.now) }
    requires rows { AreRows (plain layered.now) (rows_of order.now) }
    requires few { AreFew (plain layered.now) }
    requires low { (total_height (plain layered.now).units +ℤ pins_together (plain layered.now).links) <ℤ pos (2 ^ 60) }
    ensures { IfOk result (λ v. AreChosenLines (plain layered.now) (rows_of order.now) level.now.placing level.now.fixed (straightness_for level.now) v.top.items) }
{
    match level.placing {
        Placing::BrandesKoepf => place(alloc, layered, order, level.fixed),
        Placing::NetworkSimplex => { least_lines(alloc, layered, order, straightness_for(level)) }
    }
}
