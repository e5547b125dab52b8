//! Units with room for outlines and lanes.
ghost use Rattle.std.specs.Prelude.{◌≡◌, ℕ, ◌<◌, ◌≤◌, ◌^◌, length};
ghost use Rattle.elk_doc.specs.Sound.{IsSoundSpacing};
ghost use Rattle.elk_layers.specs.Layered.{unit_at};
ghost use Rattle.level_model.specs.Conditions.{plain_level};
ghost use Rattle.dock_table.specs.Bounds.{IsLengthIn};
ghost use Rattle.layer_units.specs.Reading.{AreFittedUnits, HasChildIn, IsReadable, roomy, unit_with};

use crate::pins::{Fitting, entry_at};
use dock_table::room;
use elk_doc::document::Spacing;
use elk_layers::Unit;
use level_model::ChildAt;

// A child's unit with room for its outline and its lanes.
fn with_room(spacing: &Spacing, unit: Unit, child: &ChildAt) -> Unit
    requires spacing { IsSoundSpacing spacing.now }
    requires north { child.now.north ≤ 2 ^ 17 }
    requires south { child.now.south ≤ 2 ^ 17 }
    requires height { IsLengthIn child.now.outline.height }
    ensures { result ≡ roomy spacing.now child.now unit }
{
    let body_top = room(spacing, child.north);
    let below = room(spacing, child.south);
    let body_height = child.outline.height;
    Unit {
        layer: unit.layer,
        child: unit.child,
        height: body_top + body_height + below,
        body_top,
        body_height,
        north: child.north,
        south: child.south,
    }
}

// A unit with its heights.
fn fitted_unit(fitting: &Fitting<'_>, unit: Unit) -> Unit
    requires fitting { IsReadable (plain_level fitting.now.level.now) fitting.now.table.now fitting.now.marks.now }
    requires child { HasChildIn fitting.now.table.now unit }
    ensures { result ≡ unit_with fitting.now.level.now.spacing fitting.now.table.now.children unit }
{
    match unit.child {
        None => unit,
        Some(child) => {
            let entry = entry_at(fitting, child);
            with_room(&fitting.level.spacing, unit, entry)
        }
    }
}

/// Gives all units their heights.
pub(crate) fn fit_units(fitting: &Fitting<'_>, units: &mut [Unit])
    requires fitting { IsReadable (plain_level fitting.now.level.now) fitting.now.table.now fitting.now.marks.now }
    requires children { (u : ℕ) → u < length units.old → HasChildIn fitting.now.table.now (unit_at units.old u) }
    ensures { AreFittedUnits fitting.now.level.now.spacing fitting.now.table.now.children units.old (length units.old) units.new }
{
    for u in 0..units.len() {
        units[u] = fitted_unit(fitting, units[u]);
    }
}
