//! The units of children.
ghost use Rattle.std.specs.Prelude.{◌≡◌, ℕ, ◌<◌, ◌≤◌, ◌^◌, length, slice_index, IfOk};
ghost use Rattle.elk_layers.specs.Layered.{plain, unit_at};
ghost use Rattle.dock_table.specs.Ends.{HaveChildren, is_unit_of, with_unit};
ghost use Rattle.dock_table.specs.Courses.{AreFirst};

use elk_layers::Layered;
use std::alloc::{AllocError, Global};

// Notes a unit for its child, where it has one.
fn note_unit(units: &mut [u32], layered: &Layered, unit: u32)
    requires unit { unit < length (plain layered.now).units }
    requires children { HaveChildren (plain layered.now) (length units.old) }
    ensures { units.new ≡ with_unit (unit_at (plain layered.now).units unit).child unit units.old }
{
    let found = layered.units.as_slice()[unit as usize];
    match found.child {
        None => {}
        Some(child) => {
            units[child as usize] = unit;
        }
    }
}

// Notes the first unit of each child.
fn note_units(units: &mut [u32], layered: &Layered)
    requires few { length (plain layered.now).units ≤ 2 ^ 24 }
    requires children { HaveChildren (plain layered.now) (length units.old) }
    requires zero { (c : ℕ) → c < length units.old → slice_index units.old c ≡ 0 }
    ensures { AreFirst (is_unit_of (plain layered.now)) (length (plain layered.now).units) (length units.old) units.new }
{
    let mut unit = layered.units.as_slice().len();
    'units: while unit > 0 {
        unit -= 1;
        note_unit(units, layered, unit as u32);
    }
}

/// By child, its unit.
pub(crate) fn units_of(
    alloc: Global,
    layered: &Layered,
    count: usize,
) -> Result<Vec<u32>, AllocError>
    requires few { length (plain layered.now).units ≤ 2 ^ 24 }
    requires children { HaveChildren (plain layered.now) count }
    ensures { IfOk result (λ units. AreFirst (is_unit_of (plain layered.now)) (length (plain layered.now).units) count units.items) }
{
    let mut units: Vec<u32> = vec![in alloc; 0; count]?;
    note_units(units.as_mut_slice(), layered);
    Ok(units)
}
