//! The rows to start with.
ghost use Rattle.std.specs.Prelude.{◌≡◌, ◌<◌, ◌≤◌, ◌^◌, ◌++◌, ◌∷◌, [], ℕ, List, length, slice_set, IfOk, OnOk};
ghost use Rattle.elk_layers.specs.declared.units.Unit.{Unit as LayerUnit};
ghost use Rattle.elk_layers.specs.Layered.{AreRows, IsSound, plain, row_at, rows_of, unit_at};
ghost use Rattle.layer_units.specs.Started.{AreAscending, plain_rows};

use elk_layers::{Layered, Order, Unit};
use std::alloc::{AllocError, Global};

// So many rows without units.
fn empty_rows(alloc: Global, count: u32) -> Result<Vec<Vec<u32>>, AllocError>
    ensures { IfOk result (λ rows. (units : List LayerUnit) → AreAscending units count 0 (plain_rows rows.items)) }
{
    let mut rows = Vec::new(alloc);
    for _ in 0..count {
        rows.push(Vec::new(alloc))?;
    }
    Ok(rows)
}

// Puts a unit behind those of a row.
fn push_unit(rows: &mut [Vec<u32>], row: u32, unit: u32) -> Result<(), AllocError>
    requires { row < length rows.old }
    ensures { OnOk result (plain_rows rows.new ≡ slice_set (plain_rows rows.old) row (row_at (plain_rows rows.old) row ++ unit ∷ [])) }
{
    rows[row as usize].push(unit)?;
    Ok(())
}

// Puts each unit into the row of its layer.
fn fill_rows(units: &[Unit], rows: &mut [Vec<u32>]) -> Result<(), AllocError>
    requires few { length units.now ≤ 2 ^ 24 }
    requires layers { (u : ℕ) → u < length units.now → (unit_at units.now u).layer < length rows.old }
    requires empty { AreAscending units.now (length rows.old) 0 (plain_rows rows.old) }
    ensures { OnOk result (AreAscending units.now (length rows.old) (length units.now) (plain_rows rows.new)) }
{
    for unit in 0..units.len() as u32 {
        push_unit(rows, units[unit as usize].layer, unit)?;
    }
    Ok(())
}

/// The rows to start with: each has the units of its layer in ascending order, so its children in document order before its
/// lanes in the order of their edges.
///
/// Proved:
/// - Rows to start with, in which the units of each layer stand in the order of their numbers.
pub fn start_of(alloc: Global, layered: &Layered) -> Result<Order, AllocError>
    requires { IsSound (plain layered.now) }
    ensures rows { IfOk result (λ order. AreRows (plain layered.now) (rows_of order)) }
    ensures ascending { IfOk result (λ order. AreAscending layered.now.units.items layered.now.layers (length layered.now.units.items) (rows_of order)) }
{
    let mut rows = empty_rows(alloc, layered.layers)?;
    fill_rows(layered.units.as_slice(), rows.as_mut_slice())?;
    Ok(Order { rows })
}
