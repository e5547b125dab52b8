//! What the rows of a layered drawing hold.
ghost use Rattle.std.specs.Prelude.{◌≡◌, ◌<◌, length, IfOk};
ghost use Rattle.std.specs.List.{All, filter};
ghost use Rattle.elk_layers.specs.Layered.{plain, is_child};

use crate::units::Layered;
use std::alloc::{AllocError, Global};

fn is_child_at(layered: &Layered, unit: u32) -> bool
    requires { unit < length (plain layered.now).units }
    ensures { result ≡ is_child (plain layered.now) unit }
{
    let units = layered.units.as_slice();
    units[unit as usize].child.is_some()
}

/// The children of a row, in its order. The only error is out of memory.
///
/// Proved:
/// - The children of a row.
pub fn children_of(alloc: Global, layered: &Layered, row: &[u32]) -> Result<Vec<u32>, AllocError>
    requires { All (λ u. u < length (plain layered.now).units) row.now }
    ensures { IfOk result (λ v. v.items ≡ filter (is_child (plain layered.now)) row.now) }
{
    let mut found = Vec::new(alloc);
    for u in row {
        if is_child_at(layered, *u) {
            found.push(*u)?;
        }
    }
    Ok(found)
}
