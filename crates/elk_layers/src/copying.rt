//! Rows once more.
ghost use Rattle.std.specs.Prelude.{◌≡◌, IfOk};
ghost use Rattle.elk_layers.specs.Layered.{rows_of};

use crate::units::Order;
use std::alloc::{AllocError, Global};

// A row once more.
fn row_copy(alloc: Global, row: &[u32]) -> Result<Vec<u32>, AllocError>
    ensures { IfOk result (λ v. v.items ≡ row.now) }
{
    Ok(row.to_vec(alloc)?)
}

/// The same rows once more.
pub fn copy_of(alloc: Global, order: &Order) -> Result<Order, AllocError>
    ensures { IfOk result (λ v. rows_of v ≡ rows_of order.now) }
{
    let mut rows = Vec::with_capacity(alloc, order.rows.len())?;
    for row in order.rows.as_slice() {
        rows.push(row_copy(alloc, row.as_slice())?)?;
    }
    Ok(Order { rows })
}
