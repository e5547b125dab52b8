//! The chosen link into each unit, the names of the blocks, and the offsets in them.

ghost use Rattle.std.specs.Prelude.{◌≡◌, ℕ, ◌<◌, ◌≤◌, ◌^◌, length, slice_index, IfOk};
ghost use Rattle.elk_layers.specs.Layered.{plain};
ghost use Rattle.unit_blocks.specs.Entries.{HaveOwnHeads, AreChosenMarks, AreLinksInto};

use elk_layers::Layered;
use std::alloc::{AllocError, Global};

/// By link, whether it is chosen.
fn chosen_marks(alloc: Global, chosen: &[u32], count: usize) -> Result<Vec<bool>, AllocError>
    requires { (j : ℕ) → j < length chosen.now → slice_index chosen.now j < count }
    ensures { IfOk result (λ v. AreChosenMarks chosen.now (length chosen.now) count v.items) }
{
    let mut marks: Vec<bool> = vec![in alloc; false; count]?;
    for k in chosen {
        marks[*k as usize] = true;
    }
    Ok(marks)
}

/// The number of the chosen link into each unit.
///
/// The links are looked at in their own order, in which those of an edge and their ends lie side by side.
pub(crate) fn links_into(
    alloc: Global,
    layered: &Layered,
    chosen: &[u32],
) -> Result<Vec<Option<u32>>, AllocError>
    requires own_heads { HaveOwnHeads (plain layered.now) chosen.now }
    requires few { length (plain layered.now).links ≤ 2 ^ 24 }
    ensures { IfOk result (λ v. AreLinksInto (plain layered.now) chosen.now (length chosen.now) v.items) }
{
    let links = layered.links.as_slice();
    let units = layered.units.as_slice();
    let marks = chosen_marks(alloc, chosen, links.len())?;
    let marks = marks.as_slice();
    let mut into: Vec<Option<u32>> = vec![in alloc; None; units.len()]?;
    for k in 0..links.len() {
        if marks[k] {
            into[links[k].head as usize] = Some(k as u32);
        }
    }
    Ok(into)
}
