//! The layouts of the parts.
ghost use Rattle.std.specs.Prelude.{◌≡◌, ◌<◌, ℕ, length, IfOk};
ghost use Rattle.level_model.specs.Conditions.{plain_level, IsLevel};
ghost use Rattle.level_parts.specs.Split.{part_at};
ghost use Rattle.level_split.specs.Gathered.{AreLayouts, extents_of};

use drawing_types::shape::Size;
use level_draw::LevelOut;
use level_layout::layout_level;
use level_parts::PartLevel;
use std::alloc::{AllocError, Global};

/// Each part is laid out as a level of its own.
pub(crate) fn layouts_of(alloc: Global, parts: &[PartLevel]) -> Result<Vec<LevelOut>, AllocError>
    requires { (k : ℕ) → k < length parts.now → IsLevel (plain_level (part_at parts.now k).level) }
    ensures { IfOk result (λ outs. AreLayouts parts.now (length parts.now) outs.items) }
{
    let mut outs = Vec::with_capacity(alloc, parts.len())?;
    for i in 0..parts.len() {
        outs.push(layout_level(alloc, &parts[i].level)?)?;
    }
    Ok(outs)
}

/// The extents of these layouts.
pub(crate) fn extents_of(alloc: Global, outs: &[LevelOut]) -> Result<Vec<Size>, AllocError>
    ensures { IfOk result (λ sizes. sizes.items ≡ extents_of outs.now) }
{
    let mut sizes = Vec::with_capacity(alloc, outs.len())?;
    for out in outs {
        sizes.push(out.extent)?;
    }
    Ok(sizes)
}
