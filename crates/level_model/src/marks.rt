//! Marks at the numbers that a list holds.
ghost use Rattle.std.specs.Prelude.{◌≡◌, [], length, slice_set, IfOk, true};
ghost use Rattle.level_model.specs.Marks.{AreMarks};

use std::alloc::{AllocError, Global};

// Sets the mark with this number, where there is one.
fn set_mark(marks: &mut [bool], number: u32)
    ensures { marks.new ≡ slice_set marks.old number true }
{
    if (number as usize) < marks.len() {
        marks[number as usize] = true;
    }
}

// Marks all these numbers.
fn mark_all(marks: &mut [bool], numbers: &[u32])
    requires { AreMarks [] (length marks.old) marks.old }
    ensures { AreMarks numbers.now (length marks.old) marks.new }
{
    for number in numbers {
        set_mark(marks, *number);
    }
}

/// For each number below a count, whether a list holds it: of a level's edges, which are reversed.
///
/// Proved:
/// - The marks of a list say of each number whether it is listed, for example of edges whether they are reversed.
pub fn marks_of(alloc: Global, numbers: &[u32], count: usize) -> Result<Vec<bool>, AllocError>
    ensures { IfOk result (λ marks. AreMarks numbers.now count marks.items) }
{
    let mut marks: Vec<bool> = vec![in alloc; false; count]?;
    mark_all(marks.as_mut_slice(), numbers);
    Ok(marks)
}
