//! Whether steps lead from one node to another.
ghost use Rattle.std.specs.Prelude.{◌≡◌, ◌↔◌, ◌||◌, ℕ, ◌<◌, IfOk, IsTrue, length, true};
ghost use Rattle.elk_doc.specs.Paths.{Reaches};
ghost use Rattle.layout_check.specs.Steps.{AreBelow, AreReached, FollowsOnce, FollowsStep, HasStep, mark_at};

use std::alloc::{AllocError, Global};

/// A step from a node to another.
#[derive(Clone, Copy, Debug)]
pub struct Step {
    pub from: u32,
    pub to: u32,
}

// Marks the end of a step whose start is marked, and tells whether that was new.
fn follow(marks: &mut [bool], step: Step) -> bool
    requires from_in { step.from < length marks.old }
    requires to_in { step.to < length marks.old }
    ensures { FollowsStep marks.old step marks.new result }
{
    if marks[step.from as usize] && !marks[step.to as usize] {
        marks[step.to as usize] = true;
        return true;
    }
    false
}

// Whether one of two holds.
fn either(a: bool, b: bool) -> bool
    ensures { result ≡ (a || b) }
{
    a || b
}

// Follows each step once, and tells whether a mark was new. `_start` is where the marks began.
fn follow_once(marks: &mut [bool], steps: &[Step], _start: u32) -> bool
    requires below { AreBelow (length marks.old) steps.now }
    requires reached { AreReached steps.now _start marks.old }
    requires start { mark_at marks.old _start ≡ true }
    ensures { FollowsOnce steps.now _start (length steps.now) marks.old marks.new result }
{
    let mut changed = false;
    for step in steps {
        let now = follow(marks, *step);
        changed = either(changed, now);
    }
    changed
}

// Marks all that the steps reach.
fn follow_all(marks: &mut [bool], steps: &[Step], start: u32)
    requires below { AreBelow (length marks.old) steps.now }
    requires reached { AreReached steps.now start marks.old }
    requires start { mark_at marks.old start ≡ true }
    ensures len { length marks.new ≡ length marks.old }
    ensures marks { (v : ℕ) → (mark_at marks.new v ≡ true) ↔ Reaches (HasStep steps.now) start v }
{
    let mut changed = true;
    while changed {
        changed = follow_once(marks, steps, start);
    }
}

/// Whether steps lead from one node to another, or the two are one.
pub fn reaches(
    alloc: Global,
    nodes: usize,
    steps: &[Step],
    from: u32,
    to: u32,
) -> Result<bool, AllocError>
    requires below { AreBelow nodes steps.now }
    requires from_in { from < nodes }
    requires to_in { to < nodes }
    ensures { IfOk result (λ found. IsTrue found ↔ Reaches (HasStep steps.now) from to) }
{
    let mut marks: Vec<bool> = vec![in alloc; false; nodes]?;
    let room = marks.as_mut_slice();
    room[from as usize] = true;
    follow_all(room, steps, from);
    Ok(room[to as usize])
}
