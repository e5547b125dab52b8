//! Steps of a search, the nearest first. Nearly all steps are as near as the one taken last: those wait in a list, the
//! first found in front, and only the steps further away in a heap.

ghost use Rattle.std.specs.Prelude.{◌≡◌, ◌≤◌, [], IfSome, IfNone, OnOk};
ghost use Rattle.std.specs.BinaryHeap.{IsHeap, heap_items};
ghost use Rattle.flow_dual.specs.Queue.{nearness, TakesNearest, Adds, step_order, waiting, AreInOrder};

use std::alloc::{AllocError, Global};
use std::cmp::Reverse;
use std::collections::{BinaryHeap, VecDeque};

/// A step over an edge: how far the reached nodes have to be raised for it, and the edge's number.
#[derive(Clone, Copy, PartialEq, Eq, PartialOrd, Ord)]
pub struct Step {
    pub near: Reverse<u64>,
    pub edge: u32,
}

/// The steps of a search that wait, and how far the reached nodes were raised for the one taken last.
#[derive(Drop)]
pub struct Steps {
    pub now: u64,
    pub at_once: VecDeque<Step>,
    pub further: BinaryHeap<Step>,
}

/// No steps yet, and nothing raised.
pub fn no_steps(alloc: Global) -> Steps
    ensures order { AreInOrder result }
    ensures none { waiting result ≡ [] }
    ensures now { result.now ≡ 0 }
{
    Steps {
        now: 0,
        at_once: VecDeque::new(alloc),
        further: BinaryHeap::new(alloc),
    }
}

fn take_further(further: &mut BinaryHeap<Step>) -> Option<Step>
    requires { IsHeap step_order (heap_items further.old) }
    ensures heap { IsHeap step_order (heap_items further.new) }
    ensures some { IfSome result (λ s. TakesNearest (heap_items further.old) s (heap_items further.new)) }
    ensures none { IfNone result (heap_items further.old ≡ []) }
{
    further.pop()
}

/// Takes out the nearest step.
pub fn take_nearest(steps: &mut Steps) -> Option<Step>
    requires { AreInOrder steps.old }
    ensures order { IfSome result (λ s. AreInOrder steps.new) }
    ensures some { IfSome result (λ s. TakesNearest (waiting steps.old) s (waiting steps.new)) }
    ensures now { IfSome result (λ s. steps.new.now ≡ nearness s) }
    ensures none { IfNone result (waiting steps.old ≡ []) }
{
    if let Some(step) = steps.at_once.pop_front() {
        return Some(step);
    }
    let step = take_further(&mut steps.further)?;
    steps.now = step.near.0;
    Some(step)
}

/// Adds a step that is no nearer than the one taken last.
pub fn add_step(steps: &mut Steps, near: u64, edge: u32) -> Result<(), AllocError>
    requires order { AreInOrder steps.old }
    requires later { steps.old.now ≤ near }
    ensures order { OnOk result (AreInOrder steps.new) }
    ensures now { steps.new.now ≡ steps.old.now }
    ensures adds { OnOk result (Adds (waiting steps.old) near edge (waiting steps.new)) }
{
    let step = Step {
        near: Reverse(near),
        edge,
    };
    if near == steps.now {
        steps.at_once.push_back(step)?;
    } else {
        steps.further.push(step)?;
    }
    Ok(())
}
