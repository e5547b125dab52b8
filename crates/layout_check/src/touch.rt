//! Which ports edges enter, and which they leave.
ghost use Rattle.std.specs.Prelude.{◌≡◌, ◌+◌, ◌<◌, IfOk, length};
ghost use Rattle.elk_doc.specs.Sound.{IsEndIn};
ghost use Rattle.layout_check.specs.Shapes.{AreListed, AreTouched, AreTouchedBelow, oriented_end};

use elk_doc::document::{Doc, End};
use elk_doc::drawing::Placed;
use elk_doc::level::is_loop;
use std::alloc::{AllocError, Global};

// The end at which an oriented edge enters, or at which it leaves.
fn oriented_end(doc: &Doc, _placed: &Placed, listed: &[bool], edge: u32, at_head: bool) -> End
    requires edge_in { edge < length doc.now.edges }
    requires listed { AreListed doc.now _placed.now listed.now }
    ensures value { result ≡ oriented_end doc.now _placed.now at_head edge }
    ensures inside { IsEndIn doc.now result }
{
    let found = doc.edge(edge);
    if listed[edge as usize] == at_head {
        found.source
    } else {
        found.target
    }
}

// Marks the port at which an oriented edge that is no self-loop enters, or leaves.
fn touch(doc: &Doc, placed: &Placed, listed: &[bool], marks: &mut [bool], edge: u32, at_head: bool)
    requires edge_in { edge < length doc.now.edges }
    requires listed { AreListed doc.now placed.now listed.now }
    requires marks { AreTouchedBelow doc.now placed.now at_head edge marks.old }
    ensures { AreTouchedBelow doc.now placed.now at_head (edge + 1) marks.new }
{
    if is_loop(doc, edge) {
        return;
    }
    match oriented_end(doc, placed, listed, edge, at_head) {
        End::Node(_) => {}
        End::Port(port) => marks[port as usize] = true,
    }
}

// Marks the ports at which edges enter, or leave.
fn touch_all(doc: &Doc, placed: &Placed, listed: &[bool], marks: &mut [bool], at_head: bool)
    requires listed { AreListed doc.now placed.now listed.now }
    requires marks { AreTouchedBelow doc.now placed.now at_head 0 marks.old }
    ensures { AreTouched doc.now placed.now at_head marks.new }
{
    for edge in 0..doc.edges().len() {
        touch(doc, placed, listed, marks, edge as u32, at_head);
    }
}

// Whether edges enter, or leave, each port.
pub(crate) fn touched(
    alloc: Global,
    doc: &Doc,
    placed: &Placed,
    listed: &[bool],
    at_head: bool,
) -> Result<Vec<bool>, AllocError>
    requires { AreListed doc.now placed.now listed.now }
    ensures { IfOk result (λ marks. AreTouched doc.now placed.now at_head marks.items) }
{
    let mut marks = vec![in alloc; false; doc.ports().len()]?;
    touch_all(doc, placed, listed, marks.as_mut_slice(), at_head);
    Ok(marks)
}
