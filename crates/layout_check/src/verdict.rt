//! The verdict on a drawing.
ghost use Rattle.std.specs.Prelude.{◌≡◌, ◌↔◌, ◌+◌, ◌<◌, IfOk, length};
ghost use Rattle.elk_doc.specs.Drawn.{Drawn};
ghost use Rattle.elk_doc.specs.Fits.{Fits};
ghost use Rattle.layout_check.specs.Definitions.{definitions};
ghost use Rattle.layout_check.specs.Scenes.{IsScene};
ghost use Rattle.layout_check.specs.Judged.{AreExtents};
ghost use Rattle.layout_check.specs.Verdicts.{IsVerdict};
ghost use Rattle.layout_check.specs.declared.verdict.Verdict.TheVariants.{No, Yes};

use crate::Place;
use crate::definition::Definition;
use crate::fault::Fault;
use crate::levels::first_fault;
use crate::scene::Scene;
use crate::shapes::{Extents, extents_of, scene_of, shapes_of};
use elk_doc::document::Doc;
use elk_doc::drawing::Placed;
use std::alloc::{AllocError, Global};

/// Whether a drawing obeys its document. Where it doesn't: the number of the first definition that fails, from 6 (Apart) to
/// 14 (FlowProof), and its first places, at the first level at which it fails.
#[derive(Clone, Copy, PartialEq, Eq, Debug)]
pub enum Verdict {
    Yes,
    No {
        definition: u32,
        first: Place,
        second: Place,
    },
}

// The verdict on a fault of the definition at this place in the list of all.
fn no_at(place: usize, fault: Fault) -> Verdict
    requires { place < length definitions }
    ensures { result ≡ No (place + 6) fault.first fault.second }
{
    Verdict::No {
        definition: place as u32 + 6,
        first: fault.first,
        second: fault.second,
    }
}

// Asks for one definition after the other, at all levels.
fn first_no(
    alloc: Global,
    scene: &Scene<'_>,
    extents: &Extents,
    order: &[Definition],
) -> Result<Verdict, AllocError>
    requires scene { IsScene scene.now }
    requires extents { AreExtents scene.now.doc.now scene.now.placed.now extents.now }
    requires all { order.now ≡ definitions }
    ensures { IfOk result (IsVerdict scene.now.doc.now scene.now.placed.now) }
{
    let _nodes = scene.doc.nodes();
    for place in 0..order.len() {
        let found = first_fault(alloc, scene, extents, order[place])?;
        if let Some(fault) = found {
            return Ok(no_at(place, fault));
        }
    }
    Ok(Verdict::Yes)
}

/// The verdict on a drawing that fits its document: yes exactly where the drawing obeys it.
///
/// Proved:
/// - `check` says yes exactly if the drawing obeys its document, and then the spans are minimal.
/// - Otherwise it names the lowest-numbered definition that fails at any level, at the first level, with the first places there.
pub fn check(alloc: Global, doc: &Doc, placed: &Placed) -> Result<Verdict, AllocError>
    requires { Fits doc.now placed.now }
    ensures exact { IfOk result (λ verdict. (verdict ≡ Yes) ↔ Drawn doc.now placed.now) }
    ensures verdict { IfOk result (IsVerdict doc.now placed.now) }
{
    let shapes = shapes_of(alloc, doc, placed)?;
    let scene = scene_of(doc, placed, &shapes);
    let extents = extents_of(alloc, &scene)?;
    let order = [
        Definition::Apart,
        Definition::Inside,
        Definition::PortsKept,
        Definition::Route,
        Definition::Clear,
        Definition::Sharing,
        Definition::Reversed,
        Definition::Layering,
        Definition::FlowProof,
    ];
    let verdict = first_no(alloc, &scene, &extents, &order)?;
    Ok(verdict)
}
