//! The first level at which a definition fails.
ghost use Rattle.std.specs.Prelude.{◌<◌, IfOk, MatchOption, length};
ghost use Rattle.layout_check.specs.Definitions.{Everywhere, FailsAt, FailsFirst, HoldsAt};
ghost use Rattle.layout_check.specs.Scenes.{IsScene};
ghost use Rattle.layout_check.specs.Judged.{AreExtents, Needs};

use crate::definition::Definition;
use crate::fault::Fault;
use crate::judge::judge;
use crate::scene::Scene;
use crate::shapes::Extents;
use std::alloc::{AllocError, Global};

// The first fault of a definition at the level of a node, if it has one.
fn fault_at(
    alloc: Global,
    scene: &Scene<'_>,
    extents: &Extents,
    definition: Definition,
    node: u32,
) -> Result<Option<Fault>, AllocError>
    requires node_in { node < length scene.now.doc.now.nodes }
    requires scene { IsScene scene.now }
    requires extents { AreExtents scene.now.doc.now scene.now.placed.now extents.now }
    requires needs { Needs definition scene.now.doc.now scene.now.placed.now }
    ensures { IfOk result (λ fault.
        MatchOption fault
        (HoldsAt definition scene.now.doc.now scene.now.placed.now node)
        (FailsAt definition scene.now.doc.now scene.now.placed.now node)) }
{
    match &scene.doc.node(node).level {
        None => Ok(None),
        Some(options) => match scene.placed.certificate(node) {
            None => Ok(None),
            Some(certificate) => {
                judge(
                    alloc,
                    scene,
                    extents,
                    definition,
                    node,
                    options,
                    certificate,
                )
            }
        },
    }
}

// The first fault of a definition at the first level at which it fails.
pub(crate) fn first_fault(
    alloc: Global,
    scene: &Scene<'_>,
    extents: &Extents,
    definition: Definition,
) -> Result<Option<Fault>, AllocError>
    requires scene { IsScene scene.now }
    requires extents { AreExtents scene.now.doc.now scene.now.placed.now extents.now }
    requires needs { Needs definition scene.now.doc.now scene.now.placed.now }
    ensures { IfOk result (λ fault.
        MatchOption fault
        (Everywhere definition scene.now.doc.now scene.now.placed.now)
        (FailsFirst definition scene.now.doc.now scene.now.placed.now)) }
{
    for node in 0..scene.doc.nodes().len() {
        let fault = fault_at(alloc, scene, extents, definition, node as u32)?;
        if let Some(found) = fault {
            return Ok(Some(found));
        }
    }
    Ok(None)
}
