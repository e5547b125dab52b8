//! The first fault of each definition at one level.
ghost use Rattle.std.specs.Prelude.{IfOk};
ghost use Rattle.elk_doc.specs.Sound.{IsSound};
ghost use Rattle.layout_check.specs.ListedLevels.{IsLevel};
ghost use Rattle.layout_check.specs.Scenes.{IsScene};
ghost use Rattle.layout_check.specs.declared.definition.Definition.TheVariants.{Apart, FlowProof, Inside, Layering, PortsKept, Reversed, Route, Clear, Sharing};
ghost use Rattle.layout_check.specs.Definitions.{Holds};
ghost use Rattle.layout_check.specs.Judged.{AreExtents, Judges, Needs};

use crate::apart::apart_fault;
use crate::blocks::clear_fault;
use crate::definition::Definition;
use crate::fault::Fault;
use crate::flow::flow_fault;
use crate::inside::inside_fault;
use crate::kept::ports_fault;
use crate::layering::layering_fault;
use crate::level::Level;
use crate::lists::{flows, layers, parts};
use crate::partners::sharing_fault;
use crate::reversed::reversed_fault;
use crate::route::route_fault;
use crate::scene::Scene;
use crate::shapes::Extents;
use elk_doc::document::LevelOptions;
use elk_doc::drawing::Certificate;
use std::alloc::{AllocError, Global};

// The first fault of distances.
fn apart(
    alloc: Global,
    scene: &Scene<'_>,
    node: u32,
    options: &LevelOptions,
    certificate: &Certificate,
) -> Result<Option<Fault>, AllocError>
    requires sound { IsSound scene.now.doc.now }
    requires scene { IsScene scene.now }
    requires level { IsLevel scene.now.doc.now scene.now.placed.now node options.now certificate.now }
    ensures { IfOk result (Judges Apart scene.now.doc.now scene.now.placed.now node options.now certificate.now) }
{
    let layers = layers(alloc, scene.doc, node, certificate)?;
    let parts = parts(alloc, scene.doc, node, certificate)?;
    let level = Level {
        scene,
        node,
        options,
        certificate,
        layers: layers.as_slice(),
        parts: parts.as_slice(),
    };
    apart_fault(alloc, &level)
}

// The first fault of the padding.
fn inside(
    scene: &Scene<'_>,
    node: u32,
    options: &LevelOptions,
    _certificate: &Certificate,
) -> Option<Fault>
    requires sound { IsSound scene.now.doc.now }
    requires scene { IsScene scene.now }
    requires level { IsLevel scene.now.doc.now scene.now.placed.now node options.now _certificate.now }
    ensures { Judges Inside scene.now.doc.now scene.now.placed.now node options.now _certificate.now result }
{
    inside_fault(scene, node, options)
}

// The first fault of ports and of ends at nodes.
fn ports(
    scene: &Scene<'_>,
    node: u32,
    _options: &LevelOptions,
    _certificate: &Certificate,
) -> Option<Fault>
    requires sound { IsSound scene.now.doc.now }
    requires scene { IsScene scene.now }
    requires level { IsLevel scene.now.doc.now scene.now.placed.now node _options.now _certificate.now }
    ensures { Judges PortsKept scene.now.doc.now scene.now.placed.now node _options.now _certificate.now result }
{
    ports_fault(scene, node)
}

// The first fault of routes.
fn routes(
    scene: &Scene<'_>,
    node: u32,
    _options: &LevelOptions,
    _certificate: &Certificate,
) -> Option<Fault>
    requires sound { IsSound scene.now.doc.now }
    requires scene { IsScene scene.now }
    ensures { Judges Route scene.now.doc.now scene.now.placed.now node _options.now _certificate.now result }
{
    route_fault(scene, node)
}

// The first fault of routes and boxes.
fn clear(
    scene: &Scene<'_>,
    extents: &Extents,
    node: u32,
    _options: &LevelOptions,
    _certificate: &Certificate,
) -> Option<Fault>
    requires sound { IsSound scene.now.doc.now }
    requires scene { IsScene scene.now }
    requires extents { AreExtents scene.now.doc.now scene.now.placed.now extents.now }
    requires routes { Holds Route scene.now.doc.now scene.now.placed.now node _options.now _certificate.now }
    ensures { Judges Clear scene.now.doc.now scene.now.placed.now node _options.now _certificate.now result }
{
    clear_fault(scene, &extents.ends, node)
}

// The first fault of shared pieces.
fn sharing(
    scene: &Scene<'_>,
    extents: &Extents,
    node: u32,
    _options: &LevelOptions,
    _certificate: &Certificate,
) -> Option<Fault>
    requires sound { IsSound scene.now.doc.now }
    requires scene { IsScene scene.now }
    requires extents { AreExtents scene.now.doc.now scene.now.placed.now extents.now }
    requires routes { Holds Route scene.now.doc.now scene.now.placed.now node _options.now _certificate.now }
    ensures { Judges Sharing scene.now.doc.now scene.now.placed.now node _options.now _certificate.now result }
{
    sharing_fault(scene, extents.bounds.as_slice(), node)
}

// The first fault of the reversed edges.
fn reversed(
    alloc: Global,
    scene: &Scene<'_>,
    node: u32,
    _options: &LevelOptions,
    certificate: &Certificate,
) -> Result<Option<Fault>, AllocError>
    requires sound { IsSound scene.now.doc.now }
    requires scene { IsScene scene.now }
    requires level { IsLevel scene.now.doc.now scene.now.placed.now node _options.now certificate.now }
    ensures { IfOk result (Judges Reversed scene.now.doc.now scene.now.placed.now node _options.now certificate.now) }
{
    let layers = layers(alloc, scene.doc, node, certificate)?;
    reversed_fault(alloc, scene.doc, node, certificate, layers.as_slice())
}

// The first fault of the layering.
fn layering(
    alloc: Global,
    scene: &Scene<'_>,
    node: u32,
    _options: &LevelOptions,
    certificate: &Certificate,
) -> Result<Option<Fault>, AllocError>
    requires sound { IsSound scene.now.doc.now }
    requires scene { IsScene scene.now }
    requires level { IsLevel scene.now.doc.now scene.now.placed.now node _options.now certificate.now }
    ensures { IfOk result (Judges Layering scene.now.doc.now scene.now.placed.now node _options.now certificate.now) }
{
    let layers = layers(alloc, scene.doc, node, certificate)?;
    Ok(layering_fault(scene, node, certificate, layers.as_slice()))
}

// The fault of the flow.
fn flow(
    alloc: Global,
    scene: &Scene<'_>,
    node: u32,
    _options: &LevelOptions,
    certificate: &Certificate,
) -> Result<Option<Fault>, AllocError>
    requires sound { IsSound scene.now.doc.now }
    requires scene { IsScene scene.now }
    requires level { IsLevel scene.now.doc.now scene.now.placed.now node _options.now certificate.now }
    ensures { IfOk result (Judges FlowProof scene.now.doc.now scene.now.placed.now node _options.now certificate.now) }
{
    let flows = flows(alloc, scene.doc, node, certificate)?;
    flow_fault(alloc, scene, node, certificate, flows.as_slice())
}

// The first fault of a definition at a level.
pub(crate) fn judge(
    alloc: Global,
    scene: &Scene<'_>,
    extents: &Extents,
    definition: Definition,
    node: u32,
    options: &LevelOptions,
    certificate: &Certificate,
) -> Result<Option<Fault>, AllocError>
    requires sound { IsSound scene.now.doc.now }
    requires scene { IsScene scene.now }
    requires extents { AreExtents scene.now.doc.now scene.now.placed.now extents.now }
    requires level { IsLevel scene.now.doc.now scene.now.placed.now node options.now certificate.now }
    requires needs { Needs definition scene.now.doc.now scene.now.placed.now }
    ensures { IfOk result (Judges definition scene.now.doc.now scene.now.placed.now node options.now certificate.now) }
{
    match definition {
        Definition::Apart => apart(alloc, scene, node, options, certificate),
        Definition::Inside => Ok(inside(scene, node, options, certificate)),
        Definition::PortsKept => Ok(ports(scene, node, options, certificate)),
        Definition::Route => Ok(routes(scene, node, options, certificate)),
        Definition::Clear => Ok(clear(scene, extents, node, options, certificate)),
        Definition::Sharing => Ok(sharing(scene, extents, node, options, certificate)),
        Definition::Reversed => reversed(alloc, scene, node, options, certificate),
        Definition::Layering => layering(alloc, scene, node, options, certificate),
        Definition::FlowProof => flow(alloc, scene, node, options, certificate),
    }
}
