//! What a drawing has at each node, port or edge, computed once for all definitions and levels.
ghost use Rattle.std.specs.Prelude.{◌≡◌, IfOk, false, true};
ghost use Rattle.elk_doc.specs.Fits.{Fits};
ghost use Rattle.layout_check.specs.Scenes.{IsScene};
ghost use Rattle.layout_check.specs.Judged.{AreExtents, AreShapes};

use crate::bounds::{RouteBounds, route_bounds};
use crate::lists::{heads, tails, weights};
use crate::scene::Scene;
use crate::shape_lists::{docks, listed, outlines, sides};
use crate::stretches::{OutlineEnds, outline_ends};
use drawing_types::shape::{Dock, Rect, Side};
use elk_doc::document::Doc;
use elk_doc::drawing::Placed;
use std::alloc::{AllocError, Global};

// The lists of a scene.
#[derive(Drop)]
pub(crate) struct Shapes {
    pub outlines: Vec<Rect>,
    pub sides: Vec<Side>,
    pub sources: Vec<Dock>,
    pub targets: Vec<Dock>,
    pub heads: Vec<u32>,
    pub tails: Vec<u32>,
    pub weights: Vec<u64>,
}

// How far routes and outlines reach.
#[derive(Drop)]
pub(crate) struct Extents {
    pub bounds: Vec<RouteBounds>,
    pub ends: OutlineEnds,
}

// The shapes of a drawing.
pub(crate) fn shapes_of(alloc: Global, doc: &Doc, placed: &Placed) -> Result<Shapes, AllocError>
    requires { Fits doc.now placed.now }
    ensures { IfOk result (AreShapes doc.now placed.now) }
{
    let listed = listed(alloc, doc, placed)?;
    let listed = listed.as_slice();
    let sides = sides(alloc, doc, placed, listed)?;
    Ok(Shapes {
        outlines: outlines(alloc, doc, placed)?,
        sources: docks(alloc, doc, placed, sides.as_slice(), listed, true)?,
        targets: docks(alloc, doc, placed, sides.as_slice(), listed, false)?,
        sides,
        heads: heads(alloc, doc, placed)?,
        tails: tails(alloc, doc, placed)?,
        weights: weights(alloc, doc)?,
    })
}

// The scene of a drawing, of its shapes.
pub(crate) fn scene_of<'a>(doc: &'a Doc, placed: &'a Placed, shapes: &'a Shapes) -> Scene<'a>
    requires fits { Fits doc.now placed.now }
    requires shapes { AreShapes doc.now placed.now shapes.now }
    ensures scene { IsScene result }
    ensures doc { result.doc.now ≡ doc.now }
    ensures placed { result.placed.now ≡ placed.now }
{
    Scene {
        doc,
        placed,
        outlines: shapes.outlines.as_slice(),
        sides: shapes.sides.as_slice(),
        sources: shapes.sources.as_slice(),
        targets: shapes.targets.as_slice(),
        heads: shapes.heads.as_slice(),
        tails: shapes.tails.as_slice(),
        weights: shapes.weights.as_slice(),
    }
}

// The extents of a drawing.
pub(crate) fn extents_of(alloc: Global, scene: &Scene<'_>) -> Result<Extents, AllocError>
    requires { IsScene scene.now }
    ensures { IfOk result (AreExtents scene.now.doc.now scene.now.placed.now) }
{
    Ok(Extents {
        bounds: route_bounds(alloc, scene.doc, scene.placed)?,
        ends: outline_ends(alloc, scene)?,
    })
}
