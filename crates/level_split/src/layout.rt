//! The layout of a level part by part.
ghost use Rattle.std.specs.Prelude.{◌≡◌, ◌≤◌, length, IfOk};
ghost use Rattle.box_pack.specs.Boxes.{AreSizes};
ghost use Rattle.elk_doc.specs.Sound.{IsDistance};
ghost use Rattle.level_model.specs.Conditions.{plain_level, IsLevel};
ghost use Rattle.level_split.specs.Gathered.{ArePartDrawings, AreSeated, drawing_at, extents_of};
ghost use Rattle.level_split.specs.Parts.{IsPartsLayout};
ghost use Rattle.level_split.specs.Steps.{CanCertify, IsCertificateIn, IsDrawingIn, IsStanding};

use crate::certificate::{flow_of, layers_of, reversals_of, reversed_of, total_span};
use crate::drawing::{boxes_of, ports_of, sections_of};
use crate::layouts::{extents_of, layouts_of};
use crate::limit::row_limit;
use box_pack::{Rows, pack};
use drawing_types::list::Items;
use drawing_types::section::Section;
use drawing_types::shape::{Point, Size};
use elk_doc::drawing::Certificate;
use level_draw::LevelOut;
use level_model::LevelIn;
use level_parts::{PartLevels, split};
use std::alloc::{AllocError, Global};

/// A level whose connected parts are laid out apart: the number of each child's part; the layouts of the parts, each as a level of
/// its own, and where they stand; and what they come to together, boxes and ports by child, ports as places in their child's box,
/// sections by edge.
#[derive(Drop)]
pub struct PartsOut {
    pub parts: Items<u32>,
    pub outs: Items<LevelOut>,
    pub at: Items<Point>,
    pub boxes: Items<Point>,
    pub ports: Items<Items<Point>>,
    pub sections: Items<Section>,
    pub certificate: Certificate,
    pub extent: Size,
}

// The parts of a drawing that are put together.
#[derive(Drop)]
struct Joined {
    boxes: Vec<Point>,
    ports: Vec<Items<Point>>,
    sections: Vec<Section>,
}

// The parts in rows.
fn rows_of(alloc: Global, outs: &[LevelOut], component: i64) -> Result<Rows, AllocError>
    requires count { length outs.now ≤ 2048 }
    requires sizes { AreSizes (extents_of outs.now) }
    requires component { IsDistance component }
    ensures { IfOk result (IsStanding outs.now component) }
{
    let sizes = extents_of(alloc, outs)?;
    let limit = row_limit(sizes.as_slice(), component);
    pack(alloc, sizes.as_slice(), component, limit)
}

// The drawing of the whole.
fn drawing_of(
    alloc: Global,
    split: &PartLevels,
    outs: &[LevelOut],
    at: &[Point],
) -> Result<Joined, AllocError>
    requires drawings { ArePartDrawings outs.now at.now }
    requires boxes { AreSeated split.now.children.parts split.now.children.places (length outs.now) (λ k. length (drawing_at outs.now k).boxes) }
    requires ports { AreSeated split.now.children.parts split.now.children.places (length outs.now) (λ k. length (drawing_at outs.now k).ports) }
    requires sections { AreSeated split.now.edges.parts split.now.edges.places (length outs.now) (λ k. length (drawing_at outs.now k).sections) }
    ensures { IfOk result (IsDrawingIn split.now outs.now at.now) }
{
    let children = split.children.parts.as_slice();
    let child_places = split.children.places.as_slice();
    let edges = split.edges.parts.as_slice();
    let edge_places = split.edges.places.as_slice();
    Ok(Joined {
        boxes: boxes_of(alloc, outs, at, children, child_places)?,
        ports: ports_of(alloc, outs, children, child_places)?,
        sections: sections_of(alloc, outs, at, edges, edge_places)?,
    })
}

// The certificate of the whole.
fn joined_certificate(
    alloc: Global,
    split: &PartLevels,
    outs: &[LevelOut],
) -> Result<Certificate, AllocError>
    requires { CanCertify split.now outs.now }
    ensures { IfOk result (IsCertificateIn split.now outs.now) }
{
    let children = split.children.parts.as_slice();
    let edges = split.edges.parts.as_slice();
    let edge_places = split.edges.places.as_slice();
    let layers = layers_of(alloc, outs, children, split.children.places.as_slice())?;
    let flow = flow_of(alloc, outs, edges, edge_places)?;
    let marks = reversals_of(alloc, split.parts.as_slice(), outs)?;
    let reversed = reversed_of(alloc, marks.as_slice(), edges, edge_places)?;
    Ok(Certificate {
        layers: Items::from_vec(layers),
        reversed: Items::from_vec(reversed),
        flow: Items::from_vec(flow),
        span: total_span(outs),
        parts: Items::from_vec(children.to_vec(alloc)?),
    })
}

/// The layout of a level whose connected parts are to stand apart, in whole document units and in the frame in which the level's
/// direction runs to the right.
///
/// Each part is laid out by itself. The drawings of the parts stand in rows, in the order of their least children, and at least
/// `component` apart; a row is no wider than the widest part, or than a square of about the size of all parts. The only error is want
/// of memory.
///
/// Proved:
/// - In the layout of a level with separate parts, children have the numbers of their parts.
/// - Each part is laid out as a level of its own.
/// - The extents of the parts stand in rows, in the order of their numbers, with the requested gap.
/// - The width limit of rows is the greater of two: the widest part, and the side of the largest square that all parts with the gap
///   fill.
/// - Boxes, ports and sections are those of the parts, moved, and the certificate is joined from theirs.
pub fn layout_parts(alloc: Global, level: &LevelIn, component: i64) -> Result<PartsOut, AllocError>
    requires level { IsLevel (plain_level level.now) }
    requires component { IsDistance component }
    ensures { IfOk result (IsPartsLayout level.now component) }
{
    let split = split(alloc, level)?;
    let outs = layouts_of(alloc, split.parts.as_slice())?;
    let rows = rows_of(alloc, outs.as_slice(), component)?;
    let drawing = drawing_of(alloc, &split, outs.as_slice(), rows.at.as_slice())?;
    let certificate = joined_certificate(alloc, &split, outs.as_slice())?;
    let numbers = split.children;
    Ok(PartsOut {
        parts: numbers.parts,
        outs: Items::from_vec(outs),
        at: rows.at,
        boxes: Items::from_vec(drawing.boxes),
        ports: Items::from_vec(drawing.ports),
        sections: Items::from_vec(drawing.sections),
        certificate,
        extent: rows.extent,
    })
}
