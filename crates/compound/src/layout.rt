//! The levels of a document, from the last to the first.
ghost use Rattle.std.specs.Prelude.{◌≡◌, ◌<◌, suc, Some, length, IfOk, IfSome, IsSome, OnOk};
ghost use Rattle.elk_doc.specs.Document.{node_at};
ghost use Rattle.elk_doc.specs.Drawn.{Drawn};
ghost use Rattle.elk_doc.specs.Fitted.{Fitted};
ghost use Rattle.elk_doc.specs.Sound.{IsSound};
ghost use Rattle.working_frame.specs.Rotated.{box_size};
ghost use Rattle.level_io.specs.Indexed.{IsIndex};
ghost use Rattle.level_io.specs.Canvas.{IsDrawingOf, drawing_of};
ghost use Rattle.level_io.specs.Written.{IsWritable};
ghost use Rattle.compound.specs.Planned.{Planned};
ghost use Rattle.drawing_laws.specs.Held.{HasSmallCoordinates};
ghost use Rattle.compound.specs.Work.{IsFigureOf, IsFramedRound, IsWork};

use crate::figures::figure_in;
use crate::place_root_ports;
use crate::sizes::given_sizes;
use drawing_types::shape::Size;
use elk_doc::document::{Doc, LevelOptions};
use elk_doc::drawing::Placed;
use level_io::{
    Canvas, Index, LevelFigure, LevelNumbers, blank, frame_node, index_of, level_in, placed,
    write_level,
};
use std::alloc::{AllocError, Global};

// A drawing in work, with the sizes of its boxes by node.
#[derive(Drop)]
struct Work {
    canvas: Canvas,
    sizes: Vec<Size>,
}

// The drawing of the level of a node whose children have their sizes.
fn figure_of(
    alloc: Global,
    doc: &Doc,
    index: &Index,
    node: u32,
    options: &LevelOptions,
    work: &Work,
) -> Result<LevelFigure, AllocError>
    requires node { node < length doc.now.nodes }
    requires sound { IsSound doc.now }
    requires index { IsIndex doc.now index.now }
    requires options { (node_at doc.now node).level ≡ Some options.now }
    requires work { IsWork doc.now (drawing_of work.now.canvas) work.now.sizes.items (suc node) }
    ensures { IfOk result (IsFigureOf doc.now (drawing_of work.now.canvas) node options.now) }
{
    let level = level_in(alloc, doc, index, work.sizes.as_slice(), node, options)?;
    figure_in(alloc, level, options)
}

// Writes the drawing of a node's level into the drawing of the document, and frames the node round it.
fn write_layout(doc: &Doc, index: &Index, node: u32, out: LevelFigure, canvas: &mut Canvas)
    requires node { node < length doc.now.nodes }
    requires index { IsIndex doc.now index.now }
    requires compound { IsSome (node_at doc.now node).level }
    requires canvas { IsDrawingOf doc.now (drawing_of canvas.old) }
    requires out { IsWritable doc.now (drawing_of canvas.old) node out }
    ensures { IfSome (node_at doc.now node).level (λ o. IsFramedRound doc.now node o out (drawing_of canvas.old) (drawing_of canvas.new)) }
{
    let numbers = LevelNumbers {
        children: index.children.row(node),
        edges: index.edges.row(node),
        ports: index.ports.rows.as_slice(),
    };
    let extent = out.extent;
    write_level(doc, node, &numbers, out, canvas);
    frame_node(doc, node, &numbers, extent, canvas);
}

// The size of a node's box.
fn size_of(canvas: &Canvas, node: u32) -> Size
    requires { node < length canvas.now.boxes.items }
    ensures { result ≡ box_size (drawing_of canvas.now) node }
{
    let found = canvas.boxes.as_slice()[node as usize];
    Size {
        width: found.width,
        height: found.height,
    }
}

// Lays out the level of a node, whose children have their sizes, and frames the node round it.
fn lay_out_level(
    alloc: Global,
    doc: &Doc,
    index: &Index,
    node: u32,
    options: &LevelOptions,
    work: &mut Work,
) -> Result<(), AllocError>
    requires node { node < length doc.now.nodes }
    requires sound { IsSound doc.now }
    requires index { IsIndex doc.now index.now }
    requires options { (node_at doc.now node).level ≡ Some options.now }
    requires work { IsWork doc.now (drawing_of work.old.canvas) work.old.sizes.items (suc node) }
    ensures { OnOk result (IsWork doc.now (drawing_of work.new.canvas) work.new.sizes.items node) }
{
    let out = figure_of(alloc, doc, index, node, options, work)?;
    write_layout(doc, index, node, out, &mut work.canvas);
    let size = size_of(&work.canvas, node);
    work.sizes[node as usize] = size;
    Ok(())
}

// Lays out the level of a node, if it has one.
fn lay_out_node(
    alloc: Global,
    doc: &Doc,
    index: &Index,
    node: u32,
    work: &mut Work,
) -> Result<(), AllocError>
    requires node { node < length doc.now.nodes }
    requires index { IsIndex doc.now index.now }
    requires work { IsWork doc.now (drawing_of work.old.canvas) work.old.sizes.items (suc node) }
    ensures { OnOk result (IsWork doc.now (drawing_of work.new.canvas) work.new.sizes.items node) }
{
    match &doc.node(node).level {
        Some(options) => lay_out_level(alloc, doc, index, node, options, work),
        None => Ok(()),
    }
}

// Lays out all levels, each after those that lie in it.
fn lay_out_levels(
    alloc: Global,
    doc: &Doc,
    index: &Index,
    work: &mut Work,
) -> Result<(), AllocError>
    requires index { IsIndex doc.now index.now }
    requires work { IsWork doc.now (drawing_of work.old.canvas) work.old.sizes.items (length doc.now.nodes) }
    ensures { OnOk result (IsWork doc.now (drawing_of work.new.canvas) work.new.sizes.items 0) }
{
    let mut left = doc.nodes().len();
    while left > 0 {
        left -= 1;
        lay_out_node(alloc, doc, index, left as u32, work)?;
    }
    Ok(())
}

/// The drawing of a document: it obeys the document, has no more room than it needs, and comes from layouts of the levels, in layers,
/// part by part, or as boxes. No coordinate reaches 2^53 in size.
///
/// Every level is laid out after those that lie in it, in the frame in which its direction runs to the right, and rotated back.
/// The only error is out of memory.
///
/// Proved:
/// - For every document there is a drawing that obeys it at every level and takes no more room than it needs.
/// - No coordinate of it reaches 2^53 in size.
/// - Each level of this drawing comes from a layout of the level: in layers, part by part or as boxes.
/// - The children have the same sizes in that layout as in the drawing.
/// - The places of the root's ports come from a layout of the root alone.
pub fn lay_out(alloc: Global, doc: &Doc) -> Result<Placed, AllocError>
    ensures drawn { IfOk result (Drawn doc.now) }
    ensures fitted { IfOk result (Fitted doc.now) }
    ensures planned { IfOk result (Planned doc.now) }
    ensures small { IfOk result HasSmallCoordinates }
{
    let index = index_of(alloc, doc)?;
    let mut work = Work {
        canvas: blank(alloc, doc)?,
        sizes: given_sizes(alloc, doc.nodes())?,
    };
    lay_out_levels(alloc, doc, &index, &mut work)?;
    place_root_ports(alloc, doc, &index, &mut work.canvas)?;
    Ok(placed(work.canvas))
}
