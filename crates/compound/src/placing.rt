//! The ports of the root at their places.
ghost use Rattle.std.specs.Prelude.{◌≡◌, ◌<◌, Some, length, IfOk, OnErr, OnOk};
ghost use Rattle.elk_doc.specs.declared.drawing.Placed.{Placed};
ghost use Rattle.elk_doc.specs.Document.{node_at};
ghost use Rattle.elk_doc.specs.Drawing.{box_of};
ghost use Rattle.elk_doc.specs.Sound.{IsSound};
ghost use Rattle.port_order.specs.Conditions.{IsSmall};
ghost use Rattle.level_model.specs.Conditions.{plain_level};
ghost use Rattle.working_frame.specs.Rotated.{box_size};
ghost use Rattle.level_io.specs.Indexed.{IsIndex};
ghost use Rattle.level_io.specs.Back.{size_of};
ghost use Rattle.level_io.specs.Canvas.{IsDrawingOf, drawing_of};
ghost use Rattle.compound.specs.Planned.{root_level};
ghost use Rattle.compound.specs.Rooted.{AreRootPortsPlaced, IsRootBox};

use drawing_types::list::Items;
use drawing_types::shape::{Rect, Size};
use elk_doc::document::{Doc, LevelOptions, Placing};
use level_io::{Canvas, Index, read_child, write_ports_of};
use level_layout::layout_level;
use level_model::LevelIn;
use std::alloc::{AllocError, Global};

// The size of a box.
fn size_of(outer: Rect) -> Size
    ensures { result ≡ size_of outer }
{
    Size {
        width: outer.width,
        height: outer.height,
    }
}

// The root, whose box has this size, alone in a level with these options.
fn level_of_root(
    alloc: Global,
    doc: &Doc,
    index: &Index,
    options: &LevelOptions,
    size: Size,
) -> Result<LevelIn, AllocError>
    requires root { 0 < length doc.now.nodes }
    requires index { IsIndex doc.now index.now }
    requires size { IsSmall size }
    ensures { IfOk result (λ l. (p : Placed) → box_size p 0 ≡ size → plain_level l ≡ root_level doc.now p options.now) }
{
    let root = read_child(alloc, doc, index, size, options.direction, 0)?;
    let mut children = Vec::with_capacity(alloc, 1)?;
    children.push(root)?;
    Ok(LevelIn {
        children: Items::from_vec(children),
        edges: Items::from_vec(Vec::new(alloc)),
        spacing: options.spacing,
        fixed: None,
        placing: Placing::BrandesKoepf,
        choices: options.choices,
    })
}

// Puts the ports of the root, which has these options, at their places.
fn place_with(
    alloc: Global,
    doc: &Doc,
    index: &Index,
    options: &LevelOptions,
    canvas: &mut Canvas,
) -> Result<(), AllocError>
    requires sound { IsSound doc.now }
    requires options { (node_at doc.now 0).level ≡ Some options.now }
    requires index { IsIndex doc.now index.now }
    requires canvas { IsDrawingOf doc.now (drawing_of canvas.old) }
    requires size { IsRootBox (box_of (drawing_of canvas.old) 0) }
    ensures placed { OnOk result (AreRootPortsPlaced doc.now (drawing_of canvas.old) (drawing_of canvas.new)) }
    ensures unchanged { OnErr result (canvas.new ≡ canvas.old) }
{
    let outer = canvas.boxes.as_slice()[0];
    let size = size_of(outer);
    let level = level_of_root(alloc, doc, index, options, size)?;
    let out = layout_level(alloc, &level)?;
    let numbers = index.ports.row(0);
    let places = out.ports.as_slice()[0].as_slice();
    let ports = canvas.ports.as_mut_slice();
    write_ports_of(doc, options.direction, outer, numbers, places, ports);
    Ok(())
}

/// Puts the ports of the document's root at their places in its box, as if the root were alone in a level of its own direction,
/// without edges. All else stays. The box of the root has its size already, from 0 to 2^45 + 2^37 each way. The only error is want of
/// memory; the drawing is as it was then.
///
/// Proved:
/// - The root is a child of no level. Its ports are put where they stand in a layout of a level that has the root's own direction, the
///   root as its only child, and no edges.
/// - Everything else stays the same, and without memory all of it does.
pub fn place_root_ports(
    alloc: Global,
    doc: &Doc,
    index: &Index,
    canvas: &mut Canvas,
) -> Result<(), AllocError>
    requires index { IsIndex doc.now index.now }
    requires canvas { IsDrawingOf doc.now (drawing_of canvas.old) }
    requires size { IsRootBox (box_of (drawing_of canvas.old) 0) }
    ensures placed { OnOk result (AreRootPortsPlaced doc.now (drawing_of canvas.old) (drawing_of canvas.new)) }
    ensures unchanged { OnErr result (canvas.new ≡ canvas.old) }
{
    match &doc.nodes()[0].level {
        None => Ok(()),
        Some(options) => place_with(alloc, doc, index, options, canvas),
    }
}
