//! The drawing of a level, as one of layers, of parts or of boxes.
ghost use Rattle.std.specs.Prelude.{◌≡◌, IfOk};
ghost use Rattle.level_model.specs.Conditions.{plain_level, IsLevel};
ghost use Rattle.elk_doc.specs.Sound.{IsDistance};
ghost use Rattle.compound.specs.Figures.{IsBoxed, IsFigureIn, IsLayered, IsParted, figure_of_boxes, flat_certificate, layers_for};

use drawing_types::list::Items;
use drawing_types::shape::Point;
use elk_doc::document::LevelOptions;
use elk_doc::drawing::Certificate;
use level_io::{LevelFigure, figure_of};
use level_layout::layout_level;
use level_model::LevelIn;
use level_split::{BoxesOut, layout_boxes, layout_parts};
use std::alloc::{AllocError, Global};

// Layer 0 for each box.
fn layers_for(alloc: Global, boxes: &[Point]) -> Result<Vec<u32>, AllocError>
    ensures { IfOk result (λ layers. layers.items ≡ layers_for boxes.now) }
{
    let mut layers = Vec::with_capacity(alloc, boxes.len())?;
    for _place in boxes {
        layers.push(0)?;
    }
    Ok(layers)
}

// The certificate of a level of boxes, which has no edges.
fn flat_certificate(alloc: Global, boxes: &[Point]) -> Result<Certificate, AllocError>
    ensures { IfOk result (λ c. c ≡ flat_certificate boxes.now) }
{
    Ok(Certificate {
        layers: Items::from_vec(layers_for(alloc, boxes)?),
        reversed: Items::from_vec(Vec::new(alloc)),
        flow: Items::from_vec(Vec::new(alloc)),
        span: 0,
        parts: Items::from_vec(Vec::new(alloc)),
    })
}

// The drawing of a level of boxes.
fn figure_of_boxes(alloc: Global, out: BoxesOut) -> Result<LevelFigure, AllocError>
    ensures { IfOk result (λ v. v ≡ figure_of_boxes out) }
{
    let certificate = flat_certificate(alloc, out.boxes.as_slice())?;
    Ok(LevelFigure {
        boxes: out.boxes,
        ports: out.ports,
        sections: Items::from_vec(Vec::new(alloc)),
        certificate,
        extent: out.extent,
    })
}

// The drawing of a level in layers.
fn layered_figure(alloc: Global, level: &LevelIn) -> Result<LevelFigure, AllocError>
    requires { IsLevel (plain_level level.now) }
    ensures { IfOk result (IsLayered level.now) }
{
    let out = layout_level(alloc, level)?;
    Ok(figure_of(out))
}

// The drawing of a level part by part; the drawings of the parts by themselves are dropped. Nothing is copied.
fn parted_figure(
    alloc: Global,
    level: &LevelIn,
    options: &LevelOptions,
) -> Result<LevelFigure, AllocError>
    requires level { IsLevel (plain_level level.now) }
    requires component { IsDistance options.now.component }
    ensures { IfOk result (IsParted level.now options.now) }
{
    let out = layout_parts(alloc, level, options.component)?;
    Ok(LevelFigure {
        boxes: out.boxes,
        ports: out.ports,
        sections: out.sections,
        certificate: out.certificate,
        extent: out.extent,
    })
}

// The drawing of a level as boxes.
fn boxed_figure(
    alloc: Global,
    level: LevelIn,
    options: &LevelOptions,
) -> Result<LevelFigure, AllocError>
    requires { IsLevel (plain_level level) }
    ensures { IfOk result (IsBoxed level options.now) }
{
    let out = layout_boxes(alloc, level, options.direction)?;
    figure_of_boxes(alloc, out)
}

/// The drawing of a level that has these options, in the frame in which its direction runs to the right. The only error is want
/// of memory.
pub(crate) fn figure_in(
    alloc: Global,
    level: LevelIn,
    options: &LevelOptions,
) -> Result<LevelFigure, AllocError>
    requires level { IsLevel (plain_level level) }
    requires component { IsDistance options.now.component }
    ensures { IfOk result (IsFigureIn level options.now) }
{
    if options.boxes {
        boxed_figure(alloc, level, options)
    } else if options.split {
        parted_figure(alloc, &level, options)
    } else {
        layered_figure(alloc, &level)
    }
}
