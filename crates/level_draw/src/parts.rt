//! The parts of a drawing before it is moved.
ghost use Rattle.std.specs.Prelude.{◌≡◌, ℕ, List, IfOk, length};
ghost use Rattle.level_model.specs.Conditions.{plain_level};
ghost use Rattle.level_model.specs.Marks.{AreMarks};
ghost use Rattle.layer_units.specs.Tabled.{IsTableOf};
ghost use Rattle.level_draw.specs.Drawing.{IsDrawable};
ghost use Rattle.level_draw.specs.Draft.{plan_in};
ghost use Rattle.level_draw.specs.Parts.{AreLevelParts, ports_in};

use crate::outlines::outlines_of;
use crate::routes_of;
use crate::sections::sections_of;
use drawing_types::list::Items;
use drawing_types::section::Section;
use drawing_types::shape::{Point, Rect};
use elk_layers::{Layered, Lines, Order};
use level_model::{ChildAt, LevelIn, Table};
use level_nets::gaps_of;
use level_nets::sheet::Sheet;
use route_lines::{Gap, Trace};
use std::alloc::{AllocError, Global};

/// Gaps, traces, boxes, ports and sections, and the outlines of children, each by number.
#[derive(Drop)]
pub(crate) struct Parts {
    pub gaps: Vec<Gap>,
    pub traces: Vec<Trace>,
    pub boxes: Vec<Point>,
    pub ports: Vec<Items<Point>>,
    pub sections: Vec<Section>,
    pub outlines: Vec<Rect>,
}

// The places of ports in the boxes of their children.
fn ports_of(alloc: Global, children: Vec<ChildAt>) -> Result<Vec<Items<Point>>, AllocError>
    ensures { IfOk result (λ ports. ports.items ≡ ports_in children.items) }
{
    let mut ports = Vec::with_capacity(alloc, children.len())?;
    for child in children {
        ports.push(child.ports)?;
    }
    Ok(ports)
}

/// A level, its units and links, its rows and lines, and the edges that are reversed, by list and by edge.
#[derive(Clone, Copy)]
pub(crate) struct Draft<'a> {
    pub level: &'a LevelIn,
    pub layered: &'a Layered,
    pub order: &'a Order,
    pub lines: &'a Lines,
    pub reversed: &'a [u32],
    pub is_reversed: &'a [bool],
}

/// The parts of a level's drawing, where its first gap begins at 0 and its units stand at their tops.
pub(crate) fn parts_of(alloc: Global, draft: &Draft<'_>, table: Table) -> Result<Parts, AllocError>
    requires drawable { (layers : List ℕ) × IsDrawable (plain_level draft.now.level.now) (plan_in draft.now) layers }
    requires marked { AreMarks draft.now.reversed.now (length draft.now.level.now.edges) draft.now.is_reversed.now }
    requires table { IsTableOf (plain_level draft.now.level.now) (plan_in draft.now) table }
    ensures { IfOk result (AreLevelParts (plain_level draft.now.level.now) (plan_in draft.now)) }
{
    let sheet = Sheet {
        level: draft.level,
        layered: draft.layered,
        tops: draft.lines.top.as_slice(),
        reversed: draft.reversed,
        is_reversed: draft.is_reversed,
        table: &table,
    };
    let routing = gaps_of(alloc, &sheet)?;
    let routes = routes_of(alloc, &sheet, &routing)?;
    let gaps = routing.gaps.into_vec();
    let traces = routes.traces;
    let boxes = routes.boxes;
    let sections = sections_of(alloc, gaps.as_slice(), traces.as_slice())?;
    let outlines = outlines_of(alloc, table.children.as_slice(), boxes.as_slice())?;
    let ports = ports_of(alloc, table.children.into_vec())?;
    Ok(Parts {
        gaps,
        traces,
        boxes,
        ports,
        sections,
        outlines,
    })
}
