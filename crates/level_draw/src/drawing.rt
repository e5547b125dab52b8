//! The drawing of a level.
ghost use Rattle.std.specs.Prelude.{ℕ, List, IfOk, length};
ghost use Rattle.level_model.specs.Conditions.{plain_level};
ghost use Rattle.level_model.specs.Marks.{AreMarks};
ghost use Rattle.layer_units.specs.Tabled.{IsTableOf};
ghost use Rattle.level_draw.specs.Draft.{plan_in};
ghost use Rattle.level_draw.specs.Drawing.{IsDrawable, IsDrawn, IsMadeFrom, plan_from};
ghost use Rattle.level_draw.specs.Sketched.{IsSketch};

use crate::parts::{Draft, Parts, parts_of};
use crate::shifting::{reach_in, shifted, size_of};
use dock_table::table_of;
use drawing_types::list::Items;
use drawing_types::section::Section;
use drawing_types::shape::{Point, Size};
use elk_doc::drawing::Certificate;
use elk_layers::{Layered, Lines, Order};
use level_model::{LevelIn, Table, marks_of};
use route_lines::{Gap, Trace};
use std::alloc::{AllocError, Global};

/// What a level is drawn from, and the gaps and traces between its units and its routes. Gaps are numbered from left to right,
/// one more than layers, and traces by edge.
#[derive(Drop)]
pub struct Plan {
    pub layered: Layered,
    pub start: Order,
    pub order: Order,
    pub lines: Lines,
    pub gaps: Items<Gap>,
    pub traces: Items<Trace>,
}

/// A level as it is drawn: boxes and ports by child, ports as places in their child's box, sections by edge.
#[derive(Drop)]
pub struct LevelOut {
    pub plan: Plan,
    pub boxes: Items<Point>,
    pub ports: Items<Items<Point>>,
    pub sections: Items<Section>,
    pub certificate: Certificate,
    pub extent: Size,
}

// The parts of a level's drawing, which begins at 0, and how far it reaches.
#[derive(Drop)]
struct Sketch {
    parts: Parts,
    extent: Size,
}

// The parts of a level's drawing, moved so that it begins at 0.
fn sketch_of(alloc: Global, draft: &Draft<'_>, table: Table) -> Result<Sketch, AllocError>
    requires drawable { (layers : List ℕ) × IsDrawable (plain_level draft.now.level.now) (plan_in draft.now) layers }
    requires marked { AreMarks draft.now.reversed.now (length draft.now.level.now.edges) draft.now.is_reversed.now }
    requires table { IsTableOf (plain_level draft.now.level.now) (plan_in draft.now) table }
    ensures { IfOk result (IsSketch (plain_level draft.now.level.now) (plan_in draft.now)) }
{
    let parts = parts_of(alloc, draft, table)?;
    let reach = reach_in(&parts);
    let moved = shifted(alloc, parts, reach.low)?;
    Ok(Sketch {
        parts: moved,
        extent: size_of(reach),
    })
}

/// What a level is drawn from: its units and links, the rows that these began with, their order and the tops of units.
#[derive(Drop)]
pub struct Basis {
    pub layered: Layered,
    pub start: Order,
    pub order: Order,
    pub lines: Lines,
}

/// The drawing of a level as [`draw`] has it, from a table of its docks, anchors and lanes that was made before, and the marks
/// of the edges that are reversed.
///
/// Proved:
/// - The drawing of a level from its units, links, rows and tops: columns, gaps, traces, boxes, ports and sections come from the plan.
///   (`draw`)
/// - Children keep their distances, ports their constraints and routes the rules. (`draw`)
/// - It begins at 0 with a tight extent, for any tops that keep the distances of units. (`draw`)
pub fn draw_by_table(
    alloc: Global,
    level: &LevelIn,
    certificate: Certificate,
    basis: Basis,
    is_reversed: &[bool],
    table: Table,
) -> Result<LevelOut, AllocError>
    requires drawable { IsDrawable (plain_level level.now) (plan_from certificate basis.layered basis.order basis.lines) certificate.layers }
    requires marked { AreMarks certificate.reversed (length level.now.edges) is_reversed.now }
    requires table { IsTableOf (plain_level level.now) (plan_from certificate basis.layered basis.order basis.lines) table }
    ensures given { IfOk result (IsMadeFrom certificate basis.layered basis.start basis.order basis.lines) }
    ensures drawn { IfOk result (IsDrawn (plain_level level.now) (plan_from certificate basis.layered basis.order basis.lines) certificate.layers) }
{
    let draft = Draft {
        level,
        layered: &basis.layered,
        order: &basis.order,
        lines: &basis.lines,
        reversed: certificate.reversed.as_slice(),
        is_reversed,
    };
    let sketch = sketch_of(alloc, &draft, table)?;
    let extent = sketch.extent;
    let parts = sketch.parts;
    Ok(LevelOut {
        plan: Plan {
            layered: basis.layered,
            start: basis.start,
            order: basis.order,
            lines: basis.lines,
            gaps: Items::from_vec(parts.gaps),
            traces: Items::from_vec(parts.traces),
        },
        boxes: Items::from_vec(parts.boxes),
        ports: Items::from_vec(parts.ports),
        sections: Items::from_vec(parts.sections),
        certificate,
        extent,
    })
}

/// The drawing of a level from its units and links, the order of its rows and the tops of its units, in whole document units
/// and in the frame in which its direction runs to the right. Outlines and routes begin at 0. The certificate, the order that
/// the rows began with and what the drawing is made from are kept in it.
///
/// The tops need only keep the distances of units. No layer comes after the last that the certificate lists: it would be a column
/// in which nothing stands, and this engine makes none. The only error is out of memory; what was given is dropped then.
pub fn draw(
    alloc: Global,
    level: &LevelIn,
    certificate: Certificate,
    layered: Layered,
    start: Order,
    order: Order,
    lines: Lines,
) -> Result<LevelOut, AllocError>
    requires { IsDrawable (plain_level level.now) (plan_from certificate layered order lines) certificate.layers }
    ensures given { IfOk result (IsMadeFrom certificate layered start order lines) }
    ensures drawn { IfOk result (IsDrawn (plain_level level.now) (plan_from certificate layered order lines) certificate.layers) }
{
    let marks = marks_of(alloc, certificate.reversed.as_slice(), level.edges.len())?;
    let is_reversed = marks.as_slice();
    let table = table_of(alloc, level, &layered, &order, is_reversed)?;
    let basis = Basis {
        layered,
        start,
        order,
        lines,
    };
    draw_by_table(alloc, level, certificate, basis, is_reversed, table)
}
