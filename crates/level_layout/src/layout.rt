//! The layout of a level.
ghost use Rattle.std.specs.Prelude.{IfOk};
ghost use Rattle.level_model.specs.Conditions.{plain_level, IsLevel};
ghost use Rattle.level_layout.specs.Layout.{IsLaidOut};

use crate::certificates::certificate_for;
use crate::lines::lines_for;
use crate::orienting::orientation;
use crate::phases::{order_for, start_for};
use layer_units::pinned;
use level_draw::{Basis, LevelOut, draw_by_table};
use level_model::LevelIn;
use std::alloc::{AllocError, Global};

/// The layout of one level, in whole document units and in the frame in which its direction runs to the right.
///
/// Its edges are oriented so that no cycle is left, its children lie in layers of least span, rows have few crossings, and lines
/// keep the distances: by alignment, or so that the links are least high together, as the level asks. The drawing begins at 0; it
/// comes with its plan and its certificate. The only error is out of memory.
/// (The layered method of Sugiyama, Tagawa and Toda 1981.)
///
/// Proved:
/// - The layout of every level has a certificate: the reversed edges close cycles with the others, which have none.
/// - Its layers, flow and span are a solution of the network of the oriented edges that aren't self-loops, so no layering of them has
///   a smaller span.
/// - In each connected part, layers and flow are what net_simplex promises for the part's children and edges alone, in document order.
///   The budget is 64 pivots for each of these, without self-loops.
/// - Layers are below the number of children, and self-loops have no flow.
/// - Units and links are numbered by child and edge, with ranks, heights and pins. The units of lanes have no height and no lanes
///   above or below.
/// - Each row starts in the order of its numbers.
/// - If the level asks for the order of the document, or for one that is kept, the children that it holds stand in this order in each
///   row, and no exchange of two neighbours has fewer crossings, unless both are held.
/// - Otherwise the rows have no more crossings than the start and its four sweep orders. From the first of fewest crossings among
///   these, exchanges of neighbours lower the crossings, row by row from the top. The rows are what these exchanges reach, or have
///   fewer crossings than that. No exchange of two neighbours has fewer crossings.
/// - Lines keep the distances, and no unit ends lower than all units stacked.
/// - By alignment the lines are those of the fixed sweep, or of the first of the four with the least height.
/// - By network simplex they minimize the total height of the links, and a flow shows it. Links that alignment keeps straight weigh as
///   much as the level asks.
/// - The drawing is made from all of these. It keeps the distances of children, the constraints of ports and the rules for routes.
/// - It begins at 0 and is as large as it needs to be.
pub fn layout_level(alloc: Global, level: &LevelIn) -> Result<LevelOut, AllocError>
    requires { IsLevel (plain_level level.now) }
    ensures { IfOk result (IsLaidOut level.now) }
{
    let marks = orientation(alloc, level)?;
    let is_reversed = marks.as_slice();
    let certificate = certificate_for(alloc, level, is_reversed)?;
    let start = start_for(alloc, level, &certificate, is_reversed)?;
    let order = order_for(alloc, level, &start.layered, &start.rows)?;
    let fitted = pinned(alloc, level, start.layered, &order, is_reversed)?;
    let lines = lines_for(alloc, level, &fitted.layered, &order)?;
    let basis = Basis {
        layered: fitted.layered,
        start: start.rows,
        order,
        lines,
    };
    draw_by_table(alloc, level, certificate, basis, is_reversed, fitted.table)
}
