//! What stands where in a drawing, each as the contract of a function that does nothing.
ghost use Rattle.std.specs.Prelude.{[], ◌∷◌};
ghost use Rattle.level_model.specs.Apart.{ChildrenKeepApart, OutlinesAreDrawn};
ghost use Rattle.plan_laws.specs.Chained.{chained, chained_orders, chained_plan};
ghost use Rattle.level_model.specs.Laws.{ColumnsStand, DrawnLinesStand, DrawnNetsStand, EndsStand, StageStands, UnitsStand};
ghost use Rattle.level_model.specs.PortsKept.{PortsAreKept};
ghost use Rattle.level_model.specs.Ready.{IsReady};

/// Columns and gaps stand from left to right, and the slots of each gap between its columns.
pub fn columns_stand()
    ensures { ColumnsStand }
{}

/// The units of one layer stand one above the other, and no unit is that of two children.
pub fn units_stand()
    ensures { UnitsStand }
{}

/// Each child lies in its unit and its column, and the anchor of each end in its child's outline, outside the box on its
/// dock's side.
pub fn ends_stand()
    ensures { EndsStand }
{}

/// Each line that a route runs on lies in its unit and clear of its child's outline, and no two lines that reach one border
/// of a unit lie at one height.
pub fn lines_stand()
    ensures { DrawnLinesStand }
{}

/// The nets of each gap keep apart, and each of their pins is the end of a line.
pub fn nets_stand()
    ensures { DrawnNetsStand }
{}

/// Everything in a drawing stands where the laws of pieces of routes ask for it.
///
/// Proved:
/// - Everything that is drawn from the plan of a level stands where it should: columns, gaps, units, ends, lines and nets.
pub fn the_stage_stands()
    ensures { StageStands }
{}

/// The outline round a child's box and ports in a drawing is the one that the plan places.
pub fn outlines_are_drawn()
    ensures { OutlinesAreDrawn }
{}

/// Outlines keep the room of nodes within a layer and the room of layers from layer to layer.
///
/// Proved:
/// - Its children keep their distances.
pub fn children_keep_apart()
    ensures { ChildrenKeepApart }
{}

/// Ports and ends obey the constraints of their children.
///
/// Proved:
/// - Its ports keep their sides, places and order.
pub fn ports_are_kept()
    ensures { PortsAreKept }
{}

/// Three children in a row, one edge of which passes a layer on a lane, meet what these laws ask of a level and its plan.
pub fn chained_level_is_ready()
    ensures { IsReady chained chained_plan chained_orders (0 ∷ 1 ∷ 2 ∷ []) }
{}
