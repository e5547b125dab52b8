//! What holds of the steps of the routes of a level, as the contracts of functions that do nothing.
ghost use Rattle.plan_laws.specs.Joins.{LegsAreThere, StepsAlternate, TracesJoin};
ghost use Rattle.plan_laws.specs.Nearness.{PointsAreNear};

/// Lanes and legs alternate along the steps of each edge of a plan.
///
/// Proved:
/// - Lanes and legs alternate along the steps of each edge of a plan.
pub fn steps_alternate()
    ensures { StepsAlternate }
{}

/// Where the gaps hold the nets of a plan, each leg of each edge names a net of a gap.
///
/// Proved:
/// - Each leg names a net of a gap.
pub fn legs_are_there()
    ensures { LegsAreThere }
{}

/// Where the gaps hold the nets of a plan, the steps of each edge make a trace through them.
///
/// Proved:
/// - If the gaps hold the nets of a plan, the steps of each edge make a trace through them, from which the edge's route can be joined.
pub fn traces_join()
    ensures { TracesJoin }
{}

/// Where the ends, the gaps and the steps of a trace are near, its points are coordinates of a drawing.
///
/// Proved:
/// - The points of a trace between near gaps, lanes and ends are coordinates of a drawing.
pub fn points_are_near()
    ensures { PointsAreNear }
{}
