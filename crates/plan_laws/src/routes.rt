//! What holds of the routes of a drawing, as the contract of a function that does nothing.
ghost use Rattle.plan_laws.specs.Routes.{RoutesAreKept};

/// What is drawn from a plan has routes that lead from anchor to anchor by right angles, keep out of children, and share a
/// piece only where their edges share a dock.
///
/// Proved:
/// - For any orders and lines that the level has, its routes lead from anchor to anchor with right angles and leave both docks
///   outward.
/// - They keep out of foreign outlines and of all boxes, and share a piece only if their edges share a dock.
pub fn routes_are_kept()
    ensures { RoutesAreKept }
{}
