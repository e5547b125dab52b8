//! Laws of pieces, each as the contract of a function that does nothing.
ghost use Rattle.level_model.specs.Law.{ClearLaw, RouteLaw, SharingLaw};

/// Routes that are made of the four kinds of pieces share a piece only where their edges share a dock.
///
/// Proved:
/// - They share a piece only if their edges share a dock.
pub fn routes_share_docks()
    ensures { SharingLaw }
{}

/// Such routes keep out of the outlines of foreign children and out of all boxes.
///
/// Proved:
/// - Such routes keep clear of children.
pub fn routes_keep_clear()
    ensures { ClearLaw }
{}

/// Such routes lead from anchor to anchor by right angles, outward from both ends.
///
/// Proved:
/// - If columns, gaps, units and lines stand as they should, routes made of four kinds of pieces lead from anchor to anchor with right
///   angles.
pub fn routes_are_square()
    ensures { RouteLaw }
{}
