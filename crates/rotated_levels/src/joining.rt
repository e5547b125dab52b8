//! What holds of drawings that are put together, as the contract of a function that does nothing.
ghost use Rattle.rotated_levels.specs.Joined.{DrawingsJoin};

/// Where each connected part of a level is drawn by itself and the drawings stand in rows, the whole keeps the rules of ports and
/// routes, begins at 0 with a tight extent, and its parts keep their distance.
///
/// Proved:
/// - Drawings of the parts of a level, moved apart, keep the rules for ports and routes of the whole level.
pub fn drawings_join()
    ensures { DrawingsJoin }
{}
