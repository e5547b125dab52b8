//! What follows of levels, as the contract of a function that does nothing.
ghost use Rattle.rotated_levels.specs.Levels.{LevelsAreDrawn};

/// A level that comes from a drawing in the frame of its direction is drawn as its document asks, and has no more room than it
/// needs.
///
/// Proved:
/// - A level of a document's drawing that comes from a drawing of that level, rotated back, moved and framed, keeps every rule and
///   takes no more room than it needs. This holds if the level is neither split nor one of boxes and the ports of the root are kept
///   separately.
pub fn levels_are_drawn()
    ensures { LevelsAreDrawn }
{}
