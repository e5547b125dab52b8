//! What holds of moved numbers, as the contract of a function that does nothing.
ghost use Rattle.working_frame.specs.Reach.{ReachMoves};

/// Numbers that are moved together have their least and their greatest moved with them.
///
/// Proved:
/// - They move with it.
pub fn reach_moves()
    ensures { ReachMoves }
{}
