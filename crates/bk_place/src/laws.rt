//! What holds of the lines of a sweep, as the contract of a function that does nothing.
ghost use Rattle.bk_place.specs.Straight.{LanesAreHorizontal};

/// Where no two links between lanes cross, and each lane has at most one link on each side, the lanes of each long edge
/// stand at one height.
///
/// Proved:
/// - Then the lanes of each long edge stand at one height.
pub fn lanes_are_horizontal()
    ensures { LanesAreHorizontal }
{}
