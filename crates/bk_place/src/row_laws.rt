//! What holds of the links that the sweeps choose, as the contract of a function that does nothing.
ghost use Rattle.bk_place.specs.Lanes.{LanesStayStraight};

/// Where no two links between lanes cross, and each lane has at most one link on each side, every sweep chooses all links
/// between lanes, so long edges come out straight.
///
/// Proved:
/// - If no two links between lanes cross, and each lane has at most one link on each side, every sweep chooses all links between
///   lanes.
pub fn lanes_stay_straight()
    ensures { LanesStayStraight }
{}
