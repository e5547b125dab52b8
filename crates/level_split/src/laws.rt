//! What holds of levels that are laid out part by part, as the contract of a function that does nothing.
ghost use Rattle.level_split.specs.Laws.{PartsAreBounded, PartsAreDrawn};

/// A level that is laid out part by part keeps the rules of ports and routes, its parts stand clear of one another, and its
/// certificate is one of the whole level.
///
/// Proved:
/// - Such a drawing keeps every rule, with the parts clear of one another.
pub fn parts_are_drawn()
    ensures { PartsAreDrawn }
{}

/// With c children and e edges, each side of a level that is laid out part by part is at most as long as the outlines of its children
/// in that direction together and 2^22 times (3 c + e + c e + 1).
///
/// Proved:
/// - For a level with c children and e edges, the drawing is no larger than the outlines and 2^22 times (3 c + e + c e + 1).
pub fn parts_are_bounded()
    ensures { PartsAreBounded }
{}
