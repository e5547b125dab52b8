//! How large the drawing of a level can be, as the contracts of functions that do nothing.
ghost use Rattle.rotated_levels.specs.Extents.{ExtentsAreBounded, ExtentsAreSmall};

/// With c children and e edges, each side of a level that is laid out is at most as long as the outlines of its children in that
/// direction together and 2^22 times (c + e + c e + 1).
///
/// Proved:
/// - For a level with c children and e edges that is laid out, each side of the drawing is at most the sum of two lengths: the
///   outlines of its children in that direction together, and 2^22 times (c + e + c e + 1).
pub fn extents_are_bounded()
    ensures { ExtentsAreBounded }
{}

/// Each side of a level that is laid out is a length of at most 2^48.
///
/// Proved:
/// - For every level this is at most 2^48.
pub fn extents_are_small()
    ensures { ExtentsAreSmall }
{}
