//! What holds of the parts of every level: each function has a fact as its contract and no body.
ghost use Rattle.level_parts.specs.Laws.{PartsAreLevels, PartsSayTheSame};

/// A part of a level is a level of its own.
pub fn parts_are_levels()
    ensures { PartsAreLevels }
{}

/// Ports, outlines, docks and anchors of a part's children and ends are those of the level, where the same edges are reversed
/// round and the sides have the same orders.
///
/// Proved:
/// - If the same edges are reversed and the sides have the same orders, then ports, outlines, docks and anchors of a part are those of
///   the level.
pub fn parts_say_the_same()
    ensures { PartsSayTheSame }
{}
