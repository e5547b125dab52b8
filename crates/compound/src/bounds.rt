//! That nested levels do not grow out of range, as the contracts of functions that do nothing.
ghost use Rattle.compound.specs.Nested.{PlannedBoxesAreSmall, PlannedLevelsHaveRoom};

/// The level of a node has room where all nodes after it are planned, among them its children: these are together at most 2^46 wide
/// and 2^46 high with their ports.
///
/// Proved:
/// - However deep levels are nested, each has room once all levels inside its children are laid out.
/// - More precisely: if all nodes after a node come from layouts and leaves keep their sizes, its children with their ports are
///   together at most 2^46 wide and 2^46 high.
pub fn planned_levels_have_room()
    ensures { PlannedLevelsHaveRoom }
{}

/// A node has a box of at most 2^45 + 2^37 on each side where it and all nodes after it are planned.
///
/// Proved:
/// - The box of a planned node is at most 2^45 + 2^37 long on each side.
pub fn planned_boxes_are_small()
    ensures { PlannedBoxesAreSmall }
{}
