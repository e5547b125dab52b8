//! What is true of every level that is read, each as the contract of a function that does nothing.
ghost use Rattle.level_io.specs.Levels.{LevelsAreLevels, LevelsOfLeavesAreLevels};

/// The level of a node is one that can be drawn, where its leaves keep their sizes and the boxes of its children with their
/// ports are together at most 2^46 wide and high.
///
/// Proved:
/// - If the leaves of such a level keep their sizes, and its boxes and ports are together at most 2^46 wide and high, the level can be
///   drawn.
pub fn levels_are_levels()
    ensures { LevelsAreLevels }
{}

/// Where all children are leaves that keep their sizes, the level can be drawn.
///
/// Proved:
/// - The boxes and ports of any level of leaves are that small.
pub fn levels_of_leaves_are_levels()
    ensures { LevelsOfLeavesAreLevels }
{}
