//! What the definitions say, each as the contract of a function that does nothing.
ghost use Rattle.working_frame.specs.Examples.{LevelsRotate};
ghost use Rattle.working_frame.specs.Kept.{DrawingsReadLevels, LevelsReadSizes};
ghost use Rattle.working_frame.specs.Numbered.{EndsAlwaysMatch, LevelsAreListed, NumbersAlwaysMatch};

/// The level of a small document under each of the four directions.
///
/// Proved:
/// - A node's level is defined as children, edges and distances, in the frame in which its direction runs to the right. The definition
///   says of a small document what it should, under each of the four directions.
pub fn levels_rotate()
    ensures { LevelsRotate }
{}

/// Children, edges and ports stand at their places among the children and edges of a level and the ports of a node.
///
/// Proved:
/// - Children, edges and ports stand at their places among those of their level and node. (`levels_are_listed`)
pub fn numbers_match()
    ensures { NumbersAlwaysMatch }
{}

/// The children of a level, their ports, and its edges are those of the document, by their numbers.
pub fn levels_are_listed()
    ensures { LevelsAreListed }
{}

/// An edge of a level stands at two of its children, and each end names its child by its place.
///
/// Proved:
/// - Each end of an edge names its child by its place.
pub fn ends_match()
    ensures { EndsAlwaysMatch }
{}

/// A level of a document depends on the sizes of its children's boxes alone.
///
/// Proved:
/// - A level reads only the sizes of its children.
pub fn levels_read_sizes()
    ensures { LevelsReadSizes }
{}

/// A drawing that comes from that of a level still does when it changes elsewhere.
///
/// Proved:
/// - If a document's drawing is that of its level, rotated back and moved, it stays so whatever changes outside the level.
pub fn drawings_read_levels()
    ensures { DrawingsReadLevels }
{}
