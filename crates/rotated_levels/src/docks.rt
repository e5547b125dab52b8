//! What a level's drawing says of the document's, each as the contract of a function that does nothing.
ghost use Rattle.rotated_levels.specs.DockLaws.{DocksRotateBack, SidesRotateBack};

/// The sides of ports and ends, and which edges are reversed, are those of the level.
///
/// Proved:
/// - If a document's drawing comes from a drawing of its level, the sides of ports and of edge ends are those of the level, in the
///   frame, and the same edges are reversed.
pub fn sides_rotate_back()
    ensures { SidesRotateBack }
{}

/// Anchors and docks are those of the level.
///
/// Proved:
/// - Then the anchors and docks are those of the level, in the frame.
/// - Two ends have one dock in the document exactly if they have one in the level.
pub fn docks_rotate_back()
    ensures { DocksRotateBack }
{}
