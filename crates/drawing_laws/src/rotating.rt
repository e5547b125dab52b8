//! Laws of the frame of a direction, each as the contract of a function that does nothing.
ghost use Rattle.drawing_laws.specs.Frames.{DistancesRotate, DocksRotate, PathsRotate, RotatesBack};
ghost use Rattle.drawing_laws.specs.Rotating.{BoxesRotate, RoutesRotate, SidesRotate};

/// A direction runs to the east in its frame, and ways that leave a side outward do so there.
///
/// Proved:
/// - So is leaving a side outward.
pub fn sides_rotate()
    ensures { SidesRotate }
{}

/// Steps and turns of routes are the same in the frame of a direction.
///
/// Proved:
/// - Steps and turns of routes are the same in the frame of each direction.
pub fn routes_rotate()
    ensures { RoutesRotate }
{}

/// What a rectangle holds, and which segments meet or enter it, is the same in the frame of a direction.
///
/// Proved:
/// - So are rectangles that contain one another, and segments that meet or enter a rectangle.
pub fn boxes_rotate()
    ensures { BoxesRotate }
{}

/// The way back from the frame of a direction.
///
/// Proved:
/// - Rotating there and back changes nothing.
pub fn rotates_back()
    ensures { RotatesBack }
{}

/// Offsets and docks in the frame of a direction.
///
/// Proved:
/// - So are docks.
pub fn docks_rotate()
    ensures { DocksRotate }
{}

/// Paths are orthogonal, keep clear of children and share pieces in the frame of a direction exactly where they do.
///
/// Proved:
/// - So are whole paths, what they keep clear of and what they share.
pub fn paths_rotate()
    ensures { PathsRotate }
{}

/// Padding and the distances of boxes are kept in the frame of a direction exactly where they are.
///
/// Proved:
/// - So are padding and the distances of boxes.
pub fn distances_rotate()
    ensures { DistancesRotate }
{}
