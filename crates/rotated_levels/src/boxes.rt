//! What comes back into the document, each as the contract of a function that does nothing.
ghost use Rattle.rotated_levels.specs.BoxExamples.{UpwardFits};
ghost use Rattle.rotated_levels.specs.Framed.{FramedBoxesFit};
ghost use Rattle.rotated_levels.specs.Outlines.{DistancesRotateBack, OutlinesRotateBack};

/// The outline of each child comes back as the drawing of the level has it.
///
/// Proved:
/// - Rotating back and moving keep the outlines, for a level that is neither split nor one of boxes.
pub fn outlines_rotate_back()
    ensures { OutlinesRotateBack }
{}

/// The distances of children come back as the drawing of the level keeps them.
///
/// Proved:
/// - They keep the distances of children, for such a level.
pub fn distances_rotate_back()
    ensures { DistancesRotateBack }
{}

/// A box that is framed round the drawing of its level holds the content within its padding, and is no larger than it needs
/// to be.
///
/// Proved:
/// - A box that is framed around the drawing of its level holds the content within its padding, and the content begins there.
/// - It is no larger than it needs to be.
pub fn framed_boxes_fit()
    ensures { FramedBoxesFit }
{}

/// A document that runs up, its drawing, and the drawing of its level meet what these laws ask.
///
/// Proved:
/// - A document that runs up meets the conditions of these laws.
pub fn box_examples()
    ensures { UpwardFits }
{}
