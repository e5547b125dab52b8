//! What follows of levels of boxes, as the contract of a function that does nothing.
ghost use Rattle.compound.specs.Boxes.{BoxesAreDrawn};

/// A level of boxes that comes from a layout keeps the ports of its children, has a certificate of the form that is asked for, is
/// drawn as its document asks, and has no more room than it needs.
///
/// Proved:
/// - A level of boxes that comes from such a layout keeps the rules for the ports of its children.
/// - If its children have no negative sizes and the ports of its own node are kept, it keeps every rule and takes no more room than it
///   needs.
pub fn boxes_are_drawn()
    ensures { BoxesAreDrawn }
{}
