//! What follows of levels whose parts stand apart, as the contract of a function that does nothing.
ghost use Rattle.compound.specs.PartedDrawn.{PartedLevelsAreDrawn};

/// A level whose connected parts are laid out apart keeps the ports of its children, has a certificate of the form that is asked for,
/// is drawn as its document asks, and has no more room than it needs.
///
/// Proved:
/// - A level with separate parts that comes from such a layout keeps every rule and takes no more room than it needs.
pub fn parted_levels_are_drawn()
    ensures { PartedLevelsAreDrawn }
{}
