//! What is true of drawings that come from layouts, as the contract of a function that does nothing.
ghost use Rattle.compound.specs.Laws.{PlansStay};

/// A level comes from a layout as long as its drawing, its certificate and the size of its node stay, whatever changes elsewhere.
///
/// Proved:
/// - A level that comes from a layout still does while its drawing, its certificate and the size of its node stay the same, whatever
///   changes elsewhere.
pub fn plans_stay()
    ensures { PlansStay }
{}
