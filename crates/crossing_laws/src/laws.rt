//! Laws of the definitions, each as the contract of a function that does nothing.
ghost use Rattle.crossing_laws.specs.Crossed.{NetsCrossAsDrawn};
ghost use Rattle.crossing_laws.specs.Drawn.{DrawnNetsCross};

/// Two nets of a gap whose slots stand in their order, within the borders, cross as often as their routes do by their slots.
///
/// Proved:
/// - If each slot of a gap stands to the right of the one before it and strictly within the borders at which nets have pins, two nets
///   cross, as they are drawn, as often as their routes do by their slots.
pub fn nets_cross_as_drawn()
    ensures { NetsCrossAsDrawn }
{}

/// In what is drawn from the plan of a level, two nets of a gap cross as often as their routes do by their slots.
///
/// Proved:
/// - In what is drawn from the plan of a level, any two nets of a gap cross as often as their routes do by their slots.
pub fn drawn_nets_cross()
    ensures { DrawnNetsCross }
{}
