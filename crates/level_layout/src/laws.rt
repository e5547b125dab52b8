//! What holds of every network: each function has a fact as its contract and no body.

ghost use Rattle.level_layout.specs.Low.{LayersStayLow};

/// Where all lengths are 1, a layering of least cost whose parts begin at layer 0 has layers below the number of its nodes.
///
/// Proved:
/// - In any network whose edges have length 1 and weights of at least 1, a layering of minimal cost whose parts begin in layer 0 stays
///   below the number of nodes.
pub fn layers_stay_low()
    ensures { LayersStayLow }
{}
