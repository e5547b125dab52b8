//! What the definitions say of small levels, and of links that cross, as contracts of functions that do nothing.
ghost use Rattle.level_model.specs.Examples.{ParallelEdges, WestParts, WestPort};
ghost use Rattle.plan_laws.specs.MoreExamples.{AllLoops, NorthPort};
ghost use Rattle.plan_laws.specs.Crossed.{LinksCrossAsInRows};

/// The definitions say of four small levels what they should.
///
/// Proved:
/// - The definitions of lanes, nets, traces and columns say of four small levels what they should.
pub fn examples()
    ensures parallel { ParallelEdges }
    ensures west { WestPort }
    ensures parts { WestParts }
    ensures north { NorthPort }
    ensures loops { AllLoops }
{}

/// Where the nets of a gap cross no more often than they have to, two links cross in it as often as in the rows, if their pins
/// stand as in the rows.
///
/// Proved:
/// - If the nets of a gap cross no more often than they have to, two links whose pins stand as in the rows cross in the gap as often
///   as in the rows. Two links at one child whose ends are spread have the same place in the rows, so this law doesn't cover them.
pub fn links_cross_as_in_rows()
    ensures { LinksCrossAsInRows }
{}
