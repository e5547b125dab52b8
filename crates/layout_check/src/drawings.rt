//! What the definitions say of the drawings, each as the contract of a function that does nothing.
ghost use Rattle.layout_check.specs.BoxLevel.{BoxLevelDrawn, BoxLevelSpoilt};
ghost use Rattle.layout_check.specs.ParallelEdges.{ParallelEdges};
ghost use Rattle.layout_check.specs.RoundTrip.{RoundTripDrawn, RoundTripSpoilt};
ghost use Rattle.layout_check.specs.SplitLevel.{SplitLevelDrawn, SplitLevelSpoilt};

/// Edges to and fro between a port and a node.
///
/// Proved:
/// - Four drawings obey their documents. Among them are a split level with pinned and ordered ports, and a level of boxes. A reversed
///   edge, a loop at one dock and routes that share a piece occur. (`split_level`, `box_level`, `parallel_edges`)
/// - For each definition, one change of such a drawing violates it. (`split_level`, `box_level`, `parallel_edges`)
pub fn round_trip()
    ensures drawn { RoundTripDrawn }
    ensures spoilt { RoundTripSpoilt }
{}

/// Two edges that keep apart.
pub fn parallel_edges()
    ensures { ParallelEdges }
{}

/// A level of boxes.
pub fn box_level()
    ensures drawn { BoxLevelDrawn }
    ensures spoilt { BoxLevelSpoilt }
{}

/// A level whose parts stand apart, with pinned and ordered ports.
pub fn split_level()
    ensures drawn { SplitLevelDrawn }
    ensures spoilt { SplitLevelSpoilt }
{}
