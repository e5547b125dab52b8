//! What holds of every network: each function has a fact as its contract and no body.

ghost use Rattle.network_laws.specs.Layering.{FlowBounds};
ghost use Rattle.network_laws.specs.Tight.{DoneSolves};

/// A flow that balances at each node bounds the cost of every layering from below.
///
/// Proved:
/// - A balanced flow bounds the cost of every layering of a network from below.
pub fn flow_bounds()
    ensures { FlowBounds }
{}

/// A layering whose tight edges carry a flow that balances costs least.
pub fn done_solves()
    ensures { DoneSolves }
{}
