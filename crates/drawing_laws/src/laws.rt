//! Laws of drawings, each as the contract of a function that does nothing.
ghost use Rattle.drawing_laws.specs.Duality.{FlowShowsLeast};

/// A flow that balances at every child of a level, with the written span as its sum, shows that no layering of the
/// level's orientation has a smaller span.
///
/// Proved:
/// - If a flow balances at every child and its sum is the written span, no layering of the orientation has a smaller span.
pub fn least_by_flow()
    ensures { FlowShowsLeast }
{}
