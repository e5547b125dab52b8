//! What holds of the routes of a drawn level, as the contract of a function that does nothing.
ghost use Rattle.plan_laws.specs.Lawful.{RoutesAreLawful};

/// Where all that is drawn of a level stands as it should, the route of each edge is lawful.
///
/// Proved:
/// - Every route that is drawn from a plan is made of the four kinds of pieces.
pub fn routes_are_lawful()
    ensures { RoutesAreLawful }
{}
