//! What holds of routes in the document, as the contract of a function that does nothing.
ghost use Rattle.rotated_levels.specs.RouteLaws.{RoutesRotateBack};

/// Routes lead from anchor to anchor by right angles, keep out of children, and share a piece only where their edges share a
/// dock, where those of the level's drawing do.
///
/// Proved:
/// - If the routes of the level's drawing lead from anchor to anchor with right angles, so do those in the document.
/// - If they keep out of children, so do those in the document.
/// - If they share a piece only if their edges share a dock, so do those in the document.
pub fn routes_rotate_back()
    ensures { RoutesRotateBack }
{}
