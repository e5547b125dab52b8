//! What holds of moved drawings, as the contract of a function that does nothing.
ghost use Rattle.working_frame.specs.Moved.{DrawingsMove};

/// What is drawn from a plan and moved as a whole is drawn from that plan.
///
/// Proved:
/// - A drawing that is moved as a whole is drawn from the same plan, with slots that keep their promise.
pub fn drawings_move()
    ensures { DrawingsMove }
{}
