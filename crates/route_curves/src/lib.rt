//! Slanted and curved routes, made of orthogonal ones. Where a route passes a whole gap between two layers, its pieces there become
//! one slanted line, or one curve with level ends. A gap holds no box, so such a line meets none. Two such pieces cross once if their
//! ends come in opposite orders at the two borders of the gap, and else not at all.
#![tactic(auto)]

mod frame;
mod gaps;
mod lines;
mod stage;
mod stretches;

pub use frame::{Along, Frame, Span, outline_of};
pub use gaps::{Gap, Gaps, Layered, gaps_between};
pub use lines::points_along;
pub use stage::{Curves, ask_for_curves, draw_curves, measure_gaps, options_for, routing_of};
pub use stretches::{Placed, Stretch, flipped, stretches_of};
