//! The frame of a level: a level of a document as children, edges and distances, in the frame in which its direction runs to
//! the right; when the document's drawing comes from a drawing of that level; how far a drawing reaches; and a drawing that is
//! moved as a whole.
#![tactic(auto)]

mod laws;
mod moves;
mod moving;
mod reaching;
mod rotating;
mod spanning;

pub use laws::{
    drawings_read_levels, ends_match, levels_are_listed, levels_read_sizes, levels_rotate,
    numbers_match,
};
pub use moves::drawings_move;
pub use moving::{move_gaps, move_points, move_traces, moved_sections};
pub use reaching::reach_moves;
pub use rotating::rotated_size;
pub use spanning::{Reach, reach_of};
