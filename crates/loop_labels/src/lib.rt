//! Labels of self-loops. The loops from a side to the same side are drawn close to their node after the engine's answer, one beyond the
//! other, with their labels beyond them, for which the node keeps room. The labels of any other loop stand beside the lines of one of
//! its ports.
#![tactic(auto)]

mod columns;
mod lanes;
mod lowering;
mod lying;
mod raising;
mod spots;

pub use columns::LoopLabels;
pub use lowering::place_loop_labels;
pub use raising::raise_loop_labels;
