//! A level in the frame in which its direction runs to the right, and what its drawing is in the words of its plan: lanes at
//! children, nets of gaps, traces, columns, and how boxes, ports and sections come from them.
#![tactic(auto)]

mod level;
mod marks;
mod table;

pub use level::{EdgeEnd, LevelEdge, LevelIn};
pub use marks::marks_of;
pub use table::{ChildAt, EndAt, LoopAt, Table, end_number};
