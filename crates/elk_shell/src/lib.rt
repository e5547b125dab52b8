//! The shell around the engine, for the program `elk-draw`: it draws a graph, places it, draws one that has places, and replies to
//! requests, one a line. What is wrong is told in a sentence.
//!
//! With `--plain` a document gets the engine's answer, byte for byte. Each reply to a request is one line.
#![tactic(auto)]

mod dot;
mod failure;
mod faults;
mod findings;
mod line;
mod lint;
mod located;
mod making;
mod members;
mod notes;
mod once;
mod replies;
mod requests;
mod serving;
mod settings;
mod subject;
mod top;
mod words;

pub use failure::Failure;
pub use line::in_one_line;
pub use lint::lint_input;
pub use making::{answer_of, drawing_of, picture_of, placed_of};
pub use once::{Wish, perform};
pub use replies::reply_line;
pub use serving::serve;
pub use settings::Settings;
pub use top::{refuse_words, run};
pub use words::{Asked, Look, Task, asked_by, is_for_engine};
