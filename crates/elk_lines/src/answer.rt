//! What a reader of lines answers.
use thiserror::Error;

/// What comes next in a stream of lines.
#[derive(Clone, Copy, Debug, PartialEq, Eq)]
pub enum Piece {
    /// A line.
    Line,
    /// A line that is longer than it may be.
    Long,
    /// Nothing more.
    End,
}

/// Why there is no next line.
#[derive(Clone, Copy, Debug, PartialEq, Eq, Error)]
pub enum LineFault {
    #[error("the source failed")]
    Fault,
    #[error("the input is too long")]
    TooLong,
    #[error("out of memory")]
    Memory,
}
