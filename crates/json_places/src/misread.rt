//! Why a text is no JSON.

use crate::steps::Step;
use std::alloc::AllocError;

/// What is wrong with a text, and where.
#[derive(Debug, Drop)]
pub struct Misread {
    /// The number of the letter at which reading ended.
    pub at: usize,
    /// What is wrong there.
    pub reason: String,
    /// Where arrays and objects are nested deeper than they may: the steps to the innermost, and where each begins, from the outside in.
    pub deep: Option<(Vec<Step>, Vec<usize>)>,
}

/// Why a text is not read.
#[derive(Debug, Drop)]
pub enum Unread {
    Misread(Misread),
    Memory(AllocError),
}

impl From<AllocError> for Unread {
    fn from(error: AllocError) -> Unread {
        Unread::Memory(error)
    }
}

impl Unread {
    /// A fault at a place, with a sentence that may have failed to be written.
    pub(crate) fn at(at: usize, reason: Result<String, AllocError>) -> Unread {
        match reason {
            Ok(reason) => Unread::Misread(Misread {
                at,
                reason,
                deep: None,
            }),
            Err(error) => Unread::Memory(error),
        }
    }
}
