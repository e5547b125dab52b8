//! Why a text is not read, and what is wrong with one that is.

use crate::place::Place;
use std::alloc::AllocError;
use thiserror::Error;

// The most warnings that are kept.
const MOST_WARNINGS: usize = 1000;

/// What can't be read, and where. A place counts lines and columns from 1.
#[derive(Debug, Drop, Error)]
#[error("{place}: {message}")]
pub struct Misread {
    pub place: Place,
    pub message: String,
}

/// Why a text is not read.
#[derive(Debug, Drop, Error)]
pub enum DotFault {
    #[error(transparent)]
    Syntax(Misread),
    #[error(transparent)]
    Memory(#[from(alloc)] AllocError),
}

impl DotFault {
    /// The fault with a message that may have failed to be written.
    pub(crate) fn told(place: Place, message: Result<String, AllocError>) -> DotFault {
        match message {
            Ok(message) => DotFault::Syntax(Misread { place, message }),
            Err(error) => DotFault::Memory(error),
        }
    }
}

/// What a reader of the text should know: something has no effect, or another one than expected.
#[derive(Debug, Drop)]
pub struct Warning {
    pub place: Place,
    pub message: String,
}

/// Adds a warning, unless there are very many already.
pub fn add_warning(
    warnings: &mut Vec<Warning>,
    place: Place,
    message: String,
) -> Result<(), AllocError> {
    if warnings.len() < MOST_WARNINGS {
        warnings.push(Warning { place, message })?;
    }
    Ok(())
}
