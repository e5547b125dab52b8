//! What a reader of a text should know.

use dot_syntax::{Place, Warning, add_warning};
use std::alloc::{AllocError, Global};
use std::collections::BTreeSet;

/// Warnings, one for each place.
#[derive(Drop)]
pub struct Notes {
    alloc: Global,
    warnings: Vec<Warning>,
    // The lines and columns of all that has been told.
    places: BTreeSet<(usize, usize)>,
}

impl Notes {
    /// No warnings.
    pub fn new(alloc: Global) -> Notes {
        Notes {
            alloc,
            warnings: Vec::new(alloc),
            places: BTreeSet::new(alloc),
        }
    }

    /// Whether there is a warning for a place.
    pub fn has(&self, place: Place) -> bool {
        self.places.contains(&(place.line, place.column))
    }

    /// Adds a warning, unless there is one for this place already.
    pub fn add(&mut self, place: Place, message: &str) -> Result<(), AllocError> {
        if self.has(place) {
            return Ok(());
        }
        self.places.insert((place.line, place.column))?;
        let message = String::from_str(self.alloc, message)?;
        add_warning(&mut self.warnings, place, message)
    }

    /// All warnings, in the order in which they were found.
    pub fn into_warnings(self) -> Vec<Warning> {
        self.warnings
    }
}
