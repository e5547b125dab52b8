//! Lines and columns of a text.

use std::alloc::{AllocError, Global};

// So much of a long line is told, on either side of a place.
const MOST_BESIDE: usize = 60;

/// A place in a text, with its line.
#[derive(Debug, Drop)]
pub struct Spot {
    /// The line, from 1.
    pub line: usize,
    /// The column, from 1, in units of 16 bits as editors count them.
    pub column: usize,
    /// The line itself, cut off where it is long.
    pub source: String,
    /// Where in that the place is, from 0, in the same units.
    pub mark: usize,
}

/// The lines of a text.
#[derive(Drop)]
pub struct Lines<'a> {
    letters: &'a [char],
    // Where each line begins.
    starts: Vec<usize>,
    // The letters that take two units.
    wide: Vec<usize>,
}

/// The letters of a text.
pub fn letters_of(alloc: Global, text: &str) -> Result<Vec<char>, AllocError> {
    let mut letters = Vec::new(alloc);
    for letter in text.chars() {
        letters.push(letter)?;
    }
    Ok(letters)
}

impl<'a> Lines<'a> {
    /// The lines of a text, by its letters.
    pub fn of(alloc: Global, letters: &'a [char]) -> Result<Lines<'a>, AllocError> {
        let mut starts = Vec::new(alloc);
        let mut wide = Vec::new(alloc);
        starts.push(0)?;
        for (at, letter) in letters.iter().enumerate() {
            if *letter == '\n' {
                starts.push(at.saturating_add(1))?;
            }
            if letter.len_utf16() > 1 {
                wide.push(at)?;
            }
        }
        Ok(Lines {
            letters,
            starts,
            wide,
        })
    }

    // How many units there are between two places.
    fn units(&self, from: usize, to: usize) -> usize {
        let wide = self.wide.as_slice();
        let before = wide.partition_point(|at| *at < from);
        let until = wide.partition_point(|at| *at < to);
        to.saturating_sub(from)
            .saturating_add(until.saturating_sub(before))
    }

    /// The line and the column of a place, which is the number of a letter.
    pub fn spot(&self, alloc: Global, at: usize) -> Result<Spot, AllocError> {
        let line = self.starts.as_slice().partition_point(|start| *start <= at);
        let start = match self.starts.get(line.saturating_sub(1)) {
            Some(start) => *start,
            None => 0,
        };
        let end = match self.starts.get(line) {
            Some(next) => next.saturating_sub(1),
            None => self.letters.len(),
        };
        let from = start.max(at.saturating_sub(MOST_BESIDE));
        let to = end.min(at.saturating_add(MOST_BESIDE));
        let source = self.source(alloc, from, to, (from > start, to < end))?;
        Ok(Spot {
            line,
            column: self.units(start, at).saturating_add(1),
            source,
            mark: self
                .units(from, at)
                .saturating_add(usize::from(from > start)),
        })
    }

    // A piece of a line. What would begin a line of its own, or stand wider than a letter, must not shift the mark.
    fn source(
        &self,
        alloc: Global,
        from: usize,
        to: usize,
        more: (bool, bool),
    ) -> Result<String, AllocError> {
        let mut source = String::new(alloc);
        if more.0 {
            source.push('…')?;
        }
        if let Some(letters) = self.letters.get(from..to) {
            for letter in letters {
                source.push(if *letter < ' ' { ' ' } else { *letter })?;
            }
        }
        if more.1 {
            source.push('…')?;
        }
        Ok(source)
    }
}
