//! Places in a text.
ghost use Rattle.std.specs.Prelude.{◌≤◌};

use std::fmt;

/// A place in a text: its line and its column, both counted from 1. A column is counted in characters.
///
/// Proved:
/// - The line and the column of a place in a text are at least 1.
#[derive(Clone, Copy, Debug, Drop, PartialEq, Eq)]
pub struct Place {
    pub line: usize,
    pub column: usize,
    ghost lines: { 1 ≤ line },
    ghost columns: { 1 ≤ column },
}

impl Place {
    /// The first character of a text.
    pub const FIRST: Place = Place { line: 1, column: 1 };

    /// The place behind a text that stands at the beginning.
    pub fn behind(text: &str) -> Place {
        let last = match text.rsplit_once("\n") {
            Some((_, last)) => last,
            None => text,
        };
        let feeds = text.chars().filter(|letter| *letter == '\n').count();
        Place {
            line: feeds.saturating_add(1),
            column: last.chars().count().saturating_add(1),
        }
    }

    /// The place after a character that stands here.
    pub fn after(self, letter: char) -> Place {
        if letter == '\n' {
            Place {
                line: self.line.saturating_add(1),
                column: 1,
            }
        } else {
            Place {
                line: self.line,
                column: self.column.saturating_add(1),
            }
        }
    }
}

impl fmt::Display for Place {
    fn fmt<W: fmt::Write>(&self, f: &mut fmt::Formatter<W>) -> fmt::Result {
        let (line, column) = (self.line, self.column);
        write!(f, "line {line}, column {column}")
    }
}
