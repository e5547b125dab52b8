//! Escapes in texts.

use crate::entities::decoded;
use std::alloc::{AllocError, Global};

/// What escapes stand for: `\G`, `\N`, `\E`, `\T` and `\H`. An escape that stands for nothing is its letter.
#[derive(Clone, Copy, Drop)]
pub struct Names<'a> {
    pub graph: &'a str,
    pub node: Option<&'a str>,
    pub edge: Option<&'a str>,
    pub tail: Option<&'a str>,
    pub head: Option<&'a str>,
}

impl<'a> Names<'a> {
    /// The name of a graph alone, without those of a node or an edge.
    pub fn of_graph(graph: &'a str) -> Names<'a> {
        Names {
            graph,
            node: None,
            edge: None,
            tail: None,
            head: None,
        }
    }

    fn of_letter(&self, letter: char) -> Option<&'a str> {
        match letter {
            'G' => Some(self.graph),
            'N' => self.node,
            'E' => self.edge,
            'T' => self.tail,
            'H' => self.head,
            _ => None,
        }
    }
}

// A text with names put in. All other escapes stay.
fn with_names(alloc: Global, text: &str, names: &Names<'_>) -> Result<String, AllocError> {
    let mut out = String::new(alloc);
    let mut is_escaped = false;
    for letter in text.chars() {
        if !is_escaped {
            is_escaped = letter == '\\';
            if !is_escaped {
                out.push(letter)?;
            }
            continue;
        }
        is_escaped = false;
        match names.of_letter(letter) {
            Some(name) => out.push_str(name)?,
            None => {
                out.push('\\')?;
                out.push(letter)?;
            }
        }
    }
    if is_escaped {
        out.push('\\')?;
    }
    Ok(out)
}

// A text whose escapes have been read: ends of lines, and letters that stand for themselves.
fn unescaped(alloc: Global, text: &str) -> Result<String, AllocError> {
    let mut out = String::new(alloc);
    let mut is_escaped = false;
    for letter in text.chars() {
        if is_escaped {
            is_escaped = false;
            out.push(if matches!(letter, 'n' | 'l' | 'r') {
                '\n'
            } else {
                letter
            })?;
        } else if letter == '\\' {
            is_escaped = true;
        } else if letter != '\r' {
            out.push(letter)?;
        }
    }
    Ok(out)
}

/// A text in which names are put in for their escapes, on one line or several. It is for what is no label, as a link.
pub fn plain_text(alloc: Global, text: &str, names: &Names<'_>) -> Result<String, AllocError> {
    let text = with_names(alloc, text, names)?;
    let text = unescaped(alloc, text.as_str())?;
    decoded(alloc, text.as_str())
}

/// The text of a label. A line feed ends a line; the one that ends the last line is left out.
pub fn label_text(alloc: Global, text: &str, names: &Names<'_>) -> Result<String, AllocError> {
    let text = plain_text(alloc, text, names)?;
    match text.as_str().strip_suffix("\n") {
        Some(text) => String::from_str(alloc, text),
        None => Ok(text),
    }
}
