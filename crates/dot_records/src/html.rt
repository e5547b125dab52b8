//! Labels in HTML as plain texts. Rows of tables become lines, and between cells stand blanks.

use crate::entities::decoded;
use std::alloc::{AllocError, Global};

// What a tag means for the text around it.
#[derive(Clone, Copy, Drop, PartialEq, Eq)]
enum Gap {
    Nothing,
    Cell,
    Line,
}

// A text that grows word by word, with the gap before its next word.
#[derive(Drop)]
struct Words {
    text: String,
    gap: Gap,
    has_blank: bool,
}

fn is_tag(tag: &str, name: &str) -> bool {
    let tag = tag.trim_end_matches('/').trim();
    match tag.split_once(" ") {
        Some((first, _)) => first.eq_ignore_ascii_case(name),
        None => tag.eq_ignore_ascii_case(name),
    }
}

fn gap_of(tag: &str) -> Gap {
    if is_tag(tag, "br") || is_tag(tag, "tr") || is_tag(tag, "table") {
        Gap::Line
    } else if is_tag(tag, "td") {
        Gap::Cell
    } else {
        Gap::Nothing
    }
}

impl Words {
    fn widen(&mut self, gap: Gap) {
        if gap == Gap::Line || self.gap == Gap::Nothing {
            self.gap = gap;
        }
    }

    fn add(&mut self, letter: char) -> Result<(), AllocError> {
        if letter.is_whitespace() {
            self.has_blank = true;
            return Ok(());
        }
        if !self.text.is_empty() {
            match self.gap {
                Gap::Line => self.text.push('\n')?,
                Gap::Cell => self.text.push_str("  ")?,
                Gap::Nothing if self.has_blank => self.text.push(' ')?,
                Gap::Nothing => {}
            }
        }
        self.gap = Gap::Nothing;
        self.has_blank = false;
        self.text.push(letter)
    }
}

/// The text of a label in HTML.
pub fn html_text(alloc: Global, html: &str) -> Result<String, AllocError> {
    let mut words = Words {
        text: String::new(alloc),
        gap: Gap::Nothing,
        has_blank: false,
    };
    let mut tag = String::new(alloc);
    let mut is_tag = false;
    for letter in html.chars() {
        if is_tag && letter == '>' {
            words.widen(gap_of(tag.as_str()));
            tag.clear();
            is_tag = false;
        } else if is_tag {
            tag.push(letter)?;
        } else if letter == '<' {
            is_tag = true;
        } else {
            words.add(letter)?;
        }
    }
    decoded(alloc, words.text.as_str())
}
