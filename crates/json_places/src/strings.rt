//! Strings of a text.

use crate::misread::Unread;
use std::alloc::{AllocError, Global};

/// What a string says, and where the text goes on behind it.
#[derive(Drop)]
pub(crate) struct Text {
    pub(crate) said: String,
    pub(crate) end: usize,
    // The first half of a pair that waits for its second, and whether a half stands alone.
    half: Option<u32>,
    is_broken: bool,
}

// What a letter behind a backslash stands for.
fn escaped(letter: char) -> Option<char> {
    match letter {
        '"' | '\\' | '/' => Some(letter),
        'b' => Some('\u{8}'),
        'f' => Some('\u{c}'),
        'n' => Some('\n'),
        'r' => Some('\r'),
        't' => Some('\t'),
        _ => None,
    }
}

fn control(alloc: Global, letter: char) -> Result<String, AllocError> {
    let code = letter as u32;
    let written = match letter {
        '\n' => String::from_str(alloc, "\\n")?,
        '\r' => String::from_str(alloc, "\\r")?,
        '\t' => String::from_str(alloc, "\\t")?,
        _ => format!(in alloc; "\\u{code:04x}")?,
    };
    format!(in alloc; "in a string this character is written {written}")
}

fn no_escape(alloc: Global, letters: &[char], at: usize) -> Result<String, AllocError> {
    let count = match letters.get(at.saturating_add(1)) {
        Some('u') => 6,
        _ => 2,
    };
    let mut found = String::new(alloc);
    for letter in letters.get(at..).unwrap_or(&[]).iter().take(count) {
        found.push(*letter)?;
    }
    format!(in alloc; "{found} is not an escape sequence")
}

// The number of four digits.
fn code_at(letters: &[char], at: usize) -> Option<u32> {
    let mut code: u32 = 0;
    for place in 0..4usize {
        let digit = letters.get(at.saturating_add(place))?.to_digit(16)?;
        code = code.saturating_mul(16).saturating_add(digit);
    }
    Some(code)
}

impl Text {
    fn push(&mut self, letter: char) -> Result<(), AllocError> {
        if self.half.is_some() {
            self.is_broken = true;
            self.half = None;
        }
        self.said.push(letter)
    }

    // Adds a unit of 16 bits. Two that make a pair are one letter.
    fn push_unit(&mut self, unit: u32) -> Result<(), AllocError> {
        let whole = match self.half {
            Some(half) if (0xdc00..0xe000).contains(&unit) => half
                .saturating_sub(0xd800)
                .saturating_mul(0x400)
                .saturating_add(unit.saturating_sub(0xdc00))
                .saturating_add(0x10000),
            _ => unit,
        };
        if whole != unit {
            self.half = None;
        }
        if (0xd800..0xdc00).contains(&whole) {
            self.is_broken = self.is_broken || self.half.is_some();
            self.half = Some(whole);
            return Ok(());
        }
        match char::from_u32(whole) {
            Some(letter) => self.push(letter),
            None => {
                self.is_broken = true;
                Ok(())
            }
        }
    }

    // Reads what a backslash begins.
    fn escape(&mut self, alloc: Global, letters: &[char]) -> Result<(), Unread> {
        let at = self.end;
        let letter = letters.get(at.saturating_add(1)).copied().unwrap_or(' ');
        if letter == 'u' {
            if let Some(code) = code_at(letters, at.saturating_add(2)) {
                self.end = at.saturating_add(6);
                self.push_unit(code)?;
                return Ok(());
            }
        }
        match escaped(letter) {
            Some(said) => {
                self.end = at.saturating_add(2);
                self.push(said)?;
                Ok(())
            }
            None => Err(Unread::at(at, no_escape(alloc, letters, at))),
        }
    }
}

/// Reads the string that begins at a place.
pub(crate) fn string_at(alloc: Global, letters: &[char], start: usize) -> Result<Text, Unread> {
    let mut text = Text {
        said: String::new(alloc),
        end: start.saturating_add(1),
        half: None,
        is_broken: false,
    };
    for _ in 0..letters.len() {
        match letters.get(text.end).copied() {
            Some('"') => {
                text.end = text.end.saturating_add(1);
                return whole(alloc, text, start);
            }
            Some('\\') => text.escape(alloc, letters)?,
            Some(letter) if letter < ' ' => {
                return Err(Unread::at(text.end, control(alloc, letter)));
            }
            Some(letter) => {
                text.push(letter)?;
                text.end = text.end.saturating_add(1);
            }
            None => break,
        }
    }
    let reason = String::from_str(alloc, "the string that begins here has no end");
    Err(Unread::at(start, reason))
}

fn whole(alloc: Global, text: Text, start: usize) -> Result<Text, Unread> {
    if text.is_broken || text.half.is_some() {
        let reason = String::from_str(alloc, "a string has half of a surrogate pair");
        return Err(Unread::at(start, reason));
    }
    Ok(text)
}
