//! The characters of a text.

use std::alloc::{AllocError, Global};

// The mark with which a text may say that it is UTF-8.
const MARK: char = '\u{feff}';

/// The characters of a text, and how many bytes of it are UTF-8 before the first that isn't.
#[derive(Drop)]
pub(crate) struct Letters {
    pub(crate) all: Vec<char>,
    pub(crate) invalid: Option<usize>,
}

/// The characters of bytes that are each one, as in Latin-1.
pub(crate) fn latin_letters(alloc: Global, bytes: &[u8]) -> Result<Vec<char>, AllocError> {
    let mut letters = Vec::new(alloc);
    for byte in bytes {
        letters.push(char::from(*byte))?;
    }
    Ok(letters)
}

/// The characters of a text in UTF-8 without its mark.
pub(crate) fn letters_of(alloc: Global, text: &str) -> Result<Vec<char>, AllocError> {
    let mut letters = Vec::new(alloc);
    for letter in text.strip_prefix(MARK).unwrap_or(text).chars() {
        letters.push(letter)?;
    }
    Ok(letters)
}

/// The characters of a text, which is Latin-1 if it isn't UTF-8.
pub(crate) fn decoded(alloc: Global, bytes: &[u8]) -> Result<Letters, AllocError> {
    match str::from_utf8(bytes) {
        Ok(text) => Ok(Letters {
            all: letters_of(alloc, text)?,
            invalid: None,
        }),
        Err(error) => Ok(Letters {
            all: latin_letters(alloc, bytes)?,
            invalid: Some(error.valid_up_to()),
        }),
    }
}
