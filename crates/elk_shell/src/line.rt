//! Texts in one line.
ghost use Rattle.std.specs.Prelude.{◌≡◌, ◌∷◌, ◌++◌, [], IfOk, map};
ghost use Rattle.elk_write.specs.Text.{IsOneLine};
ghost use Rattle.elk_shell.specs.Line.{in_line as line_byte};

use std::alloc::{AllocError, Global};

const FEED: u8 = 10;

const BLANK: u8 = 32;

// A byte of a line: a blank in place of a line feed.
fn in_line(byte: u8) -> u8
    ensures { result ≡ line_byte byte }
{
    if byte == FEED { BLANK } else { byte }
}

// Puts blanks in place of line feeds.
fn blank_feeds(bytes: &mut [u8])
    ensures { bytes.new ≡ map line_byte bytes.old }
{
    for byte in bytes.iter_mut() {
        *byte = in_line(*byte);
    }
}

// The bytes with blanks in place of line feeds.
fn without_feeds(alloc: Global, bytes: &[u8]) -> Result<Vec<u8>, AllocError>
    ensures { IfOk result (λ line. line.items ≡ map line_byte bytes.now) }
{
    let mut line = Vec::with_capacity(alloc, bytes.len().saturating_add(1))?;
    line.extend_from_slice(bytes)?;
    blank_feeds(line.as_mut_slice());
    Ok(line)
}

/// The bytes as one line: blanks stand in place of line feeds, and a line feed is added.
pub fn in_one_line(alloc: Global, bytes: &[u8]) -> Result<Vec<u8>, AllocError>
    ensures written { IfOk result (λ line. line.items ≡ map line_byte bytes.now ++ 10 ∷ []) }
    ensures one_line { IfOk result (λ line. IsOneLine line.items) }
{
    let mut line = without_feeds(alloc, bytes)?;
    line.push(FEED)?;
    Ok(line)
}
