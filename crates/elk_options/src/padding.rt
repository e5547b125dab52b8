//! The text of a padding.
ghost use Rattle.std.specs.Prelude.{◌≡◌, ◌<◌, pos, length, bytes_eq, option_map, unwrap_or, IfSome};
ghost use Rattle.elk_options.specs.PaddingText.{after_spaces, before_spaces, bare, cut, pieces, nothing_given, once, with_side, length_text, with_part, with_parts, padding_of, given_within, before_bracket, between_brackets, padding_text};

use crate::values::unsigned_of;
use elk_doc::document::Padding;

// The sides that have been given.
#[derive(Clone, Copy, Drop)]
pub(crate) struct Given {
    top: Option<u32>,
    left: Option<u32>,
    bottom: Option<u32>,
    right: Option<u32>,
}

fn nothing() -> Given
    ensures { result ≡ nothing_given }
{
    Given {
        top: None,
        left: None,
        bottom: None,
        right: None,
    }
}

fn after_spaces_of(text: &[u8]) -> &[u8]
    ensures { result.now ≡ after_spaces text.now }
{
    let mut rest = text;
    while !rest.is_empty() && rest[0] == b' ' {
        rest = &rest[1..];
    }
    rest
}

fn before_spaces_of(text: &[u8]) -> &[u8]
    ensures { result.now ≡ before_spaces text.now }
{
    let mut front = text;
    while !front.is_empty() && front[front.len() - 1] == b' ' {
        front = &front[..front.len() - 1];
    }
    front
}

// Without the spaces at both ends.
fn bare_of(text: &[u8]) -> &[u8]
    ensures { result.now ≡ bare text.now }
{
    before_spaces_of(after_spaces_of(text))
}

// A side that is given for the first time.
fn once_of(was: Option<u32>, n: u32) -> Option<Option<u32>>
    ensures { result ≡ once was n }
{
    match was {
        None => Some(Some(n)),
        Some(_) => None,
    }
}

fn is_name(name: &[u8], word: &[u8]) -> bool
    ensures { result ≡ bytes_eq name.now word.now }
{
    name == word
}

fn with_side_of(name: &[u8], n: u32, given: Given) -> Option<Given>
    ensures { result ≡ with_side name.now n given }
{
    if is_name(name, b"top") {
        let top = once_of(given.top, n)?;
        Some(Given { top, ..given })
    } else if is_name(name, b"left") {
        let left = once_of(given.left, n)?;
        Some(Given { left, ..given })
    } else if is_name(name, b"bottom") {
        let bottom = once_of(given.bottom, n)?;
        Some(Given { bottom, ..given })
    } else if is_name(name, b"right") {
        let right = once_of(given.right, n)?;
        Some(Given { right, ..given })
    } else {
        None
    }
}

fn length_of(text: &[u8]) -> Option<u32>
    ensures { result ≡ length_text text.now }
{
    let n = unsigned_of(text)?;
    if n <= 1048576 { Some(n as u32) } else { None }
}

// What stands before and after the first such byte.
fn cut_of(byte: u8, text: &[u8]) -> Option<(&[u8], &[u8])>
    ensures cut { option_map (λ p. (p.0.now, p.1.now)) result ≡ cut byte text.now }
    ensures shorter { IfSome result (λ p. length p.1.now < length text.now) }
{
    for (i, b) in text.iter().enumerate() {
        if *b == byte {
            return Some((&text[..i], &text[i + 1..]));
        }
    }
    None
}

// One part: a name, an equals sign and a length.
fn with_part_of(piece: &[u8], given: Given) -> Option<Given>
    ensures { result ≡ with_part piece.now given }
{
    let (name, value) = cut_of(b'=', piece)?;
    let n = length_of(bare_of(value))?;
    with_side_of(bare_of(name), n, given)
}

fn parts_of(text: &[u8]) -> Option<Given>
    ensures { result ≡ with_parts (pieces text.now) nothing_given }
{
    let mut given = nothing();
    let mut rest = text;
    while let Some((piece, more)) = cut_of(b',', rest) {
        given = with_part_of(piece, given)?;
        rest = more;
    }
    with_part_of(rest, given)
}

fn given_of(text: &[u8]) -> Option<Given>
    ensures { result ≡ given_within text.now }
{
    if bare_of(text).is_empty() {
        return Some(nothing());
    }
    parts_of(text)
}

fn before_bracket_of(text: &[u8]) -> Option<&[u8]>
    ensures { option_map (λ s. s.now) result ≡ before_bracket text.now }
{
    if !text.is_empty() && text[text.len() - 1] == b']' {
        Some(&text[..text.len() - 1])
    } else {
        None
    }
}

fn between_brackets_of(text: &[u8]) -> Option<&[u8]>
    ensures { option_map (λ s. s.now) result ≡ between_brackets text.now }
{
    if !text.is_empty() && text[0] == b'[' {
        before_bracket_of(&text[1..])
    } else {
        None
    }
}

fn side(given: Option<u32>) -> i64
    ensures { result ≡ pos (unwrap_or given 0) }
{
    i64::from(given.unwrap_or(0))
}

/// The padding that a text like `[top=12,left=4.0]` gives, in document units; a side that is not named is 0. None where the
/// text is outside the grammar: each name at most once, each number from 0 to 2^20, spaces anywhere between the words.
///
/// Proved:
/// - Padding texts are read by their grammar.
pub fn read_padding(text: &str) -> Option<Padding>
    ensures { result ≡ padding_text text.now }
{
    let inside = between_brackets_of(bare_of(text.as_bytes()))?;
    let given = given_of(inside)?;
    Some(Padding {
        top: side(given.top),
        left: side(given.left),
        bottom: side(given.bottom),
        right: side(given.right),
    })
}
