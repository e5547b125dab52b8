//! The ink in which texts can be read on a fill that a document asks for.

use crate::look::{
    COLOUR_NAMES, DARK_FILL, INK_ON_DARK, INK_ON_LIGHT, LIGHT_FILL, LIGHTS, MIDDLE_FILL,
};

fn digit_at(digits: &[u8], at: usize) -> usize {
    match digits.get(at).copied() {
        Some(digit @ b'0'..=b'9') => usize::from(digit - b'0'),
        Some(digit @ b'a'..=b'f') => usize::from(digit - b'a') + 10,
        Some(digit @ b'A'..=b'F') => usize::from(digit - b'A') + 10,
        _ => 0,
    }
}

fn pair_at(digits: &[u8], at: usize) -> usize {
    digit_at(digits, at)
        .saturating_mul(16)
        .saturating_add(digit_at(digits, at.saturating_add(1)))
}

// The red, green and blue of a colour from 0 to 255. A colour that isn't given by digits or a known name counts as white.
fn channels_of(colour: &str) -> (usize, usize, usize) {
    if let Some(digits) = colour.strip_prefix("#") {
        let digits = digits.as_bytes();
        return if digits.len() < 5 {
            (
                digit_at(digits, 0).saturating_mul(17),
                digit_at(digits, 1).saturating_mul(17),
                digit_at(digits, 2).saturating_mul(17),
            )
        } else {
            (pair_at(digits, 0), pair_at(digits, 2), pair_at(digits, 4))
        };
    }
    for (name, channels) in COLOUR_NAMES.iter() {
        if colour.eq_ignore_ascii_case(*name) {
            return *channels;
        }
    }
    (255, 255, 255)
}

fn light_of(channel: usize) -> u32 {
    match LIGHTS.get(channel) {
        Some(light) => *light,
        None => 0,
    }
}

// The luminance of a colour as WCAG defines it, in parts of 100,000 of a thousandth of white's.
fn luminance_of((red, green, blue): (usize, usize, usize)) -> u32 {
    light_of(red)
        .saturating_mul(2126)
        .saturating_add(light_of(green).saturating_mul(7152))
        .saturating_add(light_of(blue).saturating_mul(722))
}

const THOUSANDTH: u32 = 100_000;

// Whether a fill of a document hides what lies behind it.
fn is_opaque(fill: &str) -> bool {
    !fill.eq_ignore_ascii_case("none") && !fill.eq_ignore_ascii_case("transparent")
}

// A fill that hides what lies behind it.
pub(crate) fn opaque(fill: Option<&str>) -> Option<&str> {
    match fill {
        Some(fill) if is_opaque(fill) => Some(fill),
        _ => None,
    }
}

fn ink_at(luminance: u32) -> &'static str {
    if luminance >= LIGHT_FILL * THOUSANDTH {
        INK_ON_LIGHT
    } else if luminance > MIDDLE_FILL * THOUSANDTH {
        "#000"
    } else if luminance > DARK_FILL * THOUSANDTH {
        "#FFF"
    } else {
        INK_ON_DARK
    }
}

// The ink of texts on a fill of the document. There is none where the paper shows through.
pub(crate) fn ink_on(fill: Option<&str>) -> Option<&'static str> {
    match opaque(fill) {
        Some(fill) => Some(ink_at(luminance_of(channels_of(fill)))),
        None => None,
    }
}
