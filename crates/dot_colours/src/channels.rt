//! Colours by a hue, a saturation and a value, each from 0 to 1.

use std::alloc::{AllocError, Global};
use std::num::saturating_f64_to_u32;

fn limited(number: f64) -> f64 {
    number.max(0.0).min(1.0)
}

fn channel(share: f64) -> u32 {
    saturating_f64_to_u32(limited(share) * 255.0).min(255)
}

fn joined(red: f64, green: f64, blue: f64) -> u32 {
    channel(red)
        .saturating_mul(0x10000)
        .saturating_add(channel(green).saturating_mul(0x100))
        .saturating_add(channel(blue))
}

fn turned(hue: f64, saturation: f64, value: f64) -> u32 {
    let hue = if hue >= 1.0 { 0.0 } else { hue * 6.0 };
    let part = hue - hue.floor();
    let low = value * (1.0 - saturation);
    let falling = value * (1.0 - saturation * part);
    let rising = value * (1.0 - saturation * (1.0 - part));
    match saturating_f64_to_u32(hue.floor()) {
        0 => joined(value, rising, low),
        1 => joined(falling, value, low),
        2 => joined(low, value, rising),
        3 => joined(low, falling, value),
        4 => joined(rising, low, value),
        _ => joined(value, low, falling),
    }
}

/// The red, green and blue of three numbers with blanks or commas between them.
pub(crate) fn of_hue(alloc: Global, text: &str) -> Result<Option<u32>, AllocError> {
    let mut numbers = Vec::new(alloc);
    for word in text.split(|letter: char| letter == ' ' || letter == ',' || letter == '\t') {
        if !word.is_empty() {
            match word.parse::<f64>() {
                Ok(number) if number.is_finite() => numbers.push(limited(number))?,
                _ => return Ok(None),
            }
        }
    }
    Ok(match (numbers.get(0), numbers.get(1), numbers.get(2)) {
        (Some(hue), Some(saturation), Some(value)) => Some(turned(*hue, *saturation, *value)),
        _ => None,
    })
}
