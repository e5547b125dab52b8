//! Colours by their names.

use crate::table::{MORE_NAMES, NAMES, SHADES};

// What SVG calls by names that X11 has for other colours. Names ascend.
const SVG_NAMES: [(&str, u32); 5] = [
    ("gray", 0x808080),
    ("green", 0x008000),
    ("grey", 0x808080),
    ("maroon", 0x800000),
    ("purple", 0x800080),
];

fn found_in(table: &[(&str, u32)], name: &str) -> Option<u32> {
    let at = table.partition_point(|(known, _)| *known < name);
    match table.get(at) {
        Some((known, colour)) if *known == name => Some(*colour),
        _ => None,
    }
}

// The digits at the end of a name, and what stands before them.
fn parted(name: &str) -> (&str, &str) {
    let base = name.trim_end_matches(|letter: char| letter.is_ascii_digit());
    match name.strip_prefix(base) {
        Some(digits) => (base, digits),
        None => (name, ""),
    }
}

// A grey between black, 0, and white, 100.
fn grey(digits: &str) -> Option<u32> {
    let share = match digits.parse::<u32>() {
        Ok(share) if share <= 100 => share,
        _ => return None,
    };
    let light = share.saturating_mul(255).saturating_add(50) / 100;
    // X11 rounds these two down.
    let light = if share == 50 || share == 90 {
        light.saturating_sub(1)
    } else {
        light
    };
    Some(light.saturating_mul(0x10101))
}

fn shade(base: &str, digits: &str) -> Option<u32> {
    if base == "gray" || base == "grey" {
        return grey(digits);
    }
    let at = match digits {
        "1" => 0,
        "2" => 1,
        "3" => 2,
        "4" => 3,
        _ => return None,
    };
    for (known, shades) in SHADES.iter() {
        if *known == base {
            return shades.get(at).copied();
        }
    }
    None
}

/// The red, green and blue of a name in small letters.
pub(crate) fn named(name: &str, is_svg: bool) -> Option<u32> {
    if is_svg {
        if let Some(colour) = found_in(&SVG_NAMES, name) {
            return Some(colour);
        }
    }
    let (base, digits) = parted(name);
    if !digits.is_empty() {
        return shade(base, digits);
    }
    match found_in(&NAMES, name) {
        Some(colour) => Some(colour),
        None => found_in(&MORE_NAMES, name),
    }
}
