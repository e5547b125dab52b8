//! Texts in the largest letters that fit their room.

use crate::decimal::Decimal;
use crate::geometry::Point;
use crate::words::Escaped;
use letter_widths::{TEXT_DROP, TEXT_LINE, TEXT_SMALLEST, begin, width_of};
use std::alloc::{AllocError, Global};
use std::mem;
use std::num::{nearest_usize_to_f64, saturating_f64_to_usize};

// The lines of a text and the size of their letters.
#[derive(Drop)]
pub(crate) struct Fit {
    lines: Vec<String>,
    size: f64,
}

// Which point of a text stands at its place.
#[derive(Clone, Copy, Drop)]
pub(crate) enum Anchor {
    Start,
    Middle,
    End,
}

fn lines_of(alloc: Global, text: &str) -> Result<Vec<String>, AllocError> {
    let mut lines = Vec::new(alloc);
    let mut line = String::new(alloc);
    let mut is_return = false;
    for letter in text.chars() {
        if letter != '\n' && letter != '\r' {
            line.push(letter)?;
        } else if !(letter == '\n' && is_return) {
            lines.push(mem::replace(&mut line, String::new(alloc)))?;
        }
        is_return = letter == '\r';
    }
    lines.push(line)?;
    Ok(lines)
}

// A line in letters of a size, cut off where it is too wide or more follows.
fn shortened(
    alloc: Global,
    line: &str,
    width: f64,
    size: f64,
    has_more: bool,
) -> Result<String, AllocError> {
    if !has_more && width_of(line, size) <= width {
        return String::from_str(alloc, line);
    }
    let begun = begin(alloc, line, width - width_of("…", size), size)?;
    let kept = begun.as_str().trim_end();
    format!(in alloc; "{kept}…")
}

fn widest(lines: &[String]) -> f64 {
    let mut most = 0.1;
    for line in lines {
        most = width_of(line.as_str(), 1.0).max(most);
    }
    most
}

fn count_of(lines: &[String]) -> f64 {
    nearest_usize_to_f64(lines.len())
}

fn cut(
    alloc: Global,
    lines: &[String],
    width: f64,
    height: f64,
    size: f64,
) -> Result<Vec<String>, AllocError> {
    let room = ((height / size - 1.0) / TEXT_LINE).floor() + 1.0;
    let count = saturating_f64_to_usize(room).max(1);
    let mut kept = Vec::new(alloc);
    for line in lines.iter().take(count) {
        let has_more = kept.len().saturating_add(1) == count && count < lines.len();
        kept.push(shortened(alloc, line.as_str(), width, size, has_more)?)?;
    }
    Ok(kept)
}

// A text in the largest letters that fit a room. It is cut off if even the smallest don't fit.
pub(crate) fn fitted(
    alloc: Global,
    text: &str,
    width: f64,
    height: f64,
    largest: f64,
) -> Result<Fit, AllocError> {
    let lines = lines_of(alloc, text)?;
    // The room between lines is needed within a text, and not around it.
    let high = height / ((count_of(lines.as_slice()) - 1.0) * TEXT_LINE + 1.0);
    let size = largest.min(width / widest(lines.as_slice())).min(high);
    // Letters that are asked to be smaller may be.
    let smallest = TEXT_SMALLEST.min(largest);
    if size >= smallest {
        return Ok(Fit { lines, size });
    }
    let lines = cut(alloc, lines.as_slice(), width, height, smallest)?;
    Ok(Fit {
        lines,
        size: smallest,
    })
}

pub(crate) fn height_of(fit: &Fit) -> f64 {
    count_of(fit.lines.as_slice()) * fit.size * TEXT_LINE
}

pub(crate) fn heights_of(fits: &[Fit]) -> f64 {
    let mut sum = 0.0;
    for fit in fits {
        sum += height_of(fit);
    }
    sum
}

fn write_look(
    out: &mut String,
    size: f64,
    anchor: Anchor,
    ink: Option<&str>,
) -> Result<(), AllocError> {
    let size = Decimal(size);
    write!(out, " font-size=\"{size}\"")?;
    match anchor {
        Anchor::Middle => {}
        Anchor::Start => out.push_str(" text-anchor=\"start\"")?,
        Anchor::End => out.push_str(" text-anchor=\"end\"")?,
    }
    if let Some(ink) = ink {
        write!(out, " fill=\"{ink}\"")?;
    }
    Ok(())
}

// A text whose lines stand around the middle of a place. By default it is centred, in the ink of the picture.
pub(crate) fn write_text(
    out: &mut String,
    fit: &Fit,
    place: Point,
    anchor: Anchor,
    ink: Option<&str>,
) -> Result<(), AllocError> {
    let size = fit.size;
    let first = place.y - (count_of(fit.lines.as_slice()) - 1.0) * size * TEXT_LINE / 2.0;
    let mut at = 0.0;
    for line in fit.lines.iter() {
        if !line.is_empty() {
            // Letters stand in the middle where their line is a third of their size below it.
            let (x, y) = (
                Decimal(place.x),
                Decimal(first + at * size * TEXT_LINE + size * TEXT_DROP),
            );
            let text = Escaped(line.as_str());
            write!(out, "<text x=\"{x}\" y=\"{y}\"")?;
            write_look(out, size, anchor, ink)?;
            write!(out, ">{text}</text>")?;
        }
        at += 1.0;
    }
    Ok(())
}
