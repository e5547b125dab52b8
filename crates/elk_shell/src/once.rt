//! A run that reads one graph.
ghost use Rattle.std.specs.Prelude.{◌≡◌, ◌≢◌, ◌≤◌, ◌^◌, ℕ, List, IfOk};
ghost use Rattle.std.specs.Io.KnownBytes.{Appends};
ghost use Rattle.elk_shell.specs.Once.{IsDone, IsMade};

use crate::failure::{Failure, failure_of};
use crate::faults::length_fault;
use crate::making::{answer_of, drawing_of, picture_of, placed_of};
use crate::notes::{OUT_OF_MEMORY, READ_FAULT, WRITE_FAULT, noted};
use crate::settings::Settings;
use crate::words::Look;
use elk_outer::{ReadFault, Sink, Source, read_whole, write_whole};
use serde_json::Value;
use std::alloc::{AllocError, Global};

// The most faults that are told.
const MOST_FAULTS: usize = 20;

/// What is made of one graph.
#[derive(Clone, Copy, Drop)]
pub enum Wish {
    /// The engine's answer.
    Answer,
    /// The graph with its places.
    Placed,
    /// The picture of the graph, laid out.
    Drawing(Look),
    /// The picture of the graph as it is.
    Picture(Look),
}

// The most bytes of a graph. One that has places may be longer, as what is written is longer than what is read.
fn limit_of(wish: Wish) -> u64
    ensures { result ≤ 2 ^ 28 }
{
    match wish {
        Wish::Answer => 1 << 24,
        Wish::Placed => 1 << 24,
        Wish::Drawing(_) => 1 << 24,
        Wish::Picture(_) => 1 << 28,
    }
}

fn limit_text(wish: Wish) -> &'static str {
    match wish {
        Wish::Answer => "2^24",
        Wish::Placed => "2^24",
        Wish::Drawing(_) => "2^24",
        Wish::Picture(_) => "2^28",
    }
}

fn made_of(alloc: Global, wish: Wish, settings: &Settings, bytes: &[u8]) -> Result<Vec<u8>, Failure>
    ensures { IfOk result (λ text. IsMade wish bytes.now text.items) }
{
    match wish {
        Wish::Answer => match answer_of(alloc, bytes) {
            Ok(text) => Ok(text),
            Err(fault) => Err(failure_of(alloc, fault)),
        },
        Wish::Placed => placed_of(alloc, bytes, settings),
        Wish::Drawing(look) => drawing_of(alloc, bytes, settings, look),
        Wish::Picture(look) => picture_of(alloc, bytes, look),
    }
}

// One line for each fault.
fn sentences(alloc: Global, faults: &[Value]) -> Result<Vec<u8>, AllocError> {
    let mut note = String::new(alloc);
    for (at, fault) in faults.iter().enumerate() {
        if at == MOST_FAULTS {
            let more = faults.len().saturating_sub(at);
            note.push_str(format!(in alloc; "elk-draw: and {more} more\n")?.as_str())?;
            break;
        }
        if let Some(Value::String(message)) = fault.get("message") {
            let message = message.as_str();
            note.push_str(format!(in alloc; "elk-draw: {message}\n")?.as_str())?;
        }
    }
    Ok(note.into_bytes())
}

// Tells what is wrong.
fn refused<N: Sink>(alloc: Global, faults: &[Value], notes: &mut N) -> u8
    ensures { 1 ≤ result }
{
    match sentences(alloc, faults) {
        Ok(note) => noted(notes, &note, 2),
        Err(_) => noted(notes, OUT_OF_MEMORY, 6),
    }
}

// Writes what was made.
fn written<K: Sink, N: Sink>(text: &[u8], out: &mut K, notes: &mut N) -> u8
    ensures done { result ≡ 0 → Appends (K.taken out.old) (K.taken out.new) text.now }
    ensures no_refusal { result ≢ 2 }
{
    match write_whole(out, text) {
        Ok(()) => 0,
        Err(_) => {
            // It is a write fault even where nobody can be told.
            let _ = write_whole(notes, WRITE_FAULT);
            4
        }
    }
}

fn replied<K: Sink, N: Sink>(
    alloc: Global,
    wish: Wish,
    settings: &Settings,
    bytes: &[u8],
    out: &mut K,
    notes: &mut N,
) -> u8
    ensures done { result ≡ 0 → (text : List ℕ) × IsMade wish bytes.now text × Appends (K.taken out.old) (K.taken out.new) text }
    ensures quiet { result ≡ 2 → K.taken out.new ≡ K.taken out.old }
{
    match made_of(alloc, wish, settings, bytes) {
        Ok(text) => written(&text, out, notes),
        Err(Failure::Refused(faults)) => refused(alloc, faults.as_slice(), notes),
        Err(Failure::Memory) => noted(notes, OUT_OF_MEMORY, 6),
    }
}

// Replies to an input that is longer than it may be.
fn refused_length<N: Sink>(alloc: Global, wish: Wish, notes: &mut N) -> u8
    ensures { 1 ≤ result }
{
    match length_fault(alloc, "the document", limit_text(wish)) {
        Ok(fault) => refused(alloc, &[fault], notes),
        Err(_) => noted(notes, OUT_OF_MEMORY, 6),
    }
}

/// Reads a graph and writes what is wished of it. Answers the status.
///
/// Proved:
/// - The same holds for every run that asks for the answer.
pub fn perform<S: Source, K: Sink, N: Sink>(
    alloc: Global,
    wish: Wish,
    settings: &Settings,
    source: &mut S,
    out: &mut K,
    notes: &mut N,
) -> u8
    // The whole input was read, and what is wished of it was written.
    ensures done { result ≡ 0 → IsDone wish (S.left source.old) (S.left source.new) (K.taken out.old) (K.taken out.new) }
    // Nothing is written where the graph is refused.
    ensures quiet { result ≡ 2 → K.taken out.new ≡ K.taken out.old }
{
    match read_whole(alloc, source, limit_of(wish)) {
        Ok(bytes) => replied(alloc, wish, settings, &bytes, out, notes),
        Err(ReadFault::TooLong) => refused_length(alloc, wish, notes),
        Err(ReadFault::Fault) => noted(notes, READ_FAULT, 3),
        Err(ReadFault::Memory) => noted(notes, OUT_OF_MEMORY, 6),
    }
}
