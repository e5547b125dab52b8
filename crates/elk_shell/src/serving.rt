//! A run of `--lines`: one reply a line.
ghost use Rattle.std.specs.Prelude.{◌≡◌, ◌≤◌, ℕ, List, false, IfOk, OnOk, IsSome};
ghost use Rattle.std.specs.declared.option.Option.{Option};
ghost use Rattle.elk_lines.specs.declared.answer.Piece.TheVariants.{Line};
ghost use Rattle.elk_write.specs.Text.{IsOneLine};
ghost use Rattle.elk_shell.specs.Replies.{GrowsByLines};

use crate::notes::{OUT_OF_MEMORY, READ_FAULT, WRITE_FAULT, noted};
use crate::replies::{long_reply, reply_line};
use elk_lines::{LineFault, LineReader, Piece};
use elk_outer::{Sink, Source, write_whole};
use std::alloc::Global;

// The most bytes of a line.
const LONGEST: usize = 1 << 24;

// The most bytes of all lines, so that there are no more lines. Each but the last has a line feed.
const LIMIT: u64 = 1 << 32;

const TOO_LONG: &[u8] = b"elk-draw: the input is longer than 2^32 bytes (rule 0, TooLong)\n";

// Why the lines end early.
#[derive(Clone, Copy, Drop)]
enum Halt {
    Read,
    TooLong,
    Write,
    Memory,
}

fn note_of(halt: Halt) -> &'static [u8] {
    match halt {
        Halt::Read => READ_FAULT,
        Halt::TooLong => TOO_LONG,
        Halt::Write => WRITE_FAULT,
        Halt::Memory => OUT_OF_MEMORY,
    }
}

fn status_of(halt: Halt) -> u8
    ensures { 1 ≤ result }
{
    match halt {
        Halt::Read => 3,
        Halt::TooLong => 2,
        Halt::Write => 4,
        Halt::Memory => 6,
    }
}

fn halt_of(fault: LineFault) -> Halt {
    match fault {
        LineFault::Fault => Halt::Read,
        LineFault::TooLong => Halt::TooLong,
        LineFault::Memory => Halt::Memory,
    }
}

// Writes a reply.
fn put<K: Sink>(out: &mut K, reply: Vec<u8>) -> Result<(), Halt>
    requires { IsOneLine reply.items }
    ensures { OnOk result ((first : Option (List ℕ)) → GrowsByLines first (K.taken out.old) → GrowsByLines first (K.taken out.new)) }
{
    match write_whole(out, reply.as_slice()) {
        Ok(()) => Ok(()),
        Err(_) => Err(Halt::Write),
    }
}

// Replies to what the reader gave out.
fn reply_to_piece<K: Sink>(
    alloc: Global,
    reader: &LineReader,
    piece: Piece,
    out: &mut K,
) -> Result<(), Halt>
    requires { piece ≡ Line → IsSome reader.now.line }
    ensures { OnOk result ((first : Option (List ℕ)) → GrowsByLines first (K.taken out.old) → GrowsByLines first (K.taken out.new)) }
{
    match piece {
        Piece::Line => match reply_line(alloc, reader.line()) {
            Ok(reply) => put(out, reply),
            Err(_) => Err(Halt::Memory),
        },
        Piece::Long => match long_reply(alloc) {
            Ok(reply) => put(out, reply),
            Err(_) => Err(Halt::Memory),
        },
        Piece::End => Ok(()),
    }
}

// Reads the next line and writes its reply. Says whether it was the last.
fn reply_next<S: Source, K: Sink>(
    alloc: Global,
    reader: &mut LineReader,
    source: &mut S,
    out: &mut K,
) -> Result<bool, Halt>
    requires { reader.old.spent ≡ false }
    ensures spent { IfOk result (λ _. reader.new.spent ≡ false) }
    ensures lines { OnOk result ((first : Option (List ℕ)) → GrowsByLines first (K.taken out.old) → GrowsByLines first (K.taken out.new)) }
{
    match reader.next_line(source) {
        Ok(piece) => match reply_to_piece(alloc, reader, piece, out) {
            Ok(()) => Ok(reader.has_ended()),
            Err(halt) => Err(halt),
        },
        Err(fault) => Err(halt_of(fault)),
    }
}

// Replies to one line after the other, to the end of the input.
#[tactic(auto, using(crate::proofs::Lines::grown_none))]
fn reply_to_lines<S: Source, K: Sink>(
    alloc: Global,
    source: &mut S,
    out: &mut K,
) -> Result<(), Halt>
    ensures { OnOk result (GrowsByLines (K.taken out.old) (K.taken out.new)) }
{
    let mut reader = LineReader::new(alloc, LONGEST, LIMIT);
    'lines: for _ in 0..LIMIT + 2 {
        match reply_next(alloc, &mut reader, source, out) {
            Ok(true) => return Ok(()),
            Ok(false) => {}
            Err(halt) => return Err(halt),
        }
    }
    Err(Halt::TooLong)
}

/// Replies to each line of the input, in order, before it reads on. Answers the status.
///
/// Proved:
/// - A run of `--lines` that ends with status 0 wrote only whole lines.
pub fn serve<S: Source, K: Sink, N: Sink>(
    alloc: Global,
    source: &mut S,
    out: &mut K,
    notes: &mut N,
) -> u8
    // What is written is lines, one for each reply.
    ensures { result ≡ 0 → GrowsByLines (K.taken out.old) (K.taken out.new) }
{
    match reply_to_lines(alloc, source, out) {
        Ok(()) => 0,
        Err(halt) => noted(notes, note_of(halt), status_of(halt)),
    }
}
