// A run of one command.
ghost use Rattle.std.specs.Prelude.{◌≡◌, ◌≤◌, ◌^◌, ℕ, List, IsTrue, IsFalse};
ghost use Rattle.std.specs.Io.KnownBytes.{Consumes, Keeps};
ghost use Rattle.elk_engine.specs.Words.{IsBounded};
ghost use Rattle.elk_engine.specs.declared.words.Command.TheVariants.{Batch};
ghost use Rattle.elk_engine.specs.Command.{Answers, IsAccepted, IsTooLong, IsWhole, Reads, limit};
ghost use Rattle.elk_engine.specs.Outcome.{Outcome, all_read, stream_of};

use crate::Command;
use crate::batch::batch;
use crate::notes::{OUT_OF_MEMORY, READ_FAULT, TOO_LONG, WRITE_FAULT, noted};
use crate::reply::{Stop, reply_to};
use elk_outer::{ReadFault, Sink, Source, read_whole, write_whole};
use std::alloc::Global;

/// Does what one command asks for.
pub(crate) fn perform<S: Source, K: Sink, N: Sink>(
    alloc: Global,
    command: Command,
    source: &mut S,
    out: &mut K,
    notes: &mut N,
) -> u8
    requires { IsBounded command }
    ensures outcome { (taken : List ℕ) × Consumes (S.left source.old) (S.left source.new) taken
        × Outcome command (record {
          status = result;
          taken = taken;
          source = stream_of S.left S.faults source.old source.new;
          out = stream_of K.taken K.faults out.old out.new;
          notes = stream_of N.taken N.faults notes.old notes.new;
        }) }
    ensures unread { Reads command ⊥ → (S.faults source.new ≡ S.faults source.old) × Keeps (S.left source.old) (S.left source.new) }
    ensures sure_out { (room : ℕ) → K.sure out.old room → K.sure out.new room }
    ensures sure_notes { (room : ℕ) → N.sure notes.old room → N.sure notes.new room }
{
    if is_whole(command) {
        return perform_whole(alloc, command, source, out, notes);
    }
    batch(alloc, source, out, notes)
}

// Whether the command replies to its input as a whole, and not to one line after the other.
fn is_whole(command: Command) -> bool
    ensures yes { IsTrue result → IsWhole command }
    ensures no { IsFalse result → command ≡ Batch }
{
    match command {
        Command::Layout => true,
        Command::Check => true,
        Command::Batch => false,
        Command::Demo(_) => true,
    }
}

// Reads the whole input, if the command does, replies to it and writes the reply.
fn perform_whole<S: Source, K: Sink, N: Sink>(
    alloc: Global,
    command: Command,
    source: &mut S,
    out: &mut K,
    notes: &mut N,
) -> u8
    requires bounded { IsBounded command }
    requires whole { IsWhole command }
    ensures outcome { (taken : List ℕ) × Consumes (S.left source.old) (S.left source.new) taken
        × Outcome command (record {
          status = result;
          taken = taken;
          source = stream_of S.left S.faults source.old source.new;
          out = stream_of K.taken K.faults out.old out.new;
          notes = stream_of N.taken N.faults notes.old notes.new;
        }) }
    ensures unread { Reads command ⊥ → (S.faults source.new ≡ S.faults source.old) × Keeps (S.left source.old) (S.left source.new) }
    ensures sure_out { (room : ℕ) → K.sure out.old room → K.sure out.new room }
    ensures sure_notes { (room : ℕ) → N.sure notes.old room → N.sure notes.new room }
{
    if !is_reader(command) {
        return replied(alloc, command, b"", out, notes);
    }
    match read_whole(alloc, source, limit_of(command)) {
        Ok(bytes) => replied(alloc, command, &bytes, out, notes),
        Err(ReadFault::TooLong) => noted(notes, TOO_LONG, 2),
        Err(ReadFault::Fault) => noted(notes, READ_FAULT, 3),
        Err(ReadFault::Memory) => noted(notes, OUT_OF_MEMORY, 6),
    }
}

// Whether the command reads its input.
fn is_reader(command: Command) -> bool
    ensures yes { IsTrue result → Reads command ⊥ → ⊥ }
    ensures no { IsFalse result → Reads command ⊥ }
{
    match command {
        Command::Layout => true,
        Command::Check => true,
        Command::Batch => true,
        Command::Demo(_) => false,
    }
}

// The most bytes that the command takes of its input.
fn limit_of(command: Command) -> u64
    ensures limit { result ≡ limit command }
    ensures small { IsWhole command → result ≤ 2 ^ 28 }
{
    match command {
        Command::Layout => 1 << 24,
        Command::Check => 1 << 28,
        Command::Batch => 1 << 32,
        Command::Demo(_) => 0,
    }
}

// Replies to the whole input.
pub(crate) fn replied<K: Sink, N: Sink>(
    alloc: Global,
    command: Command,
    bytes: &[u8],
    out: &mut K,
    notes: &mut N,
) -> u8
    requires bounded { IsBounded command }
    requires whole { IsWhole command }
    requires not_long { IsTooLong command bytes.now → ⊥ }
    ensures outcome { Outcome command (record {
      status = result;
      taken = bytes.now;
      source = all_read bytes.now;
      out = stream_of K.taken K.faults out.old out.new;
      notes = stream_of N.taken N.faults notes.old notes.new;
    }) }
    ensures sure_out { (room : ℕ) → K.sure out.old room → K.sure out.new room }
    ensures sure_notes { (room : ℕ) → N.sure notes.old room → N.sure notes.new room }
{
    match reply_to(alloc, command, bytes) {
        Ok(reply) => written(command, bytes, reply.status, &reply.text, out, notes),
        Err(Stop::Refused(note)) => noted(notes, &note, 2),
        Err(Stop::Memory) => noted(notes, OUT_OF_MEMORY, 6),
    }
}

// Writes the reply to an input.
fn written<K: Sink, N: Sink>(
    _command: Command,
    _bytes: &[u8],
    status: u8,
    text: &[u8],
    out: &mut K,
    notes: &mut N,
) -> u8
    requires accepted { IsAccepted _command _bytes.now }
    requires answer { Answers _command _bytes.now status text.now }
    ensures outcome { Outcome _command (record {
      status = result;
      taken = _bytes.now;
      source = all_read _bytes.now;
      out = stream_of K.taken K.faults out.old out.new;
      notes = stream_of N.taken N.faults notes.old notes.new;
    }) }
    ensures sure_out { (room : ℕ) → K.sure out.old room → K.sure out.new room }
    ensures sure_notes { (room : ℕ) → N.sure notes.old room → N.sure notes.new room }
{
    match write_whole(out, text) {
        Ok(()) => status,
        Err(_) => noted(notes, WRITE_FAULT, 4),
    }
}
