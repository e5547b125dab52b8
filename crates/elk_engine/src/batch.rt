// A run of `batch`: one reply a line.
ghost use Rattle.std.specs.Prelude.{◌≡◌, ◌⊎◌, ◌≤◌, ◌<◌, ◌+◌, ◌-◌, ◌^◌, ℕ, List, Ok, Err, IfOk, IfErr, false, length};
ghost use Rattle.std.specs.declared.option.Option.{Option};
ghost use Rattle.std.specs.Io.KnownBytes.{Consumes};
ghost use Rattle.elk_outer.specs.Causes.{Rose};
ghost use Rattle.elk_engine.specs.declared.words.Command.TheVariants.{Batch};
ghost use Rattle.elk_engine.specs.Batch.{longest, IsReply};
ghost use Rattle.elk_engine.specs.Lines.{AfterLine, AreAnswered, IsEnd, IsPut, IsReplyPut, IsTold, halt_of, note_of, status_of};
ghost use Rattle.elk_engine.specs.Outcome.{Outcome, stream_of};

use crate::notes::{OUT_OF_MEMORY, READ_FAULT, TOO_LONG, WRITE_FAULT, noted, refusal_note};
use elk_answer::answer;
use elk_json::DocFault;
use elk_lines::{LineFault, LineReader, Piece};
use elk_outer::{Sink, Source, write_whole};
use std::alloc::{AllocError, Global};

// The most bytes of a line.
const LONGEST: usize = 1 << 24;

// The most bytes of all lines.
const LIMIT: u64 = 1 << 32;

// Why the lines end early.
#[derive(Clone, Copy)]
pub(crate) enum Halt {
    Read,
    TooLong,
    Write,
    Memory,
}

/// Replies to each line of the input, in order.
pub(crate) fn batch<S: Source, K: Sink, N: Sink>(
    alloc: Global,
    source: &mut S,
    out: &mut K,
    notes: &mut N,
) -> u8
    ensures outcome { (taken : List ℕ) × Consumes (S.left source.old) (S.left source.new) taken
        × Outcome Batch (record {
          status = result;
          taken = taken;
          source = stream_of S.left S.faults source.old source.new;
          out = stream_of K.taken K.faults out.old out.new;
          notes = stream_of N.taken N.faults notes.old notes.new;
        }) }
    ensures sure_out { (room : ℕ) → K.sure out.old room → K.sure out.new room }
    ensures sure_notes { (room : ℕ) → N.sure notes.old room → N.sure notes.new room }
{
    match reply_to_lines(alloc, source, out) {
        Ok(()) => 0,
        Err(halt) => noted(notes, note_of(halt), status_of(halt)),
    }
}

// What is noted where the lines end early.
fn note_of(halt: Halt) -> &'static [u8]
    ensures { result.now ≡ note_of halt }
{
    match halt {
        Halt::Read => READ_FAULT,
        Halt::TooLong => TOO_LONG,
        Halt::Write => WRITE_FAULT,
        Halt::Memory => OUT_OF_MEMORY,
    }
}

// The status where the lines end early.
fn status_of(halt: Halt) -> u8
    ensures { result ≡ status_of halt }
{
    match halt {
        Halt::Read => 3,
        Halt::TooLong => 2,
        Halt::Write => 4,
        Halt::Memory => 6,
    }
}

// Replies to one line after the other, to the end of the input.
#[tactic(auto, using(crate::proofs::BatchLemmas::answered_none))]
fn reply_to_lines<S: Source, K: Sink>(
    alloc: Global,
    source: &mut S,
    out: &mut K,
) -> Result<(), Halt>
    ensures bytes { IsEnd (S.left source.old) (S.left source.new) (K.taken out.old) (K.taken out.new) result }
    ensures read { result ≡ Err Halt.Read → Rose (S.faults source.old) (S.faults source.new) }
    ensures write { result ≡ Err Halt.Write → Rose (K.faults out.old) (K.faults out.new) }
    ensures sure { (room : ℕ) → K.sure out.old room → K.sure out.new room }
{
    let mut reader = LineReader::new(alloc, LONGEST, LIMIT);
    'lines: loop {
        match reply_next(alloc, &mut reader, source, out) {
            Ok(true) => return Ok(()),
            Ok(false) => {}
            Err(halt) => return Err(halt),
        }
    }
}

// Reads the next line and writes its reply. Says whether it was the last, so that nothing more is read.
fn reply_next<S: Source, K: Sink>(
    alloc: Global,
    reader: &mut LineReader,
    source: &mut S,
    out: &mut K,
) -> Result<bool, Halt>
    requires spent { reader.old.spent ≡ false }
    requires longest { reader.old.longest ≡ longest }
    requires limit { reader.old.limit ≡ 2 ^ 32 }
    ensures bytes { (left out0 : Option (List ℕ)) → AreAnswered left (S.left source.old) out0 (K.taken out.old) reader.old.held reader.old.taken
        → AfterLine left (S.left source.new) out0 (K.taken out.new) reader.new.held reader.new.taken result }
    ensures progress { result ≡ Ok false → (2 ^ 32 + 1 - reader.new.taken) + length reader.new.held < (2 ^ 32 + 1 - reader.old.taken) + length reader.old.held }
    ensures spent { IfOk result (λ _. reader.new.spent ≡ false) }
    ensures bounds { (reader.new.longest ≡ reader.old.longest) × (reader.new.limit ≡ reader.old.limit) }
    ensures later { (S.faults source.old ≤ S.faults source.new) × (K.faults out.old ≤ K.faults out.new) }
    ensures read { result ≡ Err Halt.Read → Rose (S.faults source.old) (S.faults source.new) }
    ensures write { result ≡ Err Halt.Write → Rose (K.faults out.old) (K.faults out.new) }
    ensures sure { (room : ℕ) → K.sure out.old room → K.sure out.new room }
{
    match reader.next_line(source) {
        Ok(piece) => reply_to_piece(alloc, reader, piece, out),
        Err(fault) => Err(halt_of(fault)),
    }
}

// The halt at a line that can't be read.
fn halt_of(fault: LineFault) -> Halt
    ensures { result ≡ halt_of fault }
{
    match fault {
        LineFault::Fault => Halt::Read,
        LineFault::TooLong => Halt::TooLong,
        LineFault::Memory => Halt::Memory,
    }
}

// Writes the reply to what the reader gave out. Says whether it was the last.
fn reply_to_piece<K: Sink>(
    alloc: Global,
    reader: &LineReader,
    piece: Piece,
    out: &mut K,
) -> Result<bool, Halt>
    requires { IsTold reader.now.line piece }
    ensures put { IsPut piece reader.now.line reader.now.ended (K.taken out.old) (K.taken out.new) result }
    ensures later { K.faults out.old ≤ K.faults out.new }
    ensures read { result ≡ Err Halt.Read → ⊥ }
    ensures write { result ≡ Err Halt.Write → Rose (K.faults out.old) (K.faults out.new) }
    ensures sure { (room : ℕ) → K.sure out.old room → K.sure out.new room }
{
    match piece {
        Piece::Line => match line_reply(alloc, reader.line()) {
            Ok(reply) => put(reader, out, &reply),
            Err(_) => Err(Halt::Memory),
        },
        Piece::Long => put(reader, out, TOO_LONG),
        Piece::End => Ok(reader.has_ended()),
    }
}

// The reply to a line that isn't too long.
fn line_reply(alloc: Global, line: &[u8]) -> Result<Vec<u8>, AllocError>
    requires { length line.now ≤ longest }
    ensures { IfOk result (λ reply. IsReply line.now reply.items) }
{
    match answer(alloc, line) {
        Ok(text) => Ok(text),
        Err(DocFault::Refused(refusal)) => refusal_note(alloc, &refusal),
        Err(DocFault::Memory) => Err(AllocError),
    }
}

// Writes the reply to the line that was read. Says whether it was the last.
fn put<K: Sink>(reader: &LineReader, out: &mut K, reply: &[u8]) -> Result<bool, Halt>
    ensures put { IsReplyPut reply.now reader.now.ended (K.taken out.old) (K.taken out.new) result }
    ensures read { result ≡ Err Halt.Read → ⊥ }
    ensures write { result ≡ Err Halt.Write → Rose (K.faults out.old) (K.faults out.new) }
    ensures later { K.faults out.old ≤ K.faults out.new }
    ensures sure { (room : ℕ) → K.sure out.old room → K.sure out.new room }
{
    match write_whole(out, reply) {
        Ok(()) => Ok(reader.has_ended()),
        Err(_) => Err(Halt::Write),
    }
}
