//! The reader of lines.
ghost use Rattle.std.specs.Prelude.{◌≡◌, ◌≤◌, ◌+◌, ◌^◌, ◌++◌, ◌↔◌, ℕ, List, [], None, Some, false, Err, IsErr, IsSome, IsTrue, true, length};
ghost use Rattle.std.specs.Io.KnownBytes.{Consumes};
ghost use Rattle.elk_lines.specs.Answers.{HasLineCause, IsAnswer};

use crate::answer::{LineFault, Piece};
use crate::draft::Draft;
use crate::store::Store;
use crate::turns::advance;
use elk_outer::Source;
use std::alloc::Global;
use std::marker::Model;

/// Gives out the lines of a source, one after the other. What is due is what was taken from the source and not given
/// out, followed by what the source has left. A line ends with a byte 10, which isn't part of it; what follows the
/// last of them is a line where it isn't empty. Where a read gives no bytes the source has ended. Another call asks it
/// again, and a terminal may give more then: a caller that wants no such read stops where `has_ended` says so.
///
/// Proved:
/// - The lines of a stream, in whatever pieces its source delivers them.
/// - A line longer than the limit is skipped.
/// - The reader keeps no more bytes than the longest line may have, and 2^14.
/// - Why there is no further line.
/// - Whether the source had ended at the last answer, so that a caller needn't ask it again.
#[derive(Drop)]
pub struct LineReader {
    store: Store,
    draft: Draft,
    has_line: bool,
    spent: bool,
    longest: usize,
    limit: u64,
}

impl Model for LineReader {
    ghost use Rattle.elk_lines.specs.Reader.{Reader};

    ghost Value = { Reader };

    ghost use Rattle.elk_lines.specs.Steps.{reader_of, IsReader};

    ghost view = { λ r. reader_of r.store r.draft r.has_line r.spent r.longest r.limit };

    ghost invariant = { λ r. IsReader r.store r.draft r.spent r.longest r.limit };
}

fn is_line(piece: Piece) -> bool
    ensures yes { piece ≡ Piece.Line → IsTrue result }
    ensures no { IsTrue result → piece ≡ Piece.Line }
{
    match piece {
        Piece::Line => true,
        Piece::Long => false,
        Piece::End => false,
    }
}

impl LineReader {
    /// A reader of lines of at most `longest` bytes, which takes at most `limit` bytes in all. It takes no memory yet.
    pub fn new(alloc: Global, longest: usize, limit: u64) -> LineReader
        requires longest { longest ≤ 2 ^ 24 }
        requires limit { limit ≤ 2 ^ 32 }
        ensures nothing_held { result.held ≡ [] }
        ensures nothing_taken { result.taken ≡ 0 }
        ensures no_line { result.line ≡ None }
        ensures not_spent { result.spent ≡ false }
        ensures not_ended { result.ended ≡ false }
        ensures nothing_kept { result.kept ≡ 0 }
        ensures bounds { (result.longest ≡ longest) × (result.limit ≡ limit) }
    {
        LineReader {
            store: Store {
                bytes: Vec::new(alloc),
                start: 0,
                end: 0,
                taken: 0,
            },
            draft: Draft {
                bytes: Vec::new(alloc),
                long: false,
                ended: false,
            },
            has_line: false,
            spent: false,
            longest,
            limit,
        }
    }

    /// Gives out the next line and its line feed. `Line`: `line` has its bytes. `Long`: it has more than `longest`
    /// bytes, and `line` tells none of them. `End`: nothing is due. `Fault`: the source failed, and what was taken and
    /// not given out has no line feed. `TooLong`: one byte more than the limit was taken, and no line feed before it is
    /// still due. After an error the reader is spent. Of a line that is too long at most `longest` bytes are kept.
    pub fn next_line<S: Source>(&mut self, src: &mut S) -> Result<Piece, LineFault>
        requires { self.old.spent ≡ false }

        ensures answer { (taken : List ℕ) × Consumes (S.left src.old) (S.left src.new) taken × (self.new.taken ≡ self.old.taken + length taken)
            × IsAnswer self.old.longest (self.old.held ++ taken) self.new.held self.new.line (S.left src.new) self.new.ended result }
        ensures too_long { (result ≡ Err LineFault.TooLong) ↔ (self.new.taken ≡ self.old.limit + 1) }
        ensures within { self.new.taken ≤ self.old.limit + 1 }
        ensures cause { HasLineCause (S.faults src.old) (S.faults src.new) result }
        ensures line { IsSome self.new.line ↔ (result ≡ Ok Piece.Line) }
        ensures spent { IsTrue self.new.spent ↔ IsErr result }
        ensures bounds { (self.new.longest ≡ self.old.longest) × (self.new.limit ≡ self.old.limit) }
        ensures kept { self.new.kept ≤ self.old.longest + 2 ^ 14 }
    {
        self.has_line = false;
        self.draft.ended = false;
        let longest = self.longest;
        let limit = self.limit;
        match advance(src, &mut self.store, &mut self.draft, longest, limit) {
            Ok(piece) => {
                self.has_line = is_line(piece);
                Ok(piece)
            }
            Err(fault) => {
                self.spent = true;
                Err(fault)
            }
        }
    }

    /// The line that was given out last.
    pub fn line(&self) -> &[u8]
        requires { IsSome self.now.line }
        ensures { self.now.line ≡ Some result.now }
    {
        self.draft.bytes.as_slice()
    }

    /// Whether the source had ended at the last answer, so that nothing was due after it. It is so after `End`, and
    /// after a last line without a line feed.
    pub fn has_ended(&self) -> bool
        ensures { result ≡ self.now.ended }
    {
        self.draft.ended
    }

    /// Whether an answer was an error.
    pub fn is_spent(&self) -> bool
        ensures { result ≡ self.now.spent }
    {
        self.spent
    }
}
