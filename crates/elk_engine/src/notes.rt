// What goes to the notes.
ghost use Rattle.std.specs.Prelude.{◌≡◌, ◌⊎◌, ◌≤◌, ℕ, IfOk, option_map};
ghost use Rattle.std.specs.Io.KnownBytes.{Appends};
ghost use Rattle.elk_outer.specs.Causes.{Rose};
ghost use Rattle.elk_outer.specs.Whole.{AppendsPart};
ghost use Rattle.elk_engine.specs.Notes.{place_text, refused_note};

use elk_doc::document::Id;
use elk_json::{Refusal, rule_name, rule_number};
use elk_outer::{Sink, write_whole};
use elk_write::id_text;
use std::alloc::{AllocError, Global};

pub(crate) const TOO_LONG: &[u8] = b"refused 0 TooLong -\n";

pub(crate) const READ_FAULT: &[u8] = b"read fault\n";

pub(crate) const WRITE_FAULT: &[u8] = b"write fault\n";

pub(crate) const USAGE: &[u8] =
    b"usage: elk layout\n       elk check\n       elk demo <n>\n       elk batch\n";

pub(crate) const OUT_OF_MEMORY: &[u8] = b"out of memory\n";

/// Where a refusal or a verdict points: an id as JSON text, or `-`.
pub(crate) fn place_text(alloc: Global, place: Option<&Id>) -> Result<Vec<u8>, AllocError>
    ensures { IfOk result (λ text. text.items ≡ place_text (option_map (λ id. id.now) place.entry)) }
{
    match place {
        Some(id) => id_text(alloc, id),
        None => b"-".to_vec(alloc),
    }
}

/// The note of a refusal.
pub(crate) fn refusal_note(alloc: Global, refusal: &Refusal) -> Result<Vec<u8>, AllocError>
    ensures { IfOk result (λ note. note.items ≡ refused_note refusal.now) }
{
    let number = rule_number(refusal.rule);
    let name = rule_name(refusal.rule);
    let place = place_text(alloc, refusal.place.as_ref())?;
    let mut note = format!(in alloc; "refused {number} {name} ")?.into_bytes();
    note.extend_from_slice(&place)?;
    note.push(b'\n')?;
    Ok(note)
}

/// Writes a note and answers the status, or 4 where the note can't be written.
pub(crate) fn noted<N: Sink>(notes: &mut N, note: &[u8], status: u8) -> u8
    ensures noted { ((result ≡ status) × Appends (N.taken notes.old) (N.taken notes.new) note.now)
        ⊎ ((result ≡ 4) × Rose (N.faults notes.old) (N.faults notes.new)
        × AppendsPart (N.taken notes.old) (N.taken notes.new) note.now) }
    ensures later { N.faults notes.old ≤ N.faults notes.new }
    ensures sure { (room : ℕ) → N.sure notes.old room → N.sure notes.new room }
{
    match write_whole(notes, note) {
        Ok(()) => status,
        Err(_) => 4,
    }
}
