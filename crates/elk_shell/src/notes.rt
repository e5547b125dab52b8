//! What goes to stderr.
ghost use Rattle.std.specs.Prelude.{◌≡◌, ◌⊎◌, ◌≤◌};

use elk_outer::{Sink, write_whole};

pub(crate) const READ_FAULT: &[u8] = b"elk-draw: read fault\n";

pub(crate) const WRITE_FAULT: &[u8] = b"elk-draw: write fault\n";

pub(crate) const OUT_OF_MEMORY: &[u8] = b"elk-draw: out of memory\n";

pub(crate) const NOT_TEXT: &[u8] = b"elk-draw: an argument is not UTF-8 text\n";

/// Writes a note and answers the status, or 4 where the note can't be written.
pub(crate) fn noted<N: Sink>(notes: &mut N, note: &[u8], status: u8) -> u8
    ensures status { (result ≡ status) ⊎ (result ≡ 4) }
    ensures failed { 1 ≤ status → 1 ≤ result }
{
    match write_whole(notes, note) {
        Ok(()) => status,
        Err(_) => 4,
    }
}
