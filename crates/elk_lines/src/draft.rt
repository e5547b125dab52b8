//! A line as far as it is known.
ghost use Rattle.std.specs.Prelude.{◌≡◌, ◌<◌, ◌≤◌, ◌++◌, ℕ, List, OnOk, MatchOption, All, ◌≢◌, length, slice_index, take, vec_len};
ghost use Rattle.elk_lines.specs.Reader.{HasNoFeed};
ghost use Rattle.elk_lines.specs.Steps.{IsDraft};

use std::alloc::AllocError;

/// The byte that ends a line.
const FEED: u8 = 10;

/// The bytes of a line up to now, or that they are too many, of which then only some are kept.
#[derive(Drop)]
pub(crate) struct Draft {
    pub(crate) bytes: Vec<u8>,
    pub(crate) long: bool,
    /// Whether the source said that nothing comes after it.
    pub(crate) ended: bool,
}

/// Where the first line feed stands.
pub(crate) fn find_feed(bytes: &[u8]) -> Option<usize>
    ensures { MatchOption result (HasNoFeed bytes.now) (λ at. (at < length bytes.now) × HasNoFeed (take at bytes.now) × (slice_index bytes.now at ≡ 10)) }
{
    for (at, byte) in bytes.iter().enumerate() {
        if *byte == FEED {
            return Some(at);
        }
    }
    None
}

/// Adds bytes to a draft, or marks it where they would be too many.
pub(crate) fn add(draft: &mut Draft, part: &[u8], longest: usize) -> Result<(), AllocError>
    requires { vec_len draft.old.bytes ≤ longest }
    ensures within { vec_len draft.new.bytes ≤ longest }
    ensures same { draft.new.ended ≡ draft.old.ended }
    ensures added { OnOk result ((bytes : List ℕ) → IsDraft longest bytes draft.old → IsDraft longest (bytes ++ part.now) draft.new) }
{
    if draft.long {
        return Ok(());
    }
    if part.len() > longest - draft.bytes.len() {
        draft.long = true;
        return Ok(());
    }
    draft.bytes.extend_from_slice(part)
}
