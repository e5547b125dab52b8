//! The bytes that were taken and not given out.
ghost use Rattle.std.specs.Prelude.{◌≡◌, ◌+◌, ◌<◌, ◌≤◌, ◌^◌, ◌++◌, ℕ, List, [], IfOk, OnOk, OnErr, MatchResult, length, take, vec_len};
ghost use Rattle.std.specs.Io.KnownBytes.{Consumes, IsAtEnd, Keeps};
ghost use Rattle.elk_outer.specs.Causes.{HasCause};
ghost use Rattle.elk_lines.specs.Steps.{IsStore, IsDraft, MovesHeld, held};

use crate::draft::{Draft, add, find_feed};
use elk_outer::{Failed, Source};
use std::alloc::AllocError;

/// How many bytes one read may give.
pub(crate) const PIECE: usize = 16384;

/// A piece that was read, and which part of it is still held.
#[derive(Drop)]
pub(crate) struct Store {
    pub(crate) bytes: Vec<u8>,
    pub(crate) start: usize,
    pub(crate) end: usize,
    /// How many bytes were read in all.
    pub(crate) taken: u64,
}

/// Takes the memory for a piece, if it is not there yet.
pub(crate) fn prepare(store: &mut Store) -> Result<(), AllocError>
    requires { IsStore store.old }
    ensures store { IsStore store.new }
    ensures held { held store.new ≡ held store.old }
    ensures taken { store.new.taken ≡ store.old.taken }
    ensures room { OnOk result (PIECE ≤ vec_len store.new.bytes) }
{
    if store.bytes.len() < PIECE {
        store.bytes.resize(PIECE, 0)?;
    }
    Ok(())
}

/// Moves what is held into the draft, up to the first line feed, which goes too. Says whether there was one.
pub(crate) fn move_held(
    store: &mut Store,
    draft: &mut Draft,
    longest: usize,
) -> Result<bool, AllocError>
    requires store { IsStore store.old }
    requires within { vec_len draft.old.bytes ≤ longest }
    ensures store { IsStore store.new }
    ensures within { vec_len draft.new.bytes ≤ longest }
    ensures moved { IfOk result
        (λ found. (bytes : List ℕ) → IsDraft longest bytes draft.old
        → MovesHeld longest bytes (held store.old) (held store.new) draft.new found) }
    ensures same_end { draft.new.ended ≡ draft.old.ended }
    ensures same { (store.new.taken ≡ store.old.taken) × (vec_len store.new.bytes ≡ vec_len store.old.bytes) }
{
    let part = &store.bytes.as_slice()[store.start..store.end];
    match find_feed(part) {
        Some(at) => {
            add(draft, &part[..at], longest)?;
            store.start += at + 1;
            Ok(true)
        }
        None => {
            add(draft, part, longest)?;
            store.start = store.end;
            Ok(false)
        }
    }
}

/// Reads into a part of the bytes.
fn read_into<S: Source>(src: &mut S, bytes: &mut [u8], room: usize) -> Result<usize, Failed>
    requires some { 0 < room }
    requires room { room ≤ length bytes.old }
    ensures count { IfOk result (λ n. n ≤ room) }
    ensures bytes { MatchResult result (λ n. Consumes (S.left src.old) (S.left src.new) (take n bytes.new)) (λ _. Keeps (S.left src.old) (S.left src.new)) }
    ensures end { IfOk result (λ n. n ≡ 0 → IsAtEnd (S.left src.new)) }
    ensures cause { HasCause (S.faults src.old) (S.faults src.new) result }
{
    src.read(&mut bytes[..room])
}

/// Reads a piece into a store that holds nothing.
pub(crate) fn refill<S: Source>(
    src: &mut S,
    store: &mut Store,
    room: usize,
) -> Result<usize, Failed>
    requires some { 0 < room }
    requires room { room ≤ vec_len store.old.bytes }
    requires count { store.old.taken + room < 2 ^ 64 }
    requires store { IsStore store.old }
    ensures store { IsStore store.new }
    ensures size { vec_len store.new.bytes ≡ vec_len store.old.bytes }
    ensures count { IfOk result (λ n. n ≤ room) }
    ensures taken { MatchResult result (λ n. store.new.taken ≡ store.old.taken + n) (λ _. store.new.taken ≡ store.old.taken) }
    ensures bytes { MatchResult result
        (λ n. Consumes (S.left src.old) (S.left src.new) (held store.new) × (length (held store.new) ≡ n))
        (λ _. Keeps (S.left src.old) (S.left src.new)) }
    ensures end { IfOk result (λ n. n ≡ 0 → IsAtEnd (S.left src.new)) }
    ensures cause { HasCause (S.faults src.old) (S.faults src.new) result }
{
    match read_into(src, store.bytes.as_mut_slice(), room) {
        Ok(count) => {
            store.start = 0;
            store.end = count;
            store.taken += count as u64;
            Ok(count)
        }
        Err(failed) => Err(failed),
    }
}

/// How many bytes may be read next: none past the limit but one, and that one only when all others were taken.
pub(crate) fn room_for(taken: u64, limit: u64) -> usize
    requires taken { taken ≤ limit }
    requires limit { limit ≤ 2 ^ 32 }
    ensures some { 0 < result }
    ensures piece { result ≤ PIECE }
    ensures within { taken < limit → taken + result ≤ limit }
    ensures one { taken ≡ limit → result ≡ 1 }
{
    let left = (limit - taken) as usize;
    PIECE.min(left.max(1))
}
