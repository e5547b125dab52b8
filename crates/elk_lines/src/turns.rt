//! Reading on until a line is whole.
ghost use Rattle.std.specs.Prelude.{◌≡◌, ◌+◌, ◌<◌, ◌≤◌, ◌^◌, ◌++◌, ◌↔◌, ℕ, List, [], ◌≢◌, true, false, Err, IfOk, OnOk, IfNone, length, vec_len};
ghost use Rattle.std.specs.Io.KnownBytes.{Consumes};
ghost use Rattle.elk_lines.specs.Reader.{HasNoFeed};
ghost use Rattle.elk_lines.specs.Answers.{HasLineCause, IsAnswer};
ghost use Rattle.elk_lines.specs.Steps.{IsStore, IsDraft, AfterTurn, held, told_by};

use crate::answer::{LineFault, Piece};
use crate::draft::Draft;
use crate::store::{PIECE, Store, move_held, prepare, refill, room_for};
use elk_outer::Source;

/// What a whole draft is.
fn piece_of(draft: &Draft) -> Piece
    ensures short { draft.now.long ≡ false → result ≡ Piece.Line }
    ensures long { draft.now.long ≡ true → result ≡ Piece.Long }
{
    if draft.long { Piece::Long } else { Piece::Line }
}

/// What a draft is where nothing comes after it.
fn last_of(draft: &Draft) -> Piece
    ensures long { draft.now.long ≡ true → result ≡ Piece.Long }
    ensures short { draft.now.long ≡ false → draft.now.bytes.items ≢ [] → result ≡ Piece.Line }
    ensures empty { draft.now.long ≡ false → draft.now.bytes.items ≡ [] → result ≡ Piece.End }
{
    if !draft.long && draft.bytes.is_empty() {
        return Piece::End;
    }
    piece_of(draft)
}

/// Reads a piece, where the draft has all that was taken before. None where the line may go on.
fn read_on<S: Source>(
    src: &mut S,
    store: &mut Store,
    draft: &mut Draft,
    longest: usize,
    limit: u64,
) -> Result<Option<Piece>, LineFault>
    requires store { IsStore store.old }
    requires room { PIECE ≤ vec_len store.old.bytes }
    requires within { vec_len draft.old.bytes ≤ longest }
    requires on { draft.old.ended ≡ false }
    requires taken { store.old.taken ≤ limit }
    requires limit { limit ≤ 2 ^ 32 }
    ensures store { IsStore store.new }
    ensures room { PIECE ≤ vec_len store.new.bytes }
    ensures within { vec_len draft.new.bytes ≤ longest }
    ensures bytes { (more : List ℕ) × Consumes (S.left src.old) (S.left src.new) more × (store.new.taken ≡ store.old.taken + length more)
        × ((bytes : List ℕ) → HasNoFeed bytes → IsDraft longest bytes draft.old → AfterTurn longest bytes more draft.new (held store.new) (S.left src.new) result) }
    ensures goes_on { IfOk result (λ r. IfNone r (store.old.taken < store.new.taken)) }
    ensures on { IfOk result (λ r. IfNone r (draft.new.ended ≡ false)) }
    ensures past { (result ≡ Err LineFault.TooLong) ↔ (store.new.taken ≡ limit + 1) }
    ensures limit { store.new.taken ≤ limit + 1 }
    ensures cause { HasLineCause (S.faults src.old) (S.faults src.new) result }
{
    let room = room_for(store.taken, limit);
    match refill(src, store, room) {
        Ok(count) => {
            if count == 0 {
                draft.ended = true;
                return Ok(Some(last_of(draft)));
            }
            if store.taken > limit {
                return Err(LineFault::TooLong);
            }
            Ok(None)
        }
        Err(_failed) => Err(LineFault::Fault),
    }
}

/// Moves what is held into the draft, and reads a piece if there was no line feed. None where the line may go on.
fn turn<S: Source>(
    src: &mut S,
    store: &mut Store,
    draft: &mut Draft,
    longest: usize,
    limit: u64,
) -> Result<Option<Piece>, LineFault>
    requires store { IsStore store.old }
    requires room { PIECE ≤ vec_len store.old.bytes }
    requires within { vec_len draft.old.bytes ≤ longest }
    requires on { draft.old.ended ≡ false }
    requires taken { store.old.taken ≤ limit }
    requires limit { limit ≤ 2 ^ 32 }
    ensures store { IsStore store.new }
    ensures room { PIECE ≤ vec_len store.new.bytes }
    ensures within { vec_len draft.new.bytes ≤ longest }
    ensures bytes { (more : List ℕ) × Consumes (S.left src.old) (S.left src.new) more × (store.new.taken ≡ store.old.taken + length more)
        × ((bytes : List ℕ) → HasNoFeed bytes → IsDraft longest bytes draft.old → AfterTurn longest (bytes ++ held store.old) more draft.new (held store.new) (S.left src.new) result) }
    ensures goes_on { IfOk result (λ r. IfNone r (store.old.taken < store.new.taken)) }
    ensures on { IfOk result (λ r. IfNone r (draft.new.ended ≡ false)) }
    ensures past { (result ≡ Err LineFault.TooLong) ↔ (store.new.taken ≡ limit + 1) }
    ensures limit { store.new.taken ≤ limit + 1 }
    ensures cause { HasLineCause (S.faults src.old) (S.faults src.new) result }
{
    match move_held(store, draft, longest) {
        Ok(found) => {
            if found {
                return Ok(Some(piece_of(draft)));
            }
            read_on(src, store, draft, longest, limit)
        }
        Err(_full) => Err(LineFault::Memory),
    }
}

/// Reads until the draft is a whole line, or nothing is left.
pub(crate) fn gather<S: Source>(
    src: &mut S,
    store: &mut Store,
    draft: &mut Draft,
    longest: usize,
    limit: u64,
) -> Result<Piece, LineFault>
    requires store { IsStore store.old }
    requires room { PIECE ≤ vec_len store.old.bytes }
    requires within { vec_len draft.old.bytes ≤ longest }
    requires empty { IsDraft longest [] draft.old }
    requires on { draft.old.ended ≡ false }
    requires taken { store.old.taken ≤ limit }
    requires limit { limit ≤ 2 ^ 32 }
    ensures store { IsStore store.new }
    ensures within { vec_len draft.new.bytes ≤ longest }
    ensures bytes { (more : List ℕ) × Consumes (S.left src.old) (S.left src.new) more × (store.new.taken ≡ store.old.taken + length more)
        × IsAnswer longest (held store.old ++ more) (held store.new) (told_by draft.new) (S.left src.new) draft.new.ended result }
    ensures past { (result ≡ Err LineFault.TooLong) ↔ (store.new.taken ≡ limit + 1) }
    ensures limit { store.new.taken ≤ limit + 1 }
    ensures cause { HasLineCause (S.faults src.old) (S.faults src.new) result }
{
    'turns: loop {
        match turn(src, store, draft, longest, limit) {
            Ok(Some(piece)) => return Ok(piece),
            Ok(None) => {}
            Err(fault) => return Err(fault),
        }
    }
}

/// The next line, from the first byte that is due.
pub(crate) fn advance<S: Source>(
    src: &mut S,
    store: &mut Store,
    draft: &mut Draft,
    longest: usize,
    limit: u64,
) -> Result<Piece, LineFault>
    requires store { IsStore store.old }
    requires on { draft.old.ended ≡ false }
    requires taken { store.old.taken ≤ limit }
    requires limit { limit ≤ 2 ^ 32 }
    ensures store { IsStore store.new }
    ensures within { vec_len draft.new.bytes ≤ longest }
    ensures bytes { (more : List ℕ) × Consumes (S.left src.old) (S.left src.new) more × (store.new.taken ≡ store.old.taken + length more)
        × IsAnswer longest (held store.old ++ more) (held store.new) (told_by draft.new) (S.left src.new) draft.new.ended result }
    ensures past { (result ≡ Err LineFault.TooLong) ↔ (store.new.taken ≡ limit + 1) }
    ensures limit { store.new.taken ≤ limit + 1 }
    ensures cause { HasLineCause (S.faults src.old) (S.faults src.new) result }
{
    draft.bytes.clear();
    draft.long = false;
    if prepare(store).is_err() {
        return Err(LineFault::Memory);
    }
    gather(src, store, draft, longest, limit)
}
