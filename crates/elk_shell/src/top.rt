//! The top call.
ghost use Rattle.std.specs.Prelude.{◌≡◌, true};
ghost use Rattle.elk_shell.specs.Asked.{asks_for_answer, texts};
ghost use Rattle.elk_shell.specs.Once.{IsDone};
ghost use Rattle.elk_shell.specs.declared.once.Wish.TheVariants.{Answer};

use crate::lint::lint_input;
use crate::notes::{NOT_TEXT, OUT_OF_MEMORY, WRITE_FAULT, noted};
use crate::once::{Wish, perform};
use crate::serving::serve;
use crate::settings::Settings;
use crate::words::{Asked, Task, asked_by};
use elk_outer::{Sink, Source, write_whole};
use std::alloc::Global;

// Does what a task says.
fn run_task<S: Source, K: Sink, N: Sink>(
    alloc: Global,
    task: Task,
    settings: &Settings,
    source: &mut S,
    out: &mut K,
    notes: &mut N,
) -> u8 {
    match task {
        Task::Place => perform(alloc, Wish::Placed, settings, source, out, notes),
        Task::Draw(look) => perform(alloc, Wish::Drawing(look), settings, source, out, notes),
        Task::DrawPlaced(look) => perform(alloc, Wish::Picture(look), settings, source, out, notes),
        Task::Lint => lint_input(alloc, settings, source, out, notes),
        Task::Serve => serve(alloc, source, out, notes),
    }
}

// Writes the engine's answer.
fn run_plain<S: Source, K: Sink, N: Sink>(
    alloc: Global,
    source: &mut S,
    out: &mut K,
    notes: &mut N,
) -> u8
    ensures done { result ≡ 0 → IsDone Answer (S.left source.old) (S.left source.new) (K.taken out.old) (K.taken out.new) }
    ensures quiet { result ≡ 2 → K.taken out.new ≡ K.taken out.old }
{
    match Settings::plain(alloc) {
        Ok(settings) => perform(alloc, Wish::Answer, &settings, source, out, notes),
        Err(_) => noted(notes, OUT_OF_MEMORY, 6),
    }
}

fn told<K: Sink, N: Sink>(text: &str, out: &mut K, notes: &mut N) -> u8 {
    match write_whole(out, text.as_bytes()) {
        Ok(()) => 0,
        Err(_) => noted(notes, WRITE_FAULT, 4),
    }
}

/// Tells that an argument is no text, and answers the program's status.
pub fn refuse_words<N: Sink>(notes: &mut N) -> u8 {
    noted(notes, NOT_TEXT, 5)
}

/// Does what the arguments ask for, and answers the program's status.
///
/// Proved:
/// - With the argument `--plain` alone and status 0, the whole input was read, and the output is the engine's answer to it. With
///   status 2, nothing was written.
pub fn run<S: Source, K: Sink, N: Sink>(
    alloc: Global,
    words: &[String],
    source: &mut S,
    out: &mut K,
    notes: &mut N,
) -> u8
    // With `--plain` alone, a run that ends with 0 wrote the engine's answer to its whole input, and one that refuses its input wrote nothing.
    ensures answer { asks_for_answer (texts words.now) ≡ true
        → result ≡ 0 → IsDone Answer (S.left source.old) (S.left source.new) (K.taken out.old) (K.taken out.new) }
    ensures quiet { asks_for_answer (texts words.now) ≡ true → result ≡ 2 → K.taken out.new ≡ K.taken out.old }
{
    match asked_by(alloc, words) {
        Ok(Asked::Answer) => run_plain(alloc, source, out, notes),
        Ok(Asked::Run(task, settings)) => run_task(alloc, task, &settings, source, out, notes),
        Ok(Asked::Text(text)) => told(text.as_str(), out, notes),
        Ok(Asked::Wrong(text)) => noted(notes, text.as_bytes(), 5),
        Err(_) => noted(notes, OUT_OF_MEMORY, 6),
    }
}
