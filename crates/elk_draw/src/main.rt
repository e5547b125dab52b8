//! The program `elk-draw`.
#![tactic(auto)]

use elk_outer::{StdSink, StdSource, write_whole};
use elk_shell::{is_for_engine, refuse_words, run};
use std::alloc::Global;
use std::process::ExitCode;
use std::{env, io};

const OUT_OF_MEMORY: &[u8] = b"elk-draw: out of memory\n";

// The words after the program's name.
fn words_of(rt: &HostRuntime, alloc: Global) -> io::Result<Vec<String>> {
    let mut words = Vec::new(alloc);
    for word in env::args(rt)?.skip(1) {
        words.push(word)?;
    }
    Ok(words)
}

fn main(rt: HostRuntime) -> ExitCode {
    let alloc = rt.alloc();
    let mut source = StdSource::new(rt.stdin());
    let mut out = StdSink::new(rt.stdout());
    let mut notes = StdSink::new(rt.stderr());
    let words = match words_of(&rt, alloc) {
        Ok(words) => words,
        Err(error) if error.kind() == io::ErrorKind::OutOfMemory => {
            return match write_whole(&mut notes, OUT_OF_MEMORY) {
                Ok(()) => ExitCode::from(6),
                Err(_) => ExitCode::from(4),
            };
        }
        Err(_) => return ExitCode::from(refuse_words(&mut notes)),
    };
    if is_for_engine(words.as_slice()) {
        return ExitCode::from(elk_engine::run(alloc, &words, &mut source, &mut out, &mut notes));
    }
    ExitCode::from(run(alloc, words.as_slice(), &mut source, &mut out, &mut notes))
}
