//! Runs of the top call over sources and sinks that give and take pieces, and fail.
use crate::documents::PLACED;
use elk_engine::{Command, command_of, run};
use elk_outer::{MemSink, MemSource, Sink, Source};
use std::alloc::{AllocError, Global};
use std::test::Fail;

const ROOT: &str = r#"{"id":"r"}"#;

const PAIR: &str =
    r#"{"id":"r","children":[{"id":"a","width":30,"height":30},{"id":"b","width":10,"height":40}]}"#;

const DOUBLE: &str = r#"{"id":"r","children":[{"id":"a"},{"id":"a"}]}"#;

// Two nodes and an edge between them, placed, with the columns one too near to each other.
const COLUMNS_NEAR: &str =
    r#"{"children":[{"height":30,"id":"a","width":30,"x":12,"y":12},{"height":30,"id":"b","width":30,"x":61,"y":12}],"edges":[{"id":"e","sections":[{"endPoint":{"x":62,"y":27},"id":"e_s0","startPoint":{"x":42,"y":27}}],"sources":["a"],"targets":["b"]}],"height":54,"id":"r","layering":{"flow":[1],"layers":[0,1],"reversed":[],"span":1},"width":104,"x":0,"y":0}"#;

// Three lines, of which the second is no JSON and the last has no line feed, and their replies.
const LINES: &str = r#"{"id":"r"}
{"id":
{"id":"r"}"#;

const REPLIES: &str =
    r#"{"height":24,"id":"r","layering":{"flow":[],"layers":[],"reversed":[],"span":0},"width":24,"x":0,"y":0}
refused 1 NotJson -
{"height":24,"id":"r","layering":{"flow":[],"layers":[],"reversed":[],"span":0},"width":24,"x":0,"y":0}
"#;

// The replies to the first two.
const FIRST_REPLIES: &str =
    r#"{"height":24,"id":"r","layering":{"flow":[],"layers":[],"reversed":[],"span":0},"width":24,"x":0,"y":0}
refused 1 NotJson -
"#;

// The first reply and a part of the second.
const BROKEN_REPLIES: &str =
    r#"{"height":24,"id":"r","layering":{"flow":[],"layers":[],"reversed":[],"span":0},"width":24,"x":0,"y":0}
ref"#;

const NEVER: u64 = 99;

// A run: the words, the input in pieces of ten bytes, the calls that fail, the room of `out`, and what is wanted.
#[derive(Clone, Copy)]
struct Row {
    words: &'static [&'static str],
    input: &'static str,
    read_fails: u64,
    out_fails: u64,
    notes_fail: u64,
    room: usize,
    status: u8,
    out: &'static str,
    notes: &'static str,
}

// What a row has where it doesn't say anything else.
const USUAL: Row = Row {
    words: &["layout"],
    input: PAIR,
    read_fails: NEVER,
    out_fails: NEVER,
    notes_fail: NEVER,
    room: 512,
    status: 0,
    out: "",
    notes: "",
};

const ROWS: [Row; 11] = [
    Row {
        read_fails: 1,
        status: 3,
        notes: "read fault\n",
        ..USUAL
    },
    Row {
        room: 10,
        status: 4,
        out: r#"{"children"#,
        notes: "write fault\n",
        ..USUAL
    },
    Row {
        input: ROOT,
        out_fails: 0,
        notes_fail: 0,
        status: 4,
        ..USUAL
    },
    Row {
        input: DOUBLE,
        notes_fail: 1,
        status: 4,
        notes: "refused 7 ",
        ..USUAL
    },
    Row {
        words: &["check"],
        input: PLACED,
        read_fails: 1,
        status: 3,
        notes: "read fault\n",
        ..USUAL
    },
    Row {
        words: &["check"],
        input: COLUMNS_NEAR,
        room: 4,
        status: 4,
        out: "no 6",
        notes: "write fault\n",
        ..USUAL
    },
    Row {
        words: &["demo", "10"],
        input: "",
        read_fails: 0,
        room: 14,
        status: 4,
        out: "nodes 10 edges",
        notes: "write fault\n",
        ..USUAL
    },
    Row {
        words: &["batch"],
        input: LINES,
        out: REPLIES,
        ..USUAL
    },
    Row {
        words: &["batch"],
        input: LINES,
        read_fails: 2,
        status: 3,
        out: FIRST_REPLIES,
        notes: "read fault\n",
        ..USUAL
    },
    Row {
        words: &["batch"],
        input: LINES,
        read_fails: 1,
        notes_fail: 0,
        status: 4,
        ..USUAL
    },
    Row {
        words: &["batch"],
        input: LINES,
        room: 107,
        status: 4,
        out: BROKEN_REPLIES,
        notes: "write fault\n",
        ..USUAL
    },
];

/// The words of a command line.
fn words_of(alloc: Global, words: &[&str]) -> Result<Vec<String>, AllocError> {
    let mut list = Vec::new(alloc);
    for word in words {
        list.push(String::from_str(alloc, word)?)?;
    }
    Ok(list)
}

/// A run on these words: its status alone, of all that is promised of it.
pub(crate) fn status_of<S: Source, K: Sink, N: Sink>(
    alloc: Global,
    words: &[&str],
    source: &mut S,
    out: &mut K,
    notes: &mut N,
) -> Result<u8, AllocError> {
    let list = words_of(alloc, words)?;
    Ok(run(alloc, &list, source, out, notes))
}

#[test]
fn words_name_a_command(rt: HostRuntime) -> Result<(), Fail> {
    let list = words_of(rt.alloc(), &["demo", "7"])?;
    assert_eq!(rt; command_of(rt.alloc(), &list)?, Some(Command::Demo(7)));
    Ok(())
}

// Whether the run of a row has the status that is wanted and writes what is wanted.
fn is_as_wanted(alloc: Global, row: &Row) -> Result<bool, AllocError> {
    let input = row.input.as_bytes().to_vec(alloc)?;
    let mut source = MemSource::new(input, 10, [row.read_fails].to_vec(alloc)?);
    let mut out = MemSink::new(alloc, row.room, 10, [row.out_fails].to_vec(alloc)?)?;
    let mut notes = MemSink::new(alloc, 512, 10, [row.notes_fail].to_vec(alloc)?)?;
    let status = status_of(alloc, row.words, &mut source, &mut out, &mut notes)?;
    if status != row.status || out.taken() != row.out.as_bytes() {
        return Ok(false);
    }
    Ok(notes.taken() == row.notes.as_bytes())
}

#[test]
fn rows(rt: HostRuntime) -> Result<(), Fail> {
    for (i, row) in ROWS.iter().enumerate() {
        assert!(rt; is_as_wanted(rt.alloc(), row)?, "row {i}");
    }
    Ok(())
}

#[test]
fn lines_come_byte_by_byte(rt: HostRuntime) -> Result<(), Fail> {
    let alloc = rt.alloc();
    let mut source = MemSource::new(LINES.as_bytes().to_vec(alloc)?, 1, Vec::new(alloc));
    let mut out = MemSink::new(alloc, 512, 512, Vec::new(alloc))?;
    let mut notes = MemSink::new(alloc, 64, 64, Vec::new(alloc))?;
    let status = status_of(alloc, &["batch"], &mut source, &mut out, &mut notes)?;
    assert_eq!(rt; status, 0);
    assert_eq!(rt; out.taken(), REPLIES.as_bytes());
    assert_eq!(rt; notes.taken().len(), 0);
    Ok(())
}
