//! Lines, in whatever pieces they come.
ghost use Rattle.std.specs.Prelude.{◌≡◌, None, false};

use elk_lines::{LineFault, LineReader, Piece};
use elk_outer::{Failed, MemSource, Source};
use std::alloc::{AllocError, Global};
use std::test::Fail;

/// Writes the next answer as a text: `=` and the line, `+` for a long line, `.` for the end, `!` and `>` for the faults.
fn tell<S: Source>(
    reader: &mut LineReader,
    src: &mut S,
    told: &mut String,
) -> Result<(), AllocError>
    requires { reader.old.spent ≡ false }
{
    match reader.next_line(src) {
        Ok(Piece::Line) => {
            told.push('=')?;
            for byte in reader.line() {
                told.push(*byte as char)?;
            }
            Ok(())
        }
        Ok(Piece::Long) => told.push('+'),
        Ok(Piece::End) => told.push('.'),
        Err(LineFault::Fault) => told.push('!'),
        Err(LineFault::TooLong) => told.push('>'),
        Err(LineFault::Memory) => Err(AllocError),
    }
}

/// What is read.
#[derive(Clone, Copy)]
struct Stream<'a> {
    bytes: &'a [u8],
    /// The most bytes of one read.
    piece: usize,
    /// The numbers of the reads that fail.
    fails: &'a [u64],
}

/// The first answers of a reader, up to its first fault.
fn answers(
    alloc: Global,
    longest: usize,
    limit: u64,
    stream: Stream,
) -> Result<String, AllocError> {
    let bytes = Vec::from_slice(alloc, stream.bytes)?;
    let fails = Vec::from_slice(alloc, stream.fails)?;
    let mut src = MemSource::new(bytes, stream.piece.max(1), fails);
    let mut reader = LineReader::new(alloc, longest.min(1 << 24), limit.min(1 << 32));
    let mut told = String::new(alloc);
    for _ in 0..7 {
        if reader.is_spent() {
            return Ok(told);
        }
        tell(&mut reader, &mut src, &mut told)?;
    }
    Ok(told)
}

#[test]
fn lines_come_in_whatever_pieces(rt: HostRuntime) -> Result<(), Fail> {
    let rows: [(usize, u64, &[u8], &str); 9] = [
        (4, 100, b"ab\n\n12345\nc", "=ab=+=c..."),
        (4, 3, b"ab\ncd", "=ab>"),
        (4, 3, b"ab\n", "=ab......"),
        (4, 2, b"ab\n", ">"),
        (4, 2, b"ab", "=ab......"),
        (4, 100, b"", "......."),
        (4, 100, b"\n\n", "==....."),
        (4, 100, b"1234\n12345", "=1234+....."),
        (0, 100, b"\na\n", "=+....."),
    ];
    for (longest, limit, bytes, told) in &rows {
        for piece in [1, 2, 3, 100] {
            let stream = Stream {
                bytes,
                piece,
                fails: &[],
            };
            assert_eq!(rt;
                answers(rt.alloc(), *longest, *limit, stream)?.as_str(),
                *told
            );
        }
    }
    Ok(())
}

#[test]
fn a_failed_read_ends_it(rt: HostRuntime) -> Result<(), Fail> {
    let rows: [(u64, &str); 3] = [(0, "!"), (1, "=ab!"), (2, "=ab=cd!")];
    for (call, told) in &rows {
        let stream = Stream {
            bytes: b"ab\ncd\nef",
            piece: 3,
            fails: &[*call],
        };
        assert_eq!(rt; answers(rt.alloc(), 4, 100, stream)?.as_str(), *told);
    }
    Ok(())
}

#[test]
fn a_line_longer_than_a_piece(rt: HostRuntime) -> Result<(), Fail> {
    let mut bytes = Vec::new(rt.alloc());
    for _ in 0..40000 {
        bytes.push(b'x')?;
    }
    bytes.push(b'\n')?;
    bytes.push(b'y')?;
    let stream = Stream {
        bytes: bytes.as_slice(),
        piece: 100000,
        fails: &[],
    };
    assert_eq!(rt;
        answers(rt.alloc(), 39999, 100000, stream)?.as_str(),
        "+=y....."
    );
    assert_eq!(rt; answers(rt.alloc(), 40000, 100000, stream)?.len(), 40008);
    Ok(())
}

/// A source that doesn't tell its bytes. Each second read gives none, and the next one more again, as at a terminal.
#[derive(Drop)]
struct Terminal {
    reads: u64,
}

impl Source for Terminal {
    ghost left = { λ _. None };

    ghost faults = { λ _. 0 };

    fn read(&mut self, buf: &mut [u8]) -> Result<usize, Failed> {
        self.reads = self.reads.saturating_add(1);
        if self.reads % 2 == 0 {
            return Ok(0);
        }
        let typed = b"ab\ncd";
        let count = buf.len().min(typed.len());
        buf[..count].copy_from_slice(&typed[..count]);
        Ok(count)
    }
}

#[test]
fn the_next_call_asks_an_ended_source_again(rt: HostRuntime) -> Result<(), Fail> {
    let alloc = rt.alloc();
    let mut src = Terminal { reads: 0 };
    let mut reader = LineReader::new(alloc, 4, 100);
    let mut told = String::new(alloc);
    let ends = [false, true, false, true];
    for has_ended in &ends {
        if reader.is_spent() {
            break;
        }
        tell(&mut reader, &mut src, &mut told)?;
        assert_eq!(rt; reader.has_ended(), *has_ended);
    }
    assert_eq!(rt; told.as_str(), "=ab=cd=ab=cd");
    assert_eq!(rt; src.reads, 4);
    Ok(())
}
