//! A partner of `batch` that waits for each reply before it writes the next line.
ghost use Rattle.std.specs.Prelude.{None};

use crate::runs::status_of;
use elk_outer::{Failed, MemSink, Sink, Source};
use std::cell::Cell;
use std::rc::Rc;
use std::test::Fail;

/// What the partner writes. It hangs up where it is asked for a line before it has read the replies to all earlier ones.
#[derive(Drop)]
struct Writer {
    lines: &'static [&'static str],
    written: u64,
    replies: Rc<Cell<u64>>,
}

impl Source for Writer {
    ghost left = { λ _. None };

    ghost faults = { λ _. 0 };

    fn read(&mut self, buf: &mut [u8]) -> Result<usize, Failed> {
        if self.replies.get() != self.written {
            return Ok(0);
        }
        match self.lines.get(self.written as usize) {
            Some(line) => {
                let count = buf.len().min(line.len());
                buf[..count].copy_from_slice(&line.as_bytes()[..count]);
                self.written = self.written.saturating_add(1);
                Ok(count)
            }
            None => Ok(0),
        }
    }
}

/// What the partner reads. It counts the ends of lines.
#[derive(Drop)]
struct Reader {
    replies: Rc<Cell<u64>>,
}

impl Sink for Reader {
    ghost taken = { λ _. None };

    ghost faults = { λ _. 0 };

    ghost sure = { λ _ _. ⊥ };

    ghost sure_means = { λ _ _ _ none _ _. absurd none };

    fn write(&mut self, piece: &[u8]) -> Result<usize, Failed> {
        for byte in piece {
            if *byte == 10 {
                self.replies.set(self.replies.get().saturating_add(1));
            }
        }
        Ok(piece.len())
    }
}

#[test]
fn each_reply_comes_before_the_next_line(rt: HostRuntime) -> Result<(), Fail> {
    let alloc = rt.alloc();
    let replies = Rc::new(alloc, Cell::new(0))?;
    let mut source = Writer {
        lines: &["{\"id\":\"r\"}\n", "{\"id\":\n", "{\"id\":\"r\"}\n"],
        written: 0,
        replies: replies.clone()?,
    };
    let mut out = Reader { replies };
    let mut notes = MemSink::new(alloc, 64, 64, Vec::new(alloc))?;
    let status = status_of(alloc, &["batch"], &mut source, &mut out, &mut notes)?;
    assert_eq!(rt; status, 0);
    assert_eq!(rt; source.written, 3);
    assert_eq!(rt; source.replies.get(), 3);
    Ok(())
}
