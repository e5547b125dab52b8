//! Sources and sinks: each public function once, and a fault in the middle of a stream.
ghost use Rattle.std.specs.Prelude.{◌≡◌, ◌≤◌, IfOk};

use elk_outer::{
    Failed, MemSink, MemSource, ReadFault, Sink, Source, StdSink, StdSource, SureSource,
    read_whole, write_whole,
};
use std::io::{self, ErrorKind, Read, Write};
use std::test::Fail;

#[test]
fn whole_reads(rt: HostRuntime) -> Result<(), Fail> {
    let alloc = rt.alloc();
    for (bytes, piece, call, want) in [
        (b"abc".as_slice(), 1, 9, Ok(b"abc".as_slice())),
        (b"abc".as_slice(), 8, 9, Ok(b"abc".as_slice())),
        (b"".as_slice(), 1, 9, Ok(b"".as_slice())),
        (b"abcd".as_slice(), 2, 9, Err(ReadFault::TooLong)),
        (b"abc".as_slice(), 1, 0, Err(ReadFault::Fault)),
        (b"abc".as_slice(), 1, 3, Err(ReadFault::Fault)),
    ] {
        assert!(rt; piece >= 1);
        let mut source = MemSource::new(bytes.to_vec(alloc)?, piece, [call].to_vec(alloc)?);
        match read_whole(alloc, &mut source, 3) {
            Ok(got) => assert_eq!(rt; Ok(got.as_slice()), want),
            Err(fault) => assert_eq!(rt; Err(fault), want),
        }
    }
    let mut sure = SureSource::new(b"abc".to_vec(alloc)?);
    assert_eq!(rt;
        read_whole(alloc, &mut sure, 3)?.as_slice(),
        b"abc".as_slice()
    );
    let mut inner = b"abc".as_slice();
    let mut std = StdSource::new(&mut inner);
    assert_eq!(rt;
        read_whole(alloc, &mut std, 3)?.as_slice(),
        b"abc".as_slice()
    );
    Ok(())
}

#[test]
fn whole_writes(rt: HostRuntime) -> Result<(), Fail> {
    let alloc = rt.alloc();
    for (room, piece, call, want, taken) in [
        (9, 1, 9, Ok(()), b"abc".as_slice()),
        (3, 8, 9, Ok(()), b"abc".as_slice()),
        (2, 8, 9, Err(Failed), b"ab".as_slice()),
        (9, 1, 1, Err(Failed), b"a".as_slice()),
    ] {
        assert!(rt; piece >= 1);
        let mut sink = MemSink::new(alloc, room, piece, [call].to_vec(alloc)?)?;
        assert_eq!(rt; write_whole(&mut sink, b"abc"), want);
        assert_eq!(rt; sink.taken(), taken);
    }
    let mut bytes = [0u8; 4];
    let mut std = StdSink::new(bytes.as_mut_slice());
    assert_eq!(rt; write_whole(&mut std, b"abc"), Ok(()));
    assert_eq!(rt; write_whole(&mut std, b"abc"), Err(Failed));
    Ok(())
}

// A reader and a writer that give or take one byte a call, so many times, and then only fail.
#[derive(Drop)]
struct Failing {
    steps: u64,
}

impl Failing {
    // Takes a step, which gives or takes one byte where there is room for it.
    fn step(&mut self, room: usize) -> io::Result<usize>
        ensures { IfOk result (λ n. n ≤ room) }
    {
        if self.steps == 0 {
            return Err(ErrorKind::Other.into());
        }
        self.steps -= 1;
        Ok(room.min(1))
    }
}

impl Read for Failing {
    fn read(&mut self, buf: &mut [u8]) -> io::Result<usize> {
        self.step(buf.len())
    }
}

impl Write for Failing {
    fn write(&mut self, buf: &[u8]) -> io::Result<usize> {
        self.step(buf.len())
    }

    fn flush(&mut self) -> io::Result<()> {
        Ok(())
    }
}

#[test]
fn inner_errors(rt: HostRuntime) -> Result<(), Fail> {
    let alloc = rt.alloc();
    for steps in [0, 2] {
        let mut source = StdSource::new(Failing { steps });
        assert_eq!(rt; read_whole(alloc, &mut source, 3), Err(ReadFault::Fault));
        let mut sink = StdSink::new(Failing { steps });
        assert_eq!(rt; write_whole(&mut sink, b"abc"), Err(Failed));
        assert_eq!(rt; sink.write(b"c"), Err(Failed));
    }
    Ok(())
}

// A reader at its end, and a writer that takes all. It counts its calls, and the one with this number, from 1, fails.
#[derive(Drop)]
struct Counting {
    calls: u64,
    fails: u64,
}

impl Counting {
    fn call(&mut self, count: usize) -> io::Result<usize>
        ensures { IfOk result (λ n. n ≡ count) }
    {
        self.calls = self.calls.saturating_add(1);
        if self.calls == self.fails {
            return Err(ErrorKind::Other.into());
        }
        Ok(count)
    }
}

impl Read for Counting {
    fn read(&mut self, _buf: &mut [u8]) -> io::Result<usize> {
        self.call(0)
    }
}

impl Write for Counting {
    fn write(&mut self, buf: &[u8]) -> io::Result<usize> {
        self.call(buf.len())
    }

    fn flush(&mut self) -> io::Result<()> {
        Ok(())
    }
}

#[test]
fn the_end_and_an_empty_piece_are_no_faults(rt: HostRuntime) -> Result<(), Fail> {
    let mut reader = Counting { calls: 0, fails: 2 };
    let mut room = [0u8; 4];
    let mut source = StdSource::new(&mut reader);
    let reads = [
        source.read(&mut room),
        source.read(&mut room),
        source.read(&mut room),
    ];
    assert_eq!(rt; reads, [Ok(0), Err(Failed), Ok(0)]);
    assert_eq!(rt; reader.calls, 3);
    let mut writer = Counting { calls: 0, fails: 2 };
    let mut sink = StdSink::new(&mut writer);
    let writes = [sink.write(b""), sink.write(b"ab"), sink.write(b"ab")];
    assert_eq!(rt; writes, [Ok(0), Err(Failed), Ok(2)]);
    assert_eq!(rt; writer.calls, 3);
    Ok(())
}
