ghost use Rattle.std.specs.Prelude.{◌≤◌, IfOk};

use crate::{
    ClosedEntropy, Entropy, Failed, FileEntropy, MemEntropy, MemSink, MemSource, OpenEntropy,
    OpenSource, SeedEntropy, Sink, Source, StdSink, StdSource, write_all,
};
use std::io::{self, ErrorKind, Read, Write};
use std::test::Fail;

// The first bytes of rand_chacha 0.10's ChaCha20Rng, in two fills of which one ends inside a word.
#[test]
fn seed_gives_the_words_of_chacha20(rt: HostRuntime) {
    let mut seed = [0; 32];
    let mut next = 3u8;
    for byte in seed.iter_mut() {
        *byte = next;
        next = next.wrapping_add(7);
    }
    let mut entropy = SeedEntropy::new(seed);
    let mut bytes = [0; 32];
    assert!(rt; entropy.fill(&mut bytes[..5]).is_ok());
    assert!(rt; entropy.fill(&mut bytes[5..]).is_ok());
    assert_eq!(rt;
        bytes,
        [
            0x7a, 0x54, 0xc0, 0x9c, 0x1d, 0x27, 0xb1, 0x1a, 0x19, 0x3b, 0xeb, 0x07, 0x38, 0x7a,
            0xc3, 0x5b, 0xac, 0x93, 0xff, 0x79, 0x5f, 0x09, 0x3b, 0x45, 0x22, 0xaf, 0xa1, 0xc6,
            0xda, 0x6b, 0xd6, 0x2b,
        ]
    );
}

#[test]
fn source_fails_where_listed(rt: HostRuntime) -> Result<(), Fail> {
    let bytes = vec![in rt.alloc(); 1, 2, 3]?;
    let mut source = MemSource::new(bytes, 2, vec![in rt.alloc(); 1]?);
    let mut buf = [0; 4];
    assert_eq!(rt; source.read(&mut buf), Ok(2));
    assert_eq!(rt; source.read(&mut buf), Err(Failed));
    assert_eq!(rt; source.read(&mut buf), Ok(1));
    assert_eq!(rt; buf, [3, 2, 0, 0]);
    assert_eq!(rt; source.read(&mut buf), Ok(0));
    Ok(())
}

#[test]
fn sink_keeps_a_proper_prefix(rt: HostRuntime) -> Result<(), Fail> {
    let mut sink = MemSink::new(rt.alloc(), 4, 2, vec![in rt.alloc(); 1]?)?;
    assert_eq!(rt; write_all(&mut sink, &[1, 2, 3]), Err(Failed));
    assert_eq!(rt; sink.bytes(), [1, 2].as_slice());
    assert_eq!(rt; write_all(&mut sink, &[3, 4]), Ok(()));
    assert_eq!(rt; write_all(&mut sink, &[5]), Err(Failed));
    assert_eq!(rt; sink.bytes(), [1, 2, 3, 4].as_slice());
    Ok(())
}

#[test]
fn entropy_gives_all_or_nothing(rt: HostRuntime) -> Result<(), Fail> {
    let mut entropy = MemEntropy::new(vec![in rt.alloc(); 1, 2, 3]?, vec![in rt.alloc(); 0]?);
    let mut buf = [0; 2];
    assert_eq!(rt; entropy.fill(&mut buf), Err(Failed));
    assert_eq!(rt; entropy.fill(&mut buf), Ok(()));
    assert_eq!(rt; buf, [1, 2]);
    assert_eq!(rt; entropy.fill(&mut buf), Err(Failed));
    assert_eq!(rt; entropy.fill(&mut buf[..1]), Ok(()));
    assert_eq!(rt; buf, [3, 2]);
    Ok(())
}

// Reads and writes one byte at a time. Call number 1 fails.
#[derive(Drop)]
struct Flaky {
    calls: u8,
    last: u8,
}

impl Flaky {
    fn turn(&mut self) -> io::Result<()> {
        self.calls = self.calls.wrapping_add(1);
        if self.calls == 2 {
            return Err(io::Error::from(ErrorKind::Other));
        }
        Ok(())
    }
}

impl Read for Flaky {
    fn read(&mut self, buf: &mut [u8]) -> io::Result<usize> {
        self.turn()?;
        if buf.is_empty() {
            return Ok(0);
        }
        buf[0] = self.calls;
        Ok(1)
    }
}

impl Write for Flaky {
    fn write(&mut self, buf: &[u8]) -> io::Result<usize> {
        self.turn()?;
        if buf.is_empty() {
            return Ok(0);
        }
        self.last = buf[0];
        Ok(1)
    }

    fn flush(&mut self) -> io::Result<()> {
        Ok(())
    }
}

#[test]
fn adapters_pass_on_bytes_and_failures(rt: HostRuntime) {
    let mut source = StdSource::new(Flaky { calls: 0, last: 0 });
    let mut buf = [9; 2];
    assert_eq!(rt; source.read(&mut buf), Ok(1));
    assert_eq!(rt; source.read(&mut buf), Err(Failed));
    assert_eq!(rt; buf, [1, 9]);

    let mut sink = StdSink::new(Flaky { calls: 0, last: 0 });
    assert_eq!(rt; write_all(&mut sink, &[5, 6]), Err(Failed));
    assert_eq!(rt; write_all(&mut sink, &[6, 7]), Ok(()));

    let mut entropy = FileEntropy::new(Flaky { calls: 0, last: 0 });
    assert_eq!(rt; entropy.fill(&mut buf), Err(Failed));
    assert_eq!(rt; entropy.fill(&mut buf), Ok(()));
    assert_eq!(rt; buf, [3, 4]);
}

// What a reader or writer was asked for.
#[derive(Clone, Copy, Debug, PartialEq, Eq)]
struct Log {
    calls: u32,
    flushes: u32,
    // Bytes were written that weren't flushed yet.
    is_dirty: bool,
    // The numbers of the call and of the flush that fail, from 1.
    failing_call: u32,
    failing_flush: u32,
    bytes: usize,
}

const NO_CALL: Log = Log {
    calls: 0,
    flushes: 0,
    is_dirty: false,
    failing_call: 0,
    failing_flush: 0,
    bytes: 0,
};

// Reads or takes at most 3,000 bytes in a call, and notes each call.
#[derive(Drop)]
struct Noting<'a> {
    log: &'a mut Log,
}

impl Noting<'_> {
    fn take(&mut self, room: usize) -> io::Result<usize>
        ensures { IfOk result (λ count. count ≤ room) }
    {
        let count = room.min(3_000);
        self.log.calls = self.log.calls.wrapping_add(1);
        if self.log.calls == self.log.failing_call {
            return Err(io::Error::from(ErrorKind::Other));
        }
        self.log.bytes = self.log.bytes.wrapping_add(count);
        Ok(count)
    }
}

impl Read for Noting<'_> {
    fn read(&mut self, buf: &mut [u8]) -> io::Result<usize> {
        self.take(buf.len())
    }
}

impl Write for Noting<'_> {
    fn write(&mut self, buf: &[u8]) -> io::Result<usize> {
        self.log.is_dirty = true;
        self.take(buf.len())
    }

    fn flush(&mut self) -> io::Result<()> {
        self.log.flushes = self.log.flushes.wrapping_add(1);
        if self.log.flushes == self.log.failing_flush {
            return Err(io::Error::from(ErrorKind::Other));
        }
        self.log.is_dirty = false;
        Ok(())
    }
}

// A piece above the chunk is written in four calls, each flushed behind it, and nothing is written after it.
#[test]
fn each_write_is_flushed(rt: HostRuntime) {
    let mut log = NO_CALL;
    {
        let mut sink = StdSink::new(Noting { log: &mut log });
        assert_eq!(rt; write_all(&mut sink, &[7; 10_000]), Ok(()));
    }
    assert_eq!(rt;
        log,
        Log {
            calls: 4,
            flushes: 4,
            bytes: 10_000,
            ..NO_CALL
        }
    );
}

// A failed flush is a failure, and nothing is written after it.
#[test]
fn a_failed_flush_is_a_failure(rt: HostRuntime) {
    let mut log = Log {
        failing_flush: 2,
        ..NO_CALL
    };
    {
        let mut sink = StdSink::new(Noting { log: &mut log });
        assert_eq!(rt; write_all(&mut sink, &[7; 10_000]), Err(Failed));
    }
    assert_eq!(rt; log.calls, 2);
    assert_eq!(rt; log.flushes, 2);
    assert!(rt; log.is_dirty);
}

// A failed call is the last one: nothing is read or written again, and nothing is flushed.
#[test]
fn nothing_follows_a_failure(rt: HostRuntime) {
    let failing = Log {
        failing_call: 2,
        ..NO_CALL
    };
    let mut log = failing;
    {
        let mut source = StdSource::new(Noting { log: &mut log });
        assert_eq!(rt; source.read(&mut [0; 8]), Ok(8));
        assert_eq!(rt; source.read(&mut [0; 8]), Err(Failed));
    }
    assert_eq!(rt; log.calls, 2);
    log = failing;
    {
        let mut sink = StdSink::new(Noting { log: &mut log });
        assert_eq!(rt; write_all(&mut sink, &[7; 10_000]), Err(Failed));
    }
    assert_eq!(rt; log.calls, 2);
    assert_eq!(rt; log.flushes, 1);
    log = failing;
    {
        let mut entropy = FileEntropy::new(Noting { log: &mut log });
        assert_eq!(rt; entropy.fill(&mut [0; 10_000]), Err(Failed));
    }
    assert_eq!(rt; log.calls, 2);
}

// One read of the source is one read of the reader, with no more bytes than that gives.
#[test]
fn a_read_is_one_read(rt: HostRuntime) {
    let mut log = NO_CALL;
    {
        let mut source = StdSource::new(Noting { log: &mut log });
        assert_eq!(rt; source.read(&mut [0; 10_000]), Ok(3_000));
    }
    assert_eq!(rt; log.calls, 1);
    assert_eq!(rt; log.bytes, 3_000);
}

// A fill above the chunk reads until the buffer is full, and no further; an empty one reads nothing.
#[test]
fn a_fill_reads_what_it_needs(rt: HostRuntime) {
    let mut log = NO_CALL;
    {
        let mut entropy = FileEntropy::new(Noting { log: &mut log });
        assert_eq!(rt; entropy.fill(&mut [0; 10_000]), Ok(()));
        assert_eq!(rt; entropy.fill(&mut []), Ok(()));
    }
    assert_eq!(rt; log.calls, 4);
    assert_eq!(rt; log.bytes, 10_000);
}

// What was opened by name does what its kind does by itself.
#[test]
fn what_is_opened_acts_as_its_kind(rt: HostRuntime) {
    let mut buf = [9; 2];
    let mut source = OpenSource::File(StdSource::new(Flaky { calls: 0, last: 0 }));
    assert_eq!(rt; source.read(&mut buf), Ok(1));
    assert_eq!(rt; source.read(&mut buf), Err(Failed));
    let mut entropy: OpenEntropy<Flaky> = OpenEntropy::Seed(SeedEntropy::new([0; 32]));
    assert_eq!(rt; entropy.fill(&mut buf), Ok(()));
    assert_eq!(rt; buf, [0x76, 0xb8]);
    let mut closed: OpenEntropy<Flaky> = OpenEntropy::Closed(ClosedEntropy::new());
    assert_eq!(rt; closed.fill(&mut buf), Err(Failed));
}
