// What comes through the streams and their adapters, of which some give or take little at a time.
ghost use Rattle.std.specs.Prelude.{◌≤◌, IfOk, Some};

use pac_outside::{Disk, Failed, Gate, MemSink, NoDisk, OpenGate, Sink, Source, Stream, write_all};
use std::alloc::{AllocError, Global};
use std::io;
use std::io::{Read, Write};
use std::test::Fail;

/// A stream that answers each call by the next of its steps: at most a number of bytes, or an error. After them is the end.
#[derive(Drop)]
struct Steps {
    steps: [Option<usize>; 3],
    at: usize,
}

impl Steps {
    fn next(&mut self, room: usize) -> io::Result<usize>
        ensures { IfOk result (λ count. count ≤ room) }
    {
        let step = self.steps.get(self.at).copied().unwrap_or(Some(0));
        self.at = self.at.saturating_add(1);
        match step {
            Some(most) => Ok(most.min(room)),
            None => Err(io::Error::other("a step")),
        }
    }
}

impl Read for Steps {
    fn read(&mut self, buf: &mut [u8]) -> io::Result<usize> {
        let count = self.next(buf.len())?;
        buf[..count].fill(b'x');
        Ok(count)
    }
}

impl Write for Steps {
    fn write(&mut self, buf: &[u8]) -> io::Result<usize> {
        self.next(buf.len())
    }

    fn flush(&mut self) -> io::Result<()> {
        Ok(())
    }
}

fn stream_of(steps: [Option<usize>; 3]) -> Stream<Steps> {
    Stream::new(Steps { steps, at: 0 })
}

/// A sink that takes one byte a call.
#[derive(Drop)]
pub(crate) struct OneByte {
    pub inner: MemSink,
}

impl Sink for OneByte {
    ghost held = { λ sink. Some sink.inner.held };

    ghost faults = { λ sink. sink.inner.calls.faults };

    fn write(&mut self, piece: &[u8]) -> Result<usize, Failed> {
        self.inner.write(&piece[..piece.len().min(1)])
    }
}

// The call that fails, and what is held after the first text and after the second.
const WRITES: &[(u64, &[u8], &[u8])] = &[
    (1, b"so: ", b"so: hij"),
    (7, b"so: abcdef", b"so: abcdefhij"),
    (8, b"so: abcdefg", b"so: abcdefg"),
    (9, b"so: abcdefg", b"so: abcdefgh"),
];

// A sink that holds a text, of which a call fails.
fn sink_of(alloc: Global, failing: u64) -> Result<OneByte, AllocError> {
    let held = b"so: ".to_vec(alloc)?;
    let inner = MemSink::new(held, [failing].to_vec(alloc)?);
    Ok(OneByte { inner })
}

// Whether of two texts, of which one is not written whole, so much is taken.
fn takes(sink: &mut OneByte, first: &[u8], second: &[u8]) -> bool {
    let fails = write_all(sink, b"abcdefg").is_err();
    let is_prefix = sink.inner.bytes() == first;
    let goes_on = write_all(sink, b"hij").is_ok();
    is_prefix && fails == goes_on && sink.inner.bytes() == second
}

fn writes_so(alloc: Global, row: &(u64, &[u8], &[u8])) -> Result<bool, AllocError> {
    let mut sink = sink_of(alloc, row.0)?;
    Ok(takes(&mut sink, row.1, row.2))
}

#[test]
fn a_sink_of_one_byte_takes_all_or_keeps_a_prefix(rt: HostRuntime) -> Result<(), Fail> {
    for row in WRITES {
        assert!(rt; writes_so(rt.alloc(), row)?, "failing {}", row.0);
    }
    Ok(())
}

fn reads_through(stream: &mut Stream<Steps>, counts: [Result<usize, Failed>; 4]) -> bool {
    let mut buf = [0u8; 4];
    for count in counts {
        if stream.read(&mut buf) != count {
            return false;
        }
    }
    true
}

fn writes_through(stream: &mut Stream<Steps>, counts: [Result<usize, Failed>; 3]) -> bool {
    for count in counts {
        if stream.write(b"abc") != count {
            return false;
        }
    }
    true
}

// A write of nothing is a fault, since it would be tried for ever.
#[test]
fn streams_answer_short_counts_and_errors(rt: HostRuntime) {
    let mut reading = stream_of([Some(3), None, Some(9)]);
    let reads = reads_through(&mut reading, [Ok(3), Err(Failed), Ok(4), Ok(0)]);
    let mut writing = stream_of([Some(1), Some(0), None]);
    let writes = writes_through(&mut writing, [Ok(1), Err(Failed), Err(Failed)]);
    let mut short = stream_of([Some(1), Some(1), Some(5)]);
    let whole = write_all(&mut short, b"abcde") == Ok(());
    assert_eq!(rt; (reads, writes, whole), (true, true, true));
}

#[test]
fn each_call_of_no_disk_fails_and_the_open_gate_never_blocks(rt: HostRuntime) {
    let mut disk = NoDisk::new();
    let mut buf = [0u8; 1];
    let fails = disk.len() == Err(Failed)
        && disk.read(0, &mut buf) == Err(Failed)
        && disk.write_at(0, b"a") == Err(Failed)
        && disk.sync() == Err(Failed);
    OpenGate.enter(0, 1, 2);
    assert!(rt; fails);
}
