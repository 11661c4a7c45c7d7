// A run over a log that is too long to be held: its device computes what a read gives, and drops what is written.
ghost use Rattle.std.specs.Prelude.{None};

use crate::commands::{Streams, arguments_of, has_ended, streams_over};
use pac_main::pacman;
use pac_outside::{Devices, Disk, Failed, OpenGate};
use std::alloc::{AllocError, Global};
use std::sync::Wait;
use std::test::Fail;
use std::thread::Threads;

// The header of a log, whose catalogue has 194 bytes.
const HEADER: &[u8] =
    b"PACMLOG1\xc2\0\0\0proc Note(a text, b text, c text, d text, e text, f text, g text, h text, i text, j text, k text, l text, m text, n text, o text, p text) { } proc End() { } # Calls of Note fill the log so far..";

// The two numbers of a batch: 449 transactions, and 475,940 bytes.
const NUMBERS: &[u8] = b"\xc1\x01\0\0\x24\x43\x07\0";

// A call of the first procedure has 16 texts after this.
const CALL: &[u8] = b"\x01\0\0\x10";

const TEXT: &[u8] = b"\x02\x40xxxxxxxxxxxxxxxxxxxxxxxxxxxxxxxxxxxxxxxxxxxxxxxxxxxxxxxxxxxxxxxx";

const BATCH_LEN: u64 = 9 + 449 * (4 + 16 * 66);

// The header, 564 such batches after their gates, and a gate that is shut. There are 13 bytes more in a full log.
const LOG_LEN: u64 = 206 + 564 * BATCH_LEN + 1;

fn push_call(bytes: &mut Vec<u8>) -> Result<(), AllocError> {
    bytes.extend_from_slice(CALL)?;
    for _ in 0..16 {
        bytes.extend_from_slice(TEXT)?;
    }
    Ok(())
}

// An open gate, and a batch after it.
fn batch(alloc: Global) -> Result<Vec<u8>, AllocError> {
    let mut bytes = b"\x01".to_vec(alloc)?;
    bytes.extend_from_slice(NUMBERS)?;
    for _ in 0..449 {
        push_call(&mut bytes)?;
    }
    Ok(bytes)
}

/// A device that begins with a header and goes on with a batch again and again, up to its last byte, which is 0. No call fails.
#[derive(Drop)]
struct Computed<'a> {
    header: &'a [u8],
    batch: &'a [u8],
    len: u64,
}

// Copies the bytes from an offset on, and then the open gate after them.
fn copy_from(source: &[u8], from: u64, piece: &mut [u8]) {
    let rest = match source.get(from as usize..) {
        Some(rest) => rest,
        None => b"",
    };
    let count = rest.len().min(piece.len());
    piece[..count].copy_from_slice(&rest[..count]);
    piece[count..].fill(1);
}

impl<'a> Computed<'a> {
    // Reads of a log end at a gate at the latest.
    fn fill(&self, at: u64, piece: &mut [u8]) {
        let header = self.header.len() as u64;
        if at < header {
            copy_from(self.header, at, piece);
        } else {
            copy_from(self.batch, at.saturating_sub(header) % BATCH_LEN, piece);
        }
        if at.saturating_add(piece.len() as u64) >= self.len {
            if let Some(last) = piece.last_mut() {
                *last = 0;
            }
        }
    }
}

impl<'a> Disk for Computed<'a> {
    ghost known = { λ _. None };

    ghost faults = { λ _. 0 };

    ghost seen_is_image = { λ _. tt };

    ghost has_images = { λ _. tt };

    ghost seen_are_bytes = { λ _. tt };

    fn len(&mut self) -> Result<u64, Failed> {
        Ok(self.len)
    }

    fn read(&mut self, at: u64, buf: &mut [u8]) -> Result<usize, Failed> {
        let left = self.len.saturating_sub(at);
        let count = left.min(buf.len() as u64) as usize;
        self.fill(at, &mut buf[..count]);
        Ok(count)
    }

    fn write_at(&mut self, at: u64, piece: &[u8]) -> Result<(), Failed> {
        self.len = self.len.max(at.saturating_add(piece.len() as u64));
        Ok(())
    }

    fn sync(&mut self) -> Result<(), Failed> {
        Ok(())
    }
}

// A device without a batch: one of no bytes, or a closed slot of one.
fn without_batch<'a>(len: u64) -> Computed<'a> {
    Computed {
        header: b"",
        batch: b"",
        len,
    }
}

fn nearly_full(batch: &[u8]) -> Devices<Computed<'_>> {
    Devices {
        log: Computed {
            header: HEADER,
            batch,
            len: LOG_LEN,
        },
        log_b: without_batch(0),
        slot_a: without_batch(1),
        slot_b: without_batch(1),
    }
}

// A call of a procedure without parameters takes 13 bytes of the log.
const LINES: &str = "call End()\nflush\ncall End()\n";

const END: (u8, &str, &str) = (10, "committed 253237\n", "log full 268435469\n");

// Whether a run with these arguments ends as `END` says.
fn run_ends<H: Threads + Wait + Sync>(
    rt: &H,
    alloc: Global,
    words: &[String],
    streams: &mut Streams,
    devices: &mut Devices<Computed<'_>>,
) -> bool {
    let status = pacman(
        rt,
        alloc,
        words,
        &mut streams.input,
        &mut streams.output,
        &mut streams.errors,
        devices,
        &OpenGate,
    );
    has_ended(status, streams, END)
}

// How long the log is after such a run.
fn len_when_full<H: Threads + Wait + Sync>(
    rt: &H,
    alloc: Global,
    words: &[String],
    streams: &mut Streams,
    batch: &[u8],
) -> Option<u64> {
    let mut devices = nearly_full(batch);
    if run_ends(rt, alloc, words, streams, &mut devices) {
        Some(devices.log.len)
    } else {
        None
    }
}

fn runs_until_full<H: Threads + Wait + Sync>(
    rt: &H,
    alloc: Global,
    words: &[String],
    batch: &[u8],
) -> Result<Option<u64>, AllocError> {
    let mut streams = streams_over(alloc, LINES.as_bytes().to_vec(alloc)?);
    Ok(len_when_full(rt, alloc, words, &mut streams, batch))
}

fn fills_its_log<H: Threads + Wait + Sync>(
    rt: &H,
    alloc: Global,
    batch: &[u8],
) -> Result<Option<u64>, AllocError> {
    let words = arguments_of(alloc, "run")?;
    runs_until_full(rt, alloc, &words, batch)
}

// The first call fills the last byte.
#[test]
fn a_log_has_268435456_bytes_at_most(rt: HostRuntime) -> Result<(), Fail> {
    let batch = batch(rt.alloc())?;
    assert_eq!(rt; fills_its_log(&rt, rt.alloc(), &batch)?, Some(268_435_456));
    Ok(())
}
