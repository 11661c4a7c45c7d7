// A source and a sink in memory, with calls that fail.
ghost use Rattle.std.specs.Prelude.{◌≡◌, ◌≤◌, ◌<◌, ◌+◌, ◌-◌, ◌↔◌, ◌⊎◌, ◌++◌, Some, IfOk, IsErr, IsTrue, MatchResult, drop, length, min, take, vec_capacity, vec_len, if◌then◌else◌};
ghost use Rattle.std.specs.Io.{ReadsAtMost};
ghost use Rattle.std.specs.Result.{is_ok};
ghost use Rattle.pac_outside.specs.Calls.{after_failed, after_passed, is_next_failing};
ghost use Rattle.pac_outside.specs.Causes.{HasCause};
ghost use Rattle.pac_outside.specs.Content.{IsRead, IsWrite};

use crate::calls::Calls;
use crate::{Failed, Sink, Source};
use std::marker::Model;

// Copies as many bytes as there are and have room, and answers their number.
pub(crate) fn copy_prefix(buf: &mut [u8], bytes: &[u8]) -> usize
    ensures count { result ≡ min (length bytes.now) (length buf.old) }
    ensures copied { take result buf.new ≡ take result bytes.now }
    ensures rest { drop result buf.new ≡ drop result buf.old }
{
    let count = bytes.len().min(buf.len());
    buf[..count].copy_from_slice(&bytes[..count]);
    count
}

/// Bytes to read, in memory. Some of its calls fail.
#[derive(Drop)]
pub struct MemSource {
    bytes: Vec<u8>,
    at: usize,
    calls: Calls,
}

impl Model for MemSource {
    ghost use Rattle.std.specs.Prelude.{◌≤◌, drop, vec_len};
    ghost use Rattle.pac_outside.specs.Memory.{SourceState};

    ghost Value = { SourceState };

    ghost view = { λ source. record { left = drop source.at source.bytes.items; calls = source.calls } };

    ghost invariant = { λ source. source.at ≤ vec_len source.bytes };
}

impl MemSource {
    /// A source of these bytes. Its calls with the numbers in `failing`, from 1 on, fail.
    pub fn new(bytes: Vec<u8>, failing: Vec<u64>) -> Self
        ensures { result ≡ record { left = bytes.items; calls = record { made = 0; failing = failing.items; faults = 0 } } }
    {
        MemSource {
            bytes,
            at: 0,
            calls: Calls::new(failing),
        }
    }
}

impl Source for MemSource {
    ghost left = { λ source. Some source.left };

    ghost faults = { λ source. source.calls.faults };

    /// Gives all that is left and has room.
    ///
    /// # Errors
    ///
    /// [`Failed`] exactly where the call is one of those that are to fail.
    fn read(&mut self, buf: &mut [u8]) -> Result<usize, Failed>
        ensures bound { ReadsAtMost result buf.new }
        ensures bytes { IsRead (Some self.old.left) (Some self.new.left) result buf.new }
        ensures cause { HasCause self.old.calls.faults self.new.calls.faults result }

        // It fails exactly where it is to, and else gives all that it can.
        ensures failed { IsErr result ↔ IsTrue (is_next_failing self.old.calls) }
        ensures all { IfOk result (λ count. count ≡ min (length self.old.left) (length buf.old)) }
        ensures rest { MatchResult result (λ count. drop count buf.new ≡ drop count buf.old) (λ _. buf.new ≡ buf.old) }
        ensures counted { self.new.calls ≡ (if is_ok result then after_passed self.old.calls else after_failed self.old.calls) }
    {
        self.calls.begin()?;
        let count = copy_prefix(buf, &self.bytes[self.at..]);
        self.at += count;
        Ok(count)
    }
}

/// Bytes that were written, in memory. Some of its calls fail.
#[derive(Drop)]
pub struct MemSink {
    bytes: Vec<u8>,
    calls: Calls,
}

impl Model for MemSink {
    ghost use Rattle.std.specs.Prelude.{◌-◌, vec_capacity, vec_len};
    ghost use Rattle.pac_outside.specs.Memory.{SinkState};

    ghost Value = { SinkState };

    ghost view = { λ sink. record { held = sink.bytes.items; room = vec_capacity sink.bytes - vec_len sink.bytes; calls = sink.calls } };
}

impl MemSink {
    /// A sink that holds these bytes. Its calls with the numbers in `failing`, from 1 on, fail.
    pub fn new(bytes: Vec<u8>, failing: Vec<u64>) -> Self
        ensures { result ≡ record { held = bytes.items; room = vec_capacity bytes - vec_len bytes; calls = record { made = 0; failing = failing.items; faults = 0 } } }
    {
        MemSink {
            bytes,
            calls: Calls::new(failing),
        }
    }

    /// The bytes that it was made of, and after them those that it took.
    pub fn bytes(&self) -> &[u8]
        ensures { result.now ≡ self.now.held }
    {
        &self.bytes
    }
}

impl Sink for MemSink {
    ghost held = { λ sink. Some sink.held };

    ghost faults = { λ sink. sink.calls.faults };

    /// Takes the whole piece.
    ///
    /// # Errors
    ///
    /// [`Failed`] where the call is one of those that are to fail, and otherwise only where the piece needed more
    /// memory and got none; both raise the count of faults.
    fn write(&mut self, piece: &[u8]) -> Result<usize, Failed>
        ensures bytes { IsWrite (Some self.old.held) (Some self.new.held) result piece.now }
        ensures cause { HasCause self.old.calls.faults self.new.calls.faults result }

        // It fails where it is to, else only for running out of memory, and else takes all.
        ensures failed { IsTrue (is_next_failing self.old.calls) → IsErr result }
        ensures memory { IsErr result → IsTrue (is_next_failing self.old.calls) ⊎ (self.old.room < length piece.now) }
        ensures all { IfOk result (λ count. count ≡ length piece.now) }
        ensures counted { self.new.calls ≡ (if is_ok result then after_passed self.old.calls else after_failed self.old.calls) }

        // Of the room it uses no more than the piece is long, and none where it fails.
        ensures room { MatchResult result (λ count. self.old.room ≤ self.new.room + count) (λ _. self.old.room ≤ self.new.room) }
        ensures refused { IsTrue (is_next_failing self.old.calls) → self.new ≡ record self.old { calls = after_failed self.old.calls } }
    {
        self.calls.begin()?;
        if self.bytes.extend_from_slice(piece).is_err() {
            return Err(self.calls.fail());
        }
        Ok(piece.len())
    }
}
