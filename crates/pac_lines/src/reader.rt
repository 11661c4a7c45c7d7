// Reading a source by lines.
ghost use Rattle.std.specs.Prelude.{◌≡◌, ◌≤◌, ◌<◌, ◌+◌, ◌↔◌, [], Ok, true, IfOk, IsErrOf, IsTrue, IsFalse, MatchResult, length, nat_lt, take};
ghost use Rattle.pac_outside.specs.Causes.{Faulted};
ghost use Rattle.pac_outside.specs.Content.{IsAtEnd};
ghost use Rattle.pac_lines.specs.Lines.{HasFeed, HasNoFeed};
ghost use Rattle.pac_lines.specs.Reading.{ReaderState};
ghost use Rattle.pac_lines.specs.Calls.{IsChunk, KeepsLimit};
ghost use Rattle.pac_lines.specs.Short.{IsShortCall, IsShortOf, kept};

use crate::LineError;
use crate::ahead::Ahead;
use crate::limits::MAX_READ;
use pac_outside::Source;
use std::alloc::Global;
use std::marker::Model;

/// Hands out the lines of one source.
#[derive(Drop)]
pub struct LineReader {
    ahead: Ahead,

    // How many bytes of a line are handed out at most, before one more that tells that it is longer.
    most: usize,

    // How many bytes were taken, and how many may be before one more is too many.
    taken: usize,
    limit: usize,
}

impl Model for LineReader {
    ghost use Rattle.std.specs.Prelude.{◌+◌, ◌^◌, ◌≤◌, ◌<◌};
    ghost use Rattle.pac_lines.specs.Reading.{HasNoLine};
    ghost use Rattle.pac_lines.specs.Short.{ShortState};

    ghost Value = { ShortState };

    ghost view = { λ reader. record { state = record { line = reader.ahead.line; ahead = reader.ahead.bytes; taken = reader.taken; limit = reader.limit }; most = reader.most } };

    ghost invariant = { λ reader. (reader.most < 2 ^ 32) × (reader.limit < 2 ^ 32) × (reader.taken ≤ reader.limit + 1) × (reader.limit < reader.taken → HasNoLine reader.ahead.bytes) };
}

impl LineReader {
    /// A reader that takes at most `limit` bytes of its source, and one more that it doesn't hand out. Of a line that is longer
    /// than `most` bytes it hands out the first `most` + 1, and doesn't hold the others.
    pub fn new(alloc: Global, limit: u32, most: u32) -> Self
        ensures { result ≡ record { state = record { line = []; ahead = []; taken = 0; limit = limit }; most = most } }
    {
        LineReader {
            ahead: Ahead::new(alloc),
            most: most as usize,
            taken: 0,
            limit: limit as usize,
        }
    }

    /// The line that the last call of [`LineReader::next_line`] went on to, without its line feed, and cut after `most` + 1
    /// bytes; empty where it answered that there is none, or an error.
    pub fn line(&self) -> &[u8]
        ensures { result.now ≡ take (self.now.most + 1) self.now.state.line }
    {
        let line = self.ahead.line();
        &line[..line.len().min(self.most + 1)]
    }

    /// Goes on to the next line, and answers whether there is one. The bytes after the last line feed are one too, if
    /// there are any and the source is at its end. Reads only while no whole line is ahead. Of a line that is longer than the
    /// most it holds some 4,096 bytes more than that, whatever its length is.
    ///
    /// # Errors
    ///
    /// [`LineError::Failed`] only where the source's count of faults rose. [`LineError::TooLong`] exactly where the source
    /// gave one byte more than the limit, in this call or before, and no whole line stands before it.
    /// [`LineError::NoMemory`] where there is no memory for more bytes. No byte is lost but those of a line that is too long
    /// to be handed out whole, so where the cause is gone the next call goes on.
    pub fn next_line<S: Source>(&mut self, source: &mut S) -> Result<bool, LineError>
        ensures call { (whole : ReaderState) → IsShortOf whole self.old → IsShortCall whole self.new (S.left source.old) (S.left source.new) result }
        ensures most { self.new.most ≡ self.old.most }

        // A whole line ahead is handed out without a read.
        ensures at_hand { HasFeed self.old.state.ahead → source.new ≡ source.old }
        ensures whole { HasFeed self.old.state.ahead → self.old.state.taken ≤ self.old.state.limit → result ≡ Ok true }

        // Once it is too long, it is not read any more.
        ensures over { self.old.state.limit < self.old.state.taken → source.new ≡ source.old }

        // It is too long by a byte more than the limit, and that is all that is taken.
        ensures limit { KeepsLimit self.new.state result }

        // The count never falls, and it rose where the source is said to have failed.
        ensures later { S.faults source.old ≤ S.faults source.new }
        ensures cause { IsErrOf result LineError.Failed → Faulted (S.faults source.old) (S.faults source.new) }
    {
        while self.taken <= self.limit {
            if self.ahead.take_line() {
                return Ok(true);
            }
            if self.read(source)? == 0 {
                return Ok(self.ahead.take_rest());
            }
        }
        self.ahead.forget_line();
        Err(LineError::TooLong)
    }

    // Reads a chunk, up to the limit, or one byte where that is reached. Of what is ahead before it, no more is kept than tells
    // that the line is longer than the most.
    fn read<S: Source>(&mut self, source: &mut S) -> Result<usize, LineError>
        requires room { self.old.state.taken ≤ self.old.state.limit }
        requires none { HasNoFeed self.old.state.ahead }
        ensures chunk { MatchResult result (λ count. IsChunk (kept self.old) self.new.state (S.left source.old) (S.left source.new) count) (λ _. (self.new.state ≡ kept self.old) × (S.left source.new ≡ S.left source.old)) }
        ensures most { self.new.most ≡ self.old.most }
        ensures later { S.faults source.old ≤ S.faults source.new }
        ensures cause { IsErrOf result LineError.Failed → Faulted (S.faults source.old) (S.faults source.new) }
        ensures long { ¬ IsErrOf result LineError.TooLong }
    {
        self.ahead.keep(self.most + 1);
        let most = (self.limit - self.taken).clamp(1, MAX_READ);
        let count = self.ahead.read(source, most)?;
        self.taken += count;
        Ok(count)
    }
}
