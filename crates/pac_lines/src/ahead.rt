// The bytes that were taken from a source and not handed out.
ghost use Rattle.std.specs.Prelude.{◌≡◌, ◌≤◌, ◌<◌, [], length, IfOk, IsErrOf, IsTrue, IsFalse, MatchResult, nat_lt, take};
ghost use Rattle.pac_outside.specs.Causes.{Faulted};
ghost use Rattle.pac_outside.specs.Content.{IsAtEnd};
ghost use Rattle.pac_lines.specs.Lines.{HasNoFeed, IsEndedLine};
ghost use Rattle.pac_lines.specs.Reading.{AheadState, IsReadAfter};

use crate::LineError;
use crate::feed::feed_at;
use crate::limits::MAX_READ;
use pac_outside::Source;
use std::alloc::Global;
use std::marker::Model;

/// Bytes that were taken from a source and not handed out, and the line that was handed out last.
#[derive(Drop)]
pub(crate) struct Ahead {
    buffer: Vec<u8>,

    // Where the line stands that was handed out last.
    line: usize,
    len: usize,

    // Where the bytes ahead begin, and how many of them were searched and have no line feed.
    next: usize,
    searched: usize,
}

impl Model for Ahead {
    ghost use Rattle.std.specs.Prelude.{◌+◌, ◌≤◌, drop, take, vec_len};
    ghost use Rattle.pac_lines.specs.Lines.{HasNoFeed};
    ghost use Rattle.pac_lines.specs.Reading.{AheadState};

    ghost Value = { AheadState };

    ghost view = { λ a. record { line = take a.len (drop a.line a.buffer.items); bytes = drop a.next a.buffer.items } };

    ghost invariant = { λ a. (a.line + a.len ≤ vec_len a.buffer) × (a.next + a.searched ≤ vec_len a.buffer) × HasNoFeed (take a.searched (drop a.next a.buffer.items)) };
}

// Reads at most `most` bytes after those of the buffer.
fn append<S: Source>(buffer: &mut Vec<u8>, source: &mut S, most: usize) -> Result<usize, LineError>
    requires { most ≤ MAX_READ }
    ensures most { IfOk result (λ count. count ≤ most) }
    ensures bytes { MatchResult result (λ count. IsReadAfter buffer.old.items buffer.new.items (S.left source.old) (S.left source.new) count) (λ _. (buffer.new.items ≡ buffer.old.items) × (S.left source.new ≡ S.left source.old)) }
    ensures end { IfOk result (λ count. count ≡ 0 → 0 < most → IsAtEnd (S.left source.new)) }
    ensures later { S.faults source.old ≤ S.faults source.new }
    ensures cause { IsErrOf result LineError.Failed → Faulted (S.faults source.old) (S.faults source.new) }
    ensures long { ¬ IsErrOf result LineError.TooLong }
{
    let old = buffer.len();
    buffer.resize(old + most, 0)?;
    match source.read(&mut buffer[old..]) {
        Ok(count) => {
            buffer.truncate(old + count);
            Ok(count)
        }
        Err(failed) => {
            buffer.truncate(old);
            Err(failed.into())
        }
    }
}

impl Ahead {
    /// Nothing is ahead.
    pub fn new(alloc: Global) -> Self
        ensures { result ≡ record { line = []; bytes = [] } }
    {
        Ahead {
            buffer: Vec::new(alloc),
            line: 0,
            len: 0,
            next: 0,
            searched: 0,
        }
    }

    /// The line that was handed out last.
    pub fn line(&self) -> &[u8]
        ensures { result.now ≡ self.now.line }
    {
        &self.buffer[self.line..self.line + self.len]
    }

    /// Forgets the line that was handed out last.
    pub fn forget_line(&mut self)
        ensures { self.new ≡ record { line = []; bytes = self.old.bytes } }
    {
        self.line = 0;
        self.len = 0;
    }

    /// Hands out the first line that has its line feed ahead, and answers whether there is one.
    pub fn take_line(&mut self) -> bool
        ensures line { IsTrue result → IsEndedLine self.old.bytes self.new.line self.new.bytes }
        ensures none { IsFalse result → HasNoFeed self.old.bytes × (self.new ≡ self.old) }
    {
        let from = self.next + self.searched;
        match feed_at(&self.buffer[from..]) {
            None => {
                self.searched = self.buffer.len() - self.next;
                false
            }
            Some(at) => {
                self.line = self.next;
                self.len = self.searched + at;
                self.next = from + at + 1;
                self.searched = 0;
                true
            }
        }
    }

    /// Hands out all bytes ahead as a line, and answers whether there are any.
    pub fn take_rest(&mut self) -> bool
        ensures rest { self.new ≡ record { line = self.old.bytes; bytes = [] } }
        ensures some { result ≡ nat_lt 0 (length self.old.bytes) }
    {
        self.line = self.next;
        self.len = self.buffer.len() - self.next;
        self.next = self.buffer.len();
        self.searched = 0;
        self.len > 0
    }

    /// Keeps at most that many bytes ahead, which have no line feed. The line is forgotten.
    pub fn keep(&mut self, most: usize)
        requires { HasNoFeed self.old.bytes }
        ensures { self.new ≡ record { line = []; bytes = take most self.old.bytes } }
    {
        let count = (self.buffer.len() - self.next).min(most);
        self.line = 0;
        self.len = 0;
        self.buffer.truncate(self.next + count);
        self.searched = count;
    }

    // Moves the bytes ahead to the start of the buffer, if they don't stand there, and forgets the line.
    fn move_to_start(&mut self)
        ensures { self.new ≡ record { line = []; bytes = self.old.bytes } }
    {
        self.line = 0;
        self.len = 0;
        if self.next == 0 {
            return;
        }
        let count = self.buffer.len() - self.next;
        self.buffer.copy_within(self.next.., 0);
        self.buffer.truncate(count);
        self.next = 0;
    }

    /// Reads at most `most` bytes after those ahead, and answers how many: 0 at the end of the source. The line is
    /// forgotten.
    ///
    /// # Errors
    ///
    /// [`LineError::Failed`] only where the source's count of faults rose, and [`LineError::NoMemory`]. No byte is taken
    /// then.
    pub fn read<S: Source>(&mut self, source: &mut S, most: usize) -> Result<usize, LineError>
        requires { most ≤ MAX_READ }
        ensures line { self.new.line ≡ [] }
        ensures most { IfOk result (λ count. count ≤ most) }
        ensures bytes { MatchResult result (λ count. IsReadAfter self.old.bytes self.new.bytes (S.left source.old) (S.left source.new) count) (λ _. (self.new.bytes ≡ self.old.bytes) × (S.left source.new ≡ S.left source.old)) }
        ensures end { IfOk result (λ count. count ≡ 0 → 0 < most → IsAtEnd (S.left source.new)) }
        ensures later { S.faults source.old ≤ S.faults source.new }
        ensures cause { IsErrOf result LineError.Failed → Faulted (S.faults source.old) (S.faults source.new) }
        ensures long { ¬ IsErrOf result LineError.TooLong }
    {
        self.move_to_start();
        append(&mut self.buffer, source, most)
    }
}
