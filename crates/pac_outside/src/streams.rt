// A source and a sink over the streams of the system.
ghost use Rattle.std.specs.Prelude.{◌≡◌, None, if◌then◌else◌};
ghost use Rattle.std.specs.Io.{ReadsAtMost};
ghost use Rattle.std.specs.Io.KnownBytes.{ReadConsumes, WriteAppends};
ghost use Rattle.std.specs.Result.{is_ok};
ghost use Rattle.pac_outside.specs.Causes.{HasCause, one_more};
ghost use Rattle.pac_outside.specs.Content.{IsRead, IsWrite};

use crate::faults::Faults;
use crate::{Failed, Sink, Source};
use std::io::{Read, Write};
use std::marker::Model;

/// A stream of the system and a count of its faults: over a reader, as standard input, it is a source, and over a
/// writer, as standard output, a sink. Callers that are generic over sources or sinks are given nothing of its content.
#[derive(Drop)]
pub struct Stream<S> {
    stream: S,
    faults: Faults,
}

impl<S> Model for Stream<S> {
    ghost use Rattle.pac_outside.specs.Streams.{StreamState};

    ghost Value = { StreamState S };

    ghost view = { λ stream. record { stream = stream.stream; faults = stream.faults } };
}

impl<S> Stream<S> {
    /// The stream, without a fault yet.
    pub fn new(stream: S) -> Self
        ensures { result ≡ record { stream = stream; faults = 0 } }
    {
        Stream {
            stream,
            faults: Faults::new(),
        }
    }
}

impl<R: Read> Source for Stream<R> {
    ghost left = { λ _. None };

    ghost faults = { λ source. source.faults };

    /// Reads from the reader once.
    ///
    /// # Errors
    ///
    /// [`Failed`] where the reader answered an error, which is counted.
    fn read(&mut self, buf: &mut [u8]) -> Result<usize, Failed>
        ensures bound { ReadsAtMost result buf.new }
        ensures bytes { IsRead None None result buf.new }
        ensures cause { HasCause self.old.faults self.new.faults result }

        // What comes is what the reader gave, where it says what it gives.
        ensures passed { ReadConsumes (R.remaining self.old.stream) (R.remaining self.new.stream) result buf.new }
        ensures counted { self.new.faults ≡ (if is_ok result then self.old.faults else one_more self.old.faults) }
    {
        match self.stream.read(buf) {
            Ok(count) => Ok(count),
            Err(_) => Err(self.faults.fail()),
        }
    }
}

/// It doesn't flush.
impl<W: Write> Sink for Stream<W> {
    ghost held = { λ _. None };

    ghost faults = { λ sink. sink.faults };

    /// Writes to the writer once.
    ///
    /// # Errors
    ///
    /// [`Failed`] where the writer answered an error, or took nothing of a piece that isn't empty; both are counted.
    fn write(&mut self, piece: &[u8]) -> Result<usize, Failed>
        ensures bytes { IsWrite None None result piece.now }
        ensures cause { HasCause self.old.faults self.new.faults result }

        // What the writer took is the prefix of the piece, where it says what it holds.
        ensures passed { WriteAppends (W.contents self.old.stream) (W.contents self.new.stream) result piece.now }
        ensures counted { self.new.faults ≡ (if is_ok result then self.old.faults else one_more self.old.faults) }
    {
        match self.stream.write(piece) {
            Ok(count) if count > 0 || piece.is_empty() => Ok(count),
            _ => Err(self.faults.fail()),
        }
    }
}
