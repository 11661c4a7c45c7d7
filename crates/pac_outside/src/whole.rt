// Whole inputs and whole texts.
ghost use Rattle.std.specs.Prelude.{◌≡◌, ◌≤◌, ◌+◌, length, IfOk, OnOk, IsErrOf};
ghost use Rattle.pac_outside.specs.Causes.{HasCause, Faulted};
ghost use Rattle.pac_outside.specs.Content.{Gave, GaveAtMost, IsAtEnd, Took, TookPrefix};

use crate::{Failed, ReadError, Sink, Source};
use std::alloc::Global;

/// Writes the whole text, or fails and has written a prefix of it.
///
/// # Errors
///
/// [`Failed`] where a write failed, so only where the sink's count of faults rose.
pub fn write_all<K: Sink>(sink: &mut K, text: &[u8]) -> Result<(), Failed>
    ensures ok { OnOk result (Took (K.held sink.old) text.now (K.held sink.new)) }
    ensures prefix { TookPrefix (K.held sink.old) text.now (K.held sink.new) }
    ensures cause { HasCause (K.faults sink.old) (K.faults sink.new) result }
{
    let mut at = 0;
    while at < text.len() {
        at += sink.write(&text[at..])?;
    }
    Ok(())
}

// How many bytes one call of a source is asked for at most.
const CHUNK: usize = 4096;

/// Reads to the end of the input, or until one byte more than `limit` came: so an answer of at most `limit` bytes is all
/// that was left, and no more than `limit` and one byte are taken from the source. Each read takes a byte or is the last,
/// so reading ends.
///
/// # Errors
///
/// [`ReadError::Failed`] where a read failed, so only where the source's count of faults rose.
/// [`ReadError::NoMemory`] where there was no memory for the bytes; the source may have given bytes that are lost.
pub fn read_up_to<S: Source>(
    alloc: Global,
    source: &mut S,
    limit: usize,
) -> Result<Vec<u8>, ReadError>
    ensures bytes { IfOk result (λ text. Gave (S.left source.old) text.items (S.left source.new)) }
    ensures end { IfOk result (λ text. length text.items ≤ limit → IsAtEnd (S.left source.new)) }

    // What was taken is bounded, also where the answer is an error.
    ensures taken { GaveAtMost (limit + 1) (S.left source.old) (S.left source.new) }

    // The count never falls, and it rose where the source is said to have failed.
    ensures later { S.faults source.old ≤ S.faults source.new }
    ensures cause { IsErrOf result ReadError.Failed → Faulted (S.faults source.old) (S.faults source.new) }
{
    let mut text = Vec::new(alloc);
    while text.len() <= limit {
        let room = (limit - text.len()).saturating_add(1);
        let mut buf = [0u8; CHUNK];
        let part = &mut buf[..room.min(CHUNK)];
        let count = source.read(part)?;
        if count == 0 {
            break;
        }
        text.extend_from_slice(&part[..count])?;
    }
    Ok(text)
}
