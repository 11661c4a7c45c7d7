// A disk in memory at one moment, and its images.
ghost use Rattle.std.specs.Prelude.{◌≡◌, ◌<◌, ◌≤◌, ℕ, IfOk, length, option_map, slice_index_or, unwrap_or};
ghost use Rattle.pac_outside.specs.Disk.{IsImage, is_unsynced, settled, spliced, wrote};
ghost use Rattle.pac_outside.specs.Fills.{IsFilled, byte_left};

use std::alloc::{AllocError, Global};

/// What the offsets hold, in an image, that were written since the last sync that succeeded.
#[derive(Clone, Copy, Debug, PartialEq, Eq)]
pub enum Fill {
    /// Their bytes at that sync, and 0 where there was none.
    Old,
    /// The bytes that were last to be written there, by a write that failed too.
    New,
    /// This byte.
    Byte(u8),
}

/// What a disk holds at one moment.
#[derive(Drop)]
pub(crate) struct Moment {
    // The bytes at the last sync, where they aren't those that a read gives.
    synced: Option<Vec<u8>>,
    // Offset and length of each write since then.
    written: Vec<(usize, usize)>,
    seen: Vec<u8>,
    ghost image: { IsImage (record { synced = unwrap_or (option_map (λ bytes. bytes.items) synced) seen.items; written = written.items; seen = seen.items }) seen.items },
    ghost bytes: { (offset : ℕ) → slice_index_or seen.items offset 0 < 256 },
}

impl Moment {
    ghost use Rattle.pac_outside.specs.Moments.{moment_state};

    /// These bytes, all synced.
    pub fn settled(bytes: Vec<u8>) -> Moment
        ensures { moment_state result ≡ settled bytes.items }
    {
        Moment {
            synced: None,
            written: Vec::new(*bytes.allocator()),
            seen: bytes,
        }
    }

    /// What a sync makes of it.
    pub fn after_sync(&self) -> Result<Moment, AllocError>
        ensures { IfOk result (λ next. moment_state next ≡ settled self.now.seen.items) }
    {
        Ok(Moment::settled(self.seen.clone()?))
    }

    /// What a write makes of it.
    pub fn after_write(&self, at: usize, piece: &[u8]) -> Result<Moment, AllocError>
        requires { at ≤ length self.now.seen.items }
        ensures { IfOk result (λ next. moment_state next ≡ wrote at piece.now (moment_state self.now)) }
    {
        let alloc = *self.seen.allocator();
        let mut written = vec![in alloc; (at, piece.len())]?;
        written.extend_from_slice(&self.written)?;
        Ok(Moment {
            synced: Some(self.synced().to_vec(alloc)?),
            written,
            seen: splice(alloc, at, piece, &self.seen)?,
        })
    }

    /// What a read gives.
    pub fn seen(&self) -> &[u8]
        ensures { result.now ≡ (moment_state self.now).seen }
    {
        &self.seen
    }

    fn synced(&self) -> &[u8]
        ensures { result.now ≡ (moment_state self.now).synced }
    {
        match &self.synced {
            Some(bytes) => bytes,
            None => &self.seen,
        }
    }

    fn is_unsynced(&self, offset: usize) -> bool
        ensures { result ≡ is_unsynced (moment_state self.now) offset }
    {
        self.written
            .iter()
            .any(|&(at, count)| at <= offset && offset - at < count)
    }

    fn byte_left(&self, fill: Fill, offset: usize) -> u8
        requires { offset < length self.now.seen.items }
        ensures { result ≡ byte_left fill (moment_state self.now) offset }
    {
        let at_sync = self.synced().get(offset).copied().unwrap_or(0);
        if !self.is_unsynced(offset) {
            return at_sync;
        }
        match fill {
            Fill::Old => at_sync,
            Fill::New => self.seen[offset],
            Fill::Byte(byte) => byte,
        }
    }

    /// The image by this fill, of the present length where it has grown, and else of that at the sync.
    pub fn image(&self, fill: Fill, grown: bool) -> Result<Vec<u8>, AllocError>
        ensures filled { IfOk result (λ image. IsFilled fill grown (moment_state self.now) image.items) }
        ensures image { IfOk result (λ image. IsImage (moment_state self.now) image.items) }
    {
        let len = if grown {
            self.seen.len()
        } else {
            self.synced().len()
        };
        let mut image = Vec::new(*self.seen.allocator());
        for offset in 0..len {
            image.push(self.byte_left(fill, offset))?;
        }
        Ok(image)
    }
}

// The piece over what stands from an offset on.
fn splice(alloc: Global, at: usize, piece: &[u8], bytes: &[u8]) -> Result<Vec<u8>, AllocError>
    requires { at ≤ length bytes.now }
    ensures { IfOk result (λ all. all.items ≡ spliced at piece.now bytes.now) }
{
    let mut all = bytes[..at].to_vec(alloc)?;
    all.extend_from_slice(piece)?;
    let after = &bytes[at..];
    if piece.len() < after.len() {
        all.extend_from_slice(&after[piece.len()..])?;
    }
    Ok(all)
}
