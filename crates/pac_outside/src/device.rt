// Devices of bytes.
ghost use Rattle.std.specs.Prelude.{◌≡◌, ◌≤◌, ℕ, Option, None, IfOk, IsErr, OnOk, drop, length, option_map, take};
ghost use Rattle.std.specs.Io.{ReadsAtMost};
ghost use Rattle.pac_outside.specs.Causes.{EndsAtFault, HasCause, one_more};
ghost use Rattle.pac_outside.specs.Disk.{BothKnown, DiskHistory, HasImages, LeavesAsBefore, LeavesTorn, SeenAreBytes, SeenIsImage, SeenOutside, IfKnown, after_sync, after_write};
ghost use Rattle.pac_outside.specs.Parts.{known_read};

use crate::Failed;
use crate::faults::Faults;

/// One device: bytes with offsets, which outlast a crash once they are synced.
///
/// Where that is known, the contracts say what a read gives, what a crash now may leave, and what a crash at each moment
/// since an earlier one might have left. A failed call is counted once, and no other.
pub trait Disk {
    // What it holds, and what it has held, where that is known.
    ghost known: { Self → Option DiskHistory };

    // How many calls failed.
    ghost faults: { Self → ℕ };

    /// How many bytes the device has.
    ///
    /// # Errors
    ///
    /// [`Failed`] only where the count of faults rose.
    fn len(&mut self) -> Result<u64, Failed>
        ensures len { IfOk result (λ len. IfKnown (λ old. len ≡ length old.now.seen) (known self.old)) }
        ensures same { known self.new ≡ known self.old }
        ensures cause { HasCause (faults self.old) (faults self.new) result }
        ensures counted { EndsAtFault (faults self.old) (faults self.new) result };

    /// Reads the bytes from offset `at` on into the start of `buf`, all that there are and have room, and answers how
    /// many.
    ///
    /// # Errors
    ///
    /// [`Failed`] only where the count of faults rose.
    fn read(&mut self, at: u64, buf: &mut [u8]) -> Result<usize, Failed>
        ensures bound { ReadsAtMost result buf.new }
        ensures bytes { IfOk result (λ count. IfKnown (λ old. take count buf.new ≡ take (length buf.old) (drop at old.now.seen)) (known self.old)) }
        ensures same { known self.new ≡ known self.old }
        ensures cause { HasCause (faults self.old) (faults self.new) result }
        ensures counted { EndsAtFault (faults self.old) (faults self.new) result };

    /// Writes the whole piece from offset `at` on, which is at most the length: over what stands there, and past the end.
    ///
    /// # Errors
    ///
    /// [`Failed`] only where the count of faults rose. The write may have been made in part, and a read in its range
    /// may give any bytes.
    fn write_at(&mut self, at: u64, piece: &[u8]) -> Result<(), Failed>
        requires { IfKnown (λ old. at ≤ length old.now.seen) (known self.old) }
        ensures written { OnOk result (known self.new ≡ option_map (after_write at piece.now) (known self.old)) }
        ensures moments { BothKnown (LeavesTorn at piece.now) (known self.old) (known self.new) }
        ensures elsewhere { BothKnown (SeenOutside at (length piece.now)) (known self.old) (known self.new) }
        ensures cause { HasCause (faults self.old) (faults self.new) result }
        ensures counted { EndsAtFault (faults self.old) (faults self.new) result };

    /// Makes what was written outlast a crash.
    ///
    /// # Errors
    ///
    /// [`Failed`] only where the count of faults rose. A crash may leave what it might have left before, and a read gives
    /// what it gave.
    fn sync(&mut self) -> Result<(), Failed>
        ensures durable { OnOk result (known self.new ≡ option_map after_sync (known self.old)) }
        ensures moments { BothKnown LeavesAsBefore (known self.old) (known self.new) }
        ensures seen { known_read (known self.new) ≡ known_read (known self.old) }
        ensures cause { HasCause (faults self.old) (faults self.new) result }
        ensures counted { EndsAtFault (faults self.old) (faults self.new) result };

    // What a read gives is one of the images that a crash now may leave.
    ghost seen_is_image: { (disk : Self) → IfKnown SeenIsImage (known disk) };

    // And so it was in each state that it says: none is without an image.
    ghost has_images: { (disk : Self) → IfKnown HasImages (known disk) };

    // What a read gives are bytes.
    ghost seen_are_bytes: { (disk : Self) → IfKnown SeenAreBytes (known disk) };
}

/// A disk that isn't there: each call fails and is counted. Nothing is known of it.
#[derive(Drop)]
pub struct NoDisk {
    faults: Faults,
}

impl NoDisk {
    /// A disk that isn't there, and was not called yet.
    pub fn new() -> Self
        ensures { result.faults ≡ 0 }
    {
        NoDisk {
            faults: Faults::new(),
        }
    }
}

impl Disk for NoDisk {
    ghost known = { λ _. None };

    ghost faults = { λ disk. disk.faults };

    ghost seen_is_image = { λ _. tt };

    ghost has_images = { λ _. tt };

    ghost seen_are_bytes = { λ _. tt };

    fn len(&mut self) -> Result<u64, Failed>
        ensures failed { IsErr result }
        ensures counted { self.new.faults ≡ one_more self.old.faults }
        ensures cause { HasCause self.old.faults self.new.faults result }
    {
        Err(self.faults.fail())
    }

    fn read(&mut self, _at: u64, buf: &mut [u8]) -> Result<usize, Failed>
        ensures failed { IsErr result }
        ensures buffer { buf.new ≡ buf.old }
        ensures counted { self.new.faults ≡ one_more self.old.faults }
        ensures cause { HasCause self.old.faults self.new.faults result }
    {
        Err(self.faults.fail()) // no byte comes
    }

    fn write_at(&mut self, _at: u64, _piece: &[u8]) -> Result<(), Failed>
        ensures failed { IsErr result }
        ensures counted { self.new.faults ≡ one_more self.old.faults }
        ensures cause { HasCause self.old.faults self.new.faults result }
    {
        Err(self.faults.fail())
    }

    fn sync(&mut self) -> Result<(), Failed>
        ensures failed { IsErr result }
        ensures counted { self.new.faults ≡ one_more self.old.faults }
        ensures cause { HasCause self.old.faults self.new.faults result }
    {
        Err(self.faults.fail())
    }
}
