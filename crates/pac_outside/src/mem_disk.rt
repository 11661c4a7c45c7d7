// A disk in memory, with calls that fail.
ghost use Rattle.std.specs.Prelude.{◌≡◌, ◌↔◌, ◌≤◌, [], Some, IfOk, IsErr, IsTrue, OnErr, OnOk, drop, false, length, take, if◌then◌else◌};
ghost use Rattle.std.specs.Io.{ReadsAtMost};
ghost use Rattle.std.specs.Result.{is_ok};
ghost use Rattle.pac_outside.specs.Calls.{after_failed, after_passed, is_next_failing};
ghost use Rattle.pac_outside.specs.Causes.{EndsAtFault, HasCause};
ghost use Rattle.pac_outside.specs.Disk.{IsImage, LeavesAsBefore, LeavesTorn, SeenOutside, after_sync, after_write, becomes as becomes_of, settled};
ghost use Rattle.pac_outside.specs.Fills.{IsFilled};

use crate::calls::Calls;
use crate::memory::copy_prefix;
use crate::moment::Moment;
use crate::{Disk, Failed, Fill};
use pac_base::NoMemory;
use std::alloc::AllocError;
use std::mem;

/// A disk in memory. Some of its calls fail. It keeps a copy of its bytes for each moment that it was in, so that what a
/// crash might have left is known.
#[derive(Drop)]
pub struct MemDisk {
    present: Moment,
    past: Vec<Moment>,
    calls: Calls,
    // A write found no memory.
    lost: bool,
}

impl MemDisk {
    ghost use Rattle.pac_outside.specs.MemDisk.{calls_of, has_lost, history_of};
    ghost use Rattle.pac_outside.specs.Moments.{moment_state};

    /// A disk with these bytes, all synced. Its calls with the numbers in `failing`, from 1 on, fail.
    pub fn new(bytes: Vec<u8>, failing: Vec<u64>) -> Self
        ensures known { history_of result ≡ record { past = []; now = settled bytes.items } }
        ensures calls { calls_of result ≡ record { made = 0; failing = failing.items; faults = 0 } }
        ensures whole { has_lost result ≡ false }
    {
        let past = Vec::new(*bytes.allocator());
        MemDisk {
            present: Moment::settled(bytes),
            past,
            calls: Calls::new(failing),
            lost: false,
        }
    }

    /// One of the images that a crash now may leave: the offsets that were written since the last sync that succeeded are
    /// filled by `fill`. It has the present length where it has `grown`, and otherwise the length at that sync. A write
    /// that failed counts as a write for both; making the disk counts as a sync.
    ///
    /// # Errors
    ///
    /// [`NoMemory`] where there was no memory for the image, or for a write before.
    pub fn image(&self, fill: Fill, grown: bool) -> Result<Vec<u8>, NoMemory>
        ensures filled { IfOk result (λ image. IsFilled fill grown (history_of self.now).now image.items) }
        ensures image { IfOk result (λ image. IsImage (history_of self.now).now image.items) }
        ensures whole { OnOk result (has_lost self.now ≡ false) }
    {
        if self.lost {
            return Err(NoMemory);
        }
        Ok(self.present.image(fill, grown)?)
    }

    // A moment later.
    fn becomes(&mut self, next: Moment) -> Result<(), AllocError>
        ensures ok { OnOk result (history_of self.new ≡ becomes_of (moment_state next) (history_of self.old)) }
        ensures err { OnErr result (history_of self.new ≡ history_of self.old) }
        ensures calls { calls_of self.new ≡ calls_of self.old }
        ensures lost { has_lost self.new ≡ has_lost self.old }
    {
        let before = mem::replace(&mut self.present, next);
        if let Err(back) = self.past.push(before) {
            self.present = back.value;
            return Err(AllocError);
        }
        Ok(())
    }

    // A moment later, when a piece was written.
    fn write(&mut self, at: usize, piece: &[u8]) -> Result<(), AllocError>
        requires { at ≤ length (history_of self.old).now.seen }
        ensures ok { OnOk result (history_of self.new ≡ after_write at piece.now (history_of self.old)) }
        ensures err { OnErr result (history_of self.new ≡ history_of self.old) }
        ensures calls { calls_of self.new ≡ calls_of self.old }
        ensures lost { has_lost self.new ≡ has_lost self.old }
    {
        let next = self.present.after_write(at, piece)?;
        self.becomes(next)
    }

    // A moment later, when all was synced.
    fn settle(&mut self) -> Result<(), AllocError>
        ensures ok { OnOk result (history_of self.new ≡ after_sync (history_of self.old)) }
        ensures err { OnErr result (history_of self.new ≡ history_of self.old) }
        ensures calls { calls_of self.new ≡ calls_of self.old }
        ensures lost { has_lost self.new ≡ has_lost self.old }
    {
        let next = self.present.after_sync()?;
        self.becomes(next)
    }
}

impl Disk for MemDisk {
    ghost use Rattle.pac_outside.specs.MemDisk.{IsMade, calls_of, has_lost, have_images, history_of};

    ghost known = { λ disk. Some (history_of disk) };

    ghost faults = { λ disk. (calls_of disk).faults };

    ghost seen_is_image = { λ disk. disk.present.image };

    ghost has_images = { λ disk. have_images disk.past.items disk.present };

    ghost seen_are_bytes = { λ disk. disk.present.bytes };

    /// How many bytes a read gives from offset 0 on.
    ///
    /// # Errors
    ///
    /// [`Failed`] exactly where the call is one of those that are to fail.
    fn len(&mut self) -> Result<u64, Failed>
        ensures len { IfOk result (λ len. len ≡ length (history_of self.old).now.seen) }
        ensures same { history_of self.new ≡ history_of self.old }
        ensures cause { HasCause (calls_of self.old).faults (calls_of self.new).faults result }
        ensures once { EndsAtFault (calls_of self.old).faults (calls_of self.new).faults result }

        ensures failed { IsErr result ↔ IsTrue (is_next_failing (calls_of self.old)) }
        ensures counted { calls_of self.new ≡ (if is_ok result then after_passed (calls_of self.old) else after_failed (calls_of self.old)) }
        ensures lost { has_lost self.new ≡ has_lost self.old }
    {
        self.calls.begin()?;
        Ok(self.present.seen().len() as u64)
    }

    /// Gives all that stands from offset `at` on and has room.
    ///
    /// # Errors
    ///
    /// [`Failed`] exactly where the call is one of those that are to fail.
    fn read(&mut self, at: u64, buf: &mut [u8]) -> Result<usize, Failed>
        ensures bound { ReadsAtMost result buf.new }
        ensures bytes { IfOk result (λ count. take count buf.new ≡ take (length buf.old) (drop at (history_of self.old).now.seen)) }
        ensures same { history_of self.new ≡ history_of self.old }
        ensures cause { HasCause (calls_of self.old).faults (calls_of self.new).faults result }
        ensures once { EndsAtFault (calls_of self.old).faults (calls_of self.new).faults result }

        ensures failed { IsErr result ↔ IsTrue (is_next_failing (calls_of self.old)) }
        ensures counted { calls_of self.new ≡ (if is_ok result then after_passed (calls_of self.old) else after_failed (calls_of self.old)) }
        ensures lost { has_lost self.new ≡ has_lost self.old }
    {
        self.calls.begin()?;
        let seen = self.present.seen();
        let from = seen.len().min(at as usize);
        Ok(copy_prefix(buf, &seen[from..]))
    }

    /// Writes the piece, also where the call is one of those that are to fail.
    ///
    /// # Errors
    ///
    /// [`Failed`] where the call is one of those that are to fail, and where there was no memory. Without memory nothing
    /// was written, and no image is given any more.
    fn write_at(&mut self, at: u64, piece: &[u8]) -> Result<(), Failed>
        requires { at ≤ length (history_of self.old).now.seen }
        ensures written { OnOk result (history_of self.new ≡ after_write at piece.now (history_of self.old)) }
        ensures moments { LeavesTorn at piece.now (history_of self.old) (history_of self.new) }
        ensures elsewhere { SeenOutside at (length piece.now) (history_of self.old) (history_of self.new) }
        ensures cause { HasCause (calls_of self.old).faults (calls_of self.new).faults result }
        ensures once { EndsAtFault (calls_of self.old).faults (calls_of self.new).faults result }

        ensures made { IsMade at piece.now self.old self.new }
        ensures failed { IsTrue (is_next_failing (calls_of self.old)) → IsErr result }
        ensures counted { calls_of self.new ≡ (if is_ok result then after_passed (calls_of self.old) else after_failed (calls_of self.old)) }
    {
        let begun = self.calls.begin();
        if self.write(at as usize, piece).is_err() {
            self.lost = true;
            begun?;
            return Err(self.calls.fail());
        }
        begun
    }

    /// Makes what was written outlast a crash.
    ///
    /// # Errors
    ///
    /// [`Failed`] where the call is one of those that are to fail, and where there was no memory. Nothing changes then.
    fn sync(&mut self) -> Result<(), Failed>
        ensures durable { OnOk result (history_of self.new ≡ after_sync (history_of self.old)) }
        ensures moments { LeavesAsBefore (history_of self.old) (history_of self.new) }
        ensures seen { (history_of self.new).now.seen ≡ (history_of self.old).now.seen }
        ensures cause { HasCause (calls_of self.old).faults (calls_of self.new).faults result }
        ensures once { EndsAtFault (calls_of self.old).faults (calls_of self.new).faults result }

        ensures unchanged { OnErr result (history_of self.new ≡ history_of self.old) }
        ensures failed { IsTrue (is_next_failing (calls_of self.old)) → IsErr result }
        ensures counted { calls_of self.new ≡ (if is_ok result then after_passed (calls_of self.old) else after_failed (calls_of self.old)) }
        ensures lost { has_lost self.new ≡ has_lost self.old }
    {
        self.calls.begin()?;
        if self.settle().is_err() {
            return Err(self.calls.fail());
        }
        Ok(())
    }
}
