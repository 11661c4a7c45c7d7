// Reads a device in pieces, each byte once.
ghost use Rattle.std.specs.Prelude.{◌≡◌, ◌≤◌, ◌+◌, drop, length, IfOk, IsErrOf, OnOk};
ghost use Rattle.pac_outside.specs.Causes.{EndsAtFault, one_more};
ghost use Rattle.pac_outside.specs.Disk.{IfKnown};
ghost use Rattle.pac_check.specs.Kinds.{slot_fault};
ghost use Rattle.pac_check.specs.PieceStates.{AreOfImage, HasItem, PiecesState};

use crate::SlotFault;
use crate::damage::fault_at;
use crate::limits::{ITEM_LEN, PIECE_LEN};
use pac_outside::{Disk, Failed, ReadError, read_more};
use std::alloc::Global;
use std::marker::Model;

/// The bytes of a device from a place on, of which a piece is held.
#[derive(Drop)]
pub(crate) struct Pieces {
    buffer: Vec<u8>,

    // How many of the bytes that are held were passed, and where the first of all stands on the device.
    passed: usize,
    base: u64,

    // How many bytes the device has.
    len: u64,
}

impl Model for Pieces {
    ghost use Rattle.std.specs.Prelude.{◌+◌, ◌≤◌, ◌<◌, ◌^◌, drop, vec_len};
    ghost use Rattle.pac_check.specs.PieceStates.{PiecesState};

    ghost Value = { PiecesState };

    ghost view = { λ p. record { place = p.base + p.passed; bytes = drop p.passed p.buffer.items; len = p.len } };

    ghost invariant = { λ p. (p.passed ≤ vec_len p.buffer) × (p.base + vec_len p.buffer < 2 ^ 64) };
}

// Removes the first `count` bytes of a list.
fn forget_front(buffer: &mut Vec<u8>, count: usize)
    requires { count ≤ length buffer.old.items }
    ensures { buffer.new.items ≡ drop count buffer.old.items }
{
    let left = buffer.len() - count;
    buffer.copy_within(count.., 0);
    buffer.truncate(left);
}

impl Pieces {
    /// The bytes of a device from an offset on. It asks the device for its length alone, and takes no memory.
    pub fn open<D: Disk>(alloc: Global, disk: &mut D, place: u64) -> Result<Pieces, Failed>
        ensures place { IfOk result (λ pieces. pieces.place ≡ place) }
        ensures of { IfOk result (λ pieces. IfKnown (λ old. AreOfImage old.now.seen pieces) (D.known disk.old)) }
        ensures same { D.known disk.new ≡ D.known disk.old }
        ensures counted { EndsAtFault (D.faults disk.old) (D.faults disk.new) result }
    {
        let len = disk.len()?;
        Ok(Pieces {
            buffer: Vec::new(alloc),
            passed: 0,
            base: place,
            len,
        })
    }

    /// Holds the next item whole, or all that the device has. Where it doesn't yet, it reads a piece, by one call of the device.
    /// It takes memory for one piece, once.
    ///
    /// # Errors
    ///
    /// Those of [`read_more`].
    pub fn fill<D: Disk>(&mut self, disk: &mut D) -> Result<(), ReadError>
        requires { IfKnown (λ old. AreOfImage old.now.seen self.old) (D.known disk.old) }
        ensures filled { OnOk result (IfKnown (λ old. AreOfImage old.now.seen self.new × HasItem self.new) (D.known disk.old)) }
        ensures place { self.new.place ≡ self.old.place }
        ensures same { D.known disk.new ≡ D.known disk.old }
        ensures counted { IsErrOf result ReadError.Failed → D.faults disk.new ≡ one_more (D.faults disk.old) }
        ensures quiet { ¬ IsErrOf result ReadError.Failed → D.faults disk.new ≡ D.faults disk.old }
    {
        let held = self.buffer.len() - self.passed;
        let end = self.base + self.buffer.len() as u64;
        if held >= ITEM_LEN || end >= self.len {
            return Ok(());
        }
        forget_front(&mut self.buffer, self.passed);
        self.base += self.passed as u64;
        self.passed = 0;
        let count = (self.len - end).min((PIECE_LEN - held) as u64) as usize;
        read_more(disk, end, count, &mut self.buffer)
    }

    /// What is held.
    pub fn held(&self) -> &[u8]
        ensures { result.now ≡ self.now.bytes }
    {
        &self.buffer[self.passed..]
    }

    /// Goes on by that many bytes.
    pub fn pass(&mut self, count: usize)
        requires { count ≤ length self.old.bytes }
        ensures { self.new ≡ record { place = self.old.place + count; bytes = drop count self.old.bytes; len = self.old.len } }
    {
        self.passed += count;
    }

    /// A fault in what is held, at its offset on the device.
    pub fn fault(&self, fault: SlotFault) -> SlotFault
        requires { fault.at ≤ length self.now.bytes }
        ensures { result ≡ slot_fault fault.kind (self.now.place + fault.at) }
    {
        fault_at(fault.kind, self.base as usize + self.passed + fault.at)
    }
}
