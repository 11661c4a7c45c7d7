// Reads of a part of a disk.
ghost use Rattle.std.specs.Prelude.{◌≡◌, ◌<◌, ◌≤◌, ◌+◌, ◌^◌, ◌++◌, IfOk, IsErrOf, OnErr, OnOk, drop, length, take};
ghost use Rattle.pac_outside.specs.Causes.{Faulted, one_more};
ghost use Rattle.pac_outside.specs.Disk.{IfKnown};

use crate::{Disk, ReadError};
use std::alloc::Global;

/// Reads the bytes from offset `at` on, at most `count`, and fewer only where the disk ends. It takes the memory for
/// `count` bytes.
///
/// # Errors
///
/// [`ReadError::Failed`] where the read failed, so only where the disk's count of faults rose.
/// [`ReadError::NoMemory`] where there was no memory for the bytes.
pub fn read_piece<D: Disk>(
    alloc: Global,
    disk: &mut D,
    at: u64,
    count: usize,
) -> Result<Vec<u8>, ReadError>
    ensures bytes { IfOk result (λ piece. IfKnown (λ old. piece.items ≡ take count (drop at old.now.seen)) (D.known disk.old)) }
    ensures bound { IfOk result (λ piece. length piece.items ≤ count) }
    ensures same { D.known disk.new ≡ D.known disk.old }

    // The count rose once where the disk is said to have failed, and else stays.
    ensures later { D.faults disk.old ≤ D.faults disk.new }
    ensures cause { IsErrOf result ReadError.Failed → Faulted (D.faults disk.old) (D.faults disk.new) }
    ensures counted { IsErrOf result ReadError.Failed → D.faults disk.new ≡ one_more (D.faults disk.old) }
    ensures kept { ¬ IsErrOf result ReadError.Failed → D.faults disk.new ≡ D.faults disk.old }
{
    let mut piece = vec![in alloc; 0u8; count]?;
    let len = disk.read(at, &mut piece)?;
    piece.truncate(len);
    Ok(piece)
}

/// Appends the bytes from offset `at` on, at most `count`, and fewer only where the disk ends. It takes the memory for
/// `count` bytes.
///
/// # Errors
///
/// Those of [`read_piece`]. The list is as it was.
pub fn read_more<D: Disk>(
    disk: &mut D,
    at: u64,
    count: usize,
    bytes: &mut Vec<u8>,
) -> Result<(), ReadError>
    requires { length bytes.old.items + count < 2 ^ 64 }
    ensures bytes { OnOk result (IfKnown (λ old. bytes.new.items ≡ bytes.old.items ++ take count (drop at old.now.seen)) (D.known disk.old)) }
    ensures bound { length bytes.new.items ≤ length bytes.old.items + count }
    ensures unchanged { OnErr result (bytes.new.items ≡ bytes.old.items) }
    ensures same { D.known disk.new ≡ D.known disk.old }

    // The count rose once where the disk is said to have failed, and else stays.
    ensures later { D.faults disk.old ≤ D.faults disk.new }
    ensures cause { IsErrOf result ReadError.Failed → Faulted (D.faults disk.old) (D.faults disk.new) }
    ensures counted { IsErrOf result ReadError.Failed → D.faults disk.new ≡ one_more (D.faults disk.old) }
    ensures kept { ¬ IsErrOf result ReadError.Failed → D.faults disk.new ≡ D.faults disk.old }
{
    let old = bytes.len();
    bytes.resize(old + count, 0)?;
    match disk.read(at, &mut bytes[old..]) {
        Ok(len) => {
            bytes.truncate(old + len);
            Ok(())
        }
        Err(failed) => {
            bytes.truncate(old);
            Err(failed.into())
        }
    }
}
