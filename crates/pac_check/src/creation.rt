// Makes a slot.
ghost use Rattle.std.specs.Prelude.{◌≡◌, ◌<◌, ℕ, List, [], ◌∷◌, length, OnOk, IsErrOf};
ghost use Rattle.pac_outside.specs.Causes.{Faulted, one_more};
ghost use Rattle.pac_outside.specs.Disk.{BothKnown, IfKnown, settled};

use crate::CreateSlotError;
use pac_outside::{Disk, GATE_SHUT, write_and_sync};

/// Makes a slot without a checkpoint on an empty device: a closed gate, which it syncs. Takes no memory.
///
/// # Errors
///
/// - [`CreateSlotError::NotEmpty`] exactly where the device has a byte. Nothing is written.
/// - [`CreateSlotError::DiskFault`] where a call of the device failed, so only where its count of faults rose. Nothing is
///   promised of the device then; no call comes after the one that failed.
pub fn create_slot<D: Disk>(disk: &mut D) -> Result<(), CreateSlotError>
    // From Ok on each crash leaves the one byte 0.
    ensures made { OnOk result (BothKnown (λ old new. new.now ≡ settled (0 ∷ [])) (D.known disk.old) (D.known disk.new)) }
    ensures empty { OnOk result (IfKnown (λ old. length old.now.seen ≡ 0) (D.known disk.old)) }
    ensures not_empty { (len : ℕ) → IsErrOf result (CreateSlotError.NotEmpty len) → (0 < len) × IfKnown (λ old. len ≡ length old.now.seen) (D.known disk.old) }
    ensures kept { (len : ℕ) → IsErrOf result (CreateSlotError.NotEmpty len) → D.known disk.new ≡ D.known disk.old }
    ensures cause { IsErrOf result CreateSlotError.DiskFault → Faulted (D.faults disk.old) (D.faults disk.new) }
    ensures counted { IsErrOf result CreateSlotError.DiskFault → D.faults disk.new ≡ one_more (D.faults disk.old) }
    ensures quiet { ¬ IsErrOf result CreateSlotError.DiskFault → D.faults disk.new ≡ D.faults disk.old }
{
    let length = disk.len()?;
    if length > 0 {
        return Err(CreateSlotError::NotEmpty { length });
    }
    Ok(write_and_sync(disk, 0, &[GATE_SHUT])?)
}
