// Makes a log.
ghost use Rattle.std.specs.Prelude.{◌≡◌, ◌<◌, ◌≤◌, ℕ, [], ◌∷◌, ◌++◌, length, OnOk, OnErr, IsErrOf, MatchResult};
ghost use Rattle.pac_outside.specs.Causes.{EndsAtFault, Faulted, one_more};
ghost use Rattle.pac_outside.specs.Disk.{BothKnown, IfKnown, settled};
ghost use Rattle.pac_types.specs.Typing.{CatalogueState};
ghost use Rattle.pac_log.specs.Logs.{HoldsLog, header_bytes, header_with};
ghost use Rattle.pac_log.specs.declared.header.HeaderForm.TheVariants.{First};
ghost use Rattle.pac_types.specs.Accepted.{IsAccepted};
ghost use Rattle.pac_outside.specs.GateByte.{OneImage};

use crate::header::header_and_gate;
use crate::{CreateError, HeaderForm};
use pac_outside::{Disk, write_and_sync};
use std::alloc::Global;

/// Makes the log of a catalogue's text on an empty device, with no batch in it: the header and a closed gate, which it
/// syncs.
///
/// # Errors
///
/// - [`CreateError::NotEmpty`] exactly where the device has a byte. Nothing is written.
/// - [`CreateError::DiskFault`] where a call of the device failed, so only where its count of faults rose. Nothing is
///   promised of the device then; no call comes after the one that failed.
/// - [`CreateError::NoMemory`] where there was no memory for the header. Nothing is written.
pub fn create<D: Disk>(alloc: Global, disk: &mut D, text: &[u8]) -> Result<(), CreateError>
    requires { (catalogue : CatalogueState) × IsAccepted text.now catalogue }

    // From Ok on each crash leaves the header and a closed gate, which are the log of this text, without a batch.
    ensures bytes { OnOk result (BothKnown (λ old new. new.now ≡ settled (header_bytes (header_with First text.now) ++ 0 ∷ [])) (D.known disk.old) (D.known disk.new)) }
    ensures made { OnOk result ((catalogue : CatalogueState) → IsAccepted text.now catalogue → BothKnown (λ old new. OneImage (HoldsLog (header_with First text.now) catalogue []) new.now) (D.known disk.old) (D.known disk.new)) }
    ensures empty { OnOk result (IfKnown (λ old. length old.now.seen ≡ 0) (D.known disk.old)) }
    ensures not_empty { (len : ℕ) → IsErrOf result (CreateError.NotEmpty len) → (0 < len) × IfKnown (λ old. len ≡ length old.now.seen) (D.known disk.old) }
    ensures kept { OnErr result (¬ IsErrOf result CreateError.DiskFault → D.known disk.new ≡ D.known disk.old) }
    ensures cause { IsErrOf result CreateError.DiskFault → Faulted (D.faults disk.old) (D.faults disk.new) }
    ensures counted { IsErrOf result CreateError.DiskFault → D.faults disk.new ≡ one_more (D.faults disk.old) }
    ensures quiet { ¬ IsErrOf result CreateError.DiskFault → D.faults disk.new ≡ D.faults disk.old }
{
    let length = disk.len()?;
    if length > 0 {
        return Err(CreateError::NotEmpty { length });
    }
    let bytes = header_and_gate(alloc, HeaderForm::First, text)?;
    Ok(write_and_sync(disk, 0, &bytes)?)
}
