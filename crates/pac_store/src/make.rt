// Makes a store on empty devices.
ghost use Rattle.std.specs.Prelude.{◌≡◌, ◌<◌, ℕ, List, [], ◌∷◌, length, Err, OnOk, OnErr, IsErrOf};
ghost use Rattle.pac_outside.specs.Causes.{one_more};
ghost use Rattle.pac_outside.specs.Devices.{OneFaulted, IfAllKnown, each};
ghost use Rattle.pac_outside.specs.Disk.{BothKnown, IfKnown, settled};
ghost use Rattle.pac_types.specs.Typing.{CatalogueState};
ghost use Rattle.pac_types.specs.Accepted.{IsAccepted};
ghost use Rattle.pac_store.specs.Made.{AreEmpty, IsInUse, MakesStore};
ghost use Rattle.pac_store.specs.declared.device.DeviceName.{DeviceName as ADevice};

use crate::{DeviceName, MakeError};
use pac_check::{CreateSlotError, create_slot};
use pac_log::create;
use pac_outside::{Devices, Disk};
use std::alloc::Global;

// Refuses a device that has bytes.
fn refuse(device: DeviceName, length: u64) -> Result<(), MakeError>
    ensures ok { OnOk result (length ≡ 0) }
    ensures err { OnErr result ((0 < length) × (result ≡ Err (MakeError.NotEmpty device length))) }
{
    if length > 0 {
        return Err(MakeError::NotEmpty { device, length });
    }
    Ok(())
}

// Refuses devices of which one has bytes.
fn refuse_in_use<D: Disk>(devices: &mut Devices<D>) -> Result<(), MakeError>
    ensures same { each D.known devices.new ≡ each D.known devices.old }
    ensures empty { OnOk result (IfAllKnown (λ old new. AreEmpty old) (each D.known devices.old) (each D.known devices.new)) }
    ensures in_use { (device : ADevice) (length : ℕ) → IsErrOf result (MakeError.NotEmpty device length) → IfAllKnown (IsInUse device length) (each D.known devices.old) (each D.known devices.new) }
    ensures counted { IsErrOf result MakeError.DiskFault → OneFaulted (each D.faults devices.old) (each D.faults devices.new) }
    ensures quiet { ¬ IsErrOf result MakeError.DiskFault → each D.faults devices.new ≡ each D.faults devices.old }
{
    let length = devices.log.len()?;
    refuse(DeviceName::Log, length)?;
    let length = devices.log_b.len()?;
    refuse(DeviceName::LogB, length)?;
    let length = devices.slot_a.len()?;
    refuse(DeviceName::SlotA, length)?;
    let length = devices.slot_b.len()?;
    refuse(DeviceName::SlotB, length)
}

// Makes a slot.
fn make_slot<D: Disk>(device: DeviceName, disk: &mut D) -> Result<(), MakeError>
    ensures made { OnOk result (BothKnown (λ old new. new.now ≡ settled (0 ∷ [])) (D.known disk.old) (D.known disk.new)) }
    ensures not_empty { (named : ADevice) (len : ℕ) → IsErrOf result (MakeError.NotEmpty named len) → (0 < len) × IfKnown (λ old. len ≡ length old.now.seen) (D.known disk.old) }
    ensures counted { IsErrOf result MakeError.DiskFault → D.faults disk.new ≡ one_more (D.faults disk.old) }
    ensures quiet { ¬ IsErrOf result MakeError.DiskFault → D.faults disk.new ≡ D.faults disk.old }
    ensures memory { ¬ IsErrOf result MakeError.NoMemory }
{
    match create_slot(disk) {
        Ok(()) => Ok(()),
        Err(CreateSlotError::NotEmpty { length }) => Err(MakeError::NotEmpty { device, length }),
        Err(CreateSlotError::DiskFault) => Err(MakeError::DiskFault),
    }
}

/// Makes the store of a catalogue's text on four empty devices: the log's header and its closed gate, and a closed gate
/// in each slot, each of which it syncs.
///
/// # Errors
///
/// - [`MakeError::NotEmpty`] exactly where a device has a byte: the first of the log, the second log device, slot a and slot
///   b. All four are looked at first, and nothing is written.
/// - [`MakeError::DiskFault`] where a call of a device failed, so only where its count of faults rose. Nothing is promised
///   of the devices then; no call of any comes after the one that failed.
/// - [`MakeError::NoMemory`] where there was no memory for the log's header. Nothing is written.
pub fn make_store<D: Disk>(
    alloc: Global,
    text: &[u8],
    devices: &mut Devices<D>,
) -> Result<(), MakeError>
    requires { (catalogue : CatalogueState) × IsAccepted text.now catalogue }

    // From Ok on each crash leaves the store of the text, and the devices were empty.
    ensures made { OnOk result (IfAllKnown (MakesStore text.now) (each D.known devices.old) (each D.known devices.new)) }
    ensures in_use { (device : ADevice) (length : ℕ) → IsErrOf result (MakeError.NotEmpty device length) → IfAllKnown (IsInUse device length) (each D.known devices.old) (each D.known devices.new) }
    ensures kept { OnErr result (¬ IsErrOf result MakeError.DiskFault → IfAllKnown (λ old new. new ≡ old) (each D.known devices.old) (each D.known devices.new)) }

    // No call of a device comes after one that failed.
    ensures counted { IsErrOf result MakeError.DiskFault → OneFaulted (each D.faults devices.old) (each D.faults devices.new) }
    ensures quiet { ¬ IsErrOf result MakeError.DiskFault → each D.faults devices.new ≡ each D.faults devices.old }
{
    refuse_in_use(devices)?;
    create(alloc, &mut devices.log, text)?;
    make_slot(DeviceName::SlotA, &mut devices.slot_a)?;
    make_slot(DeviceName::SlotB, &mut devices.slot_b)
}
