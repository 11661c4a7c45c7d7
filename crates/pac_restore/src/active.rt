// Finds the active segment of a store, and reads it.
ghost use Rattle.std.specs.Prelude.{◌≡◌, ◌≢◌, [], None, true, IfErr, IfOk, IsErrOf, OnOk};
ghost use Rattle.pac_outside.specs.Causes.{one_more};
ghost use Rattle.pac_outside.specs.Devices.{OneFaulted, each, log_at};
ghost use Rattle.pac_outside.specs.Disk.{IfKnown};
ghost use Rattle.pac_types.specs.Typing.{CatalogueState};
ghost use Rattle.pac_log.specs.declared.header.Header.{Header as AHeader};
ghost use Rattle.pac_log.specs.Logs.{base_of};
ghost use Rattle.pac_log.specs.Readers.{at_first};
ghost use Rattle.pac_log.specs.Reading.{IsStore, StandsAfter};
ghost use Rattle.pac_restore.specs.declared.errors.Damage.{Damage as ADamage};
ghost use Rattle.pac_restore.specs.declared.errors.Damage.TheVariants.{Log as InLog};
ghost use Rattle.pac_restore.specs.Opening.{HasFound, IsRefusedOn};
ghost use Rattle.pac_restore.specs.Reads.{IsReadFrom};
ghost use Rattle.pac_restore.specs.Refusals.{AreRefusedAs};

use crate::errors::{in_log, misplaced};
use crate::segment::read_from;
use crate::sink::BatchSink;
use crate::{Damage, LoadError};
use pac_check::{SlotHeads, SlotInfo};
use pac_log::{DamageKind, LogReader};
use pac_outside::{Devices, Disk, LogName};
use std::alloc::Global;

// Where a log of the later form says how many transactions came before.
const BASE: u64 = 8;

/// A store whose active segment is found: what its slots begin with, and the reader of the segment at its first gate.
#[derive(Drop)]
pub(crate) struct Found {
    pub heads: SlotHeads,
    pub reader: LogReader,
}

/// Reads what both slots begin with, and the header of the segment that the newest names.
///
/// # Errors
///
/// Those of [`SlotHeads::attach`] and [`LogReader::attach`], and `Range` at the base of a log before which transactions came,
/// where no slot is open.
pub(crate) fn find_segment<D: Disk>(
    alloc: Global,
    devices: &mut Devices<D>,
) -> Result<Found, LoadError>
    ensures found { IfOk result (λ found. HasFound found.heads.a found.heads.b found.reader.gate (each D.known devices.old)) }
    ensures first { IfOk result (λ found. at_first found.reader ≡ found.reader) }
    ensures refused { IfErr result (AreRefusedAs (each D.known devices.old)) }
    ensures same { each D.known devices.new ≡ each D.known devices.old }
    ensures disk_fault { IsErrOf result LoadError.DiskFault → OneFaulted (each D.faults devices.old) (each D.faults devices.new) }
    ensures quiet { ¬ IsErrOf result LoadError.DiskFault → each D.faults devices.new ≡ each D.faults devices.old }
{
    let heads = SlotHeads::attach(alloc, &mut devices.slot_a, &mut devices.slot_b)?;
    let reader = attach_active(alloc, heads.active(), devices)?;
    test_base(heads.newest(), heads.active(), &reader)?;
    Ok(Found { heads, reader })
}

// The reader of the segment on this device.
fn attach_active<D: Disk>(
    alloc: Global,
    active: LogName,
    devices: &mut Devices<D>,
) -> Result<LogReader, LoadError>
    ensures store { IfOk result (λ reader. IfKnown (λ old. IsStore reader.gate.header reader.gate.catalogue old.now.seen × StandsAfter reader.gate.header [] reader.gate old.now.seen) (log_at active (each D.known devices.old))) }
    ensures begins { IfOk result (λ reader. at_first reader ≡ reader) }
    ensures no_store { IsErrOf result LoadError.NoStore → IfKnown (λ old. (header : AHeader) (catalogue : CatalogueState) → ¬ IsStore header catalogue old.now.seen) (log_at active (each D.known devices.old)) }
    ensures whole { (damage : ADamage) → ¬ IsErrOf result (LoadError.Damaged damage) }
    ensures slot_a { devices.new.slot_a ≡ devices.old.slot_a }
    ensures slot_b { devices.new.slot_b ≡ devices.old.slot_b }
    ensures same { each D.known devices.new ≡ each D.known devices.old }
    ensures disk_fault { IsErrOf result LoadError.DiskFault → OneFaulted (each D.faults devices.old) (each D.faults devices.new) }
    ensures quiet { ¬ IsErrOf result LoadError.DiskFault → each D.faults devices.new ≡ each D.faults devices.old }
{
    match active {
        LogName::Log => attach_log(alloc, active, &mut devices.log),
        LogName::LogB => attach_log(alloc, active, &mut devices.log_b),
    }
}

// The reader of the segment on a device.
fn attach_log<D: Disk>(alloc: Global, name: LogName, disk: &mut D) -> Result<LogReader, LoadError>
    ensures store { IfOk result (λ reader. IfKnown (λ old. IsStore reader.gate.header reader.gate.catalogue old.now.seen × StandsAfter reader.gate.header [] reader.gate old.now.seen) (D.known disk.old)) }
    ensures begins { IfOk result (λ reader. at_first reader ≡ reader) }
    ensures no_store { IsErrOf result LoadError.NoStore → IfKnown (λ old. (header : AHeader) (catalogue : CatalogueState) → ¬ IsStore header catalogue old.now.seen) (D.known disk.old) }
    ensures whole { (damage : ADamage) → ¬ IsErrOf result (LoadError.Damaged damage) }
    ensures same { D.known disk.new ≡ D.known disk.old }
    ensures counted { IsErrOf result LoadError.DiskFault → D.faults disk.new ≡ one_more (D.faults disk.old) }
    ensures kept { ¬ IsErrOf result LoadError.DiskFault → D.faults disk.new ≡ D.faults disk.old }
{
    match LogReader::attach(alloc, disk) {
        Ok(reader) => Ok(reader),
        Err(cause) => Err(in_log(name, cause)),
    }
}

// That no transaction came before the log, where no slot is open.
fn test_base(newest: Option<SlotInfo>, active: LogName, reader: &LogReader) -> Result<(), LoadError>
    ensures ok { OnOk result (newest ≡ None → base_of reader.now.gate.header ≡ 0) }
    ensures err { IfErr result (λ error. (error ≡ LoadError.Damaged (InLog active 8 DamageKind.Range)) × (newest ≡ None) × (base_of reader.now.gate.header ≢ 0)) }
{
    if newest.is_none() && reader.base() != 0 {
        return Err(LoadError::Damaged(Damage::Log {
            name: active,
            at: BASE,
            kind: DamageKind::Range,
        }));
    }
    Ok(())
}

/// Reads the active segment from its first gate to its end, as [`read_from`] does.
///
/// # Errors
///
/// Those of [`read_from`], and `Place` of the newest slot, where the segment is whole and has no gate that this names.
pub(crate) fn read_active<D: Disk, S: BatchSink>(
    active: LogName,
    newest: Option<SlotInfo>,
    sink: S,
    reader: &mut LogReader,
    devices: &mut Devices<D>,
) -> Result<S, LoadError>
    requires takes { S.takes sink reader.old.gate.catalogue }
    requires begins { S.took sink sink [] }
    ensures read { IfOk result (λ after. IsReadFrom (log_at active (each D.known devices.old)) newest reader.old.gate reader.new.gate (S.took sink after)) }
    ensures takes { IfOk result (λ after. S.takes after reader.old.gate.catalogue) }
    ensures end { IfOk result (λ _. reader.new.is_at_end ≡ true) }
    ensures refused { IfErr result (IsRefusedOn active newest reader.old.gate (log_at active (each D.known devices.old))) }
    ensures same { each D.known devices.new ≡ each D.known devices.old }
    ensures disk_fault { IsErrOf result LoadError.DiskFault → OneFaulted (each D.faults devices.old) (each D.faults devices.new) }
    ensures quiet { ¬ IsErrOf result LoadError.DiskFault → each D.faults devices.new ≡ each D.faults devices.old }
{
    match active {
        LogName::Log => read_log(active, newest, sink, reader, &mut devices.log),
        LogName::LogB => read_log(active, newest, sink, reader, &mut devices.log_b),
    }
}

// The same of the segment on a device.
fn read_log<D: Disk, S: BatchSink>(
    name: LogName,
    newest: Option<SlotInfo>,
    sink: S,
    reader: &mut LogReader,
    disk: &mut D,
) -> Result<S, LoadError>
    requires takes { S.takes sink reader.old.gate.catalogue }
    requires begins { S.took sink sink [] }
    ensures read { IfOk result (λ after. IsReadFrom (D.known disk.old) newest reader.old.gate reader.new.gate (S.took sink after)) }
    ensures takes { IfOk result (λ after. S.takes after reader.old.gate.catalogue) }
    ensures end { IfOk result (λ _. reader.new.is_at_end ≡ true) }
    ensures refused { IfErr result (IsRefusedOn name newest reader.old.gate (D.known disk.old)) }
    ensures same { D.known disk.new ≡ D.known disk.old }
    ensures counted { IsErrOf result LoadError.DiskFault → D.faults disk.new ≡ one_more (D.faults disk.old) }
    ensures kept { ¬ IsErrOf result LoadError.DiskFault → D.faults disk.new ≡ D.faults disk.old }
{
    match read_from(newest, sink, reader, disk) {
        Ok(Some(after)) => Ok(after),
        Ok(None) => Err(misplaced(newest)),
        Err(cause) => Err(in_log(name, cause)),
    }
}
