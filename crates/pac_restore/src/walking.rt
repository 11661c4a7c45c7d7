// Reads a segment for who takes its batches in a way of his own.
ghost use Rattle.std.specs.Prelude.{◌≡◌, true, List, IfErr, IsErrOf, OnOk};
ghost use Rattle.pac_ops.specs.declared.transaction.Txn.{Txn as ATxn};
ghost use Rattle.pac_outside.specs.Causes.{one_more};
ghost use Rattle.pac_outside.specs.Disk.{IfKnown};
ghost use Rattle.pac_log.specs.declared.header.Header.{Header as AHeader};
ghost use Rattle.pac_log.specs.Reading.{StandsAfter};
ghost use Rattle.pac_restore.specs.Opening.{IsInLog, IsRefusedOn};
ghost use Rattle.pac_restore.specs.Reads.{IsDamagedAfter, IsHandedOn, IsSought};

use crate::LoadError;
use crate::errors::{in_log, misplaced};
use crate::segment::{seek, take_rest};
use crate::sink::Forgetting;
use pac_check::SlotInfo;
use pac_log::LogReader;
use pac_outside::{Disk, LogName};

/// Reads the batches of a segment, which is on this device, up to the gate that the newest slot names, and forgets them. Where no
/// slot is open nothing is read.
///
/// # Errors
///
/// - [`LoadError::Damaged`] of the segment where it is damaged before that gate, or the gate isn't there; and `Place` of the newest
///   slot, where the segment is whole and the gate isn't there.
/// - [`LoadError::DiskFault`] where a call of the device failed, and [`LoadError::NoMemory`] where there was no memory for a batch.
pub fn seek_newest<D: Disk>(
    name: LogName,
    newest: Option<SlotInfo>,
    reader: &mut LogReader,
    disk: &mut D,
) -> Result<(), LoadError>
    ensures sought { OnOk result (IsSought (D.known disk.old) newest reader.old.gate reader.new.gate true) }
    ensures refused { IfErr result (IsRefusedOn name newest reader.old.gate (D.known disk.old)) }
    ensures same { D.known disk.new ≡ D.known disk.old }
    ensures counted { IsErrOf result LoadError.DiskFault → D.faults disk.new ≡ one_more (D.faults disk.old) }
    ensures kept { ¬ IsErrOf result LoadError.DiskFault → D.faults disk.new ≡ D.faults disk.old }
{
    match seek(newest, reader, disk) {
        Ok(true) => Ok(()),
        Ok(false) => Err(misplaced(newest)),
        Err(cause) => Err(in_log(name, cause)),
    }
}

/// Reads the batches of a segment, which is on this device, from the reader's gate to its end, and forgets them.
///
/// # Errors
///
/// - [`LoadError::Damaged`] of the segment.
/// - [`LoadError::DiskFault`] where a call of the device failed, and [`LoadError::NoMemory`] where there was no memory for a batch.
pub fn forget_rest<D: Disk>(
    name: LogName,
    reader: &mut LogReader,
    disk: &mut D,
) -> Result<(), LoadError>
    ensures rest { OnOk result (IsHandedOn (D.known disk.old) reader.old.gate reader.new.gate (λ _. Unit {0})) }
    ensures end { OnOk result (reader.new.is_at_end ≡ true) }
    ensures refused { IfErr result (IsInLog name (λ at kind. (header : AHeader) (before : List (List ATxn)) → IfKnown (λ old. StandsAfter header before reader.old.gate old.now.seen → IsDamagedAfter header reader.old.gate.catalogue at kind old.now.seen) (D.known disk.old))) }
    ensures same { D.known disk.new ≡ D.known disk.old }
    ensures counted { IsErrOf result LoadError.DiskFault → D.faults disk.new ≡ one_more (D.faults disk.old) }
    ensures kept { ¬ IsErrOf result LoadError.DiskFault → D.faults disk.new ≡ D.faults disk.old }
{
    match take_rest(Forgetting, reader, disk) {
        Ok(_) => Ok(()),
        Err(cause) => Err(in_log(name, cause)),
    }
}
