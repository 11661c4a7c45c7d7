// Opens a store: reads its slots, and finds its active segment.
ghost use Rattle.std.specs.Prelude.{◌≡◌, ◌⊎◌, [], false, ℕ, List, IfErr, IfOk, IsErrOf};
ghost use Rattle.pac_ops.specs.declared.transaction.Txn.{Txn as ATxn};
ghost use Rattle.pac_outside.specs.Devices.{OneFaulted, each, log_at};
ghost use Rattle.pac_outside.specs.Disk.{IfKnown};
ghost use Rattle.pac_types.specs.Fits.{FitsCatalogue};
ghost use Rattle.pac_types.specs.OperationLimits.{HasFewOperations};
ghost use Rattle.pac_log.specs.declared.header.Header.{Header as AHeader};
ghost use Rattle.pac_log.specs.Logs.{HoldsLog};
ghost use Rattle.pac_log.specs.Readers.{at_first};
ghost use Rattle.pac_log.specs.Reading.{StandsAfter};
ghost use Rattle.pac_check.specs.SlotStates.{IsSlot};
ghost use Rattle.pac_restore.specs.Opening.{AreNewestOf, HasFound, IsInLog};
ghost use Rattle.pac_restore.specs.Reads.{IsDamagedAfter};
ghost use Rattle.pac_restore.specs.Refusals.{AreRefusedAs};

use crate::active::{Found, find_segment, read_active};
use crate::sink::Forgetting;
use crate::slots::{Newest, read_newest};
use crate::{Damage, LoadError};
use pac_base::Exact;
use pac_check::Slots;
use pac_log::LogReader;
use pac_outside::{Devices, Disk, LogName};
use pac_tables::{JoinedRows, TableRows};
use pac_types::Catalogue;
use std::alloc::Global;

/// A store of which all is read but the batches of its active segment.
#[derive(Drop)]
pub struct Opened<T: TableRows> {
    pub catalogue: Catalogue,
    pub slots: Slots,
    /// The tables of the newest slot; without rows where no slot is open.
    pub tables: JoinedRows<T>,
    /// The reader of the active segment, at its first gate.
    pub reader: LogReader,
}

/// Reads a store but for the batches of its active segment. Where a slot is damaged these are read too, since damage among them
/// comes first.
///
/// # Errors
///
/// Those of [`load`](crate::load), in its order, but for damage of the segment where no slot is damaged, and for the newest slot's place.
pub fn open_store<D: Disk, T: TableRows>(
    alloc: Global,
    devices: &mut Devices<D>,
) -> Result<Opened<T>, LoadError>
    ensures found { IfOk result (λ opened. HasFound opened.slots.a opened.slots.b opened.reader.gate (each D.known devices.old)) }
    ensures first { IfOk result (λ opened. at_first opened.reader ≡ opened.reader) }
    ensures catalogue { IfOk result (λ opened. opened.catalogue ≡ opened.reader.gate.catalogue) }
    ensures operations { IfOk result (λ opened. HasFewOperations opened.catalogue.procs) }
    ensures works { IfOk result (λ opened. opened.slots.has_failed ≡ false) }
    ensures fits { IfOk result (λ opened. FitsCatalogue opened.catalogue opened.tables.tables opened.tables.rows) }
    ensures a { IfOk result (λ opened. IfKnown (λ old. IsSlot opened.catalogue.tables opened.slots.a old.now.seen) (D.known devices.old.slot_a)) }
    ensures b { IfOk result (λ opened. IfKnown (λ old. IsSlot opened.catalogue.tables opened.slots.b old.now.seen) (D.known devices.old.slot_b)) }
    ensures newest { IfOk result (λ opened. IfKnown (λ x. IfKnown (λ y. AreNewestOf opened.catalogue opened.slots opened.tables.rows x.now.seen y.now.seen) (D.known devices.old.slot_b)) (D.known devices.old.slot_a)) }
    ensures refused { IfErr result (AreRefusedAs (each D.known devices.old)) }
    ensures same { each D.known devices.new ≡ each D.known devices.old }
    ensures disk_fault { IsErrOf result LoadError.DiskFault → OneFaulted (each D.faults devices.old) (each D.faults devices.new) }
    ensures quiet { ¬ IsErrOf result LoadError.DiskFault → each D.faults devices.new ≡ each D.faults devices.old }
{
    let Found { heads, reader } = find_segment(alloc, devices)?;
    let active = heads.active();
    let catalogue = reader.gate().catalogue().copy(alloc)?;
    match read_newest(
        alloc,
        heads,
        &catalogue,
        &mut devices.slot_a,
        &mut devices.slot_b,
    ) {
        Ok(Newest { slots, tables }) => Ok(Opened {
            catalogue,
            slots,
            tables,
            reader,
        }),
        Err(LoadError::Damaged(damage)) => Err(first_damage(active, damage, reader, devices)),
        Err(cause) => Err(cause),
    }
}

// The first damage of a store whose slot has this one: that of the active segment, where there is one.
fn first_damage<D: Disk>(
    active: LogName,
    damage: Damage,
    mut reader: LogReader,
    devices: &mut Devices<D>,
) -> LoadError
    ensures either { ((result ≡ LoadError.Damaged damage) × ((header : AHeader) → IfKnown (λ old. StandsAfter header [] reader.gate old.now.seen → (batches : List (List ATxn)) × HoldsLog header reader.gate.catalogue batches old.now.seen) (log_at active (each D.known devices.old))))
        ⊎ IsInLog active (λ at kind. (header : AHeader) → IfKnown (λ old. StandsAfter header [] reader.gate old.now.seen → IsDamagedAfter header reader.gate.catalogue at kind old.now.seen) (log_at active (each D.known devices.old))) result }
    ensures same { each D.known devices.new ≡ each D.known devices.old }
    ensures disk_fault { result ≡ LoadError.DiskFault → OneFaulted (each D.faults devices.old) (each D.faults devices.new) }
    ensures quiet { ¬ (result ≡ LoadError.DiskFault) → each D.faults devices.new ≡ each D.faults devices.old }
{
    match read_active(active, None, Forgetting, &mut reader, devices) {
        Ok(_) => LoadError::Damaged(damage),
        Err(cause) => cause,
    }
}
