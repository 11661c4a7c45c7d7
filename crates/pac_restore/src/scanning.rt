// Scans a store: all of it but the transactions of its active segment.
ghost use Rattle.std.specs.Prelude.{◌≡◌, IfErr, IfOk, IsErrOf};
ghost use Rattle.pac_outside.specs.Devices.{OneFaulted, each};
ghost use Rattle.pac_outside.specs.Disk.{IfKnown};
ghost use Rattle.pac_check.specs.SlotStates.{IsSlot};
ghost use Rattle.pac_store.specs.Images.{IfImagesKnown};
ghost use Rattle.pac_restore.specs.Refusals.{AreRefusedAs};
ghost use Rattle.pac_restore.specs.Restoring.{IsScanned, IsScannedFrom};

use crate::LoadError;
use crate::active::read_active;
use crate::loading::txns_in;
use crate::sink::Forgetting;
use crate::store::{Opened, open_store};
use pac_check::Slots;
use pac_log::LogReader;
use pac_outside::{Devices, Disk};
use pac_tables::{JoinedRows, TableRows};
use pac_types::Catalogue;
use std::alloc::Global;

/// What is stored on the devices of a store, but for the transactions of the active segment after the newest slot.
#[derive(Drop)]
pub struct Scanned<T: TableRows> {
    /// The catalogue of the active segment.
    pub catalogue: Catalogue,
    /// The tables of the newest slot; without rows where no slot is open.
    pub tables: JoinedRows<T>,
    /// How many transactions are in them.
    pub txns: u64,
    /// The number of the last transaction that is stored.
    pub total: u64,
    /// The reader of the active segment, at its first gate.
    pub reader: LogReader,
    pub slots: Slots,
}

/// What is stored on devices, but for the transactions. They are only read: the active segment to its end, each slot to the end of
/// its checkpoint, and the newest slot a second time. One batch is held in memory at a time, and 262,144 bytes of a slot.
///
/// # Errors
///
/// Those of [`load`](crate::load), in its order.
pub fn scan<D: Disk, T: TableRows>(
    alloc: Global,
    devices: &mut Devices<D>,
) -> Result<Scanned<T>, LoadError>
    // On every device.
    ensures well_formed { IfOk result IsScanned }

    // What stands on each known device.
    ensures slot_a { IfOk result (λ scanned. IfKnown (λ old. IsSlot scanned.catalogue.tables scanned.slots.a old.now.seen) (D.known devices.old.slot_a)) }
    ensures slot_b { IfOk result (λ scanned. IfKnown (λ old. IsSlot scanned.catalogue.tables scanned.slots.b old.now.seen) (D.known devices.old.slot_b)) }

    // What is stored.
    ensures scanned { IfOk result (λ scanned. IfImagesKnown (IsScannedFrom scanned) (each D.known devices.old)) }

    // When each refusal comes.
    ensures refused { IfErr result (AreRefusedAs (each D.known devices.old)) }

    // The devices are only read, and no call of one comes after one that failed.
    ensures same { each D.known devices.new ≡ each D.known devices.old }
    ensures disk_fault { IsErrOf result LoadError.DiskFault → OneFaulted (each D.faults devices.old) (each D.faults devices.new) }
    ensures quiet { ¬ IsErrOf result LoadError.DiskFault → each D.faults devices.new ≡ each D.faults devices.old }
{
    let Opened {
        catalogue,
        slots,
        tables,
        mut reader,
    } = open_store(alloc, devices)?;
    let newest = slots.newest();
    let _forgotten = read_active(slots.active(), newest, Forgetting, &mut reader, devices)?;
    let total = reader.gate().txns();
    reader.rewind();
    Ok(Scanned {
        catalogue,
        tables,
        txns: txns_in(newest),
        total,
        reader,
        slots,
    })
}
