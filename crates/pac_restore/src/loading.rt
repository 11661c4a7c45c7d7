// Loads a store.
ghost use Rattle.std.specs.Prelude.{◌≡◌, IfErr, IfOk, IsErrOf};
ghost use Rattle.pac_outside.specs.Devices.{OneFaulted, each, log_at};
ghost use Rattle.pac_outside.specs.Disk.{IfKnown};
ghost use Rattle.pac_check.specs.SlotStates.{IsSlot, active_of, saved_txns};
ghost use Rattle.pac_store.specs.Images.{IfImagesKnown};
ghost use Rattle.pac_store.specs.Stored.{IsStored};
ghost use Rattle.pac_restore.specs.Loading.{HoldsLogUpTo, IsLoaded, IsLoadedFrom, stored_of};
ghost use Rattle.pac_restore.specs.Refusals.{AreRefusedAs};

use crate::LoadError;
use crate::active::read_active;
use crate::sink::Collecting;
use crate::store::{Opened, open_store};
use pac_base::listed;
use pac_check::{SlotInfo, Slots};
use pac_log::LogReader;
use pac_ops::Batches;
use pac_outside::{Devices, Disk};
use pac_tables::OrderedRows;
use pac_types::Catalogue;
use std::alloc::Global;

/// What is stored on the devices of a store, and what writes on.
#[derive(Drop)]
pub struct Loaded {
    /// The catalogue of the active segment.
    pub catalogue: Catalogue,
    /// The tables of the newest slot; without rows where no slot is open.
    pub tables: OrderedRows,
    /// How many transactions are in them.
    pub txns: u64,
    /// The transactions of the active segment with greater numbers.
    pub batches: Batches,
    /// The reader of the active segment, at its end.
    pub reader: LogReader,
    pub slots: Slots,
}

/// What is stored on devices. They are only read: what both slots begin with, the active segment to its end, each slot to the end
/// of its checkpoint, and the newest slot a second time. All batches after it are held in memory, and 262,144 bytes of a slot at a
/// time.
///
/// # Errors
///
/// - [`LoadError::NoStore`] where the device of the active segment doesn't begin with the header of a log and one byte more.
/// - [`LoadError::Damaged`] where something else is wrong: the first damage, in the order of what both slots begin with; the base
///   of a log before which transactions came, where no slot is open; the segment's batches; the rest of slot a, and of slot b;
///   and the offset of the newest slot, which is to be a gate of the segment with exactly the slot's number of transactions up to
///   it. A header that isn't right comes before the base.
/// - [`LoadError::DiskFault`] where a call of a device failed, so only where the count of faults of one rose; no call of any
///   device comes after it.
/// - [`LoadError::NoMemory`] where there was no memory for what is read.
///
/// The first two come only where this is so, and then they do unless a device failed or there was no memory.
pub fn load<D: Disk>(alloc: Global, devices: &mut Devices<D>) -> Result<Loaded, LoadError>
    // On every device.
    ensures well_formed { IfOk result IsLoaded }

    // What stands on each known device.
    ensures log { IfOk result (λ loaded. IfKnown (λ old. HoldsLogUpTo loaded.reader.gate old.now.seen) (log_at (active_of loaded.slots) (each D.known devices.old))) }
    ensures slot_a { IfOk result (λ loaded. IfKnown (λ old. IsSlot loaded.catalogue.tables loaded.slots.a old.now.seen) (D.known devices.old.slot_a)) }
    ensures slot_b { IfOk result (λ loaded. IfKnown (λ old. IsSlot loaded.catalogue.tables loaded.slots.b old.now.seen) (D.known devices.old.slot_b)) }

    // What is stored.
    ensures loaded { IfOk result (λ loaded. IfImagesKnown (IsLoadedFrom loaded) (each D.known devices.old)) }
    ensures stored { IfOk result (λ loaded. IfImagesKnown (λ images. IsStored images (stored_of loaded)) (each D.known devices.old)) }

    // When each refusal comes.
    ensures refused { IfErr result (AreRefusedAs (each D.known devices.old)) }

    // The devices are only read, and no call of one comes after one that failed.
    ensures same { each D.known devices.new ≡ each D.known devices.old }
    ensures disk_fault { IsErrOf result LoadError.DiskFault → OneFaulted (each D.faults devices.old) (each D.faults devices.new) }
    ensures quiet { ¬ IsErrOf result LoadError.DiskFault → each D.faults devices.new ≡ each D.faults devices.old }
{
    let Opened {
        catalogue,
        slots,
        tables,
        mut reader,
    } = open_store(alloc, devices)?;
    let newest = slots.newest();
    let sink = Collecting {
        batches: Vec::new(alloc),
    };
    let Collecting { batches } = read_active(slots.active(), newest, sink, &mut reader, devices)?;
    Ok(Loaded {
        catalogue,
        tables,
        txns: txns_in(newest),
        batches: listed(batches),
        reader,
        slots,
    })
}

/// How many transactions are in the tables of a slot; 0 where there is none.
pub(crate) fn txns_in(info: Option<SlotInfo>) -> u64
    ensures { result ≡ saved_txns info }
{
    match info {
        Some(info) => info.txns,
        None => 0,
    }
}
