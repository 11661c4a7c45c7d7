// Executes what is stored while it is read.
ghost use Rattle.std.specs.Prelude.{◌≡◌, true, IfErr, IfOk, IsErrOf, None as NoTable, length};
ghost use Rattle.pac_outside.specs.Devices.{OneFaulted, each, log_at};
ghost use Rattle.pac_outside.specs.Disk.{IfKnown};
ghost use Rattle.pac_types.specs.Execution.{first_over};
ghost use Rattle.pac_types.specs.Fits.{FitsCatalogue};
ghost use Rattle.pac_types.specs.OperationLimits.{HasFewOperations};
ghost use Rattle.pac_check.specs.SlotStates.{IsSlot, active_of, newest_of};
ghost use Rattle.pac_store.specs.Images.{IfImagesKnown};
ghost use Rattle.pac_restore.specs.Loading.{HoldsLogUpTo};
ghost use Rattle.pac_restore.specs.Opening.{IsRefusedReading};
ghost use Rattle.pac_restore.specs.Outcomes.{FitsReplayed, HasExecuted};
ghost use Rattle.pac_restore.specs.Reads.{IsReadFrom};
ghost use Rattle.pac_restore.specs.Restoring.{AreRefused, IsRecoveredFrom, IsRestored};

use crate::active::read_active;
use crate::execution::tables_of;
use crate::sink::Executing;
use crate::store::{Opened, open_store};
use crate::{Execution, Executor, LoadError, RecoverError, test_rows};
use pac_check::Slots;
use pac_log::LogReader;
use pac_outside::{Devices, Disk};
use pac_tables::{JoinedRows, TableRows};
use pac_types::Catalogue;
use std::alloc::Global;

/// A store that was read, and whose transactions were executed.
#[derive(Drop)]
pub struct Restored<T: TableRows> {
    pub catalogue: Catalogue,
    /// The tables after all stored transactions.
    pub tables: JoinedRows<T>,
    /// The reader of the active segment, at its end.
    pub reader: LogReader,
    pub slots: Slots,
}

/// Reads a store, on devices that are only read, executes the transactions of the active segment after the newest slot over that
/// one's tables, and then tests the limit of rows.
///
/// The slots are read before the segment's batches. Each batch is executed once it is read, and freed, so that memory is taken for
/// the tables and for one batch.
///
/// # Errors
///
/// - [`RecoverError::Load`] with those of [`load`](crate::load), in its order; with `NoMemory` also where there was none for the
///   tables.
/// - [`RecoverError::AbortInLog`] where serial execution of the stored transactions stops, with the transaction that aborts.
/// - [`RecoverError::RowsOver`] where the tables then have more rows than the limit: the first such table.
///
/// Each comes only where this is so, and then it does unless a device failed or there was no memory.
pub fn restore<D: Disk, T: TableRows, X: Executor>(
    alloc: Global,
    executor: &X,
    limit: u64,
    devices: &mut Devices<D>,
) -> Result<Restored<T>, RecoverError>
    // On every device.
    ensures well_formed { IfOk result IsRestored }
    ensures within { IfOk result (λ restored. first_over limit (length restored.catalogue.tables) restored.tables.rows ≡ NoTable) }

    // What stands on each known device, and what serial execution of it gives.
    ensures log { IfOk result (λ restored. IfKnown (λ old. HoldsLogUpTo restored.reader.gate old.now.seen) (log_at (active_of restored.slots) (each D.known devices.old))) }
    ensures slot_a { IfOk result (λ restored. IfKnown (λ old. IsSlot restored.catalogue.tables restored.slots.a old.now.seen) (D.known devices.old.slot_a)) }
    ensures slot_b { IfOk result (λ restored. IfKnown (λ old. IsSlot restored.catalogue.tables restored.slots.b old.now.seen) (D.known devices.old.slot_b)) }
    ensures restored { IfOk result (λ restored. IfImagesKnown (IsRecoveredFrom restored.catalogue restored.tables.rows restored.reader.gate.txns) (each D.known devices.old)) }

    // When each refusal comes.
    ensures refused { IfErr result (AreRefused limit (each D.known devices.old)) }

    // The devices are only read, and no call of one comes after one that failed.
    ensures same { each D.known devices.new ≡ each D.known devices.old }
    ensures disk_fault { IsErrOf result (RecoverError.Load LoadError.DiskFault) → OneFaulted (each D.faults devices.old) (each D.faults devices.new) }
    ensures quiet { ¬ IsErrOf result (RecoverError.Load LoadError.DiskFault) → each D.faults devices.new ≡ each D.faults devices.old }
{
    let Opened {
        catalogue,
        slots,
        tables,
        mut reader,
    } = open_store(alloc, devices)?;
    let executed = execute_active(
        alloc,
        executor,
        &catalogue,
        &slots,
        tables,
        &mut reader,
        devices,
    )?;
    let tables = tables_of(executed)?;
    test_rows(&catalogue, &tables, limit)?;
    Ok(Restored {
        catalogue,
        tables,
        reader,
        slots,
    })
}

// Reads the active segment, and executes what stands after the gate that the newest slot names.
fn execute_active<D: Disk, T: TableRows, X: Executor>(
    alloc: Global,
    executor: &X,
    cat: &Catalogue,
    slots: &Slots,
    tables: JoinedRows<T>,
    reader: &mut LogReader,
    devices: &mut Devices<D>,
) -> Result<Execution<T>, LoadError>
    requires operations { HasFewOperations cat.now.procs }
    requires same { reader.old.gate.catalogue ≡ cat.now }
    requires fits { FitsCatalogue cat.now tables.tables tables.rows }
    ensures fits { IfOk result (λ executed. FitsReplayed cat.now executed) }
    ensures end { IfOk result (λ _. reader.new.is_at_end ≡ true) }
    ensures executed { IfOk result (λ executed. IsReadFrom (log_at (active_of slots.now) (each D.known devices.old)) (newest_of slots.now) reader.old.gate reader.new.gate (HasExecuted cat.now tables.rows executed)) }
    ensures refused { IfErr result (IsRefusedReading slots.now reader.old.gate (each D.known devices.old)) }
    ensures same { each D.known devices.new ≡ each D.known devices.old }
    ensures disk_fault { IsErrOf result LoadError.DiskFault → OneFaulted (each D.faults devices.old) (each D.faults devices.new) }
    ensures quiet { ¬ IsErrOf result LoadError.DiskFault → each D.faults devices.new ≡ each D.faults devices.old }
{
    let newest = slots.newest();
    let sink = Executing {
        alloc,
        catalogue: cat,
        executor,
        executed: Execution::Tables(tables),
    };
    let Executing {
        alloc: _,
        catalogue: _,
        executor: _,
        executed,
    } = read_active(slots.active(), newest, sink, reader, devices)?;
    Ok(executed)
}
