// Recovers the tables of a store.
ghost use Rattle.std.specs.Prelude.{◌≡◌, ◌≤◌, ◌+◌, ℕ, List, IfErr, IfOk, IsErrOf, None, length};
ghost use Rattle.pac_outside.specs.Devices.{OneFaulted, each};
ghost use Rattle.pac_ops.specs.declared.transaction.Txn.{Txn as ATxn};
ghost use Rattle.pac_types.specs.Execution.{first_over};
ghost use Rattle.pac_types.specs.Fits.{FitsCatalogue};
ghost use Rattle.pac_types.specs.Typing.{CatalogueState};
ghost use Rattle.pac_store.specs.Images.{IfImagesKnown};
ghost use Rattle.pac_store.specs.Stands.{StandsFor};
ghost use Rattle.pac_restore.specs.Restoring.{AreRefused, IsRecoveredFrom};
ghost use Rattle.pac_recover.specs.Recovering.{Recovers};

use crate::segment::execute_active;
use pac_outside::{Devices, Disk, Gate};
use pac_restore::{LoadError, Opened, RecoverError, open_store, tables_of, test_rows};
use pac_tables::HashedRows;
use pac_types::Catalogue;
use std::alloc::Global;
use std::sync::Wait;
use std::thread::Threads;

// How many bytes of a log's bodies are executed together, and at most one batch more.
const WINDOW: u64 = 4_194_304;

/// The tables after all stored transactions.
#[derive(Drop)]
pub struct Recovered {
    pub catalogue: Catalogue,
    pub tables: HashedRows,
    /// How many transactions are in them.
    pub txns: u64,
}

/// Recovers the tables of a store, on devices that are only read: opens it, executes the transactions of the active segment after the
/// newest slot over that one's tables, by `workers` workers, and then tests the limit of rows. One worker passes the gate
/// before each piece that it runs, several before each piece that is handed out to one of them.
///
/// The segment is read once. The batches of 4,194,304 bytes are held in memory at a time, and what executes them while they are read.
///
/// # Errors
///
/// - [`RecoverError::Load`] with those of [`load`](pac_restore::load), in its order; with `NoMemory` also where there was none for the
///   tables.
/// - [`RecoverError::AbortInLog`] where serial execution of the stored transactions stops, with the transaction that aborts.
/// - [`RecoverError::RowsOver`] where the tables then have more rows than the limit: the first such table.
///
/// Each comes only where this is so, and then it does unless a device failed or there was no memory.
pub fn recover<D: Disk, H: Threads + Wait + Sync, G: Gate + Sync>(
    rt: &H,
    alloc: Global,
    workers: u32,
    limit: u64,
    devices: &mut Devices<D>,
    gate: &G,
) -> Result<Recovered, RecoverError>
    requires workers { 1 ≤ workers }

    // What is recovered, and when each refusal comes.
    ensures recovered { IfOk result (λ recovered. IfImagesKnown (IsRecoveredFrom recovered.catalogue recovered.tables.rows recovered.txns) (each D.known devices.old)) }
    ensures within { IfOk result (λ recovered. first_over limit (length recovered.catalogue.tables) recovered.tables.rows ≡ None) }
    ensures fits { IfOk result (λ recovered. FitsCatalogue recovered.catalogue recovered.tables.tables recovered.tables.rows) }
    ensures refused { IfErr result (AreRefused limit (each D.known devices.old)) }

    // Where the devices stand for a history, it is a prefix of it that is recovered.
    ensures stands { (text : List ℕ) (catalogue : CatalogueState) (history : List ATxn) (least : ℕ) → IfImagesKnown (λ images. StandsFor text catalogue history least images → Recovers catalogue history least result) (each D.known devices.old) }

    // The devices are only read, and no call of one comes after one that failed.
    ensures same { each D.known devices.new ≡ each D.known devices.old }
    ensures disk_fault { IsErrOf result (RecoverError.Load LoadError.DiskFault) → OneFaulted (each D.faults devices.old) (each D.faults devices.new) }
    ensures quiet { ¬ IsErrOf result (RecoverError.Load LoadError.DiskFault) → each D.faults devices.new ≡ each D.faults devices.old }
{
    recover_by_windows(rt, alloc, workers, WINDOW, limit, devices, gate)
}

/// Recovers the tables of a store like [`recover`], and holds at a time the batches of `window` bytes of the log, and at most one
/// more: with small windows it takes less memory, and workers wait more often.
///
/// # Errors
///
/// Those of [`recover`].
pub fn recover_by_windows<D: Disk, H: Threads + Wait + Sync, G: Gate + Sync>(
    rt: &H,
    alloc: Global,
    workers: u32,
    window: u64,
    limit: u64,
    devices: &mut Devices<D>,
    gate: &G,
) -> Result<Recovered, RecoverError>
    requires workers { 1 ≤ workers }
    requires window { 1 ≤ window }
    ensures recovered { IfOk result (λ recovered. IfImagesKnown (IsRecoveredFrom recovered.catalogue recovered.tables.rows recovered.txns) (each D.known devices.old)) }
    ensures within { IfOk result (λ recovered. first_over limit (length recovered.catalogue.tables) recovered.tables.rows ≡ None) }
    ensures fits { IfOk result (λ recovered. FitsCatalogue recovered.catalogue recovered.tables.tables recovered.tables.rows) }
    ensures refused { IfErr result (AreRefused limit (each D.known devices.old)) }
    ensures same { each D.known devices.new ≡ each D.known devices.old }
    ensures disk_fault { IsErrOf result (RecoverError.Load LoadError.DiskFault) → OneFaulted (each D.faults devices.old) (each D.faults devices.new) }
    ensures quiet { ¬ IsErrOf result (RecoverError.Load LoadError.DiskFault) → each D.faults devices.new ≡ each D.faults devices.old }
{
    let Opened {
        catalogue,
        slots,
        tables,
        mut reader,
    } = open_store(alloc, devices)?;
    let executed = execute_active(
        rt,
        alloc,
        workers,
        window,
        &catalogue,
        &slots,
        tables,
        &mut reader,
        devices,
        gate,
    )?;
    let tables = tables_of(executed)?;
    test_rows(&catalogue, &tables, limit)?;
    Ok(Recovered {
        catalogue,
        tables,
        txns: reader.gate().txns(),
    })
}
