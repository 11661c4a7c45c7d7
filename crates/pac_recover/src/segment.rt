// Executes the active segment of a store while it is read.
ghost use Rattle.std.specs.Prelude.{◌≡◌, ◌≤◌, ◌+◌, IfErr, IfOk, IsErrOf, map};
ghost use Rattle.pac_outside.specs.Causes.{one_more};
ghost use Rattle.pac_outside.specs.Devices.{OneFaulted, each, log_at};
ghost use Rattle.pac_types.specs.Execution.{serial};
ghost use Rattle.pac_types.specs.Fits.{FitsCatalogue, shape};
ghost use Rattle.pac_types.specs.OperationLimits.{HasFewOperations};
ghost use Rattle.pac_flat.specs.Agreement.{ReplaysTheSame};
ghost use Rattle.pac_flat.specs.FlatForm.{program_of};
ghost use Rattle.pac_check.specs.SlotStates.{active_of, newest_of};
ghost use Rattle.pac_restore.specs.Batches.{txns_in};
ghost use Rattle.pac_restore.specs.Opening.{IsInLog, IsRefusedOn, IsRefusedReading};
ghost use Rattle.pac_restore.specs.Outcomes.{FitsReplayed, HasExecuted, outcome_of};
ghost use Rattle.pac_restore.specs.Reads.{IsHandedOn, IsReadFrom};
ghost use Rattle.pac_recover.specs.FedLogs.{IsDamagedThere};

use crate::windows::{ExecutedWindow, execute_window};
use pac_base::NoMemory;
use pac_check::{SlotInfo, Slots};
use pac_global::catalogue_plan;
use pac_keys::PlanCode;
use pac_log::LogReader;
use pac_ops::Note;
use pac_outside::{Devices, Disk, Gate, LogName};
use pac_plan::Shared;
use pac_restore::{Execution, LoadError, forget_rest, seek_newest};
use pac_tables::{JoinedRows, TableRows};
use pac_types::Catalogue;
use std::alloc::Global;
use std::sync::Wait;
use std::thread::Threads;

/// Reads the active segment from its first gate to its end, and executes the transactions after the gate that the newest slot names
/// over its tables, by `workers` workers, window by window of `window` bytes. After one in which a transaction aborts the rest is
/// read alone.
///
/// # Errors
///
/// - [`LoadError::Damaged`] of the segment, and `Place` of the newest slot, where the segment is whole and has no gate that it names.
/// - [`LoadError::DiskFault`] where a call of a device failed.
/// - [`LoadError::NoMemory`] where an allocation is refused.
pub(crate) fn execute_active<
    D: Disk,
    T: TableRows + Send,
    H: Threads + Wait + Sync,
    G: Gate + Sync,
>(
    rt: &H,
    alloc: Global,
    workers: u32,
    window: u64,
    cat: &Catalogue,
    slots: &Slots,
    tables: JoinedRows<T>,
    reader: &mut LogReader,
    devices: &mut Devices<D>,
    gate: &G,
) -> Result<Execution<T>, LoadError>
    requires workers { 1 ≤ workers }
    requires window { 1 ≤ window }
    requires operations { HasFewOperations cat.now.procs }
    requires same { reader.old.gate.catalogue ≡ cat.now }
    requires fits { FitsCatalogue cat.now tables.tables tables.rows }
    ensures fits { IfOk result (λ executed. FitsReplayed cat.now executed) }
    ensures executed { IfOk result (λ executed. IsReadFrom (log_at (active_of slots.now) (each D.known devices.old)) (newest_of slots.now) reader.old.gate reader.new.gate (HasExecuted cat.now tables.rows executed)) }
    ensures refused { IfErr result (IsRefusedReading slots.now reader.old.gate (each D.known devices.old)) }
    ensures same { each D.known devices.new ≡ each D.known devices.old }
    ensures disk_fault { IsErrOf result LoadError.DiskFault → OneFaulted (each D.faults devices.old) (each D.faults devices.new) }
    ensures quiet { ¬ IsErrOf result LoadError.DiskFault → each D.faults devices.new ≡ each D.faults devices.old }
{
    let plan = shared_plan(alloc, cat)?;
    let newest = slots.newest();
    let name = slots.active();
    match name {
        LogName::Log => {
            let log = &mut devices.log;
            execute_log(
                rt, alloc, workers, window, cat, &plan, newest, tables, name, reader, log, gate,
            )
        }
        LogName::LogB => {
            let log = &mut devices.log_b;
            execute_log(
                rt, alloc, workers, window, cat, &plan, newest, tables, name, reader, log, gate,
            )
        }
    }
}

// The plan of a catalogue, with the code of its pieces.
fn shared_plan(alloc: Global, cat: &Catalogue) -> Result<Shared<PlanCode>, NoMemory>
    requires { HasFewOperations cat.now.procs }
    ensures programs { IfOk result (λ plan. plan.programs ≡ map program_of cat.now.procs) }
    ensures shapes { IfOk result (λ plan. plan.tables ≡ map shape cat.now.tables) }
    ensures replays { IfOk result (λ plan. ReplaysTheSame cat.now.procs plan.programs) }
{
    let plan = catalogue_plan(alloc, cat)?;
    Shared::new(alloc, PlanCode::new(alloc, plan)?)
}

// The same of the segment on a device.
fn execute_log<D: Disk, T: TableRows + Send, H: Threads + Wait + Sync, G: Gate + Sync>(
    rt: &H,
    alloc: Global,
    workers: u32,
    window: u64,
    cat: &Catalogue,
    plan: &Shared<PlanCode>,
    newest: Option<SlotInfo>,
    tables: JoinedRows<T>,
    name: LogName,
    reader: &mut LogReader,
    disk: &mut D,
    gate: &G,
) -> Result<Execution<T>, LoadError>
    requires workers { 1 ≤ workers }
    requires window { 1 ≤ window }
    requires programs { plan.now.programs ≡ map program_of cat.now.procs }
    requires shapes { plan.now.tables ≡ map shape cat.now.tables }
    requires replays { ReplaysTheSame cat.now.procs plan.now.programs }
    requires same { reader.old.gate.catalogue ≡ cat.now }
    requires fits { FitsCatalogue cat.now tables.tables tables.rows }
    ensures fits { IfOk result (λ executed. FitsReplayed cat.now executed) }
    ensures executed { IfOk result (λ executed. IsReadFrom (D.known disk.old) newest reader.old.gate reader.new.gate (HasExecuted cat.now tables.rows executed)) }
    ensures refused { IfErr result (IsRefusedOn name newest reader.old.gate (D.known disk.old)) }
    ensures same { D.known disk.new ≡ D.known disk.old }
    ensures counted { IsErrOf result LoadError.DiskFault → D.faults disk.new ≡ one_more (D.faults disk.old) }
    ensures kept { ¬ IsErrOf result LoadError.DiskFault → D.faults disk.new ≡ D.faults disk.old }
{
    seek_newest(name, newest, reader, disk)?;
    execute_rest(
        rt, alloc, workers, window, cat, plan, tables, name, reader, disk, gate,
    )
}

// Executes the rest of a segment, window by window.
fn execute_rest<D: Disk, T: TableRows + Send, H: Threads + Wait + Sync, G: Gate + Sync>(
    rt: &H,
    alloc: Global,
    workers: u32,
    window: u64,
    cat: &Catalogue,
    plan: &Shared<PlanCode>,
    mut tables: JoinedRows<T>,
    name: LogName,
    reader: &mut LogReader,
    disk: &mut D,
    gate: &G,
) -> Result<Execution<T>, LoadError>
    requires workers { 1 ≤ workers }
    requires window { 1 ≤ window }
    requires programs { plan.now.programs ≡ map program_of cat.now.procs }
    requires shapes { plan.now.tables ≡ map shape cat.now.tables }
    requires replays { ReplaysTheSame cat.now.procs plan.now.programs }
    requires same { reader.old.gate.catalogue ≡ cat.now }
    requires fits { FitsCatalogue cat.now tables.tables tables.rows }
    ensures fits { IfOk result (λ executed. FitsReplayed cat.now executed) }
    ensures executed { IfOk result (λ executed. IsHandedOn (D.known disk.old) reader.old.gate reader.new.gate (λ batches. outcome_of executed ≡ serial cat.now.procs (reader.old.gate.txns + 1) (txns_in batches) tables.rows)) }
    ensures refused { IfErr result (IsInLog name (IsDamagedThere (D.known disk.old) reader.old.gate)) }
    ensures same { D.known disk.new ≡ D.known disk.old }
    ensures counted { IsErrOf result LoadError.DiskFault → D.faults disk.new ≡ one_more (D.faults disk.old) }
    ensures kept { ¬ IsErrOf result LoadError.DiskFault → D.faults disk.new ≡ D.faults disk.old }
{
    for _ in 0..u64::MAX {
        let ExecutedWindow { executed, is_last } = execute_window(
            rt, alloc, workers, window, cat, plan, tables, name, reader, disk, gate,
        )?;
        if is_last {
            return Ok(executed);
        }
        tables = match executed {
            Execution::Tables(tables) => tables,
            Execution::Aborted(note) => return aborted(note, name, reader, disk),
        };
    }
    let _few = reader.gate().txns(); // below 2^64, and each window has one
    unreachable!()
}

// What a transaction that aborts leaves, once the rest of the segment is read.
fn aborted<D: Disk, T: TableRows>(
    note: Note,
    name: LogName,
    reader: &mut LogReader,
    disk: &mut D,
) -> Result<Execution<T>, LoadError>
    ensures aborted { IfOk result (λ executed. executed ≡ Execution.Aborted note) }
    ensures rest { IfOk result (λ _. IsHandedOn (D.known disk.old) reader.old.gate reader.new.gate (λ _. Unit {0})) }
    ensures refused { IfErr result (IsInLog name (IsDamagedThere (D.known disk.old) reader.old.gate)) }
    ensures same { D.known disk.new ≡ D.known disk.old }
    ensures counted { IsErrOf result LoadError.DiskFault → D.faults disk.new ≡ one_more (D.faults disk.old) }
    ensures kept { ¬ IsErrOf result LoadError.DiskFault → D.faults disk.new ≡ D.faults disk.old }
{
    forget_rest(name, reader, disk)?;
    Ok(Execution::Aborted(note))
}
