// Executes a window of a log while it is read.
ghost use Rattle.std.specs.Prelude.{◌≡◌, ◌≤◌, IfErr, IfOk, IsErrOf, map};
ghost use Rattle.pac_outside.specs.Causes.{one_more};
ghost use Rattle.pac_types.specs.Fits.{FitsCatalogue, shape};
ghost use Rattle.pac_flat.specs.Agreement.{ReplaysTheSame};
ghost use Rattle.pac_flat.specs.FlatForm.{program_of};
ghost use Rattle.pac_restore.specs.Opening.{IsInLog};
ghost use Rattle.pac_restore.specs.Outcomes.{FitsReplayed};
ghost use Rattle.pac_recover.specs.FedLogs.{IsDamagedThere};
ghost use Rattle.pac_recover.specs.Windows.{IsExecutedWindow};

use crate::LogFeed;
use crate::workers::execution_of;
use pac_base::Exact;
use pac_in_order::execute_feed;
use pac_keys::PlanCode;
use pac_log::LogReader;
use pac_outside::{Disk, Gate, LogName};
use pac_plan::Shared;
use pac_restore::{Execution, LoadError, in_log};
use pac_tables::{JoinedRows, TableRows};
use pac_types::Catalogue;
use pac_workers::GhostList;
use std::alloc::Global;
use std::sync::Wait;
use std::thread::Threads;

/// A window that was executed.
#[derive(Drop)]
pub(crate) struct ExecutedWindow<T: TableRows> {
    pub executed: Execution<T>,
    /// Whether the log ends with it.
    pub is_last: bool,
}

/// Executes a window of the log on this device from the reader's gate on over tables, by `workers` workers, while this thread reads
/// it. A window has bodies of `bytes` bytes, and at most one batch more, or ends where the log ends.
///
/// # Errors
///
/// - What the reading is refused for, whatever was executed.
/// - [`LoadError::NoMemory`] where an allocation is refused.
pub(crate) fn execute_window<
    D: Disk,
    T: TableRows + Send,
    H: Threads + Wait + Sync,
    G: Gate + Sync,
>(
    rt: &H,
    alloc: Global,
    workers: u32,
    bytes: u64,
    _cat: &Catalogue,
    plan: &Shared<PlanCode>,
    tables: JoinedRows<T>,
    name: LogName,
    reader: &mut LogReader,
    disk: &mut D,
    gate: &G,
) -> Result<ExecutedWindow<T>, LoadError>
    requires workers { 1 ≤ workers }
    requires bytes { 1 ≤ bytes }
    requires programs { plan.now.programs ≡ map program_of _cat.now.procs }
    requires shapes { plan.now.tables ≡ map shape _cat.now.tables }
    requires replays { ReplaysTheSame _cat.now.procs plan.now.programs }
    requires same { reader.old.gate.catalogue ≡ _cat.now }
    requires fits { FitsCatalogue _cat.now tables.tables tables.rows }
    ensures fits { IfOk result (λ window. FitsReplayed _cat.now window.executed) }
    ensures window { IfOk result (λ window. IsExecutedWindow (D.known disk.old) _cat.now.procs reader.old.gate reader.new.gate tables.rows window.executed window.is_last) }
    ensures refused { IfErr result (IsInLog name (IsDamagedThere (D.known disk.old) reader.old.gate)) }
    ensures same { D.known disk.new ≡ D.known disk.old }
    ensures counted { IsErrOf result LoadError.DiskFault → D.faults disk.new ≡ one_more (D.faults disk.old) }
    ensures kept { ¬ IsErrOf result LoadError.DiskFault → D.faults disk.new ≡ D.faults disk.old }
{
    let plan = plan.copy(alloc)?;
    let first = reader.gate().txns() + 1;
    let mut so_far = GhostList::new();
    let mut feed = LogFeed::new(reader, disk, &mut so_far, bytes);
    let executed = execute_feed(rt, alloc, workers, plan, first, tables, &mut feed, gate);
    if let Some(cause) = feed.refusal() {
        return Err(in_log(name, cause));
    }
    Ok(ExecutedWindow {
        executed: execution_of(executed?),
        is_last: feed.is_at_end(),
    })
}
