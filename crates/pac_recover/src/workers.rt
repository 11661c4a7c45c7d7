// Executes transactions by workers.
ghost use Rattle.std.specs.Prelude.{◌≡◌, ◌≤◌, ◌+◌, ◌-◌, ◌<◌, ◌^◌, IfOk, length, map};
ghost use Rattle.pac_types.specs.Execution.{serial};
ghost use Rattle.pac_types.specs.Fits.{FitsCatalogue, shape};
ghost use Rattle.pac_types.specs.OperationLimits.{HasFewOperations};
ghost use Rattle.pac_flat.specs.Agreement.{ReplaysTheSame};
ghost use Rattle.pac_flat.specs.FlatForm.{program_of};
ghost use Rattle.pac_restore.specs.Batches.{FitBatches, RunOn, txns_in};
ghost use Rattle.pac_restore.specs.Outcomes.{FitsReplayed, outcome_of};
ghost use Rattle.pac_recover.specs.Outcomes.{executed_to};

use pac_base::NoMemory;
use pac_core::Executed;
use pac_global::catalogue_plan;
use pac_in_order::execute;
use pac_ops::Batches;
use pac_outside::Gate;
use pac_plan::Plan;
use pac_restore::Execution;
use pac_tables::{JoinedRows, TableRows};
use pac_types::Catalogue;
use std::alloc::Global;
use std::sync::Wait;
use std::thread::Threads;

/// What batches that run on after the first `before` transactions give over tables, by `workers` workers. One passes the
/// gate before each piece that it runs, several before each piece that is handed out to one of them.
///
/// # Errors
///
/// [`NoMemory`] where an allocation is refused.
pub fn execute_by<T: TableRows + Send, H: Threads + Wait + Sync, G: Gate + Sync>(
    rt: &H,
    alloc: Global,
    workers: u32,
    cat: &Catalogue,
    before: u64,
    batches: Batches,
    tables: JoinedRows<T>,
    gate: &G,
) -> Result<Execution<T>, NoMemory>
    requires workers { 1 ≤ workers }
    requires operations { HasFewOperations cat.now.procs }
    requires runs { RunOn before batches }
    requires fit { FitBatches cat.now batches }
    requires fits { FitsCatalogue cat.now tables.tables tables.rows }
    requires few { before + length (txns_in batches) < 2 ^ 64 - 1 }
    ensures outcome { IfOk result (λ executed. outcome_of executed ≡ serial cat.now.procs (before + 1) (txns_in batches) tables.rows) }
    ensures fits { IfOk result (λ executed. FitsReplayed cat.now executed) }
{
    let plan = catalogue_plan(alloc, cat)?;
    execute_planned(rt, alloc, workers, cat, plan, before, batches, tables, gate)
}

// The same by the plan of the catalogue.
fn execute_planned<T: TableRows + Send, H: Threads + Wait + Sync, G: Gate + Sync>(
    rt: &H,
    alloc: Global,
    workers: u32,
    _cat: &Catalogue,
    plan: Plan,
    before: u64,
    batches: Batches,
    tables: JoinedRows<T>,
    gate: &G,
) -> Result<Execution<T>, NoMemory>
    requires workers { 1 ≤ workers }
    requires programs { plan.programs ≡ map program_of _cat.now.procs }
    requires shapes { plan.tables ≡ map shape _cat.now.tables }
    requires replays { ReplaysTheSame _cat.now.procs plan.programs }
    requires runs { RunOn before batches }
    requires fit { FitBatches _cat.now batches }
    requires fits { FitsCatalogue _cat.now tables.tables tables.rows }
    requires few { before + length (txns_in batches) < 2 ^ 64 - 1 }
    ensures outcome { IfOk result (λ executed. outcome_of executed ≡ serial _cat.now.procs (before + 1) (txns_in batches) tables.rows) }
    ensures fits { IfOk result (λ executed. FitsReplayed _cat.now executed) }
{
    let executed = execute(rt, alloc, workers, plan, before + 1, tables, batches, gate)?;
    Ok(execution_of(executed))
}

/// The tables that workers left, or the first transaction that aborted.
pub(crate) fn execution_of<T: TableRows>(executed: Executed<JoinedRows<T>>) -> Execution<T>
    ensures { result ≡ executed_to executed.tables executed.first_note }
{
    let Executed {
        tables,
        first_note,
        tallies: _,
        drained: _,
    } = executed;
    match first_note {
        None => Execution::Tables(tables),
        Some(note) => Execution::Aborted(note),
    }
}
