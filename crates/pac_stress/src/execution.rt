// Executing the transactions of the stress test by workers.
ghost use Rattle.std.specs.Prelude.{◌≡◌, ◌+◌, ◌-◌, ◌^◌, ◌<◌, ◌≤◌, IfOk, length, sum};
ghost use Rattle.std.specs.FinMap.{empty};
ghost use Rattle.pac_types.specs.Execution.{serial};
ghost use Rattle.pac_types.specs.OperationLimits.{HasFewOperations};
ghost use Rattle.pac_restore.specs.Batches.{RunOn, txns_in};
ghost use Rattle.pac_restore.specs.Batches.{FitBatches};
ghost use Rattle.pac_stress.specs.Stressed.{Finishes};

use pac_core::Executed;
use pac_global::catalogue_plan;
use pac_in_order::execute;
use pac_ops::Batches;
use pac_outside::Gate;
use pac_serial::{AllError, no_rows};
use pac_tables::HashedRows;
use pac_types::Catalogue;
use std::alloc::Global;
use std::sync::Wait;
use std::thread::Threads;

/// The tables with which transactions end, and how many pieces they had.
#[derive(Drop)]
pub(crate) struct Finished {
    pub rows: HashedRows,
    pub pieces: u64,
}

// All of these numbers together.
fn together(tallies: &[u64], drained: u64) -> u64
    requires { sum tallies.now + drained < 2 ^ 64 }
    ensures { result ≡ sum tallies.now + drained }
{
    let mut all = drained;
    for tally in tallies {
        all += *tally;
    }
    all
}

/// What batches that run on from the first transaction leave, from no rows on, by `workers` workers. One passes the gate
/// before each piece that it runs, several before each piece that is handed out to one of them.
pub(crate) fn execute_all<H: Threads + Wait + Sync, G: Gate + Sync>(
    rt: &H,
    alloc: Global,
    workers: u32,
    cat: &Catalogue,
    batches: Batches,
    gate: &G,
) -> Result<Finished, AllError>
    requires workers { 1 ≤ workers }
    requires operations { HasFewOperations cat.now.procs }
    requires runs { RunOn 0 batches }
    requires fit { FitBatches cat.now batches }
    requires few { length (txns_in batches) < 2 ^ 32 }
    ensures ends { Finishes cat.now batches (serial cat.now.procs 1 (txns_in batches) empty) result }
    ensures tables { IfOk result (λ finished. finished.rows.tables ≡ length cat.now.tables) }
{
    let rows: HashedRows = no_rows(alloc, cat)?;
    let plan = catalogue_plan(alloc, cat)?;
    let _blocks = plan.blocks();
    let Executed {
        tables,
        first_note,
        tallies,
        drained,
    } = execute(rt, alloc, workers, plan, 1, rows, batches, gate)?;
    match first_note {
        None => Ok(Finished {
            rows: tables,
            pieces: together(tallies.as_slice(), drained),
        }),
        Some(note) => Err(AllError::Abort(note)),
    }
}
