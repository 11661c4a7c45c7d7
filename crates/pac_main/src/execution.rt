// Executes the transactions of a script.
ghost use Rattle.std.specs.Prelude.{◌≡◌, ◌≤◌, length, IfOk};
ghost use Rattle.std.specs.FinMap.{empty};
ghost use Rattle.pac_types.specs.Execution.{serial};
ghost use Rattle.pac_types.specs.OperationLimits.{HasFewOperations};
ghost use Rattle.pac_restore.specs.Batches.{RunOn, txns_in};
ghost use Rattle.pac_script.specs.BatchFits.{BatchesFit, BatchesHaveNumbers};
ghost use Rattle.pac_main.specs.Replay.{DoesEnd};

use pac_ops::Batches;
use pac_outside::Gate;
use pac_recover::execute_by;
use pac_restore::Execution;
use pac_serial::{AllError, no_rows};
use pac_tables::HashedRows;
use pac_types::Catalogue;
use std::alloc::Global;
use std::sync::Wait;
use std::thread::Threads;

/// The tables with which the transactions of the batches end, from no rows on, by `workers` workers.
pub(crate) fn executed<H: Threads + Wait + Sync, G: Gate + Sync>(
    rt: &H,
    alloc: Global,
    workers: u32,
    catalogue: &Catalogue,
    batches: Batches,
    gate: &G,
) -> Result<HashedRows, AllError>
    requires workers { 1 ≤ workers }
    requires operations { HasFewOperations catalogue.now.procs }
    requires fit { BatchesFit catalogue.now batches }
    requires small { BatchesHaveNumbers batches }
    requires runs { RunOn 0 batches }
    ensures ends { DoesEnd result (serial catalogue.now.procs 1 (txns_in batches) empty) }
    ensures tables { IfOk result (λ rows. rows.tables ≡ length catalogue.now.tables) }
{
    let rows = no_rows(alloc, catalogue)?;
    match execute_by(rt, alloc, workers, catalogue, 0, batches, rows, gate)? {
        Execution::Tables(rows) => Ok(rows),
        Execution::Aborted(note) => Err(AllError::Abort(note)),
    }
}
