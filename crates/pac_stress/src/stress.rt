// The stress test.
ghost use Rattle.std.specs.Prelude.{◌≡◌, ◌≤◌, IfErr, IfOk};
ghost use Rattle.pac_stress.specs.Stressed.{GivesNoSummary, IsSummaryOf};

use crate::batches::stress_batches;
use crate::catalogue::bank_catalogue;
use crate::execution::execute_all;
use crate::summary::summary_text;
use pac_outside::Gate;
use pac_serial::AllError;
use std::alloc::Global;
use std::sync::Wait;
use std::thread::Threads;

/// Executes `count` transactions of the stress test from no rows on, by `workers` workers, and returns the summary. One worker
/// passes the gate before each piece that it runs, several before each piece that is handed out to one of them.
///
/// # Errors
///
/// [`AllError::NoMemory`] where an allocation is refused. [`AllError::Abort`] only where serial execution of the transactions aborts,
/// which it doesn't for `count` up to 100,000: [`none_aborts`](crate::none_aborts).
pub fn stress_summary<H: Threads + Wait + Sync, G: Gate + Sync>(
    rt: &H,
    alloc: Global,
    workers: u32,
    count: u32,
    gate: &G,
) -> Result<Vec<u8>, AllError>
    requires workers { 1 ≤ workers }
    ensures done { IfOk result (λ text. IsSummaryOf count (λ all. text.items ≡ all)) }
    ensures stops { IfErr result (GivesNoSummary count) }
{
    let catalogue = bank_catalogue(alloc)?;
    let batches = stress_batches(alloc, count)?;
    let finished = execute_all(rt, alloc, workers, &catalogue, batches, gate)?;
    Ok(summary_text(
        alloc,
        &catalogue,
        u64::from(count),
        finished.pieces,
        &finished.rows,
    )?)
}
