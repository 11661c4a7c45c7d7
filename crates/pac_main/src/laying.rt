// The command `lay`.
ghost use Rattle.std.specs.Prelude.{◌≡◌, ◌≢◌, ◌≤◌, ◌+◌, None, IfOk, IfErr, OnOk, length};
ghost use Rattle.pac_outside.specs.Content.{GaveAtMost};
ghost use Rattle.pac_tuple.specs.Laying.{AreLaidWithin};
ghost use Rattle.pac_main.specs.Causes.{LayStops, LayingStops};
ghost use Rattle.pac_main.specs.Lay.{IsLaidDumpOf, LayEnds, first_laid_over, laid_tables};
ghost use Rattle.pac_main.specs.Stop.{line_of, status_of};
ghost use Rattle.pac_main.specs.Streams.{IsReported, IsTaken, observed};
ghost use Rattle.pac_main.specs.declared.stop.Stop.{Stop as AStop};
ghost use Rattle.pac_run.specs.declared.limits.TheConstants.{MAX_INPUT};

use crate::image_log::{ImageLog, read_log};
use crate::replay::read_whole;
use crate::reporting::report;
use crate::stop::Stop;
use pac_outside::{Sink, Source, write_all};
use pac_report::dump;
use pac_restore::test_rows;
use pac_serial::no_rows;
use pac_tables::HashedRows;
use pac_tuple::lay;
use std::alloc::Global;
use std::thread::Threads;

// The tables that a log's lists give by `workers` workers, where these are within the limit.
fn laid<H: Threads + Sync>(
    rt: &H,
    alloc: Global,
    workers: u32,
    limit: u32,
    log: &ImageLog,
) -> Result<HashedRows, Stop>
    requires some { 1 ≤ workers }
    requires few { workers ≤ 64 }
    requires within { AreLaidWithin (length log.now.catalogue.tables) log.now.images }
    ensures rows { IfOk result (λ rows. rows.rows ≡ laid_tables log.now) }
    ensures within { IfOk result (λ rows. first_laid_over limit log.now ≡ None) }
    ensures tables { IfOk result (λ rows. rows.tables ≡ length log.now.catalogue.tables) }
    ensures stops { IfErr result (LayingStops limit log.now) }
{
    let rows: HashedRows = no_rows(alloc, &log.catalogue)?;
    let rows = lay(rt, alloc, workers, rows, &log.images)?;
    test_rows(&log.catalogue, &rows, u64::from(limit))?;
    Ok(rows)
}

// Lays the lists of the log that the source holds, and writes the dump.
fn lay_log<H: Threads + Sync, I: Source, O: Sink>(
    rt: &H,
    alloc: Global,
    workers: u32,
    limit: u32,
    input: &mut I,
    output: &mut O,
) -> Result<(), Stop>
    requires some { 1 ≤ workers }
    requires few { workers ≤ 64 }
    ensures done { OnOk result (IsLaidDumpOf limit (I.left input.old) (IsTaken (observed O.held O.faults output.old output.new))) }
    ensures stops { IfErr result (LayStops limit (observed I.left I.faults input.old input.new) (observed O.held O.faults output.old output.new)) }
    ensures kept { IfErr result (λ stop. stop ≢ Stop.OutputFault → output.new ≡ output.old) }
    ensures taken { GaveAtMost (MAX_INPUT + 1) (I.left input.old) (I.left input.new) }
{
    let text = read_whole(alloc, input)?;
    let log = read_log(alloc, &text)?;
    let rows = laid(rt, alloc, workers, limit, &log)?;
    let dumped = dump(alloc, &log.catalogue, &rows)?;
    Ok(write_all(output, &dumped)?)
}

/// Lays the lists of the log that the input holds, by `workers` workers, and reports why where that stops before its end.
pub(crate) fn lay_input<H: Threads + Sync, I: Source, O: Sink, E: Sink>(
    rt: &H,
    alloc: Global,
    workers: u32,
    limit: u32,
    input: &mut I,
    output: &mut O,
    errors: &mut E,
) -> u8
    requires some { 1 ≤ workers }
    requires few { workers ≤ 64 }
    ensures ends { LayEnds limit result
        (observed I.left I.faults input.old input.new) (observed O.held O.faults output.old output.new) (observed E.held E.faults errors.old errors.new) }
    ensures kept { result ≢ 0 → result ≢ 7 → output.new ≡ output.old }
    ensures quiet { result ≡ 0 → errors.new ≡ errors.old }
    ensures reported { result ≢ 0 → (stop : AStop) × (result ≡ status_of stop) × IsReported (observed E.held E.faults errors.old errors.new) (line_of stop) }
    ensures taken { GaveAtMost (MAX_INPUT + 1) (I.left input.old) (I.left input.new) }
{
    match lay_log(rt, alloc, workers, limit, input, output) {
        Ok(()) => 0,
        Err(stop) => report(alloc, stop, errors).status(),
    }
}
