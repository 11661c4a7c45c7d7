// The command `stress`.
ghost use Rattle.std.specs.Prelude.{◌≡◌, ◌≢◌, ◌≤◌, IfErr, OnOk};
ghost use Rattle.pac_stress.specs.Stressed.{IsSummaryOf};
ghost use Rattle.pac_main.specs.Causes.{StressStops};
ghost use Rattle.pac_main.specs.Stop.{line_of, status_of};
ghost use Rattle.pac_main.specs.Streams.{IsReported, IsTaken, observed};
ghost use Rattle.pac_main.specs.Stress.{StressEnds};
ghost use Rattle.pac_main.specs.declared.stop.Stop.{Stop as AStop};

use crate::reporting::report;
use crate::stop::Stop;
use pac_outside::{Gate, Sink, write_all};
use pac_stress::stress_summary;
use std::alloc::Global;
use std::sync::Wait;
use std::thread::Threads;

// Executes `count` transactions of the stress test, of which none aborts, and writes the summary.
fn write_summary<H: Threads + Wait + Sync, O: Sink, G: Gate + Sync>(
    rt: &H,
    alloc: Global,
    workers: u32,
    count: u32,
    output: &mut O,
    gate: &G,
) -> Result<(), Stop>
    requires workers { 1 ≤ workers }
    requires few { count ≤ 100000 }
    ensures done { OnOk result (IsSummaryOf count (IsTaken (observed O.held O.faults output.old output.new))) }
    ensures stops { IfErr result (StressStops count (observed O.held O.faults output.old output.new)) }
    ensures kept { IfErr result (λ stop. stop ≢ Stop.OutputFault → output.new ≡ output.old) }
{
    let text = stress_summary(rt, alloc, workers, count, gate)?;
    Ok(write_all(output, &text)?)
}

/// Executes `count` transactions of the stress test by `workers` workers, writes the summary, and reports why where that stops
/// before its end.
pub(crate) fn stress_output<H: Threads + Wait + Sync, O: Sink, E: Sink, G: Gate + Sync>(
    rt: &H,
    alloc: Global,
    workers: u32,
    count: u32,
    output: &mut O,
    errors: &mut E,
    gate: &G,
) -> u8
    requires workers { 1 ≤ workers }
    requires few { count ≤ 100000 }
    ensures ends { StressEnds count result (observed O.held O.faults output.old output.new) }
    ensures kept { result ≢ 0 → result ≢ 7 → output.new ≡ output.old }
    ensures quiet { result ≡ 0 → errors.new ≡ errors.old }
    ensures reported { result ≢ 0 → (stop : AStop) × (result ≡ status_of stop) × IsReported (observed E.held E.faults errors.old errors.new) (line_of stop) }
{
    match write_summary(rt, alloc, workers, count, output, gate) {
        Ok(()) => 0,
        Err(stop) => report(alloc, stop, errors).status(),
    }
}
