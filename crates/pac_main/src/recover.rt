// The command `recover`.
ghost use Rattle.std.specs.Prelude.{◌≡◌, ◌≢◌, ◌≤◌, IfErr, OnOk};
ghost use Rattle.pac_outside.specs.Devices.{each};
ghost use Rattle.pac_main.specs.Causes.{IsRecovered, RecoverStops};
ghost use Rattle.pac_main.specs.Recover.{RecoverEnds};
ghost use Rattle.pac_main.specs.Stop.{line_of, status_of};
ghost use Rattle.pac_main.specs.Streams.{IsReported, observed, observed_devices};
ghost use Rattle.pac_main.specs.declared.stop.Stop.{Stop as AStop};

use crate::reporting::report;
use crate::stop::Stop;
use pac_outside::{Devices, Disk, Gate, Sink, write_all};
use pac_recover::recover;
use pac_report::dump;
use std::alloc::Global;
use std::sync::Wait;
use std::thread::Threads;

// Recovers the tables of the devices, and writes their dump.
fn write_recovered<RT: Threads + Wait + Sync, O: Sink, D: Disk, G: Gate + Sync>(
    rt: &RT,
    alloc: Global,
    workers: u32,
    limit: u32,
    output: &mut O,
    devices: &mut Devices<D>,
    gate: &G,
) -> Result<(), Stop>
    requires workers { 1 ≤ workers }
    ensures done { OnOk result (IsRecovered limit (observed_devices D.known D.faults devices.old devices.new) (observed O.held O.faults output.old output.new)) }
    ensures stops { IfErr result (RecoverStops limit (observed_devices D.known D.faults devices.old devices.new) (observed O.held O.faults output.old output.new)) }
    ensures kept { IfErr result (λ stop. stop ≢ Stop.OutputFault → output.new ≡ output.old) }
    ensures untouched { each D.known devices.new ≡ each D.known devices.old }
{
    let recovered = recover(rt, alloc, workers, u64::from(limit), devices, gate)?;
    let text = dump(alloc, &recovered.catalogue, &recovered.tables)?;
    Ok(write_all(output, &text)?)
}

/// Writes the dump of the tables that are recovered of the devices, and reports why where that stops before its end. The
/// devices are only read. One worker passes the gate before each piece that it runs, several before each that is handed out to one.
pub(crate) fn recover_devices<RT: Threads + Wait + Sync, O: Sink, E: Sink, D: Disk, G: Gate + Sync>(
    rt: &RT,
    alloc: Global,
    workers: u32,
    limit: u32,
    output: &mut O,
    errors: &mut E,
    devices: &mut Devices<D>,
    gate: &G,
) -> u8
    requires workers { 1 ≤ workers }
    ensures ends { RecoverEnds limit result
        (observed_devices D.known D.faults devices.old devices.new) (observed O.held O.faults output.old output.new) (observed E.held E.faults errors.old errors.new) }
    ensures kept { result ≢ 0 → result ≢ 7 → output.new ≡ output.old }
    ensures quiet { result ≡ 0 → errors.new ≡ errors.old }
    ensures reported { result ≢ 0 → (stop : AStop) × (result ≡ status_of stop) × IsReported (observed E.held E.faults errors.old errors.new) (line_of stop) }
{
    match write_recovered(rt, alloc, workers, limit, output, devices, gate) {
        Ok(()) => 0,
        Err(stop) => report(alloc, stop, errors).status(),
    }
}
