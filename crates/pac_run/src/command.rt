// A run over a store.
ghost use Rattle.std.specs.Prelude.{◌≡◌, ◌≤◌, IfErr, IsErrOf};
ghost use Rattle.std.specs.Result.{IsErrAnd};
ghost use Rattle.pac_ops.specs.declared.limits.TheConstants.{MAX_TXNS};
ghost use Rattle.pac_outside.specs.Causes.{Faulted};
ghost use Rattle.pac_outside.specs.Devices.{AreSettled, IfAllKnown, OneFaulted, each};
ghost use Rattle.pac_check.specs.declared.limits.TheConstants.{MAX_SAVED_ROWS};
ghost use Rattle.pac_restore.specs.declared.errors.RecoverError.{RecoverError as ARecoverError};
ghost use Rattle.pac_restore.specs.Restoring.{AreRefused};
ghost use Rattle.pac_run.specs.Run.{IsRun};
ghost use Rattle.pac_run.specs.Stopping.{DeviceFailed, RefusesStore};

use crate::opening::open;
use crate::serving::serve;
use crate::stop::RunStop;
use pac_outside::{Devices, Disk, Sink, Source};
use std::alloc::Global;

/// Opens the store on the devices and serves the request lines of the input over it, up to a stop or to the end. Transactions
/// are committed in groups of at most `batch` replies, which are written once the group is on the devices.
///
/// # Errors
///
/// Those of [`open`] and [`serve`].
pub fn run<I: Source, O: Sink, D: Disk>(
    alloc: Global,
    batch: u32,
    limit: u64,
    input: &mut I,
    output: &mut O,
    devices: &mut Devices<D>,
) -> Result<(), RunStop>
    requires some { 1 ≤ batch }
    requires few { batch ≤ MAX_TXNS }
    requires limit { limit ≤ MAX_SAVED_ROWS }

    // What was read and written, and what the devices hold, at the exit and at each moment.
    ensures run { IsRun batch limit (I.left input.old) (I.left input.new) (O.held output.old) (O.held output.new) (each D.known devices.old) (each D.known devices.new) (Faulted (O.faults output.old) (O.faults output.new)) result }

    // Each refusal comes only where its cause holds.
    ensures refused { (error : ARecoverError) → IsErrOf result (RunStop.Opening error) → AreRefused limit (each D.known devices.old) error }
    ensures input_fault { IsErrOf result RunStop.InputFault → Faulted (I.faults input.old) (I.faults input.new) }
    ensures output_fault { IsErrOf result RunStop.OutputFault → Faulted (O.faults output.old) (O.faults output.new) }
    ensures disk_fault { IfErr result (λ stop. DeviceFailed stop → OneFaulted (each D.faults devices.old) (each D.faults devices.new)) }
    ensures quiet { ¬ IsErrAnd result DeviceFailed → each D.faults devices.new ≡ each D.faults devices.old }

    // A store that is refused is left as it was, no input is taken, and nothing is written.
    ensures settled { IfErr result (λ stop. RefusesStore stop → IfAllKnown AreSettled (each D.known devices.old) (each D.known devices.new)) }
    ensures unread { IfErr result (λ stop. RefusesStore stop → input.new ≡ input.old) }
    ensures silent { IfErr result (λ stop. RefusesStore stop → output.new ≡ output.old) }
{
    match open(alloc, batch, limit, devices) {
        Ok(mut engine) => serve(alloc, &mut engine, input, output, devices),
        Err(error) => Err(RunStop::from(error)),
    }
}
