// How a store is opened.
ghost use Rattle.std.specs.Prelude.{◌≡◌, ◌≤◌, ℕ, List, None, length, IfErr, IfOk, IsErrOf};
ghost use Rattle.pac_ops.specs.declared.limits.TheConstants.{MAX_TXNS};
ghost use Rattle.pac_outside.specs.Devices.{AreSettled, OneFaulted, RunsAsBefore, IfAllKnown, each, log_at};
ghost use Rattle.pac_outside.specs.Disk.{IfKnown};
ghost use Rattle.pac_outside.specs.Parts.{known_reads};
ghost use Rattle.pac_check.specs.declared.limits.TheConstants.{MAX_SAVED_ROWS};
ghost use Rattle.pac_check.specs.SlotStates.{active_of, IsSlot};
ghost use Rattle.pac_store.specs.Images.{IfImagesKnown};
ghost use Rattle.pac_restore.specs.Loading.{HoldsLogUpTo};
ghost use Rattle.pac_restore.specs.Restoring.{AreRefused};
ghost use Rattle.pac_types.specs.Execution.{first_over};
ghost use Rattle.pac_engine.specs.Standing.{HasDevices};
ghost use Rattle.pac_run.specs.Opening.{BeginsOver, IsFresh, IsOpenedFrom};

use crate::serially::Serially;
use pac_engine::Engine;
use pac_log::Log;
use pac_outside::{Devices, Disk};
use pac_restore::{LoadError, RecoverError, Restored, restore};
use std::alloc::Global;

// An engine over what is stored on devices, which are only read.
fn engine_over<D: Disk>(
    alloc: Global,
    batch: u32,
    limit: u64,
    devices: &mut Devices<D>,
) -> Result<Engine, RecoverError>
    requires some { 1 ≤ batch }
    requires few { batch ≤ MAX_TXNS }
    requires limit { limit ≤ MAX_SAVED_ROWS }
    ensures opened { IfOk result (λ engine. IfImagesKnown (IsOpenedFrom engine) (each D.known devices.old)) }
    ensures fresh { IfOk result (IsFresh batch limit) }
    ensures within { IfOk result (λ engine. first_over limit (length engine.session.catalogue.tables) engine.session.tables ≡ None) }
    ensures log { IfOk result (λ engine. IfKnown (λ old. HoldsLogUpTo engine.log.gate old.now.seen) (log_at (active_of engine.slots) (each D.known devices.old))) }
    ensures slot_a { IfOk result (λ engine. IfKnown (λ old. IsSlot engine.session.catalogue.tables engine.slots.a old.now.seen) (D.known devices.old.slot_a)) }
    ensures slot_b { IfOk result (λ engine. IfKnown (λ old. IsSlot engine.session.catalogue.tables engine.slots.b old.now.seen) (D.known devices.old.slot_b)) }
    ensures refused { IfErr result (AreRefused limit (each D.known devices.old)) }
    ensures same { each D.known devices.new ≡ each D.known devices.old }
    ensures disk_fault { IsErrOf result (RecoverError.Load LoadError.DiskFault) → OneFaulted (each D.faults devices.old) (each D.faults devices.new) }
    ensures quiet { ¬ IsErrOf result (RecoverError.Load LoadError.DiskFault) → each D.faults devices.new ≡ each D.faults devices.old }
{
    let Restored {
        catalogue,
        tables,
        reader,
        slots,
    } = restore(alloc, &Serially, limit, devices)?;
    let log = Log::resume(reader);
    Ok(Engine::new(alloc, catalogue, tables, log, slots, batch, limit))
}

/// Opens a store: syncs its devices, and restores it: executes the stored transactions one after another as they are read,
/// and tests the limit of rows. No device is written. A group of the engine holds at most `batch` replies.
///
/// # Errors
///
/// Those of [`restore`]: what the store holds is refused exactly where `recover` refuses it. A failed device is
/// [`LoadError::DiskFault`], only where the count of faults of one rose; no call of any device comes after it.
pub fn open<D: Disk>(
    alloc: Global,
    batch: u32,
    limit: u64,
    devices: &mut Devices<D>,
) -> Result<Engine, RecoverError>
    requires some { 1 ≤ batch }
    requires few { batch ≤ MAX_TXNS }
    requires limit { limit ≤ MAX_SAVED_ROWS }

    // What is opened, and when each refusal comes.
    ensures opened { IfOk result (λ engine. IfImagesKnown (IsOpenedFrom engine) (each D.known devices.old)) }
    ensures fresh { IfOk result (IsFresh batch limit) }
    ensures within { IfOk result (λ engine. first_over limit (length engine.session.catalogue.tables) engine.session.tables ≡ None) }
    ensures refused { IfErr result (AreRefused limit (each D.known devices.old)) }

    // The engine stands for what was stored, at each moment a crash leaves what it might have left at entry, and a read gives
    // what it gave, whatever the answer.
    ensures ready { IfOk result (λ engine. HasDevices D.known engine devices.new) }
    ensures begins { IfOk result (λ engine. IfAllKnown (BeginsOver engine) (each D.known devices.old) (each D.known devices.new)) }
    ensures moments { IfAllKnown RunsAsBefore (each D.known devices.old) (each D.known devices.new) }
    ensures seen { known_reads (each D.known devices.new) ≡ known_reads (each D.known devices.old) }

    // No device is written, and no call of one comes after one that failed.
    ensures settled { ¬ IsErrOf result (RecoverError.Load LoadError.DiskFault) → IfAllKnown AreSettled (each D.known devices.old) (each D.known devices.new) }
    ensures disk_fault { IsErrOf result (RecoverError.Load LoadError.DiskFault) → OneFaulted (each D.faults devices.old) (each D.faults devices.new) }
    ensures quiet { ¬ IsErrOf result (RecoverError.Load LoadError.DiskFault) → each D.faults devices.new ≡ each D.faults devices.old }
{
    match devices.sync() {
        Ok(()) => engine_over(alloc, batch, limit, devices),
        Err(_) => Err(RecoverError::Load(LoadError::DiskFault)),
    }
}
