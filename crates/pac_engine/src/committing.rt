// Commits the transactions of a group.
ghost use Rattle.std.specs.Prelude.{◌≡◌, ◌<◌, ◌≤◌, ℕ, List, All, length, OnOk, OnErr, IsErrOf};
ghost use Rattle.pac_outside.specs.Causes.{Faulted, one_more};
ghost use Rattle.pac_outside.specs.Disk.{BothKnown, IfKnown};
ghost use Rattle.pac_ops.specs.declared.limits.TheConstants.{MAX_TXNS};
ghost use Rattle.pac_ops.specs.declared.transaction.Txn.{Txn as ATxn};
ghost use Rattle.pac_types.specs.Fits.{TxnFits};
ghost use Rattle.pac_entry.specs.declared.limits.TheConstants.{MAX_BODY_LEN};
ghost use Rattle.pac_log.specs.declared.header.Header.{Header as AHeader};
ghost use Rattle.pac_log.specs.declared.limits.TheConstants.{MAX_LOG_LEN};
ghost use Rattle.pac_log.specs.declared.log.Stage.{Stage};
ghost use Rattle.pac_log.specs.Bodies.{body_bytes};
ghost use Rattle.pac_log.specs.Places.{IsAfter, IsPrepared, LogEndsAt, need_of};
ghost use Rattle.pac_log.specs.Torn.{LogEndsAtEither};
ghost use Rattle.pac_engine.specs.Committing.{HasAdded, HasRoomAt, IsCalledFor, IsOverFull, MayAdd, gate_past, with_batch};

use crate::fault::EngineCause;
use pac_log::{Log, PrepareError};
use pac_ops::{Batch, Txn, Txns};
use pac_outside::Disk;

// Makes transactions ready to be committed, and gives them back.
fn prepare(log: &mut Log, txns: Vec<Txn>) -> Result<Vec<Txn>, EngineCause>
    requires waits { log.old.stage ≡ Stage.Waiting }
    requires some { 0 < length txns.items }
    requires few { length txns.items ≤ MAX_TXNS }
    requires fit { All (TxnFits log.old.gate.catalogue) txns.items }
    requires short { length (body_bytes txns.items) ≤ MAX_BODY_LEN }
    ensures prepared { OnOk result (IsPrepared log.new txns.items) }
    ensures gate { log.new.gate ≡ log.old.gate }
    ensures refused { OnErr result (log.new ≡ log.old) }
    ensures full { (need : ℕ) → IsErrOf result (EngineCause.LogFull need) → IsOverFull log.old.gate.place txns.items need }
    ensures room { OnOk result (need_of log.old.gate.place txns.items ≤ MAX_LOG_LEN) }
    ensures no_fault { ¬ IsErrOf result EngineCause.DiskFault }
    ensures known { (bytes : ℕ) → ¬ IsErrOf result (EngineCause.TooLarge bytes) }
    ensures goes_on { ¬ IsErrOf result EngineCause.Ended }
{
    let batch = Batch {
        first: log.gate().txns() + 1,
        txns: Txns::of(txns),
    };
    match log.prepare(&batch) {
        Ok(()) => Ok(batch.txns.into_items()),
        Err(PrepareError::LogFull { need }) => Err(EngineCause::LogFull { need }),
        Err(PrepareError::NoMemory) => Err(EngineCause::NoMemory),
        Err(PrepareError::Failed) => unreachable!(),
    }
}

/// Puts the transactions of a group after the others of a log, makes them durable, and gives them back, since their lists may be
/// used again; where there are none, the device is not called.
///
/// # Errors
///
/// - [`EngineCause::LogFull`] exactly where there are transactions and the log would have more than 268,435,456 bytes with
///   them. The device is not called.
/// - [`EngineCause::NoMemory`] where there was no memory for the body. The device is not called.
/// - [`EngineCause::DiskFault`] where a call of the device failed, so only where its count of faults rose; no call comes after
///   it.
pub fn commit<D: Disk>(log: &mut Log, disk: &mut D, txns: Vec<Txn>) -> Result<Vec<Txn>, EngineCause>
    requires waits { log.old.stage ≡ Stage.Waiting }
    requires ends { IfKnown (λ old. LogEndsAt log.old.gate old.now) (D.known disk.old) }
    requires few { length txns.items ≤ MAX_TXNS }
    requires fit { All (TxnFits log.old.gate.catalogue) txns.items }
    requires short { length (body_bytes txns.items) ≤ MAX_BODY_LEN }

    // At each moment a crash leaves the batches before, or these and the new one.
    ensures moments { (header : AHeader) (batches : List (List ATxn)) → IsAfter header batches log.old.gate
        → BothKnown (MayAdd header log.old.gate.catalogue batches txns.items) (D.known disk.old) (D.known disk.new) }

    // Afterwards it leaves the new one too, and the log stands after it.
    ensures added { OnOk result ((header : AHeader) (batches : List (List ATxn)) → IsAfter header batches log.old.gate
        → BothKnown (HasAdded header log.old.gate.catalogue batches txns.items) (D.known disk.old) (D.known disk.new)) }
    ensures after { OnOk result ((header : AHeader) (batches : List (List ATxn)) → IsAfter header batches log.old.gate → IsAfter header (with_batch batches txns.items) log.new.gate) }
    ensures ends { OnOk result (IfKnown (λ new. LogEndsAt log.new.gate new.now) (D.known disk.new)) }
    ensures gate { OnOk result (log.new.gate ≡ gate_past txns.items log.old.gate) }
    ensures kept { OnErr result (log.new.gate ≡ log.old.gate) }
    ensures waits { OnOk result (log.new.stage ≡ Stage.Waiting) }
    ensures uncalled { ¬ IsErrOf result EngineCause.DiskFault → OnErr result (disk.new ≡ disk.old) }
    ensures torn { OnErr result (IfKnown (λ new. LogEndsAtEither log.old.gate (gate_past txns.items log.old.gate) new.now) (D.known disk.new)) }

    // When each refusal comes.
    ensures full { (need : ℕ) → IsErrOf result (EngineCause.LogFull need) → IsOverFull log.old.gate.place txns.items need }
    ensures room { OnOk result (HasRoomAt log.old.gate.place txns.items) }
    ensures called { IsErrOf result EngineCause.DiskFault → IsCalledFor log.old.gate.place txns.items }
    ensures known { (bytes : ℕ) → ¬ IsErrOf result (EngineCause.TooLarge bytes) }
    ensures goes_on { ¬ IsErrOf result EngineCause.Ended }

    // No call of the device comes after one that failed.
    ensures cause { IsErrOf result EngineCause.DiskFault → Faulted (D.faults disk.old) (D.faults disk.new) }
    ensures once { IsErrOf result EngineCause.DiskFault → D.faults disk.new ≡ one_more (D.faults disk.old) }
    ensures quiet { ¬ IsErrOf result EngineCause.DiskFault → D.faults disk.new ≡ D.faults disk.old }
{
    if txns.is_empty() {
        return Ok(txns);
    }
    let stored = prepare(log, txns)?;
    log.commit(disk)?;
    Ok(stored)
}
