// Writes a log.
ghost use Rattle.std.specs.Prelude.{◌≡◌, ◌↔◌, ◌<◌, ◌≤◌, ◌+◌, ◌-◌, ◌^◌, ◌∷◌, ◌++◌, [], ℕ, List, length, min, All, IfOk, OnOk, OnErr, IsErrOf, true};
ghost use Rattle.pac_outside.specs.Causes.{EndsAtFault, HasCause};
ghost use Rattle.pac_outside.specs.Disk.{BothKnown, IsDurable, IfKnown};
ghost use Rattle.pac_ops.specs.declared.transaction.Txn.{Txn as ATxn};
ghost use Rattle.pac_types.specs.Fits.{TxnFits};
ghost use Rattle.pac_entry.specs.declared.limits.TheConstants.{MAX_BODY_LEN};
ghost use Rattle.pac_log.specs.declared.header.Header.{Header as AHeader};
ghost use Rattle.pac_log.specs.declared.limits.TheConstants.{MAX_BASE, MAX_LOG_LEN};
ghost use Rattle.pac_log.specs.Bodies.{body_bytes};
ghost use Rattle.pac_log.specs.Logs.{AddsBatch, KeepsOrAdds, base_of};
ghost use Rattle.pac_log.specs.Gates.{gate_after, next_segment};
ghost use Rattle.pac_log.specs.Places.{LogEndsAt, HasFailed, IsAfter, IsPrepared, HasReady, need_of};
ghost use Rattle.pac_log.specs.Torn.{LogEndsAtEither};

use crate::body::write_measured;
use crate::header::MAX_HEAD_LEN;
use crate::position::Position;
use crate::{LogReader, MAX_LOG_LEN, PrepareError, Segment, body_len};
use pac_base::{Listed, NoMemory, listed};
use pac_ops::Batch;
use pac_outside::{Disk, Failed, GATE_SHUT, open_after};
use std::alloc::Global;
use std::marker::Model;

/// What a log is about to do.
#[derive(Drop)]
pub enum Stage {
    /// It waits for a batch.
    Waiting,
    /// The body of a batch of that many transactions, and the closed gate after it, are ready to be written.
    Ready { piece: Listed<u8>, txns: u64 },
    /// A commit failed. Nothing is written any more.
    Failed,
}

/// What a log is.
#[derive(Drop)]
pub struct LogParts {
    pub gate: Position,
    pub stage: Stage,
}

/// A log to whose end batches are committed.
#[derive(Drop)]
pub struct Log {
    alloc: Global,
    parts: LogParts,
}

impl Model for Log {
    ghost use Rattle.pac_log.specs.declared.log.LogParts.{LogParts};
    ghost use Rattle.pac_log.specs.contracts.log.LogParts as coding;
    ghost use Rattle.pac_log.specs.Places.{HasRoom};

    ghost Value = { LogParts };

    ghost coded = { coding.the_row.coded };

    ghost view = { λ log. log.parts };

    ghost invariant = { λ log. HasRoom log.parts.gate.place log.parts.stage };
}

impl Log {
    /// The log that a reader has read to its end. Takes no memory.
    pub fn resume(reader: LogReader) -> Log
        requires { reader.is_at_end ≡ true }
        ensures { result ≡ record { gate = reader.gate; stage = Stage.Waiting } }
    {
        let LogReader { alloc, parts } = reader;
        Log {
            alloc,
            parts: LogParts {
                gate: parts.gate,
                stage: Stage::Waiting,
            },
        }
    }

    /// The gate that comes next.
    pub fn gate(&self) -> &Position
        ensures { result.now ≡ self.now.gate }
    {
        &self.parts.gate
    }

    /// How many transactions came before the segment's. Takes no memory.
    pub fn base(&self) -> u64
        ensures { result ≡ base_of self.now.gate.header }
    {
        self.parts.gate.base()
    }

    /// The text of the log's catalogue. Takes no memory.
    pub fn text(&self) -> &[u8]
        ensures { result.now ≡ self.now.gate.header.text }
    {
        self.parts.gate.header().text.as_slice()
    }

    /// The offset of the first gate of the segment that comes next. Takes no memory.
    pub fn next_place(&self) -> u64
        ensures { result ≡ (next_segment self.now.gate).place }
    {
        MAX_HEAD_LEN as u64 + self.text().len() as u64
    }

    /// Makes the segment ready that comes after this log, in memory.
    ///
    /// # Errors
    ///
    /// `NoMemory` where there was no memory for its header, or for a copy of the catalogue.
    pub fn plan_next(&self) -> Result<Segment, NoMemory>
        requires { self.now.gate.txns ≤ MAX_BASE }
        ensures { IfOk result (λ segment. segment.gate ≡ next_segment self.now.gate) }
    {
        Segment::after(self.alloc, &self.parts.gate)
    }

    // The log of a segment without a batch.
    pub(crate) fn begun(alloc: Global, gate: Position) -> Log
        ensures { result ≡ record { gate = gate; stage = Stage.Waiting } }
    {
        Log {
            alloc,
            parts: LogParts {
                gate,
                stage: Stage::Waiting,
            },
        }
    }

    /// Makes a batch ready to be committed. It writes the batch's body into memory, once.
    ///
    /// # Errors
    ///
    /// The log is left as it was.
    ///
    /// - [`PrepareError::Failed`] exactly where an earlier commit failed.
    /// - [`PrepareError::LogFull`] exactly where none did, and the log would have more than 268,435,456 bytes.
    /// - [`PrepareError::NoMemory`] where there was no memory for the body.
    pub fn prepare(&mut self, batch: &Batch) -> Result<(), PrepareError>
        requires fits { All (TxnFits self.old.gate.catalogue) batch.now.txns }
        requires short { length (body_bytes batch.now.txns) ≤ MAX_BODY_LEN }

        // It stands ready, and the log stands where it stood.
        ensures prepared { OnOk result (IsPrepared self.new batch.now.txns) }
        ensures gate { self.new.gate ≡ self.old.gate }
        ensures refused { OnErr result (self.new ≡ self.old) }

        // When each refusal comes.
        ensures failed { IsErrOf result PrepareError.Failed ↔ HasFailed self.old.stage }
        ensures full { (need : ℕ) → IsErrOf result (PrepareError.LogFull need) → (MAX_LOG_LEN < need_of self.old.gate.place batch.now.txns) × (need ≡ min (need_of self.old.gate.place batch.now.txns) (2 ^ 64 - 1)) }
        ensures room { OnOk result (need_of self.old.gate.place batch.now.txns ≤ MAX_LOG_LEN) }
    {
        if matches!(self.parts.stage, Stage::Failed) {
            return Err(PrepareError::Failed);
        }
        let len = body_len(batch);
        let need = self.parts.gate.place().saturating_add(len + 2);
        if need > MAX_LOG_LEN {
            return Err(PrepareError::LogFull { need });
        }
        let mut piece = Vec::with_capacity(self.alloc, len as usize + 1)?;
        write_measured(batch, len as usize - 8, &mut piece)?;
        piece.push(GATE_SHUT)?;
        let txns = batch.txns.items().len() as u64;
        self.parts.stage = Stage::Ready {
            piece: listed(piece),
            txns,
        };
        Ok(())
    }

    /// Puts the batch that is ready after the others. It makes four device calls: it writes the body and the closed gate
    /// after it, syncs, opens the gate before it, and syncs. From Ok on each crash leaves the batch; at each moment
    /// before, a crash leaves the batches before it, with the new one or without. Takes no memory.
    ///
    /// # Errors
    ///
    /// [`Failed`] where a call of the device failed, so only where its count of faults rose; no call comes after it, and the
    /// log has failed. A crash leaves a log that ends where it ended, or after the batch.
    pub fn commit<D: Disk>(&mut self, disk: &mut D) -> Result<(), Failed>
        requires ready { HasReady self.old.stage }
        requires ends { IfKnown (λ old. LogEndsAt self.old.gate old.now) (D.known disk.old) }

        // At each moment a crash leaves the batches before, or these and the new one.
        ensures any_moment { (header : AHeader) (batches : List (List ATxn)) (txns : List ATxn) → IsAfter header batches self.old.gate → IsPrepared self.old txns
            → BothKnown (KeepsOrAdds header self.old.gate.catalogue batches txns) (D.known disk.old) (D.known disk.new) }

        // Afterwards it leaves the new one too, and the log stands after it.
        ensures committed { OnOk result ((header : AHeader) (batches : List (List ATxn)) (txns : List ATxn) → IsAfter header batches self.old.gate → IsPrepared self.old txns
            → BothKnown (AddsBatch header self.old.gate.catalogue batches txns) (D.known disk.old) (D.known disk.new)) }
        ensures after { OnOk result ((header : AHeader) (batches : List (List ATxn)) (txns : List ATxn) → IsAfter header batches self.old.gate → IsPrepared self.old txns
            → IsAfter header (batches ++ txns ∷ []) self.new.gate) }
        ensures gate { OnOk result ((txns : List ATxn) → IsPrepared self.old txns → self.new.gate ≡ gate_after (length txns) (1 + length (body_bytes txns)) self.old.gate) }
        ensures still_ends { OnOk result ((txns : List ATxn) → IsPrepared self.old txns → IfKnown (λ new. LogEndsAt self.new.gate new.now) (D.known disk.new)) }
        // After an error each image ends where the log ended, or after the batch.
        ensures torn { OnErr result ((txns : List ATxn) → IsPrepared self.old txns
            → IfKnown (λ new. LogEndsAtEither self.old.gate (gate_after (length txns) (1 + length (body_bytes txns)) self.old.gate) new.now) (D.known disk.new)) }
        // Nothing but the body and the bytes of both gates is written.
        ensures durable { OnOk result ((txns : List ATxn) → IsPrepared self.old txns → BothKnown (IsDurable self.old.gate.place (1 ∷ (body_bytes txns ++ 0 ∷ []))) (D.known disk.old) (D.known disk.new)) }
        ensures catalogue { self.new.gate.catalogue ≡ self.old.gate.catalogue }
        ensures headed { self.new.gate.header ≡ self.old.gate.header }
        ensures waits { OnOk result (self.new.stage ≡ Stage.Waiting) }
        ensures failed { OnErr result (self.new ≡ record { gate = self.old.gate; stage = Stage.Failed }) }

        // No call of the device comes after one that failed.
        ensures cause { HasCause (D.faults disk.old) (D.faults disk.new) result }
        ensures once { EndsAtFault (D.faults disk.old) (D.faults disk.new) result }
    {
        let Stage::Ready { piece, txns } = &self.parts.stage else {
            unreachable!();
        };
        let (len, txns) = (piece.as_slice().len() as u64, *txns);
        match open_after(disk, self.parts.gate.place(), piece.as_slice()) {
            Ok(()) => {
                self.parts.stage = Stage::Waiting;
                self.parts.gate.advance(txns, len);
                Ok(())
            }
            Err(failed) => {
                self.parts.stage = Stage::Failed;
                Err(failed)
            }
        }
    }
}
