// Reads a log.
ghost use Rattle.std.specs.Prelude.{◌≡◌, ◌≢◌, ◌≤◌, ◌<◌, ◌+◌, ◌^◌, ◌∷◌, ◌++◌, [], ℕ, List, All, None, Ok, false, true, drop, length, IfOk, IfSome, IsErrOf, OnErr};
ghost use Rattle.pac_outside.specs.Causes.{Faulted, one_more};
ghost use Rattle.pac_outside.specs.Disk.{IfKnown};
ghost use Rattle.pac_ops.specs.declared.transaction.Txn.{Txn as ATxn};
ghost use Rattle.pac_types.specs.Fits.{TxnFits};
ghost use Rattle.pac_types.specs.Typing.{CatalogueState};
ghost use Rattle.pac_bytes.specs.Reading.{reported_as};
ghost use Rattle.pac_log.specs.declared.damage.DamageKind.{DamageKind as ADamageKind};
ghost use Rattle.pac_log.specs.declared.header.Header.{Header as AHeader};
ghost use Rattle.pac_log.specs.Logs.{HoldsLog, base_of};
ghost use Rattle.pac_log.specs.Places.{IsAfter};
ghost use Rattle.pac_log.specs.Looked.{IsSpelled};
ghost use Rattle.pac_log.specs.Reading.{IsNextBatch, IsStore, ReportsOfImage, StandsAfter, ReportsHeld, after_gate, at_gate, first_batch, further};
ghost use Rattle.pac_log.specs.Readers.{at_first};

use crate::damage::short_at;
use crate::gate_bytes::bytes_from;
use crate::header::{MAX_HEAD_LEN, head_of, header_catalogue};
use crate::position::Position;
use crate::{Header, Link, LinkFault, LogError, read_link};
use pac_base::{Refusal, listed};
use pac_ops::Batch;
use pac_outside::{Disk, GATE_OPEN, read_piece};
use pac_types::Catalogue;
use std::alloc::Global;
use std::marker::Model;

/// What a reader of a log is.
#[derive(Drop)]
pub struct ReaderParts {
    pub gate: Position,
    /// Whether its last answer was that the log ends here.
    pub is_at_end: bool,
}

/// A reader of a log, which goes from gate to gate.
#[derive(Drop)]
pub struct LogReader {
    pub(crate) alloc: Global,
    pub(crate) parts: ReaderParts,
}

impl Model for LogReader {
    ghost use Rattle.pac_log.specs.declared.reader.ReaderParts.{ReaderParts};
    ghost use Rattle.pac_log.specs.contracts.reader.ReaderParts as coding;

    ghost Value = { ReaderParts };

    ghost coded = { coding.the_row.coded };

    ghost view = { λ reader. reader.parts };
}

impl LogReader {
    /// The reader of the log on a device. It stands at the first gate.
    ///
    /// # Errors
    ///
    /// - [`LogError::NoStore`] exactly where the device doesn't begin with the header of a log and one byte more: the
    ///   name, and the text of a catalogue that is within the limits on operations.
    /// - [`LogError::DiskFault`] where the device failed, so only where its count of faults rose.
    /// - [`LogError::NoMemory`] where there was no memory for the catalogue.
    ///
    /// No damage is reported: no batch is read.
    pub fn attach<D: Disk>(alloc: Global, disk: &mut D) -> Result<LogReader, LogError>
        // The header is right, and the reader stands before the first batch.
        ensures store { IfOk result (λ reader. IfKnown (λ old. IsStore reader.gate.header reader.gate.catalogue old.now.seen × StandsAfter reader.gate.header [] reader.gate old.now.seen) (D.known disk.old)) }
        ensures begins { IfOk result (λ reader. at_first reader ≡ reader) }
        ensures no_store { IsErrOf result LogError.NoStore → IfKnown (λ old. (header : AHeader) (catalogue : CatalogueState) → ¬ IsStore header catalogue old.now.seen) (D.known disk.old) }
        ensures whole { (at : ℕ) (kind : ADamageKind) → ¬ IsErrOf result (LogError.Damaged at kind) }

        // The device is only read, and no call of it comes after one that failed.
        ensures same { D.known disk.new ≡ D.known disk.old }
        ensures later { D.faults disk.old ≤ D.faults disk.new }
        ensures cause { IsErrOf result LogError.DiskFault → Faulted (D.faults disk.old) (D.faults disk.new) }
        ensures counted { IsErrOf result LogError.DiskFault → D.faults disk.new ≡ one_more (D.faults disk.old) }
        ensures kept { ¬ IsErrOf result LogError.DiskFault → D.faults disk.new ≡ D.faults disk.old }
    {
        let start = read_piece(alloc, disk, 0, MAX_HEAD_LEN)?;
        let Some((form, len)) = head_of(&start) else {
            return Err(LogError::NoStore);
        };
        let mut text = read_piece(alloc, disk, form.head_len() as u64, len + 1)?;
        if text.len() <= len {
            return Err(LogError::NoStore);
        }
        text.truncate(len);
        let catalogue = match header_catalogue(alloc, &text) {
            Ok(catalogue) => catalogue,
            Err(refusal) => return Err(refusal),
        };
        let text = listed(text);
        let gate = Position::first(catalogue, Header { form, text });
        Ok(LogReader {
            alloc,
            parts: ReaderParts {
                gate,
                is_at_end: false,
            },
        })
    }

    /// Goes back to the first gate: the reader is as it was when it was attached. It takes no memory, and calls no device.
    pub fn rewind(&mut self)
        ensures { self.new ≡ at_first self.old }
    {
        self.parts.gate.rewind();
        self.parts.is_at_end = false;
    }

    /// How many transactions came before the log's. Takes no memory.
    pub fn base(&self) -> u64
        ensures { result ≡ base_of self.now.gate.header }
    {
        self.parts.gate.base()
    }

    /// The text of the log's catalogue. Takes no memory.
    pub fn text(&self) -> &[u8]
        ensures { result.now ≡ self.now.gate.header.text }
    {
        self.parts.gate.header().text.as_slice()
    }

    /// The gate that comes next.
    pub fn gate(&self) -> &Position
        ensures { result.now ≡ self.now.gate }
    {
        &self.parts.gate
    }

    /// The batch after the gate byte that comes next, or `None` where that is closed. A batch takes three calls of the
    /// device; the gate byte after it is read again with the next one. It takes memory for one body and its transactions.
    ///
    /// # Errors
    ///
    /// The reader stands where it stood.
    ///
    /// - [`LogError::Damaged`] exactly where the gate is open and no batch and no gate stands after it: the first fault, as
    ///   [`read_link`] reports it; and where the device ends before the gate, at the gate, as `Short`.
    /// - [`LogError::DiskFault`] where a call of the device failed, so only where its count of faults rose; no call comes
    ///   after it.
    /// - [`LogError::NoMemory`] where there was no memory for the batch.
    pub fn next_batch<D: Disk>(&mut self, disk: &mut D) -> Result<Option<Batch>, LogError>
        // It is what the device holds at the gate, or the first damage.
        ensures exact { IfKnown (λ old. ReportsHeld result (at_gate self.old.gate.catalogue old.now.seen self.old.gate.place)) (D.known disk.old) }

        // After batches that stand in the image it is the next one, or these are all, or the image is damaged there.
        ensures reads_on { (header : AHeader) (batches : List (List ATxn)) → IfKnown (λ old. StandsAfter header batches self.old.gate old.now.seen → ReportsOfImage header batches self.old.gate self.new.gate old.now.seen result) (D.known disk.old) }

        // The batches that the image holds are read again.
        ensures again { (header : AHeader) (before after : List (List ATxn)) → IfKnown (λ old. HoldsLog header self.old.gate.catalogue (before ++ after) old.now.seen → IsAfter header before self.old.gate → ReportsHeld result (Ok (first_batch after))) (D.known disk.old) }

        // On every device the batch runs on and fits the catalogue, and the reader stands after it.
        ensures batch { IfOk result (λ found. IfSome found (IsNextBatch self.old.gate self.new.gate)) }
        ensures fits { IfOk result (λ found. IfSome found (λ batch. All (TxnFits self.old.gate.catalogue) batch.txns)) }
        ensures goes_on { IfOk result (λ found. IfSome found (λ batch. self.new.is_at_end ≡ false)) }
        ensures end { result ≡ Ok None → self.new ≡ record { gate = self.old.gate; is_at_end = true } }
        ensures refused { OnErr result (self.new ≡ record { gate = self.old.gate; is_at_end = false }) }
        ensures headed { self.new.gate.header ≡ self.old.gate.header }
        ensures known { ¬ IsErrOf result LogError.NoStore }

        // The device is only read, and no call of it comes after one that failed.
        ensures same { D.known disk.new ≡ D.known disk.old }
        ensures later { D.faults disk.old ≤ D.faults disk.new }
        ensures cause { IsErrOf result LogError.DiskFault → Faulted (D.faults disk.old) (D.faults disk.new) }
        ensures counted { IsErrOf result LogError.DiskFault → D.faults disk.new ≡ one_more (D.faults disk.old) }
        ensures kept { ¬ IsErrOf result LogError.DiskFault → D.faults disk.new ≡ D.faults disk.old }
    {
        self.batch_at_gate(disk)
    }

    // The same, without what it says of the batches in an image.
    fn batch_at_gate<D: Disk>(&mut self, disk: &mut D) -> Result<Option<Batch>, LogError>
        ensures exact { IfKnown (λ old. ReportsHeld result (at_gate self.old.gate.catalogue old.now.seen self.old.gate.place)) (D.known disk.old) }
        ensures spelled { IfOk result (λ found. IfSome found (λ batch. IfKnown (λ old. IsSpelled batch.txns (drop self.old.gate.place old.now.seen)) (D.known disk.old))) }
        ensures batch { IfOk result (λ found. IfSome found (IsNextBatch self.old.gate self.new.gate)) }
        ensures fits { IfOk result (λ found. IfSome found (λ batch. All (TxnFits self.old.gate.catalogue) batch.txns)) }
        ensures goes_on { IfOk result (λ found. IfSome found (λ batch. self.new.is_at_end ≡ false)) }
        ensures end { result ≡ Ok None → self.new ≡ record { gate = self.old.gate; is_at_end = true } }
        ensures refused { OnErr result (self.new ≡ record { gate = self.old.gate; is_at_end = false }) }
        ensures headed { self.new.gate.header ≡ self.old.gate.header }
        ensures known { ¬ IsErrOf result LogError.NoStore }
        ensures same { D.known disk.new ≡ D.known disk.old }
        ensures later { D.faults disk.old ≤ D.faults disk.new }
        ensures cause { IsErrOf result LogError.DiskFault → Faulted (D.faults disk.old) (D.faults disk.new) }
        ensures counted { IsErrOf result LogError.DiskFault → D.faults disk.new ≡ one_more (D.faults disk.old) }
        ensures kept { ¬ IsErrOf result LogError.DiskFault → D.faults disk.new ≡ D.faults disk.old }
    {
        self.parts.is_at_end = false;
        let place = self.parts.gate.place();
        let bytes = bytes_from(self.alloc, disk, place)?;
        let Some(gate) = bytes.first() else {
            return Err(damaged(place, short_at(0)));
        };
        if *gate != GATE_OPEN {
            self.parts.is_at_end = true;
            return Ok(None);
        }
        self.take_batch(&bytes)
    }

    // The batch after the open gate that these bytes begin with.
    fn take_batch(&mut self, bytes: &[u8]) -> Result<Option<Batch>, LogError>
        requires open { (rest : List ℕ) × (bytes.now ≡ 1 ∷ rest) }
        requires inside { self.old.gate.place + length bytes.now < 2 ^ 64 }
        ensures exact { ReportsHeld result (reported_as (further self.old.gate.place) (after_gate self.old.gate.catalogue bytes.now)) }
        ensures spelled { IfOk result (λ found. IfSome found (λ batch. IsSpelled batch.txns bytes.now)) }
        ensures batch { IfOk result (λ found. IfSome found (IsNextBatch self.old.gate self.new.gate)) }
        ensures fits { IfOk result (λ found. IfSome found (λ batch. All (TxnFits self.old.gate.catalogue) batch.txns)) }
        ensures goes_on { self.new.is_at_end ≡ self.old.is_at_end }
        ensures headed { self.new.gate.header ≡ self.old.gate.header }
        ensures some { IfOk result (λ found. found ≢ None) }
        ensures refused { OnErr result (self.new ≡ self.old) }
        ensures known { ¬ IsErrOf result LogError.DiskFault }
    {
        match read_link(self.alloc, self.parts.gate.catalogue(), bytes, 1) {
            Ok((Link { txns, gate: _ }, end)) => {
                let first = self.parts.gate.txns() + 1;
                let count = txns.items().len() as u64;
                self.parts.gate.advance(count, (end - 1) as u64);
                Ok(Some(Batch { first, txns }))
            }
            Err(Refusal::Fault(fault)) => Err(damaged(self.parts.gate.place(), fault)),
            Err(Refusal::NoMemory) => Err(LogError::NoMemory),
        }
    }
}

// A fault of what stands from a gate on, at its offset on the device.
fn damaged(gate: u64, fault: LinkFault) -> LogError
    requires { gate + fault.at < 2 ^ 64 }
    ensures { result ≡ LogError.Damaged (gate + fault.at) fault.kind }
{
    LogError::Damaged {
        at: gate + fault.at as u64,
        kind: fault.kind,
    }
}
