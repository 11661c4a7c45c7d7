// Reads the active segment from gate to gate.
ghost use Rattle.std.specs.Prelude.{◌≡◌, ◌↔◌, ◌+◌, ◌<◌, ◌^◌, [], ◌∷◌, ◌++◌, ℕ, List, None, true, IfOk, IfSome, IsErrOf, IsTrue, OnErr, length};
ghost use Rattle.std.specs.List.{AllByRecursion};
ghost use Rattle.pac_types.specs.Fits.{TxnFits};
ghost use Rattle.pac_types.specs.Typing.{CatalogueState};
ghost use Rattle.pac_ops.specs.declared.batch.Batch.{Batch as ABatch};
ghost use Rattle.pac_ops.specs.declared.transaction.Txn.{Txn as ATxn};
ghost use Rattle.pac_outside.specs.Causes.{one_more};
ghost use Rattle.pac_outside.specs.Disk.{IfKnown};
ghost use Rattle.pac_log.specs.declared.damage.DamageKind.{DamageKind as ADamageKind};
ghost use Rattle.pac_log.specs.declared.header.Header.{Header as AHeader};
ghost use Rattle.pac_log.specs.Reading.{StandsAfter};
ghost use Rattle.pac_restore.specs.Reads.{IsAtNewest, IsDamagedAfter, IsMissed, IsReadFrom, IsSought, IsHandedOn};

use crate::sink::BatchSink;
use pac_check::SlotInfo;
use pac_log::{LogError, LogReader, Position};
use pac_ops::Batch;
use pac_outside::Disk;

/// Reads a segment from its first gate to its end, and hands on the batches after the gate that the newest slot names. `None`: it
/// names no gate of the segment. Where no slot is open, all batches are handed on.
///
/// # Errors
///
/// Those of [`LogReader::next_batch`], and [`LogError::NoMemory`] where the sink finds no room.
pub(crate) fn read_from<D: Disk, S: BatchSink>(
    newest: Option<SlotInfo>,
    sink: S,
    reader: &mut LogReader,
    disk: &mut D,
) -> Result<Option<S>, LogError>
    requires takes { S.takes sink reader.old.gate.catalogue }
    requires begins { S.took sink sink [] }
    ensures read { IfOk result (λ found. IfSome found (λ after. IsReadFrom (D.known disk.old) newest reader.old.gate reader.new.gate (S.took sink after))) }
    ensures takes { IfOk result (λ found. IfSome found (λ after. S.takes after reader.old.gate.catalogue)) }
    ensures end { IfOk result (λ found. IfSome found (λ _. reader.new.is_at_end ≡ true)) }
    ensures missed { IfOk result (λ found. found ≡ None → IsMissed (D.known disk.old) newest reader.old.gate) }
    ensures damaged { (at : ℕ) (kind : ADamageKind) → IsErrOf result (LogError.Damaged at kind) → (header : AHeader)
        → IfKnown (λ old. StandsAfter header [] reader.old.gate old.now.seen → IsDamagedAfter header reader.old.gate.catalogue at kind old.now.seen) (D.known disk.old) }
    ensures known { ¬ IsErrOf result LogError.NoStore }
    ensures same { D.known disk.new ≡ D.known disk.old }
    ensures counted { IsErrOf result LogError.DiskFault → D.faults disk.new ≡ one_more (D.faults disk.old) }
    ensures kept { ¬ IsErrOf result LogError.DiskFault → D.faults disk.new ≡ D.faults disk.old }
{
    let met = seek(newest, reader, disk)?;
    if !met {
        return Ok(None);
    }
    let after = take_rest(sink, reader, disk)?;
    Ok(Some(after))
}

/// Reads batches and forgets them, up to the gate that the newest slot names, or to the end. Whether it came to that gate.
///
/// # Errors
///
/// Those of [`LogReader::next_batch`].
pub(crate) fn seek<D: Disk>(
    newest: Option<SlotInfo>,
    reader: &mut LogReader,
    disk: &mut D,
) -> Result<bool, LogError>
    ensures sought { IfOk result (λ met. IsSought (D.known disk.old) newest reader.old.gate reader.new.gate met) }
    ensures damaged { (at : ℕ) (kind : ADamageKind) → IsErrOf result (LogError.Damaged at kind) → (header : AHeader)
        → IfKnown (λ old. StandsAfter header [] reader.old.gate old.now.seen → IsDamagedAfter header reader.old.gate.catalogue at kind old.now.seen) (D.known disk.old) }
    ensures known { ¬ IsErrOf result LogError.NoStore }
    ensures same { D.known disk.new ≡ D.known disk.old }
    ensures counted { IsErrOf result LogError.DiskFault → D.faults disk.new ≡ one_more (D.faults disk.old) }
    ensures kept { ¬ IsErrOf result LogError.DiskFault → D.faults disk.new ≡ D.faults disk.old }
{
    for _ in 0..u64::MAX {
        if is_at_newest(&newest, reader.gate()) {
            return Ok(true);
        }
        match reader.next_batch(disk)? {
            None => return Ok(false),
            Some(batch) => {
                let _forgotten = batch;
            }
        }
    }
    let _few = reader.gate().txns(); // below 2^64, and each batch has one
    unreachable!()
}

// Whether a gate is the one that the newest slot names; each is where none is open.
fn is_at_newest(newest: &Option<SlotInfo>, gate: &Position) -> bool
    ensures { IsTrue result ↔ IsAtNewest newest.now gate.now }
{
    match newest {
        None => true,
        Some(info) => gate.place() == info.place && gate.txns() == info.txns,
    }
}

/// Reads batches to the end, and hands them on.
///
/// # Errors
///
/// Those of [`LogReader::next_batch`], and [`LogError::NoMemory`] where the sink finds no room.
pub(crate) fn take_rest<D: Disk, S: BatchSink>(
    sink: S,
    reader: &mut LogReader,
    disk: &mut D,
) -> Result<S, LogError>
    requires takes { S.takes sink reader.old.gate.catalogue }
    requires begins { S.took sink sink [] }
    ensures taken { IfOk result (λ after. IsHandedOn (D.known disk.old) reader.old.gate reader.new.gate (S.took sink after)) }
    ensures takes { IfOk result (λ after. S.takes after reader.old.gate.catalogue) }
    ensures end { IfOk result (λ _. reader.new.is_at_end ≡ true) }
    ensures damaged { (at : ℕ) (kind : ADamageKind) → IsErrOf result (LogError.Damaged at kind) → (header : AHeader) (before : List (List ATxn))
        → IfKnown (λ old. StandsAfter header before reader.old.gate old.now.seen → IsDamagedAfter header reader.old.gate.catalogue at kind old.now.seen) (D.known disk.old) }
    ensures known { ¬ IsErrOf result LogError.NoStore }
    ensures same { D.known disk.new ≡ D.known disk.old }
    ensures counted { IsErrOf result LogError.DiskFault → D.faults disk.new ≡ one_more (D.faults disk.old) }
    ensures kept { ¬ IsErrOf result LogError.DiskFault → D.faults disk.new ≡ D.faults disk.old }
{
    let mut taking = sink;
    for _ in 0..u64::MAX {
        match reader.next_batch(disk)? {
            None => return Ok(taking),
            Some(batch) => {
                let _few = reader.gate().txns();
                taking = handed(taking, batch)?;
            }
        }
    }
    let _few = reader.gate().txns(); // below 2^64, and each batch has one
    unreachable!()
}

// A sink with one batch more.
fn handed<S: BatchSink>(sink: S, batch: Batch) -> Result<S, LogError>
    requires fit { (catalogue : CatalogueState) × S.takes sink catalogue × AllByRecursion (TxnFits catalogue) batch.txns }
    requires few { batch.first + length batch.txns < 2 ^ 64 }
    ensures took { IfOk result (λ after. (start : S) (taken : List ABatch) → S.took start sink taken → S.took start after (taken ++ batch ∷ [])) }
    ensures takes { IfOk result (λ after. (catalogue : CatalogueState) → S.takes sink catalogue → S.takes after catalogue) }
    ensures memory { OnErr result (IsErrOf result LogError.NoMemory) }
{
    match sink.take(batch) {
        Ok(after) => Ok(after),
        Err(_) => Err(LogError::NoMemory),
    }
}
