// A log on a device, of ad hoc transactions that put rows at one table.
ghost use Rattle.std.specs.Prelude.{◌≤◌, All, IfOk, length};
ghost use Rattle.pac_types.specs.Fits.{TxnFits};
ghost use Rattle.pac_entry.specs.declared.limits.TheConstants.{MAX_BODY_LEN};
ghost use Rattle.pac_log.specs.Bodies.{body_bytes};
ghost use Rattle.pac_types.specs.Accepted.{IsAccepted};

use crate::part::PartError;
use pac_base::NoMemory;
use pac_entry::{MAX_BODY_LEN, read_entry};
use pac_flat::test_operations;
use pac_log::{Log, LogReader, body_len, create};
use pac_ops::{Batch, MAX_TXNS, Txns};
use pac_outside::{Disk, FileDisk};
use pac_types::{Catalogue, read_catalogue};
use std::alloc::Global;
use std::fs::{File, Files};

const CATALOGUE: &[u8] = b"table T(key int, v int);";

/// `put T[1] = (2)` as a record.
const RECORD: &[u8] = b"\x01\0\0\x01\x01\0\0\0\0\0\0\0\x01\x01\x02\0\0\0\0\0\0\0";

/// How large a batch is.
#[derive(Clone, Copy, Debug, PartialEq, Eq)]
pub struct Load {
    /// Transactions of the batch.
    pub txns: u16,
    /// Records of each.
    pub records: u8,
}

// The catalogue of a text that a log may be of.
fn catalogue(alloc: Global, text: &[u8]) -> Result<Catalogue, PartError>
    ensures { IfOk result (IsAccepted text.now) }
{
    let catalogue = read_catalogue(alloc, text)?;
    test_operations(&catalogue).map_err(|_| PartError::Refused)?;
    Ok(catalogue)
}

// The entry of a transaction of that many records.
fn entry(alloc: Global, records: u8) -> Result<Vec<u8>, NoMemory> {
    let mut entry = vec![in alloc; 2, records]?;
    for _ in 0..records {
        entry.extend_from_slice(RECORD)?;
    }
    Ok(entry)
}

// A batch of such transactions.
fn batch_of(alloc: Global, cat: &Catalogue, load: Load) -> Result<Batch, PartError>
    ensures fits { IfOk result (λ batch. All (TxnFits cat.now) batch.txns) }
    ensures short { IfOk result (λ batch. length (body_bytes batch.txns) ≤ MAX_BODY_LEN) }
{
    let entry = entry(alloc, load.records)?;
    let (first, _) = read_entry(alloc, cat, &entry, 0)?;
    let mut txns = vec![in alloc; first]?;
    for _ in 1..load.txns {
        let (txn, _) = read_entry(alloc, cat, &entry, 0)?;
        txns.push(txn)?;
    }
    if txns.len() > MAX_TXNS {
        return Err(PartError::Refused);
    }
    let batch = Batch {
        first: 1,
        txns: Txns::of(txns),
    };
    if body_len(&batch) > MAX_BODY_LEN as u64 {
        return Err(PartError::Refused);
    }
    Ok(batch)
}

// Makes the log on an empty device, and opens it.
fn made<R: Files<File = File>>(
    alloc: Global,
    disk: &mut FileDisk<'_, R>,
) -> Result<Log, PartError> {
    let _ = catalogue(alloc, CATALOGUE)?;
    create(alloc, disk, CATALOGUE)?;
    disk.sync()?;
    let mut reader = LogReader::attach(alloc, disk)?;
    match reader.next_batch(disk)? {
        Some(_) => Err(PartError::Refused),
        None => Ok(Log::resume(reader)),
    }
}

/// Commits a batch of this load `rounds` times, to a log that it makes first; returns how many transactions were committed.
pub fn commit<R: Files<File = File>>(
    alloc: Global,
    disk: &mut FileDisk<'_, R>,
    load: Load,
    rounds: u32,
) -> Result<u64, PartError> {
    let mut log = made(alloc, disk)?;
    let batch = batch_of(alloc, log.gate().catalogue(), load)?;
    for _ in 0..rounds {
        log.prepare(&batch)?;
        log.commit(disk)?;
    }
    Ok(log.gate().txns())
}

/// Reads a log, up to that many of its batches; the bytes that were read.
pub fn scan<D: Disk>(alloc: Global, disk: &mut D, most: u32) -> Result<u64, PartError> {
    let mut reader = LogReader::attach(alloc, disk)?;
    for _ in 0..most {
        if reader.next_batch(disk)?.is_none() {
            break;
        }
    }
    Ok(reader.gate().place())
}
