// A table with many rows, and transactions over it.
ghost use Rattle.std.specs.Prelude.{IfOk, map};
ghost use Rattle.pac_ops.specs.Shapes.{RecordsFit};
ghost use Rattle.pac_types.specs.Fits.{FitsCatalogue, shape};

use crate::part::PartError;
use pac_base::NoMemory;
use pac_bytes::put_u64;
use pac_entry::read_entry;
use pac_ops::{Records, Txn};
use pac_serial::{exec_adhoc, no_rows};
use pac_tables::OrderedRows;
use pac_types::{Catalogue, read_catalogue};
use std::alloc::Global;

const CATALOGUE: &[u8] = b"table T(key int, v int);";

// A row of one number.
const VALUES: &[u8] = b"\x01\x01\x02\0\0\0\0\0\0\0";

/// How many rows the table has, and what its limit is.
#[derive(Clone, Copy, Debug, PartialEq, Eq)]
pub struct Held {
    pub rows: u32,
    pub limit: Option<u64>,
}

// The entry of a transaction that puts a row of these values at a key.
fn entry(alloc: Global, key: u32, values: &[u8]) -> Result<Vec<u8>, NoMemory> {
    let mut entry = Vec::with_capacity(alloc, 543)?;
    entry.extend_from_slice(b"\x02\x01\x01\0\0\x01")?;
    put_u64(&mut entry, u64::from(key))?;
    entry.extend_from_slice(values)?;
    Ok(entry)
}

/// The first table with rows of these values at that many keys. The values begin with their number.
pub fn filled(
    alloc: Global,
    cat: &Catalogue,
    values: &[u8],
    count: u32,
) -> Result<OrderedRows, PartError>
    ensures { IfOk result (λ rows. FitsCatalogue cat.now rows.tables rows.rows) }
{
    let mut rows = no_rows(alloc, cat)?;
    for key in 0..count {
        let (txn, _) = read_entry(alloc, cat, &entry(alloc, key, values)?, 0)?;
        if let Txn::AdHoc { records } = &txn {
            exec_adhoc(alloc, cat, records, None, &mut rows)?;
        }
    }
    Ok(rows)
}

// Puts these records `count` times.
fn put_often(
    alloc: Global,
    cat: &Catalogue,
    records: &Records,
    limit: Option<u64>,
    count: u64,
    rows: &mut OrderedRows,
) -> Result<(), PartError>
    requires records { RecordsFit (map shape cat.now.tables) records.now }
    requires fits { FitsCatalogue cat.now rows.old.tables rows.old.rows }
{
    for _ in 0..count {
        exec_adhoc(alloc, cat, records, limit, rows)?;
    }
    Ok(())
}

/// Executes 1,000 transactions `rounds` times, each of which puts a row where one is; returns how many.
pub fn execute(alloc: Global, held: Held, rounds: u32) -> Result<u64, PartError> {
    let cat = read_catalogue(alloc, CATALOGUE)?;
    let mut rows = filled(alloc, &cat, VALUES, held.rows)?;
    let (txn, _) = read_entry(alloc, &cat, &entry(alloc, 1, VALUES)?, 0)?;
    let count = u64::from(rounds) * 1000;
    if let Txn::AdHoc { records } = &txn {
        put_often(alloc, &cat, records, held.limit, count, &mut rows)?;
    }
    Ok(count)
}
