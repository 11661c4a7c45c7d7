// A body of calls as bytes.
use crate::part::PartError;
use pac_base::NoMemory;
use pac_entry::{EntryError, read_entry, write_entry};
use pac_ops::{Args, Call, Txn};
use pac_types::{Catalogue, read_catalogue};
use pac_value::Value;
use std::alloc::Global;

const CALLS: u16 = 1024;

const CATALOGUE: &[u8] = b"proc Deposit(name int, amount int, nation int) { }";

// The calls: a deposit of 10,500 to each of 1,024 names, all of one nation.
fn calls(alloc: Global) -> Result<Vec<Txn>, NoMemory> {
    let mut txns = Vec::with_capacity(alloc, usize::from(CALLS))?;
    for name in 0..CALLS {
        let args = vec![in alloc;
            Value::Int(i64::from(name)),
            Value::Int(10_500),
            Value::Int(7),
        ]?;
        txns.push(Txn::Call(Call {
            proc: 0,
            args: Args::of(args),
        }))?;
    }
    Ok(txns)
}

// Writes the body into a list that is empty.
fn write_body(txns: &[Txn], out: &mut Vec<u8>) -> Result<(), NoMemory> {
    for txn in txns {
        write_entry(txn, out)?;
    }
    Ok(())
}

// Reads the body; the offset after it.
fn read_body(alloc: Global, cat: &Catalogue, bytes: &[u8]) -> Result<usize, EntryError> {
    let mut at = 0;
    for _ in 0..CALLS {
        let (_, after) = read_entry(alloc, cat, bytes, at)?;
        at = after;
    }
    Ok(at)
}

/// Writes the body `rounds` times, into one list that is cleared; returns how many bytes were written.
pub fn write(alloc: Global, rounds: u32) -> Result<u64, PartError> {
    let txns = calls(alloc)?;
    let mut out = Vec::new(alloc);
    let mut total: u64 = 0;
    for _ in 0..rounds {
        out.clear();
        write_body(&txns, &mut out)?;
        total = total.saturating_add(out.len() as u64);
    }
    Ok(total)
}

/// Reads the body `rounds` times; returns how many bytes were read.
pub fn read(alloc: Global, rounds: u32) -> Result<u64, PartError> {
    let cat = read_catalogue(alloc, CATALOGUE)?;
    let mut bytes = Vec::new(alloc);
    write_body(&calls(alloc)?, &mut bytes)?;
    let mut total: u64 = 0;
    for _ in 0..rounds {
        let after = read_body(alloc, &cat, &bytes)?;
        total = total.saturating_add(after as u64);
    }
    Ok(total)
}

/// Copies the body `rounds` times, into one list that is cleared; returns how many bytes were copied.
pub fn copy(alloc: Global, rounds: u32) -> Result<u64, PartError> {
    let mut bytes = Vec::new(alloc);
    write_body(&calls(alloc)?, &mut bytes)?;
    let mut out = Vec::new(alloc);
    let mut total: u64 = 0;
    for _ in 0..rounds {
        out.clear();
        out.extend_from_slice(&bytes).map_err(|_| NoMemory)?;
        total = total.saturating_add(out.len() as u64);
    }
    Ok(total)
}
