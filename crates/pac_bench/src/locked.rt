// Pieces that workers take under the lock of a core.
ghost use Rattle.std.specs.Prelude.{◌≡◌, ◌<◌, IfOk, true};
ghost use Rattle.pac_types.specs.OperationLimits.{HasFewOperations};

use crate::part::PartError;
use pac_base::NoMemory;
use pac_core::Core;
use pac_flat::accepted;
use pac_global::catalogue_plan;
use pac_ops::{Batch, Change, OpenGate, Records, Txn, Txns};
use pac_serial::no_rows;
use pac_tables::{HashedRows, Rows};
use pac_types::Catalogue;
use pac_value::{Key, Row, Value};
use pac_workers::replay;
use std::alloc::Global;
use std::sync::Wait;
use std::thread::Threads;

const CATALOGUE: &[u8] = b"table T(key int, v int);";

// How many pieces a round has. Each puts a row of its own, so none waits for another.
const PIECES: i64 = 1_024;

// A transaction that puts a row.
fn put(alloc: Global, key: i64) -> Result<Txn, NoMemory> {
    let row = Row::of(vec![in alloc; Value::Int(key)]?);
    let change = Change::Put {
        table: 0,
        key: Key::Int(key),
        row,
    };
    Ok(Txn::AdHoc {
        records: Records::of(vec![in alloc; change]?),
    })
}

// One for each piece.
fn puts(alloc: Global) -> Result<Vec<Txn>, NoMemory> {
    let mut txns = Vec::new(alloc);
    for key in 0..PIECES {
        txns.push(put(alloc, key)?)?;
    }
    Ok(txns)
}

// A core into which they are loaded.
fn loaded(alloc: Global, cat: &Catalogue) -> Result<Core<HashedRows>, PartError>
    requires { HasFewOperations cat.now.procs }
    ensures { IfOk result (λ core. core.is_closed ≡ true) }
{
    let plan = catalogue_plan(alloc, cat)?;
    let rows: HashedRows = no_rows(alloc, cat)?;
    let txns = puts(alloc)?;
    if txns.is_empty() || txns.len() > 1_024 {
        return Err(PartError::Refused);
    }
    let batch = Batch {
        first: 1,
        txns: Txns::of(txns),
    };
    let mut core = Core::new(alloc, plan, 1, rows)?;
    if !core.fits(&batch) {
        return Err(PartError::Refused);
    }
    if core.load(batch).is_err() {
        return Err(PartError::NoMemory);
    }
    core.close();
    Ok(core)
}

// How many pieces this many workers finish of a core.
fn finished<R: Rows + Send, H: Threads + Wait + Sync>(
    rt: &H,
    alloc: Global,
    workers: u32,
    core: Core<R>,
) -> Result<u64, NoMemory>
    requires workers { 0 < workers }
    requires closed { core.is_closed ≡ true }
{
    let replayed = replay(rt, alloc, workers, core, &OpenGate)?;
    let mut count: u64 = 0;
    for tally in replayed.tallies.as_slice() {
        count = count.saturating_add(*tally);
    }
    Ok(count)
}

/// Has this many workers finish a core of 1,024 pieces, `rounds` times; returns how many pieces they finished.
pub fn make<H: Threads + Wait + Sync>(
    rt: &H,
    alloc: Global,
    workers: u32,
    rounds: u32,
) -> Result<u64, PartError>
    requires { 0 < workers }
{
    let Ok(cat) = accepted(alloc, CATALOGUE) else {
        return Err(PartError::Refused);
    };
    let mut count: u64 = 0;
    for _ in 0..rounds {
        let core = loaded(alloc, &cat)?;
        count = count.saturating_add(finished(rt, alloc, workers, core)?);
    }
    Ok(count)
}
