// The pieces of the stress test's transactions, and pieces that touch one row.
use crate::part::PartError;
use pac_base::{NoMemory, listed};
use pac_batch::{PieceSet, queue_preds, sets};
use pac_global::catalogue_plan;
use pac_keys::{PlanCode, arguments, has_arguments};
use pac_ops::{Batch, Txn, Txns};
use pac_plan::{Access, Touch};
use pac_script::stress_txn;
use pac_stress::bank_catalogue;
use pac_value::Key;
use std::alloc::Global;

// How many transactions a batch has.
const TXNS: u64 = 1_000;

/// What is made of the pieces of a batch.
#[derive(Clone, Copy, Debug, PartialEq, Eq)]
pub enum Depth {
    /// The transactions alone.
    Txns,
    /// The sets.
    Sets,
    /// The accesses too, of the pieces whose inputs are arguments.
    Accesses,
    /// And their next pairs.
    Pairs,
}

// The plan of the bank, with the code of its pieces.
fn bank(alloc: Global) -> Result<PlanCode, PartError> {
    let cat = bank_catalogue(alloc)?;
    let plan = catalogue_plan(alloc, &cat)?;
    Ok(PlanCode::new(alloc, plan)?)
}

// The transactions of a batch.
fn txns(alloc: Global, first: u64) -> Result<Vec<Txn>, NoMemory> {
    let mut txns = Vec::new(alloc);
    for i in 0..TXNS {
        txns.push(stress_txn(alloc, first.saturating_add(i))?)?;
    }
    Ok(txns)
}

// The access of a transaction's piece in a block; none where it has inputs that are no arguments.
fn access_of(
    alloc: Global,
    code: &PlanCode,
    txn: &Txn,
    block: u16,
) -> Result<Option<Access>, NoMemory> {
    if block >= code.plan().blocks() || !code.plan().is_entry(block) || !code.plan().fits(txn) {
        return Ok(None);
    }
    let env = arguments(alloc, txn)?;
    has_arguments(code, txn, block, &env);
    let access = code.access(alloc, txn, block, &env)?;
    Ok(Some(access))
}

// The accesses of a set whose inputs are arguments.
fn accesses_of(
    alloc: Global,
    code: &PlanCode,
    batch: &Batch,
    set: &PieceSet,
) -> Result<Vec<Access>, NoMemory> {
    let mut accesses = Vec::new(alloc);
    for number in set.txns.as_slice() {
        let at = number.saturating_sub(batch.first) as usize;
        if let Some(txn) = batch.txns.items().get(at) {
            if let Some(access) = access_of(alloc, code, txn, set.block)? {
                accesses.push(access)?;
            }
        }
    }
    Ok(accesses)
}

// How much is made of a set.
fn count_in(
    alloc: Global,
    code: &PlanCode,
    batch: &Batch,
    set: &PieceSet,
    depth: Depth,
) -> Result<usize, NoMemory> {
    if depth == Depth::Sets {
        return Ok(set.txns.len());
    }
    let accesses = accesses_of(alloc, code, batch, set)?;
    if depth == Depth::Accesses || accesses.len() > 1_024 {
        return Ok(accesses.len());
    }
    let pairs = queue_preds(alloc, &accesses)?;
    Ok(pairs.pairs().len())
}

// How much is made of a batch.
fn count(alloc: Global, code: &PlanCode, batch: &Batch, depth: Depth) -> Result<u64, PartError> {
    let txns = batch.txns.items();
    if depth == Depth::Txns {
        return Ok(txns.len() as u64);
    }
    if batch.first > 1_000_000_000_000 || txns.len() > 1_024 || !code.plan().fits_all(txns) {
        return Err(PartError::Refused);
    }
    let sets = sets(alloc, code, batch)?;
    let mut total: u64 = 0;
    for set in &sets {
        let made = count_in(alloc, code, batch, set, depth)?;
        total = total.saturating_add(made as u64);
    }
    Ok(total)
}

/// Makes batches of 1,000 transactions of the stress test, and so much of their pieces; how much that was.
pub fn make(alloc: Global, depth: Depth, rounds: u32) -> Result<u64, PartError> {
    let code = bank(alloc)?;
    let mut total: u64 = 0;
    let mut first: u64 = 1;
    for _ in 0..rounds {
        let txns = txns(alloc, first)?;
        if txns.is_empty() || txns.len() > 1_024 {
            return Err(PartError::Refused);
        }
        let txns = Txns::of(txns);
        let made = count(alloc, &code, &Batch { first, txns }, depth)?;
        total = total.saturating_add(made);
        first = first.saturating_add(TXNS);
    }
    Ok(total)
}

// The accesses of `pieces` pieces that modify one row.
fn one_row(alloc: Global, pieces: u16) -> Result<Vec<Access>, NoMemory> {
    let mut accesses = Vec::new(alloc);
    for _ in 0..pieces {
        let mut touches = Vec::new(alloc);
        touches.push(Touch {
            table: 0,
            key: Key::Int(1),
            is_write: true,
        })?;
        accesses.push(Access::Keys(listed(touches)))?;
    }
    Ok(accesses)
}

/// Makes the next pairs of `pieces` pieces that modify one row, `rounds` times; returns the pairs of a round.
pub fn queue(alloc: Global, pieces: u16, rounds: u32) -> Result<u64, PartError> {
    let accesses = one_row(alloc, pieces)?;
    if accesses.len() > 65_535 {
        return Err(PartError::Refused);
    }
    let mut count = 0;
    for _ in 0..rounds {
        count = queue_preds(alloc, &accesses)?.pairs().len();
    }
    Ok(count as u64)
}
