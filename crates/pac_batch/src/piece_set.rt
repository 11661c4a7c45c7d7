// The pieces of a batch.
ghost use Rattle.std.specs.Prelude.{◌≡◌, ◌<◌, ◌+◌, ◌^◌, length, filter, IfOk};
ghost use Rattle.std.specs.List.{AllByRecursion};
ghost use Rattle.pac_plan.specs.Codes.{TxnFitsPlan};
ghost use Rattle.pac_batch.specs.Sets.{has_txns, set_of, sets_of};

use pac_base::{Listed, NoMemory, listed};
use pac_keys::PlanCode;
use pac_ops::{Batch, Txn};
use std::alloc::Global;

/// The pieces of a batch in one block.
#[derive(Debug, Drop)]
pub struct PieceSet {
    pub block: u16,
    /// The numbers of their transactions, ascending.
    pub txns: Listed<u64>,
}

/// The pieces of a batch, block by block, the blocks ascending, without those that have none. It takes time that grows with
/// the number of blocks times that of transactions and ad hoc records.
///
/// # Errors
///
/// [`NoMemory`] where the lists find no room.
pub fn sets(alloc: Global, code: &PlanCode, batch: &Batch) -> Result<Vec<PieceSet>, NoMemory>
    requires fit { AllByRecursion (TxnFitsPlan code.now) batch.now.txns }
    requires numbers { batch.now.first + length batch.now.txns < 2 ^ 64 }
    ensures { IfOk result (λ sets. sets.items ≡ sets_of code.now batch.now.first batch.now.txns) }
{
    let txns = batch.txns.items();
    let mut sets = Vec::new(alloc);
    for block in 0..code.plan().blocks() {
        let set = set_of(alloc, code, batch.first, txns, block)?;
        if has_txns(&set) {
            sets.push(set)?;
        }
    }
    Ok(sets)
}

// The pieces of transactions in a block.
fn set_of(
    alloc: Global,
    code: &PlanCode,
    first: u64,
    txns: &[Txn],
    block: u16,
) -> Result<PieceSet, NoMemory>
    requires fit { AllByRecursion (TxnFitsPlan code.now) txns.now }
    requires numbers { first + length txns.now < 2 ^ 64 }
    requires block { block < code.now.blocks }
    ensures { IfOk result (λ set. set ≡ set_of code.now first txns.now block) }
{
    let mut found = Vec::new(alloc);
    for i in 0..txns.len() {
        if code.has_piece(&txns[i], block) {
            found.push(first + i as u64)?;
        }
    }
    Ok(PieceSet {
        block,
        txns: listed(found),
    })
}

// Whether there is a piece.
fn has_txns(set: &PieceSet) -> bool
    ensures { result ≡ has_txns set.now }
{
    !set.txns.is_empty()
}
