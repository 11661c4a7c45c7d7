// Batches of transactions.
ghost use Rattle.std.specs.Prelude.{◌≡◌, ◌↔◌, IsTrue, IfOk};

use crate::Txn;
use pac_base::{Exact, Listed, NoMemory, Rule, Ruled, Same};
use std::alloc::Global;

/// The transactions of a batch, in order: 1 to 1,024.
pub type Txns = Ruled<TxnsRule>;

/// What the transactions of [`Txns`] keep.
pub struct TxnsRule;

impl Rule for TxnsRule {
    type Item = Txn;

    ghost use Rattle.pac_ops.specs.Sizes.{HasOneTo};
    ghost use Rattle.pac_ops.specs.declared.limits.TheConstants.{MAX_TXNS};

    ghost holds = { HasOneTo MAX_TXNS };
}

/// Transactions that are numbered one after another, from `first` on.
#[derive(Drop)]
pub struct Batch {
    pub first: u64,
    pub txns: Txns,
}

/// Batches in order.
pub type Batches = Listed<Batch>;

impl Exact for Batch {
    fn copy(&self, alloc: Global) -> Result<Batch, NoMemory> {
        let txns = self.txns.copy(alloc)?;
        Ok(Batch {
            first: self.first,
            txns,
        })
    }
}

impl Same for Batch {
    fn same(&self, other: &Batch) -> bool {
        self.first == other.first && self.txns.same(&other.txns)
    }
}
