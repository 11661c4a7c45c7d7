// What is loaded and not finished, and where in it the next piece is looked for.
ghost use Rattle.std.specs.Prelude.{◌≡◌, ◌+◌, ◌<◌, ◌^◌, IfErr, OnErr, OnOk, length};
ghost use Rattle.pac_in_order.specs.Lines.{IsAddedNone, IsAddedTo};

use pac_base::NoMemory;
use pac_keys::PlanCode;
use pac_ops::Batch;
use pac_plan::Shared;
use pac_workers::GhostList;
use std::collections::VecDeque;

/// The batches that aren't finished, and where in them the next piece is looked for.
#[derive(Drop)]
pub(crate) struct Line {
    pub(crate) plan: Shared<PlanCode>,
    /// The number of the first transaction of all, and that of the next that may be loaded.
    pub(crate) first: u64,
    pub(crate) next: u64,
    /// The batches that are finished, for clauses alone.
    pub(crate) gone: GhostList<Batch>,
    pub(crate) batches: VecDeque<Batch>,
    /// The transaction in the first of these batches in which the next piece is looked for.
    pub(crate) txn: usize,
    /// The block from which on its next piece is looked for. `None`: it isn't begun.
    pub(crate) block: Option<u16>,
    pub(crate) is_closed: bool,
}

impl Line {
    /// Loads a batch after the others.
    ///
    /// # Errors
    ///
    /// [`NoMemory`] with the batch, where it finds no room. What is kept stays.
    pub(crate) fn load(&mut self, batch: Batch) -> Result<(), (Batch, NoMemory)>
        requires next { batch.first ≡ self.old.next }
        requires numbers { batch.first + length batch.txns < 2 ^ 64 }
        ensures ok { OnOk result (IsAddedTo self.old batch self.new) }
        ensures err { OnErr result (IsAddedNone self.old self.new) }
        ensures batch { IfErr result (λ refused. refused.0 ≡ batch) }
    {
        let count = batch.txns.items().len() as u64;
        match self.batches.push_back(batch) {
            Ok(()) => {
                self.next += count;
                Ok(())
            }
            Err(refused) => Err((refused.value, NoMemory)),
        }
    }
}
