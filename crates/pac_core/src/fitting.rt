// Whether a batch may be loaded.
ghost use Rattle.std.specs.Prelude.{◌≡◌, ◌↔◌, ◌<◌, ◌+◌, ◌^◌, false, length, IsTrue};
ghost use Rattle.std.specs.List.{AllByRecursion};
ghost use Rattle.pac_plan.specs.Codes.{TxnFitsPlan};

use crate::progress::Progress;
use pac_ops::Batch;

impl Progress {
    /// Whether more batches may come and this is the next one: its numbers go on, each of them fits, and its transactions fit
    /// the plan. Takes no memory.
    pub fn fits(&self, batch: &Batch) -> bool
        ensures { IsTrue result ↔ ((self.now.is_closed ≡ false) × (batch.now.first ≡ self.now.next) × AllByRecursion (TxnFitsPlan self.now.pieces) batch.now.txns × (batch.now.first + length batch.now.txns < 2 ^ 64)) }
    {
        if self.is_closed || batch.first != self.next {
            return false;
        }
        let txns = batch.txns.items();
        if batch.first.checked_add(txns.len() as u64).is_none() {
            return false;
        }
        self.pieces.get().plan().fits_all(txns)
    }
}
