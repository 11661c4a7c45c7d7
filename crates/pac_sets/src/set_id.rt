// Piece-sets, by numbers.
ghost use Rattle.std.specs.Prelude.{◌≡◌};
ghost use Rattle.pac_sets.specs.SetOrder.{set_cmp};

use std::cmp::Ordering;

/// A piece-set: the pieces of one batch in one block. Batches are numbered from 0 in the order in which they are loaded.
/// Sets are ordered by batch, then by block.
#[derive(Clone, Copy, Debug, PartialEq, Eq)]
pub struct SetId {
    pub batch: u64,
    pub block: u16,
}

impl SetId {
    /// How the set stands to another.
    pub fn order(&self, other: &SetId) -> Ordering
        ensures { result ≡ set_cmp self.now other.now }
    {
        match self.batch.cmp(&other.batch) {
            Ordering::Equal => self.block.cmp(&other.block),
            unequal => unequal,
        }
    }
}
