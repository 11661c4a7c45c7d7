// Pieces of transactions.
ghost use Rattle.std.specs.Prelude.{◌≡◌, ◌↔◌, IsTrue, IfOk};

use pac_base::{Exact, NoMemory, Same};
use std::alloc::Global;

/// What one transaction does in one block, by their numbers. Pieces are ordered by transaction, and then by block.
#[derive(Clone, Copy, Debug, PartialEq, Eq, PartialOrd, Ord, Hash)]
pub struct PieceId {
    pub txn: u64,
    pub block: u16,
}

impl Exact for PieceId {
    fn copy(&self, _: Global) -> Result<PieceId, NoMemory> {
        Ok(*self)
    }
}

impl Same for PieceId {
    fn same(&self, other: &PieceId) -> bool {
        *self == *other
    }
}
