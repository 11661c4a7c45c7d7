// How far the pieces of a set are.
ghost use Rattle.std.specs.Prelude.{◌≡◌, ◌<◌, [], drop, length, slice_get};

use crate::cells::PieceCells;
use pac_base::{Listed, listed};
use pac_sched::Sched;
use std::alloc::Global;
use std::marker::Model;

/// The transactions of a set whose pieces are left, by their numbers, ascending. The first may be dropped. Contracts see those that
/// are left.
#[derive(Drop)]
pub(crate) struct Remaining {
    txns: Listed<u64>,
    dropped: usize,
}

impl Model for Remaining {
    ghost use Rattle.std.specs.Prelude.{◌≤◌, List, ℕ, drop, length};

    ghost Value = { List ℕ };

    ghost view = { λ remaining. drop remaining.dropped remaining.txns };

    ghost invariant = { λ remaining. remaining.dropped ≤ length remaining.txns };
}

impl Remaining {
    /// These are left.
    pub fn new(txns: Listed<u64>) -> Remaining
        ensures { result ≡ txns }
    {
        Remaining { txns, dropped: 0 }
    }

    /// None is left. Takes no memory.
    pub fn none(alloc: Global) -> Remaining
        ensures { result ≡ [] }
    {
        Remaining::new(listed(Vec::new(alloc)))
    }

    /// Those that are left.
    pub fn as_slice(&self) -> &[u64]
        ensures { result.now ≡ self.now }
    {
        &self.txns.as_slice()[self.dropped..]
    }

    /// The first that is left.
    pub fn first(&self) -> Option<u64>
        ensures { result ≡ slice_get self.now 0 }
    {
        self.as_slice().first().copied()
    }

    /// The first isn't left any more.
    pub fn drop_first(&mut self)
        requires { 0 < length self.old }
        ensures { self.new ≡ drop 1 self.old }
    {
        let _all = self.txns.as_slice(); // as many as memory has room for
        self.dropped += 1;
    }
}

/// The pieces of a set once they are opened: in which order they may be handed out, and the cells of each.
#[derive(Drop)]
pub(crate) struct OpenSet {
    pub sched: Sched,
    pub cells: Vec<PieceCells>,
}

/// What is kept of a set that isn't finished.
#[derive(Drop)]
pub(crate) enum SetStage {
    /// Its pieces are not opened. Those of the transactions before the first that is left are finished.
    Waiting(Remaining),
    /// The pieces that were left are opened.
    Open(OpenSet),
}
