// Pieces that are out, all of them ready again.
ghost use Rattle.std.specs.Prelude.{◌≡◌, ◌↔◌, ◌<◌, ◌≤◌, IsTrue, length};
ghost use Rattle.pac_core.specs.Moves.{HasPairsAt, IsReclaimedAt, StandsOpen, pairs_kept, reclaimed_sets};

use crate::progress::Progress;
use crate::stage::SetStage;

impl Progress {
    /// Each piece that is out waits again. Takes no memory, and time that grows with the number of sets and of pieces that
    /// are opened.
    pub fn reclaim(&mut self)
        ensures { self.new ≡ record self.old { sets = record self.old.sets { sets = reclaimed_sets self.old.sets.sets } } }
    {
        for at in 0..self.sets.len() {
            self.reclaim_at(at);
        }
    }

    // Each piece of the set at an offset that is out waits again.
    fn reclaim_at(&mut self, at: usize)
        requires { at < length self.old.sets.sets }
        ensures { IsReclaimedAt self.old at self.new }
    {
        if self.is_open(at) {
            let mut open = self.lift(at);
            open.sched.reclaim();
            open.sched.keeps_order();
            self.sets.keep(at, SetStage::Open(open));
        }
    }

    /// Whether the pieces of the set at an offset are opened.
    pub fn is_open(&self, at: usize) -> bool
        requires { at < length self.now.sets.sets }
        ensures { IsTrue result ↔ StandsOpen self.now at }
    {
        let (_, kept) = self.sets.get(at);
        let Some(stage) = kept else { return false };
        match stage {
            SetStage::Open(_) => true,
            SetStage::Waiting(_) => false,
        }
    }

    /// How many pairs are kept of the sets that are opened, or the greatest `u64`. Takes no memory.
    pub fn pairs(&self) -> u64
        ensures { result ≤ pairs_kept self.now.sets.sets }
    {
        let mut pairs: u64 = 0;
        for i in 0..self.sets.len() {
            pairs = pairs.saturating_add(self.pairs_at(i));
        }
        pairs
    }

    // How many pairs are kept of the set at an offset.
    fn pairs_at(&self, at: usize) -> u64
        requires { at < length self.now.sets.sets }
        ensures { HasPairsAt self.now at result }
    {
        let (_, kept) = self.sets.get(at);
        let Some(stage) = kept else { return 0 };
        match stage {
            SetStage::Open(open) => open.sched.pairs() as u64,
            SetStage::Waiting(_) => 0,
        }
    }
}
