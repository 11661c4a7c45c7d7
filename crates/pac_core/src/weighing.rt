// About how many pieces a take may find ready, and what they weigh.
ghost use Rattle.std.specs.Prelude.{◌<◌, length};

use crate::answers::ReadyPieces;
use crate::progress::Progress;
use crate::stage::SetStage;
use pac_sched::Pick;
use pac_sets::SetId;

impl Progress {
    /// About how many pieces a take may find ready, in the sets that are opened and in those that a take may open, and what
    /// they weigh. Where none that is loaded weighs anything it looks at no set, and all that aren't finished count. Takes no memory,
    /// and time that grows with the number of blocks, not with that of sets.
    pub fn ready(&self) -> ReadyPieces {
        if !self.has_weight {
            return ReadyPieces {
                pieces: self.unfinished,
                weight: 0,
            };
        }
        let mut pieces: u64 = 0;
        let mut weight: u64 = 0;
        for block in 0..self.sets.blocks() {
            if let Some(at) = self.sets.open_in(block) {
                let ready = self.ready_at(at);
                pieces = pieces.saturating_add(ready.pieces);
                weight = weight.saturating_add(ready.weight);
            }
        }
        ReadyPieces { pieces, weight }
    }

    // The same, of the set at an offset. Each of its pieces counts as weighing what the first one does.
    fn ready_at(&self, at: usize) -> ReadyPieces
        requires { at < length self.now.sets.sets }
    {
        let (set, kept) = self.sets.get(at);
        let (pieces, first) = match kept {
            Some(stage) => first_ready(stage),
            None => (0, None),
        };
        let weight = match first {
            Some(txn) => self.weight_in(*set, txn),
            None => 0,
        };
        ReadyPieces {
            pieces,
            weight: pieces.saturating_mul(weight),
        }
    }

    // What the piece of a transaction in a set weighs.
    fn weight_in(&self, set: SetId, txn: u64) -> u64 {
        let Some(loaded) = self.batches.get(set.batch as usize) else {
            return 0;
        };
        let index = txn.saturating_sub(loaded.batch.first) as usize;
        match loaded.batch.txns.items().get(index) {
            Some(txn) => self.pieces.get().weight(txn, set.block),
            None => 0,
        }
    }
}

// How many pieces of a set may be ready, and the transaction of the first of them. Those that aren't opened yet all count.
fn first_ready(stage: &SetStage) -> (u64, Option<u64>) {
    match stage {
        SetStage::Waiting(rest) => (rest.as_slice().len() as u64, rest.first()),
        SetStage::Open(open) => match open.sched.peek() {
            Pick::Piece(piece) => (open.sched.ready() as u64, Some(piece.txn)),
            Pick::NotReady | Pick::Done => (0, None),
        },
    }
}
