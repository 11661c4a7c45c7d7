// What comes next for one who runs pieces alone.
ghost use Rattle.std.specs.Prelude.{◌≡◌, IfOk, IfSome};
ghost use Rattle.pac_commute.specs.Loads.{Job};
ghost use Rattle.pac_sets.specs.Sets.{IsOpenSet};
ghost use Rattle.pac_core.specs.Links.{IsKeptProgress, KeepsProgress, ReadyFrom, replay_so_far};
ghost use Rattle.pac_core.specs.Moves.{IsFirstLeft, IsNextAlone, piece_of};

use crate::place::Place;
use crate::progress::Progress;
use crate::stage::SetStage;
use pac_base::NoMemory;
use pac_ops::PieceId;

/// What comes next for one who runs pieces alone.
#[derive(Clone, Copy)]
pub(crate) enum NextAlone {
    /// The first piece that is left of a set that waits.
    OfWaiting(Place, PieceId),
    /// A ready piece of the open set at an offset.
    OfOpen(usize, PieceId),
}

impl NextAlone {
    /// The piece.
    pub fn piece(self) -> PieceId
        ensures { result ≡ piece_of self }
    {
        match self {
            NextAlone::OfWaiting(_, piece) | NextAlone::OfOpen(_, piece) => piece,
        }
    }
}

impl Progress {
    /// The piece that comes next, for one who runs pieces alone. While no piece of a set was handed out, its pieces come in their
    /// order, and the set needn't be opened: no access is computed. `None`: no piece is ready.
    ///
    /// # Errors
    ///
    /// [`NoMemory`] where a set that is opened finds no room.
    pub fn next_alone(&mut self) -> Result<Option<NextAlone>, NoMemory>
        requires { IsKeptProgress self.old }
        ensures keeps { (job : Job) → KeepsProgress job self.old → KeepsProgress job self.new }
        ensures same { (job : Job) → KeepsProgress job self.old → replay_so_far job self.new ≡ replay_so_far job self.old }
        ensures sees { (job : Job) → KeepsProgress job self.old → ReadyFrom job self.old self.old.recent → ReadyFrom job self.new self.new.recent }
        ensures next { (job : Job) → KeepsProgress job self.old → ReadyFrom job self.old self.old.recent → IfOk result (IsNextAlone job self.new) }
    {
        let Some(at) = self.sets.first_open(self.recent) else {
            return Ok(None);
        };
        self.recent = at;
        if let Some((place, piece)) = self.first_left(at) {
            return Ok(Some(NextAlone::OfWaiting(place, piece)));
        }
        match self.next_ready()? {
            Some((at, piece)) => Ok(Some(NextAlone::OfOpen(at, piece))),
            None => Ok(None),
        }
    }

    // The first piece that is left of an open set that waits, and its place. `None`: its pieces are opened.
    fn first_left(&self, at: usize) -> Option<(Place, PieceId)>
        requires keeps { IsKeptProgress self.now }
        requires open { IsOpenSet self.now.sets.edges self.now.sets.sets at }
        ensures left { IfSome result (λ found. IsFirstLeft self.now found.0 found.1) }
        ensures at { IfSome result (λ found. found.0.at ≡ at) }
    {
        let (set, kept) = self.sets.get(at);
        let Some(stage) = kept else { unreachable!() };
        let SetStage::Waiting(rest) = stage else {
            return None;
        };
        let Some(txn) = rest.first() else {
            unreachable!()
        };
        let batch = set.batch as usize;
        let index = (txn - self.batches[batch].batch.first) as usize;
        let place = Place {
            at,
            position: 0,
            batch,
            index,
        };
        let block = set.block;
        Some((place, PieceId { txn, block }))
    }
}
