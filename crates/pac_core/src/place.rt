// Where a piece belongs.
ghost use Rattle.std.specs.Prelude.{◌≡◌, ◌<◌, ℕ, false, IfNone, IfSome, length};
ghost use Rattle.pac_commute.specs.Loads.{Job};
ghost use Rattle.pac_commute.specs.Machine.{among};
ghost use Rattle.pac_sched.specs.declared.state.PieceState.TheVariants.{Out, Waiting};
ghost use Rattle.pac_core.specs.Links.{IsKeptProgress, KeepsProgress, replay_so_far};
ghost use Rattle.pac_core.specs.Moves.{IsReadyAtOffset, StandsOpen};
ghost use Rattle.pac_core.specs.Places.{AreCellsAt, AreValuesAt, HasPlace, IsNotOutOf, IsOpenAt, IsPieceIn, IsPieceAt, IsPlaceOf, IsTxnAt, IsTxnIn, IsTxnNowhere, LoadedRunOn};

use crate::cells::PieceCells;
use crate::kept_values::KeptValues;
use crate::loaded::LoadedBatch;
use crate::progress::Progress;
use crate::stage::{OpenSet, SetStage};
use pac_ops::{PieceId, Txn};
use pac_sched::PieceState;
use pac_sets::SetId;

/// Where a piece of an open set belongs: the offset of the set and the position of the piece there, the offset of its batch
/// and the index of its transaction there.
#[derive(Clone, Copy)]
pub(crate) struct Place {
    pub at: usize,
    pub position: usize,
    pub batch: usize,
    pub index: usize,
}

// The batch of a transaction, and its index there. A binary search. `None`: it isn't loaded.
fn txn_in(batches: &[LoadedBatch], txn: u64) -> Option<(usize, usize)>
    requires { LoadedRunOn batches.now }
    ensures found { IfSome result (λ found. IsTxnIn batches.now txn found.0 found.1) }
    ensures none { IfNone result (IsTxnNowhere batches.now txn) }
{
    let after = batches.partition_point(|loaded| loaded.batch.first <= txn);
    if after == 0 {
        return None;
    }
    let batch = &batches[after - 1].batch;
    let index = (txn - batch.first) as usize;
    if index < batch.txns.items().len() {
        Some((after - 1, index))
    } else {
        None
    }
}

impl Progress {
    /// Where a piece that is out belongs. `None`: it isn't out. Takes no memory, and a constant number of steps beside a search
    /// in its set where that is the set from which a piece was taken last.
    pub fn place_of_out(&self, piece: PieceId) -> Option<Place>
        requires { IsKeptProgress self.now }
        ensures found { IfSome result (λ place. IsPieceAt self.now place piece Out) }
        ensures none { IfNone result ((job : Job) → KeepsProgress job self.now → among (replay_so_far job self.now).out piece ≡ false) }
    {
        match self.place_in(self.recent, piece) {
            Some(place) => Some(place),
            None => self.place_by_number(piece),
        }
    }

    // Where a piece belongs that is out of the set at an offset. `None`: there is no such set, or it has no such piece.
    fn place_in(&self, at: usize, piece: PieceId) -> Option<Place>
        requires { IsKeptProgress self.now }
        ensures { IfSome result (λ place. IsPieceAt self.now place piece Out) }
    {
        if at >= self.sets.len() {
            return None;
        }
        let position = self.position_out(at, piece)?;
        let (set, _) = self.sets.get(at);
        let batch = set.batch as usize;
        let index = (piece.txn - self.batches[batch].batch.first) as usize;
        Some(Place {
            at,
            position,
            batch,
            index,
        })
    }

    // The same as `place_of_out`, by the number of the transaction.
    fn place_by_number(&self, piece: PieceId) -> Option<Place>
        requires { IsKeptProgress self.now }
        ensures found { IfSome result (λ place. IsPieceAt self.now place piece Out) }
        ensures none { IfNone result ((job : Job) → KeepsProgress job self.now → among (replay_so_far job self.now).out piece ≡ false) }
    {
        let (batch, index) = txn_in(&self.batches, piece.txn)?;
        let at = self.sets.find(SetId {
            batch: batch as u64,
            block: piece.block,
        })?;
        let position = self.position_out(at, piece)?;
        Some(Place {
            at,
            position,
            batch,
            index,
        })
    }

    // Where a piece that is out stands in its set.
    fn position_out(&self, at: usize, piece: PieceId) -> Option<usize>
        requires { at < length self.now.sets.sets }
        ensures found { IfSome result (λ position. IsPieceIn self.now at piece position Out) }
        ensures none { IfNone result (IsNotOutOf self.now at piece) }
    {
        let (_, kept) = self.sets.get(at);
        let Some(stage) = kept else { return None };
        let SetStage::Open(open) = stage else {
            return None;
        };
        match open.sched.state(piece) {
            Some(PieceState::Out) => open.sched.position(piece),
            _ => None,
        }
    }

    /// Where the first ready piece of an open set belongs.
    pub fn place_of_ready(&self, at: usize, piece: PieceId) -> Place
        requires kept { IsKeptProgress self.now }
        requires ready { IsReadyAtOffset self.now at piece }
        ensures placed { IsPieceAt self.now result piece Waiting }
        ensures at { result.at ≡ at }
    {
        let (set, _) = self.sets.get(at);
        let batch = set.batch as usize;
        let index = (piece.txn - self.batches[batch].batch.first) as usize;
        match self.open_at(at).sched.position(piece) {
            Some(position) => Place {
                at,
                position,
                batch,
                index,
            },
            None => unreachable!(),
        }
    }

    // The open set at an offset.
    fn open_at(&self, at: usize) -> &OpenSet
        requires { StandsOpen self.now at }
        ensures { IsOpenAt self.now at result.now }
    {
        let (_, kept) = self.sets.get(at);
        let Some(stage) = kept else { unreachable!() };
        match stage {
            SetStage::Open(open) => open,
            SetStage::Waiting(_) => unreachable!(),
        }
    }

    /// The transaction of a piece.
    pub fn txn_at(&self, place: Place, piece: PieceId) -> &Txn
        requires { IsPlaceOf self.now place piece }
        ensures { IsTxnAt self.now place result.now }
    {
        &self.batches[place.batch].batch.txns.items()[place.index]
    }

    /// The values that are kept of it.
    pub fn values_at(&self, place: Place, piece: PieceId) -> &KeptValues
        requires kept { IsKeptProgress self.now }
        requires place { IsPlaceOf self.now place piece }
        ensures { AreValuesAt self.now place result.now }
    {
        &self.batches[place.batch].kept[place.index]
    }

    /// The cells of the piece.
    pub fn cells_at(&self, place: Place, piece: PieceId) -> &PieceCells
        requires kept { IsKeptProgress self.now }
        requires place { HasPlace self.now piece place }
        ensures { AreCellsAt self.now place result.now }
    {
        &self.open_at(place.at).cells[place.position]
    }
}
