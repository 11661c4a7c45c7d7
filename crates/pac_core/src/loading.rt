// Loading a batch.
ghost use Rattle.std.specs.Prelude.{◌≡◌, ◌<◌, ◌+◌, ◌^◌, IfErr, IfOk, IfSome, OnErr, OnOk, length, map, sum_by, Some as ASome};
ghost use Rattle.std.specs.List.{AllByRecursion, AllZip};
ghost use Rattle.std.specs.FinMap.{empty};
ghost use Rattle.pac_ops.specs.Operations.{with_values};
ghost use Rattle.pac_ops.specs.declared.transaction.Txn.{Txn as ATxn};
ghost use Rattle.pac_plan.specs.Worlds.{txn_args};
ghost use Rattle.pac_plan.specs.Codes.{TxnFitsPlan};
ghost use Rattle.pac_batch.specs.declared.piece_set.PieceSet.{PieceSet as APieceSet};
ghost use Rattle.pac_batch.specs.Sets.{sets_of};
ghost use Rattle.pac_core.specs.Links.{IsKeptProgress};
ghost use Rattle.pac_core.specs.Moves.{AreAdded, IsAlike, IsLoadedTo, IsWaitingSet, MayLoadBatch};

use crate::kept_values::KeptValues;
use crate::loaded::LoadedBatch;
use crate::progress::Progress;
use crate::stage::{Remaining, SetStage};
use pac_base::{Exact, NoMemory};
use pac_batch::{PieceSet, sets};
use pac_keys::have_weight;
use pac_ops::{Batch, Txn};
use pac_sets::{Kept, SetId};
use pac_value::Value;
use std::alloc::Global;

/// What a batch adds: its sets, the values that its transactions begin with, and how many pieces it has.
#[derive(Drop)]
struct Added {
    sets: Vec<Kept<SetStage>>,
    kept: Vec<KeptValues>,
    pieces: u64,
}

impl Progress {
    /// Loads a batch after the others.
    ///
    /// # Errors
    ///
    /// [`NoMemory`] with the batch, where its pieces find no room, or where there would be more unfinished ones than a count
    /// can tell. What is kept stays.
    pub fn load(&mut self, batch: Batch) -> Result<(), (Batch, NoMemory)>
        requires kept { IsKeptProgress self.old }
        requires may { MayLoadBatch self.old batch }
        requires numbers { batch.first + length batch.txns < 2 ^ 64 }
        ensures ok { OnOk result (IsLoadedTo self.old batch self.new) }
        ensures err { OnErr result (IsAlike self.old self.new) }
        ensures batch { IfErr result (λ refused. refused.0 ≡ batch) }
    {
        let Ok(added) = self.added(&batch) else {
            return Err((batch, NoMemory));
        };
        let Some(unfinished) = self.unfinished.checked_add(added.pieces) else {
            return Err((batch, NoMemory));
        };
        if self.batches.reserve(1).is_err() {
            return Err((batch, NoMemory));
        }
        let Added {
            sets,
            kept,
            pieces: _,
        } = added;
        if self.sets.add_all(sets).is_err() {
            return Err((batch, NoMemory));
        }
        self.next += batch.txns.items().len() as u64;
        self.unfinished = unfinished;
        self.has_weight = self.has_weight || have_weight(batch.txns.items());
        self.recent = 0;
        match self.batches.push(LoadedBatch { batch, kept }) {
            Ok(()) => Ok(()),
            Err(_) => unreachable!(),
        }
    }

    // What a batch adds.
    fn added(&self, batch: &Batch) -> Result<Added, NoMemory>
        requires fits { AllByRecursion (TxnFitsPlan self.now.pieces) batch.now.txns }
        requires numbers { batch.now.first + length batch.now.txns < 2 ^ 64 }
        ensures { IfOk result (AreAdded self.now batch.now) }
    {
        let alloc = self.alloc;
        let sets = sets(alloc, self.pieces.get(), batch)?;
        let Some(pieces) = count(&sets) else {
            return Err(NoMemory);
        };
        let sets = waiting(alloc, self.batches.len() as u64, &sets)?;
        let kept = begun(alloc, batch.txns.items())?;
        Ok(Added { sets, kept, pieces })
    }
}

// How many pieces sets have. `None`: more than a count can hold.
fn count(sets: &[PieceSet]) -> Option<u64>
    ensures { IfSome result (λ pieces. pieces ≡ sum_by (λ (set : APieceSet). length set.txns) sets.now) }
{
    let mut pieces: u64 = 0;
    for set in sets {
        pieces = pieces.checked_add(set.txns.as_slice().len() as u64)?;
    }
    Some(pieces)
}

// The sets of a batch, whose pieces are not opened.
fn waiting(alloc: Global, batch: u64, sets: &[PieceSet]) -> Result<Vec<Kept<SetStage>>, NoMemory>
    ensures { IfOk result (λ more. AllZip (IsWaitingSet batch) sets.now more.items) }
{
    let mut more = Vec::with_capacity(alloc, sets.len())?;
    for set in sets {
        let id = SetId {
            batch,
            block: set.block,
        };
        let txns = set.txns.copy(alloc)?;
        more.push((id, Some(SetStage::Waiting(Remaining::new(txns)))))?;
    }
    Ok(more)
}

// The values that transactions begin with.
fn begun(alloc: Global, txns: &[Txn]) -> Result<Vec<KeptValues>, NoMemory>
    ensures { IfOk result (λ kept. map (λ (txn : ATxn). with_values 0 (txn_args (ASome txn)) empty) txns.now ≡ kept.items) }
{
    let mut kept = Vec::with_capacity(alloc, txns.len())?;
    for txn in txns {
        kept.push(first_values(alloc, txn)?)?;
    }
    Ok(kept)
}

// The values that a transaction begins with: the arguments of a call, by the numbers of the parameters.
fn first_values(alloc: Global, txn: &Txn) -> Result<KeptValues, NoMemory>
    ensures { IfOk result (λ kept. kept ≡ with_values 0 (txn_args (ASome txn.now)) empty) }
{
    match txn {
        Txn::Call(call) => kept_numbered(alloc, call.args.items()),
        Txn::AdHoc { .. } => Ok(KeptValues::new(alloc)),
    }
}

// Values of the variables from number 0 on.
fn kept_numbered(alloc: Global, values: &[Value]) -> Result<KeptValues, NoMemory>
    requires { length values.now < 2 ^ 16 }
    ensures { IfOk result (λ kept. kept ≡ with_values 0 values.now empty) }
{
    let mut kept = KeptValues::new(alloc);
    for i in 0..values.len() {
        kept.keep(i as u16, values[i])?;
    }
    Ok(kept)
}
