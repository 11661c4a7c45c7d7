// How pieces move: out, back, and finished.
ghost use Rattle.std.specs.Prelude.{◌≡◌, ◌↔◌, ◌<◌, ◌≤◌, IfErr, IsTrue, OnErr, OnOk, T, length};
ghost use Rattle.std.specs.FinMap.{is_sorted};
ghost use Rattle.pac_ops.specs.Notes.{least};
ghost use Rattle.pac_sched.specs.declared.state.PieceState.TheVariants.{Finished, Waiting as StillWaiting};
ghost use Rattle.pac_sched.specs.Schedules.{after_take, with_state};
ghost use Rattle.pac_sets.specs.SetOrder.{set_cmp};
ghost use Rattle.pac_sets.specs.Sets.{IsOpenSet};
ghost use Rattle.pac_tables.specs.Written.{AreWithin, written};
ghost use Rattle.pac_value.specs.Expressions.{Values};
ghost use Rattle.pac_core.specs.Links.{IsUnfinishedBatch};
ghost use Rattle.pac_core.specs.Moves.{AreInBlocks, AreValuesKept, HasValuesAt, IsFinishedAt, IsFirstDropped, IsFirstFinished, IsLastOf, IsLifted, IsMovedTo, IsOrderAfter, IsPieceOut, IsSetEnded, IsSetUnfinished, MayFinish, MayFinishFirst, StandsOpen, StandsWaiting, WasOpen, keeps_all, keeps_none};
ghost use Rattle.pac_core.specs.Places.{AreValuesAt};
ghost use Rattle.pac_core.specs.Results.{HasGiven};

use crate::loaded::LoadedBatch;
use crate::place::Place;
use crate::progress::Progress;
use crate::stage::{OpenSet, Remaining, SetStage};
use pac_base::NoMemory;
use pac_ops::{Note, PieceId};
use pac_sets::SetId;
use pac_tables::{Rows, Writes};
use pac_undo::UndoRows;
use pac_value::Env;
use std::alloc::Global;

impl Progress {
    /// The first ready piece of an open set is out. Takes no memory.
    pub fn hand_out(&mut self, at: usize)
        requires { StandsOpen self.old at }
        ensures moved { IsMovedTo after_take self.old at self.new }
        ensures order { IsOrderAfter after_take self.old at }
    {
        let mut open = self.lift(at);
        open.sched.take();
        open.sched.keeps_order();
        self.sets.keep(at, SetStage::Open(open));
    }

    /// A piece that is out of an open set waits again. Takes no memory.
    pub fn put_back(&mut self, at: usize, piece: PieceId)
        requires { IsPieceOut self.old at piece }
        ensures moved { IsMovedTo (λ sched. with_state sched piece StillWaiting) self.old at self.new }
        ensures order { IsOrderAfter (λ sched. with_state sched piece StillWaiting) self.old at }
    {
        let mut open = self.lift(at);
        open.sched.give_back(piece);
        open.sched.keeps_order();
        self.sets.keep(at, SetStage::Open(open));
    }

    /// A piece that is out of an open set is finished with a note, where what it left is kept. Takes no memory.
    pub fn finish(&mut self, place: Place, piece: PieceId, note: Option<Note>)
        requires { MayFinish self.old place piece }
        ensures finished { (kept : Values) → AreValuesAt self.old place kept → IsFinishedAt self.old place piece kept note self.new }
        ensures order { IsOrderAfter (λ sched. with_state sched piece Finished) self.old place.at }
    {
        let mut open = self.lift(place.at);
        open.sched.finish(piece);
        open.sched.keeps_order();
        let is_done = open.sched.unfinished() == 0;
        self.sets.keep(place.at, SetStage::Open(open));
        self.note = lesser(self.note, note);
        self.unfinished -= 1;
        self.recent = earlier(self.recent, place.at);
        if is_done {
            self.end_set(place.at, place.batch);
        }
    }

    /// The first piece that is left of an open set that waits is finished with a note, where what it left is kept. Takes no memory.
    pub fn finish_first(&mut self, place: Place, noted: Option<Note>)
        requires { MayFinishFirst self.old place }
        ensures { (kept : Values) → AreValuesAt self.old place kept → IsFirstFinished self.old place kept noted self.new }
    {
        let is_last = self.drop_first(place.at);
        self.note = lesser(self.note, noted);
        self.unfinished -= 1;
        self.recent = earlier(self.recent, place.at);
        if is_last {
            self.end_set(place.at, place.batch);
        }
    }

    // The first transaction that is left of a set that waits isn't any more. Whether it was the last.
    fn drop_first(&mut self, at: usize) -> bool
        requires { StandsWaiting self.old at }
        ensures dropped { IsFirstDropped self.old at self.new }
        ensures last { IsLastOf self.old at result }
    {
        let nothing = SetStage::Waiting(Remaining::none(self.alloc));
        match self.sets.exchange(at, nothing) {
            SetStage::Waiting(mut rest) => {
                rest.drop_first();
                let is_last = rest.as_slice().is_empty();
                self.sets.keep(at, SetStage::Waiting(rest));
                is_last
            }
            SetStage::Open(_) => unreachable!(),
        }
    }

    // A set of a batch is finished. Where it is the last one of the batch, nothing is kept of its transactions any more.
    fn end_set(&mut self, at: usize, batch: usize)
        requires open { IsOpenSet self.old.sets.edges self.old.sets.sets at }
        requires blocks { AreInBlocks self.old }
        requires ascend { T (is_sorted set_cmp self.old.sets.sets) }
        requires batch { batch < length self.old.batches.items }
        ensures { IsSetEnded self.old at self.new }
    {
        self.sets.finish(at);
        if !self.is_left(batch) {
            clear_values(self.alloc, &mut self.batches, batch);
        }
    }

    /// The open set at an offset, to be changed. One without pieces stands there meanwhile.
    pub fn lift(&mut self, at: usize) -> OpenSet
        requires { StandsOpen self.old at }
        ensures was { WasOpen self.old at result }
        ensures now { IsLifted self.old at self.new }
    {
        let nothing = SetStage::Waiting(Remaining::none(self.alloc));
        match self.sets.exchange(at, nothing) {
            SetStage::Open(open) => open,
            SetStage::Waiting(_) => unreachable!(),
        }
    }

    // Whether a set of the batch isn't finished.
    fn is_left(&self, batch: usize) -> bool
        requires blocks { AreInBlocks self.now }
        requires ascend { T (is_sorted set_cmp self.now.sets.sets) }
        ensures { IsTrue result ↔ IsUnfinishedBatch self.now.sets.sets batch }
    {
        for block in 0..self.pieces.get().plan().blocks() {
            if self.is_unfinished(SetId {
                batch: batch as u64,
                block,
            }) {
                return true;
            }
        }
        false
    }

    // Whether a set isn't finished.
    fn is_unfinished(&self, set: SetId) -> bool
        requires { T (is_sorted set_cmp self.now.sets.sets) }
        ensures { IsTrue result ↔ IsSetUnfinished self.now.sets.sets set }
    {
        match self.sets.find(set) {
            Some(at) => self.sets.get(at).1.is_some(),
            None => false,
        }
    }
}

/// What a piece leaves: its writes are made in rows, and of these variables the values that it gave are kept of its
/// transaction.
///
/// # Errors
///
/// [`NoMemory`] with the writes, where they or the values find no room. Then nothing is changed.
pub(crate) fn keep_given<R: Rows>(
    batches: &mut Vec<LoadedBatch>,
    place: Place,
    vars: &[u16],
    given: &Env,
    rows: &mut UndoRows<R>,
    writes: Writes,
) -> Result<(), (Writes, NoMemory)>
    requires there { HasValuesAt batches.old.items place.batch place.index }
    requires within { AreWithin rows.old.tables writes }
    ensures gives { OnOk result (HasGiven batches.old.items place.batch place.index vars.now given.now batches.new.items) }
    ensures made { OnOk result (rows.new ≡ record rows.old { current = written rows.old.current writes }) }
    ensures kept { OnErr result (AreValuesKept batches.old.items place.batch keeps_all batches.new.items) }
    ensures same { OnErr result (rows.new ≡ rows.old) }
    ensures writes { IfErr result (λ refused. refused.0 ≡ writes) }
{
    batches[place.batch].kept[place.index].leave(vars, given, rows, writes)
}

// No values are kept of a batch's transactions.
fn clear_values(alloc: Global, batches: &mut Vec<LoadedBatch>, batch: usize)
    requires { batch < length batches.old.items }
    ensures { AreValuesKept batches.old.items batch keeps_none batches.new.items }
{
    batches[batch].kept = Vec::new(alloc);
}

// The lesser of two offsets.
fn earlier(one: usize, other: usize) -> usize
    ensures first { result ≤ one }
    ensures second { result ≤ other }
{
    if one < other { one } else { other }
}

// The lesser of two notes.
fn lesser(one: Option<Note>, other: Option<Note>) -> Option<Note>
    ensures { result ≡ least one other }
{
    match (one, other) {
        (None, other) => other,
        (one, None) => one,
        (Some(one), Some(other)) => Some(if other.cmp(&one).is_lt() { other } else { one }),
    }
}
