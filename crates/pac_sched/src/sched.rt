// The pieces that are open.
ghost use Rattle.std.specs.Prelude.{◌≡◌, ◌++◌, ◌<◌, length, Some, OnOk, OnErr, IfOk, slice_get, slice_set, slice_index_or};
ghost use Rattle.pac_sched.specs.declared.state.PieceState.TheVariants.{Waiting, Out, Finished};
ghost use Rattle.pac_sched.specs.Schedules.{nothing_open, after_opening, pick, after_take, with_state, reclaimed, state_of_piece, position_of, ready_pieces, pieces_out, unfinished_pieces, put_back, AreDifferent, ArePairsBelow, IsInOrder};
ghost use Rattle.pac_plan.specs.Pairs.{AreEarlierLater};
ghost use Rattle.pac_sched.specs.Counts.{AreInside, IsUnhindered};

use crate::followers::Followers;
use crate::opening::{count_out, count_unfinished, moved, number_waits, ready_set};
use crate::positions::Positions;
use crate::ready_set::ReadySet;
use crate::{Pick, PieceState};
use pac_base::NoMemory;
use pac_ops::PieceId;
use pac_plan::Preds;
use std::alloc::Global;
use std::marker::Model;

/// Pieces in the order of their opening, how far each is, and which of them wait for which. Contracts see a `Schedule`.
///
/// A piece is found by its number in time that grows with the logarithm of the number of pieces, if they were opened in
/// ascending order, as those of a set are; else with their number.
#[derive(Drop)]
pub struct Sched {
    alloc: Global,
    positions: Positions,
    states: Vec<PieceState>,
    followers: Followers,
    waits: Vec<usize>,
    ready: ReadySet,
    out: usize,
    unfinished: usize,
}

impl Model for Sched {
    ghost use Rattle.pac_sched.specs.Schedules.{Schedule};
    ghost use Rattle.pac_sched.specs.Counts.{KeepsSchedule};

    ghost Value = { Schedule };

    ghost view = { λ sched. record { pieces = sched.positions; states = sched.states.items; pairs = sched.followers } };

    ghost invariant = { λ sched. KeepsSchedule sched.positions sched.states.items sched.followers sched.waits.items sched.ready sched.out sched.unfinished };
}

impl Sched {
    /// A scheduler with nothing open. Takes no memory.
    pub fn new(alloc: Global) -> Sched
        ensures { result ≡ nothing_open }
    {
        Sched {
            alloc,
            positions: Positions::empty(alloc),
            states: Vec::new(alloc),
            followers: Followers::empty(alloc),
            waits: Vec::new(alloc),
            ready: ReadySet::empty(alloc),
            out: 0,
            unfinished: 0,
        }
    }

    // These pieces in these states, with these pairs.
    fn of(
        alloc: Global,
        pieces: Vec<PieceId>,
        states: Vec<PieceState>,
        pairs: Vec<(usize, usize)>,
    ) -> Result<Sched, NoMemory>
        requires len { length states.items ≡ length pieces.items }
        requires distinct { AreDifferent pieces.items }
        requires inside { AreInside (length pieces.items) pairs.items }
        requires unhindered { IsUnhindered states.items pairs.items }
        ensures { IfOk result (λ sched. sched ≡ record { pieces = pieces.items; states = states.items; pairs = pairs.items }) }
    {
        let waits = number_waits(alloc, &states, &pairs)?;
        let ready = ready_set(alloc, &states, &waits)?;
        let followers = Followers::new(alloc, pieces.len(), pairs)?;
        let out = count_out(&states);
        let unfinished = count_unfinished(&states);
        Ok(Sched {
            alloc,
            positions: Positions::new(pieces),
            states,
            followers,
            waits,
            ready,
            out,
            unfinished,
        })
    }

    /// Opens pieces after those that are open, with pairs of positions among the new ones. It takes the memory for all later
    /// calls on them, and time that grows with the pieces and pairs that were opened so far.
    ///
    /// # Errors
    ///
    /// [`NoMemory`] where they find no room. All stays as it was.
    pub fn open_set(&mut self, pieces: &[PieceId], preds: &Preds) -> Result<(), NoMemory>
        requires distinct { AreDifferent (self.old.pieces ++ pieces.now) }
        requires within { ArePairsBelow (length pieces.now) preds.now }
        ensures ok { OnOk result (self.new ≡ after_opening self.old pieces.now preds.now) }
        ensures err { OnErr result (self.new ≡ self.old) }
    {
        *self = self.with_set(pieces, preds.pairs())?;
        Ok(())
    }

    // The scheduler with more pieces after its own.
    fn with_set(&self, pieces: &[PieceId], pairs: &[(u32, u32)]) -> Result<Sched, NoMemory>
        requires distinct { AreDifferent (self.now.pieces ++ pieces.now) }
        requires within { ArePairsBelow (length pieces.now) pairs.now }
        requires order { AreEarlierLater pairs.now }
        ensures { IfOk result (λ sched. sched ≡ after_opening self.now pieces.now pairs.now) }
    {
        let alloc = self.alloc;
        let old = self.positions.pieces();
        let pairs = moved(alloc, self.followers.pairs(), old.len(), pairs)?;
        let mut all = Vec::from_slice(alloc, old)?;
        all.extend_from_slice(pieces)?;
        let mut states = Vec::from_slice(alloc, &self.states)?;
        states.resize(all.len(), PieceState::Waiting)?;
        Sched::of(alloc, all, states, pairs)
    }

    /// What a take would answer. It takes no time that grows with the number of pieces, and no memory.
    pub fn peek(&self) -> Pick
        ensures { result ≡ pick self.now }
    {
        match self.ready.first() {
            Some(i) => Pick::Piece(self.positions.pieces()[i]),
            None if self.unfinished == 0 => Pick::Done,
            None => Pick::NotReady,
        }
    }

    /// Hands out the first ready piece, in the order of opening. It takes time that grows with the logarithm of the number of
    /// pieces, and no memory.
    pub fn take(&mut self) -> Pick
        ensures picked { result ≡ pick self.old }
        ensures after { self.new ≡ after_take self.old }
    {
        let Some(i) = self.ready.first() else {
            return if self.unfinished == 0 {
                Pick::Done
            } else {
                Pick::NotReady
            };
        };
        self.ready.lower(i);
        self.states[i] = PieceState::Out;
        self.out += 1;
        Pick::Piece(self.positions.pieces()[i])
    }

    /// The piece, which was out, is finished, and what waited for it as the last is ready. It takes time that grows with the number
    /// of pieces that wait for it, each times the logarithm of that of all, and no memory.
    pub fn finish(&mut self, id: PieceId)
        requires { state_of_piece self.old id ≡ Some Out }
        ensures { self.new ≡ with_state self.old id Finished }
    {
        let Some(i) = self.positions.find(id) else {
            unreachable!()
        };
        self.states[i] = PieceState::Finished;
        self.out -= 1;
        self.unfinished -= 1;
        self.followers.release(i, &mut self.waits, &mut self.ready);
    }

    /// The piece, which was out, is ready again. It takes time that grows with the logarithm of the number of pieces, and no
    /// memory.
    pub fn give_back(&mut self, id: PieceId)
        requires { state_of_piece self.old id ≡ Some Out }
        ensures { self.new ≡ with_state self.old id Waiting }
    {
        let Some(i) = self.positions.find(id) else {
            unreachable!()
        };
        self.put_back(i);
    }

    /// Each piece that is out is ready again. It takes time that grows with the number of pieces, and no memory.
    pub fn reclaim(&mut self)
        ensures { self.new ≡ reclaimed self.old }
    {
        for i in 0..self.states.len() {
            self.reclaim_at(i);
        }
    }

    // The piece at a position is ready again, if it is out.
    fn reclaim_at(&mut self, i: usize)
        requires { i < length self.old.states }
        ensures { self.new ≡ record { pieces = self.old.pieces; states = slice_set self.old.states i (put_back (slice_index_or self.old.states i Waiting)); pairs = self.old.pairs } }
    {
        if self.states[i].is_out() {
            self.put_back(i);
        }
    }

    // The piece at a position, which was out, is ready again.
    fn put_back(&mut self, i: usize)
        requires { slice_get self.old.states i ≡ Some Out }
        ensures { self.new ≡ record { pieces = self.old.pieces; states = slice_set self.old.states i Waiting; pairs = self.old.pairs } }
    {
        self.states[i] = PieceState::Waiting;
        self.out -= 1;
        self.ready.raise(i);
    }

    /// How far a piece is; `None` where it was never opened.
    pub fn state(&self, id: PieceId) -> Option<PieceState>
        ensures { result ≡ state_of_piece self.now id }
    {
        let i = self.positions.find(id)?;
        Some(self.states[i])
    }

    /// Where a piece stands in the order of opening, from 0; `None` where it was never opened.
    pub fn position(&self, id: PieceId) -> Option<usize>
        ensures { result ≡ position_of self.now id }
    {
        self.positions.find(id)
    }

    /// How many pieces are ready.
    pub fn ready(&self) -> usize
        ensures { result ≡ ready_pieces self.now }
    {
        self.ready.raised()
    }

    /// How many pieces are out.
    pub fn out(&self) -> usize
        ensures { result ≡ pieces_out self.now }
    {
        self.out
    }

    /// How many pieces are not finished.
    pub fn unfinished(&self) -> usize
        ensures { result ≡ unfinished_pieces self.now }
    {
        self.unfinished
    }

    /// How many pairs the pieces were opened with.
    pub fn pairs(&self) -> usize
        ensures { result ≡ length self.now.pairs }
    {
        self.followers.pairs().len()
    }

    /// A piece that is out or finished has waited for finished pieces alone.
    pub fn keeps_order(&self)
        ensures { IsInOrder self.now }
    {
        let _states = &self.states;
    }
}
