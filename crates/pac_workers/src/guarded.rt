// What lies under the lock.
ghost use base.Stored.{Gv-set};
ghost use Rattle.std.specs.Prelude.{◌≡◌, ◌+◌, ◌^◌, ◌<◌, [], length, All, IfOk, OnOk, OnErr};
ghost use Rattle.pac_workers.specs.Twins.{IsShown};
ghost use Rattle.pac_workers.specs.Shown.{Tells, shown_closed, shown_job};
ghost use Rattle.pac_workers.specs.Takes.{ForWork, ran_by, run_now};

use crate::hand::Hand;
use crate::machine::{Machine, Taken};
use crate::tally::{Lent, Tally};
use crate::twins::Twin;
use pac_base::NoMemory;
use pac_ops::{Gate, PieceId};
use std::sync::ledger::Book;

/// The most pieces that are taken in one hold of the lock.
pub(crate) const MAX_TAKEN: usize = 64;

// Pieces are taken in one hold until they weigh this much.
const FULL_WEIGHT: u64 = 1_024;

// Ready pieces that weigh this much are worth a wake-up.
const WORTH_WAKING: u64 = 64;

/// What a worker does next.
#[derive(Clone, Copy)]
pub(crate) enum Next {
    /// It runs what it took.
    Run,
    /// It takes again: a piece was run on the spot.
    Take,
    /// It rests until it is woken.
    Rest,
    /// It ends: all is finished, or there is no memory.
    End,
}

/// What lies under the lock. Whenever the lock is free, the machine's job is that of the machine which its twin shows, and what
/// isn't finished of its pieces is what wasn't at first and what came since, but for those in the book.
#[derive(Drop)]
pub(crate) struct Guarded<M: Machine, L: Lent> {
    pub(crate) machine: M,
    pub(crate) twin: Twin<M>,
    book: Book<L>,
    // How many workers hold pieces, and how many rest. Neither count ever stands at its type's end.
    active: u32,
    resting: u32,
    /// Whether more batches may come.
    pub(crate) is_fed: bool,
    ghost of_pair: { twin.table_id ≡ L.pair },
    ghost alone: { length twin.me.0 ≡ 1 },
    ghost free: { length twin.me.1 ≡ 0 },
    ghost same_job: { M.coded.code (M.job machine) ≡ shown_job M.job M.coded twin.me.0 } by { Gv-set (M.coded.code (M.job machine)) (shown_job M.job M.coded twin.me.0) },
    ghost same_closed: { M.is_closed machine ≡ shown_closed M.is_closed twin.me.0 },
    ghost counted: { M.left machine + book.total + L.size ≡ M.size (M.job machine) + L.left },
}

impl<M: Machine, L: Lent> Guarded<M, L> {
    /// The machine that was lent. Nobody has begun.
    pub fn new(machine: M, twin: Twin<M>, is_fed: bool, book: Book<L>) -> Guarded<M, L>
        requires twin { IsShown L.pair machine twin }
        requires left { (M.left machine ≡ L.left) × (M.size (M.job machine) ≡ L.size) × (book.total ≡ 0) }
    {
        Guarded {
            machine,
            twin,
            book,
            active: 0,
            resting: 0,
            is_fed,
        }
    }

    /// The machine, its twin, and the book of what was finished of it.
    pub fn into_parts(self) -> (M, Twin<M>, Book<L>)
        ensures told { Tells M.job M.is_closed L.pair (M.job result.0) (M.is_closed result.0) result.1 }
        ensures counted { M.left result.0 + result.2.total + L.size ≡ M.size (M.job result.0) + L.left }
    {
        let Guarded {
            machine,
            twin,
            book,
            active: _,
            resting: _,
            is_fed: _,
        } = self;
        (machine, twin, book)
    }

    /// Hands in what a worker ran, and gives back what it didn't run. Whether it ran all, and all was kept.
    pub fn hand_in(&mut self, tally: &mut Tally<L>, hand: &mut Hand<M>) -> bool
        ensures { hand.new.works.items ≡ [] }
    {
        if !hand.is_empty() {
            self.active = self.active.saturating_sub(1);
        }
        let mut is_all_kept = hand.works.is_empty();
        while let Some(done) = hand.dones.pop_front() {
            if let Err(done) = self.finish(tally, done) {
                self.give_back(M::into_work(done));
                is_all_kept = false;
            }
        }
        while let Some(work) = hand.works.pop_front() {
            self.give_back(work);
        }
        is_all_kept
    }

    /// For a worker without others: runs the piece that comes next, once it has passed the gate.
    pub fn run_here<G: Gate>(&mut self, gate: &G, tally: &mut Tally<L>) -> Next {
        if !tally.has_room() {
            return Next::End;
        }
        match self.run_next(gate, tally) {
            Ok(Some(_)) => Next::Take,
            Ok(None) if self.is_fed => Next::Rest,
            Ok(None) | Err(_) => Next::End,
        }
    }

    /// Takes what comes next, if it isn't better to rest.
    pub fn next(&mut self, workers: u32, tally: &mut Tally<L>, hand: &mut Hand<M>) -> Next
        requires workers { 1 < workers }
        requires works { All M.can_run hand.old.works.items }
        ensures { All M.can_run hand.new.works.items }
    {
        if hand.has_run && self.is_better_resting() {
            return Next::Rest;
        }
        match self.take(tally) {
            Ok(Taken::Work(work)) => self.hand_out(workers, tally, hand, work),
            Ok(Taken::Ran) => Next::Take,
            Ok(Taken::NotReady) if self.active > 0 || self.is_fed => Next::Rest,
            Ok(Taken::NotReady | Taken::Done) | Err(_) => Next::End,
        }
    }

    /// Whether a worker is to be woken: one rests, and what is ready is worth it.
    pub fn is_waking(&self) -> bool {
        self.resting > 0 && self.machine.ready().weight >= WORTH_WAKING
    }

    /// A worker begins to rest.
    pub fn rest(&mut self) {
        self.resting = self.resting.saturating_add(1);
    }

    /// A worker rests no more.
    pub fn wake(&mut self) {
        self.resting = self.resting.saturating_sub(1);
    }

    // Whether what is ready is left to those that are active.
    fn is_better_resting(&self) -> bool {
        self.active > 0 && self.machine.ready().weight < WORTH_WAKING
    }

    // A worker gets a piece, and more where enough is ready.
    fn hand_out(
        &mut self,
        workers: u32,
        tally: &mut Tally<L>,
        hand: &mut Hand<M>,
        work: M::Work,
    ) -> Next
        requires workers { 1 < workers }
        requires work { M.can_run work }
        requires works { All M.can_run hand.old.works.items }
        ensures { All M.can_run hand.new.works.items }
    {
        let weight = M::weight(&work);
        if let Err(refused) = hand.works.push_back(work) {
            self.give_back(refused.value);
            return Next::End;
        }
        self.active = self.active.saturating_add(1);
        self.hand_out_more(workers, tally, hand, weight);
        Next::Run
    }

    // A worker gets its share of what is ready, and a piece is left for each other worker.
    fn hand_out_more(&mut self, workers: u32, tally: &mut Tally<L>, hand: &mut Hand<M>, weight: u64)
        requires workers { 1 < workers }
        requires works { All M.can_run hand.old.works.items }
        ensures { All M.can_run hand.new.works.items }
    {
        let workers = u64::from(workers);
        let share = self.machine.ready().weight / (2 * workers);
        let full = share.min(FULL_WEIGHT);
        let mut weight = weight;
        for _ in 1..MAX_TAKEN {
            if weight >= full || self.machine.ready().pieces < workers {
                return;
            }
            match self.take(tally) {
                Ok(Taken::Work(work)) => {
                    weight = weight.saturating_add(M::weight(&work));
                    if let Err(refused) = hand.works.push_back(work) {
                        self.give_back(refused.value);
                        return;
                    }
                }
                Ok(Taken::Ran) => {}
                Ok(Taken::NotReady | Taken::Done) | Err(_) => return,
            }
        }
    }

    // A piece that wasn't run is ready again.
    fn give_back(&mut self, work: M::Work) {
        let Guarded { machine, .. } = self;
        machine.give_back(work);
    }

    // Takes a piece, and counts it if it was run on the spot. A worker that can't count one more takes none.
    fn take(&mut self, tally: &mut Tally<L>) -> Result<Taken<M::Work>, NoMemory>
        ensures count { IfOk result (λ taken. tally.new.count ≡ tally.old.count + ran_by taken) }
        ensures work { IfOk result (ForWork M.can_run) }
        ensures err { OnErr result (tally.new.count ≡ tally.old.count) }
    {
        if !tally.has_room() {
            return Ok(Taken::Done);
        }
        let Guarded { machine, book, .. } = self;
        let taken = machine.take()?;
        if let Taken::Ran = &taken {
            tally.count_one(book);
        }
        Ok(taken)
    }

    // Runs the piece that comes next, once it has passed the gate, and counts it. `None`: none is ready.
    fn run_next<G: Gate>(
        &mut self,
        gate: &G,
        tally: &mut Tally<L>,
    ) -> Result<Option<PieceId>, NoMemory>
        requires room { tally.old.count + 1 < 2 ^ 64 }
        ensures count { IfOk result (λ next. tally.new.count ≡ tally.old.count + run_now next) }
        ensures err { OnErr result (tally.new.count ≡ tally.old.count) }
    {
        let Guarded { machine, book, .. } = self;
        let Some(piece) = machine.coming()? else {
            return Ok(None);
        };
        gate.enter(tally.worker, piece.txn, piece.block);
        let next = machine.run_next()?;
        if next.is_some() {
            tally.count_one(book);
        }
        Ok(next)
    }

    // Hands in a result, and counts its piece if it was kept.
    fn finish(&mut self, tally: &mut Tally<L>, done: M::Done) -> Result<(), M::Done>
        ensures kept { OnOk result (tally.new.count ≡ tally.old.count + 1) }
        ensures refused { OnErr result (tally.new.count ≡ tally.old.count) }
    {
        if !tally.has_room() {
            return Err(done);
        }
        let Guarded { machine, book, .. } = self;
        let handed_in = machine.finish(done);
        if handed_in.is_ok() {
            tally.count_one(book);
        }
        handed_in
    }
}
