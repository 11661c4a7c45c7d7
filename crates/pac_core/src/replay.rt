// The state of a replay.
ghost use Rattle.std.specs.Prelude.{◌≡◌, ◌↔◌, ◌<◌, ◌≤◌, ◌+◌, ◌*◌, ◌^◌, [], true, length, IfErr, IfOk, IsTrue, OnErr, OnOk};
ghost use Rattle.pac_ops.specs.Shapes.{RowsFit};
ghost use Rattle.pac_commute.specs.Loads.{next_in_job};
ghost use Rattle.pac_core.specs.Calls.{HasReadyPiece, IsReplayDone, IsDrained, IsGivenBack, IsHandedIn, IsJobOf, IsNextFinished, IsOfJob, IsReplayOutcome, IsOwn, IsTakenPiece, MayLoad, MayLoadAll, MovesOut, handed_in_by, run_by, touches_loaded, with_batches};
ghost use Rattle.pac_core.specs.Events.{HasEvents, IsSound, OwnIsWork};
ghost use Rattle.pac_core.specs.Replay.{closed, left, loaded_pieces, opening_replay, with_batch_loaded, with_none_out};
ghost use Rattle.pac_core.specs.Takes.{IsNextPiece};

use crate::answers::{Finish, Outcome, ReadyPieces, Take};
use crate::events::{coming, give_back, hand_in, run_next, take_next};
use crate::job::{Job, are_batches, are_same_plans, batch_copies, in_turn};
use crate::progress::Progress;
use pac_base::{Exact, NoMemory, listed};
use pac_keys::PlanCode;
use pac_ops::{Batch, Batches, PieceId};
use pac_piece::{Done, Work};
use pac_plan::{Plan, Shared, is_plan};
use pac_tables::Rows;
use pac_undo::UndoRows;
use pac_value::Env;
use std::alloc::Global;
use std::marker::Model;

/// The state of a replay: what is loaded, which pieces are out and which are finished, and the tables that these leave.
/// Contracts see a `Replay`.
#[derive(Drop)]
pub struct Core<R: Rows> {
    progress: Progress,
    rows: UndoRows<R>,
    /// Room for the values of a piece that is run over the tables. What it holds is of no account.
    room: Env,
}

impl<R: Rows> Model for Core<R> {
    ghost use Rattle.pac_core.specs.Replay.{Replay, replay_code};
    ghost use Rattle.pac_core.specs.Links.{IsCore, core_of};

    ghost Value = { Replay };

    ghost coded = { replay_code };

    ghost view = { λ core. core_of core.progress core.rows };

    ghost invariant = { λ core. IsCore core.progress core.rows };
}

impl<R: Rows> Core<R> {
    /// Nothing is loaded. Transactions begin with number `first`.
    ///
    /// # Errors
    ///
    /// [`NoMemory`] where what is known of the plan's blocks finds no room.
    pub fn new(alloc: Global, plan: Plan, first: u64, tables: R) -> Result<Core<R>, NoMemory>
        requires tables { R.tables tables ≡ length plan.tables }
        requires fit { RowsFit plan.tables (R.held tables) }
        ensures { IfOk result (λ core. core ≡ opening_replay (record { parts = plan; first = first; tables = R.held tables })) }
    {
        let plan = Shared::new(alloc, PlanCode::new(alloc, plan)?)?;
        Core::with_code(alloc, plan, first, tables)
    }

    /// The same, of a plan whose code is made already, and which other cores may share.
    ///
    /// # Errors
    ///
    /// [`NoMemory`] as [`Core::new`].
    pub fn with_code(
        alloc: Global,
        plan: Shared<PlanCode>,
        first: u64,
        tables: R,
    ) -> Result<Core<R>, NoMemory>
        requires tables { R.tables tables ≡ length plan.tables }
        requires fit { RowsFit plan.tables (R.held tables) }
        ensures { IfOk result (λ core. core ≡ opening_replay (record { parts = plan; first = first; tables = R.held tables })) }
    {
        is_plan(plan.get().plan());
        let progress = Progress::new(alloc, plan, first)?;
        let rows = UndoRows::new(alloc, tables);
        Ok(Core {
            progress,
            rows,
            room: Env::new(alloc),
        })
    }

    /// The number of the next transaction that may be loaded. Takes no memory.
    pub fn next_txn(&self) -> u64
        ensures { result ≡ next_in_job self.now.job self.now.batches }
    {
        self.progress.next
    }

    /// Whether no more batches come. Takes no memory.
    pub fn is_closed(&self) -> bool
        ensures { result ≡ self.now.is_closed }
    {
        self.progress.is_closed
    }

    /// How many of the loaded pieces are not finished. Takes no memory.
    pub fn unfinished(&self) -> u64
        ensures { result ≡ left self.now }
    {
        self.progress.unfinished
    }

    /// Whether each loaded piece is finished. Takes no memory.
    pub fn is_finished(&self) -> bool
        ensures { IsTrue result ↔ (left self.now ≡ 0) }
    {
        self.progress.unfinished == 0
    }

    /// What holds at every moment. The plan is one, the batches' numbers run on, and their transactions fit it; the predecessors
    /// of each piece that is out or finished are finished; the tables, values and note are those of the finished pieces, applied
    /// in the order of transactions. Where none is out, a piece is ready while any is left. Each call is a step of the replay
    /// machine, and work that a take gave is own work until its piece is finished or put back, so that its result isn't foreign.
    /// It is work in the sense of the laws of pieces.
    ///
    /// States facts, and does nothing.
    pub fn keeps_invariant(&self)
        ensures sound { IsSound self.now }
        ensures ready { HasReadyPiece self.now }
        ensures events { HasEvents self.now }
        ensures work { OwnIsWork self.now }
    {
        let _progress = &self.progress;
    }

    /// No more batches come. Takes no memory.
    pub fn close(&mut self)
        ensures { self.new ≡ closed self.old }
    {
        self.progress.is_closed = true;
    }

    /// Whether a batch may be loaded, as [`Core::load`] requires it. Takes no memory.
    pub fn fits(&self, batch: &Batch) -> bool
        ensures { IsTrue result ↔ (MayLoad self.now batch.now × (batch.now.first + length batch.now.txns < 2 ^ 64)) }
    {
        self.progress.fits(batch)
    }

    /// Loads a batch.
    ///
    /// # Errors
    ///
    /// [`NoMemory`] with the batch, where its pieces find no room, or would be more than a count can hold. Nothing is
    /// changed.
    pub fn load(&mut self, batch: Batch) -> Result<(), (Batch, NoMemory)>
        requires may { MayLoad self.old batch }
        requires numbers { batch.first + length batch.txns < 2 ^ 64 }
        ensures ok { OnOk result (self.new ≡ with_batch_loaded self.old batch) }
        ensures left { OnOk result (left self.new + length (loaded_pieces self.old) ≡ left self.old + length (loaded_pieces self.new)) }
        ensures err { OnErr result (self.new ≡ self.old) }
        ensures batch { IfErr result (λ refused. refused.0 ≡ batch) }
    {
        self.progress.load(batch)
    }

    /// Loads batches one after another.
    ///
    /// # Errors
    ///
    /// [`NoMemory`] as [`Core::load`]. Those before it are loaded then.
    pub fn load_all(&mut self, batches: Batches) -> Result<(), NoMemory>
        requires { MayLoadAll self.old batches }
        ensures { OnOk result (self.new ≡ with_batches self.old batches) }
    {
        let mut rest = in_turn(self.progress.alloc, batches)?;
        while let Some(batch) = rest.pop_front() {
            if self.load(batch).is_err() {
                return Err(NoMemory);
            }
        }
        Ok(())
    }

    /// About how many pieces a take may find ready, and what they weigh. Pieces that a take would open first count too. An
    /// estimate, with no clause: nothing may rest on it. Takes no memory, and time that grows with the number of the plan's blocks.
    pub fn ready(&self) -> ReadyPieces {
        self.progress.ready()
    }

    /// The piece that comes next, by batch, block and transaction: handed out, or run on the spot where it may touch any row
    /// of its block.
    ///
    /// # Errors
    ///
    /// [`NoMemory`] where sets that are opened, or the work, find no room. Which pieces are out or finished, and the tables,
    /// are as before.
    pub fn take(&mut self) -> Result<Take, NoMemory>
        ensures ok { IfOk result (λ take. IsTakenPiece self.old take self.new) }
        ensures left { IfOk result (λ take. left self.old ≡ left self.new + run_by take) }
        ensures err { OnErr result (self.new ≡ self.old) }
    {
        take_next(&mut self.progress, &mut self.rows, &mut self.room)
    }

    /// The piece that comes next, by batch, block and transaction. `None`: none is ready. Nothing is handed out.
    ///
    /// # Errors
    ///
    /// [`NoMemory`] where sets that are opened find no room.
    pub fn coming(&mut self) -> Result<Option<PieceId>, NoMemory>
        ensures next { IfOk result (IsNextPiece self.old) }
        ensures same { self.new ≡ self.old }
    {
        coming(&mut self.progress, &self.rows)
    }

    /// The same piece is run over the tables as they stand, and is finished: no row is copied but those that it writes, and
    /// nothing is handed out. For one who runs pieces alone.
    ///
    /// # Errors
    ///
    /// [`NoMemory`] where sets that are opened, or what the piece leaves, find no room. Which pieces are out or finished, and
    /// the tables, are as before.
    pub fn run_next(&mut self) -> Result<Option<PieceId>, NoMemory>
        ensures ok { IfOk result (λ next. IsNextFinished self.old next self.new) }
        ensures err { OnErr result (self.new ≡ self.old) }
    {
        run_next(&mut self.progress, &mut self.rows, &mut self.room)
    }

    /// A result is handed in. Its piece is finished, where it was out and the result is of the work that the replay has for
    /// it.
    pub fn finish(&mut self, done: Done) -> Finish
        ensures answer { IsHandedIn self.old done result self.new }
        ensures left { left self.old ≡ left self.new + handed_in_by result }
    {
        hand_in(&mut self.progress, &mut self.rows, done)
    }

    /// Work is given back that wasn't done: its piece is ready again. Other work than that of a piece that is out changes
    /// nothing. Takes no memory.
    pub fn give_back(&mut self, work: Work)
        ensures back { IsGivenBack self.old work self.new }
        ensures rest { MovesOut self.old self.new }
    {
        give_back(&mut self.progress, &self.rows, &work);
    }

    /// Each piece that is out is ready again. Takes no memory.
    pub fn reclaim(self) -> Core<R>
        ensures { result ≡ with_none_out self }
    {
        let mut core = self;
        core.take_back();
        core
    }

    /// The same, in place.
    pub fn take_back(&mut self)
        ensures { self.new ≡ with_none_out self.old }
    {
        self.progress.recent = 0;
        self.progress.reclaim();
    }

    /// Runs all that is left, and returns how many pieces that were.
    ///
    /// # Errors
    ///
    /// [`NoMemory`] where a piece finds no room. Then no piece is out, and what was finished stays finished.
    pub fn drain(&mut self) -> Result<u64, NoMemory>
        requires closed { self.old.is_closed ≡ true }
        requires none { self.old.out ≡ [] }
        ensures done { OnOk result (IsReplayDone self.new) }
        ensures pieces { IfOk result (λ pieces. pieces ≡ left self.old) }
        ensures drained { IsDrained self.old self.new }
    {
        let pieces = self.unfinished();
        while !self.is_finished() {
            self.step()?;
        }
        Ok(pieces)
    }

    // The piece that comes next is run and finished.
    fn step(&mut self) -> Result<(), NoMemory>
        requires none { self.old.out ≡ [] }
        requires some { 0 < left self.old }
        ensures ok { OnOk result (left self.new + 1 ≡ left self.old) }
        ensures drained { IsDrained self.old self.new }
    {
        self.keeps_invariant();
        let next = self.run_next()?;
        match next {
            Some(_) => Ok(()),
            None => unreachable!(),
        }
    }

    /// A copy of what tells the core's job.
    ///
    /// # Errors
    ///
    /// [`NoMemory`] where it finds no room.
    pub fn job(&self) -> Result<Job<R>, NoMemory>
        ensures { IfOk result (λ job. IsJobOf self.now job.plan job.first (R.tables job.opening) (R.held job.opening) job.batches) }
    {
        let alloc = self.progress.alloc;
        let plan = self.progress.pieces.get().plan().copy(alloc)?;
        let opening = self.rows.opening()?;
        let batches = listed(batch_copies(alloc, &self.progress.batches)?);
        Ok(Job {
            plan,
            first: self.progress.first,
            opening,
            batches,
        })
    }

    /// Whether this tells the core's job: its plan, its first number, the tables of its opening and the loaded batches.
    ///
    /// # Errors
    ///
    /// [`NoMemory`] where a list of a table's rows finds no room.
    pub fn is_of(&self, job: &Job<R>) -> Result<bool, NoMemory>
        ensures { IfOk result (λ is. IsTrue is ↔ IsOfJob self.now job.now.plan job.now.first (R.tables job.now.opening) (R.held job.now.opening) job.now.batches) }
    {
        if !are_same_plans(self.progress.pieces.get().plan(), &job.plan) {
            return Ok(false);
        }
        if self.progress.first != job.first {
            return Ok(false);
        }
        if !are_batches(&self.progress.batches, job.batches.as_slice()) {
            return Ok(false);
        }
        self.rows.has_opening(&job.opening)
    }

    /// A closed core in its opening state, with the batches of a job loaded.
    ///
    /// # Errors
    ///
    /// [`NoMemory`] where they, or copies of them, find no room.
    pub fn from_job(alloc: Global, job: Job<R>) -> Result<Core<R>, NoMemory>
        requires tables { R.tables job.opening ≡ length job.plan.tables }
        requires fit { RowsFit job.plan.tables (R.held job.opening) }
        requires may { MayLoadAll (opening_replay (record { parts = job.plan; first = job.first; tables = R.held job.opening })) job.batches }
        ensures { IfOk result (λ core. core ≡ closed (with_batches (opening_replay (record { parts = job.plan; first = job.first; tables = R.held job.opening })) job.batches)) }
    {
        let Job {
            plan,
            first,
            opening,
            batches,
        } = job;
        let mut core = Core::new(alloc, plan, first, opening)?;
        core.load_all(batches)?;
        core.close();
        Ok(core)
    }

    /// How many pairs of pieces, one of which waits for the other, are kept of the sets that are opened, or the greatest `u64`
    /// where there are more. They are few: at most twice as many as the loaded pieces and the rows that these name. Takes no
    /// memory, and time that grows with the number of loaded sets.
    pub fn pairs(&self) -> u64
        ensures { result ≤ 2 * touches_loaded self.now + 2 * length (loaded_pieces self.now) }
    {
        self.progress.pairs()
    }

    /// What the replay leaves. Takes no memory.
    pub fn outcome(self) -> Outcome<R>
        requires { IsReplayDone self }
        ensures replayed { IsReplayOutcome self (R.held result.tables) result.first_note }
        ensures tables { R.tables result.tables ≡ length self.job.parts.tables }
        ensures fit { RowsFit self.job.parts.tables (R.held result.tables) }
    {
        let Core {
            progress,
            rows,
            room: _,
        } = self;
        Outcome {
            tables: rows.into_rows(),
            first_note: progress.note,
        }
    }
}
