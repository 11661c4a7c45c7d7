// What workers run.
ghost use Rattle.std.specs.Prelude.{◌≡◌, ◌+◌, ◌<◌, ◌^◌, ℕ, Bool, List, Option as AOption, true, false, length, IfOk, OnOk, OnErr};
ghost use Rattle.std.specs.List.{AllByRecursion};
ghost use Rattle.std.specs.Coded.{Coded};
ghost use Rattle.pac_value.specs.declared.values.Ty.{Ty as ATy};
ghost use Rattle.pac_ops.specs.declared.batch.Batch.{Batch as ABatch};
ghost use Rattle.pac_ops.specs.declared.piece.PieceId.{PieceId as APieceId};
ghost use Rattle.pac_ops.specs.declared.shapes.TableTypes.{TableTypes as ATableTypes};
ghost use Rattle.pac_ops.specs.Shapes.{TxnFitsTypes};
ghost use Rattle.pac_workers.specs.Takes.{ForWork, ran_by, run_now};

use pac_base::NoMemory;
use pac_ops::{Batch, PieceId};
use std::alloc::Global;

/// What a take answers.
#[derive(Debug, Drop)]
pub enum Taken<W> {
    /// The piece that comes next is handed out: its work.
    Work(W),
    /// The piece that comes next was run on the spot.
    Ran,
    /// No piece is ready now.
    NotReady,
    /// Each piece is finished, and no more come.
    Done,
}

/// How much is ready to be taken.
#[derive(Clone, Copy, Debug, PartialEq, Eq)]
pub struct Ready {
    /// How many pieces.
    pub pieces: u64,
    /// What they weigh, added up.
    pub weight: u64,
}

/// A replay that workers may share under a lock: pieces are taken, run by the worker that took them, and handed in.
///
/// In its contracts `job` is what there is to do: the machine, closed, as it is before any piece is taken. No call changes it.
pub trait Machine: Drop {
    /// A piece that is handed out, with all that it takes to run it.
    type Work: Drop + Send;

    /// Work with its result.
    type Done: Drop + Send;

    // what there is to do
    ghost job: { Self → Self };

    // how a proof stores a machine
    ghost coded: { Coded Self };

    // whether no more pieces come
    ghost is_closed: { Self → Bool };

    // how many pieces aren't finished
    ghost left: { Self → ℕ };

    // how many pieces a job has
    ghost size: { Self → ℕ };

    // no piece is out
    ghost is_idle: { Self → Type 0 };

    // the work may be run
    ghost can_run: { Self.Work → Type 0 };

    // this piece comes next, or none is ready
    ghost is_next: { Self → AOption APieceId → Type 0 };

    /// How many pieces aren't finished.
    fn unfinished(&self) -> u64
        ensures { result ≡ left self.now };

    /// How much is ready. Workers rest, are woken and share by it; what they leave doesn't depend on it, so it has no clause. It may be an
    /// estimate, but is to count what a take may find ready, so that nobody rests beside that.
    fn ready(&self) -> Ready;

    /// Which piece the work is of. The gate is told; what workers leave doesn't depend on it, so it has no clause.
    fn piece(work: &Self::Work) -> PieceId;

    /// What the work weighs: how many operations it has beyond those that cost as much as handing it out. It is an estimate, by which
    /// workers share, and has no clause.
    fn weight(work: &Self::Work) -> u64;

    /// Does the work. It needs no machine, and so no lock. Of its result there is no clause: [`Machine::finish`] refuses what isn't the
    /// machine's own.
    ///
    /// # Errors
    ///
    /// [`NoMemory`] with the work, where an allocation is refused.
    fn run(alloc: Global, work: Self::Work) -> Result<Self::Done, (Self::Work, NoMemory)>
        requires { can_run work };

    /// The work again, to be given back. It has no clause: a machine knows its own work.
    fn into_work(done: Self::Done) -> Self::Work;

    /// No more pieces come.
    fn close(&mut self)
        ensures job { job self.new ≡ job self.old }
        ensures closed { is_closed self.new ≡ true }
        ensures left { left self.new ≡ left self.old };

    /// The piece that comes next, handed out or run on the spot.
    ///
    /// # Errors
    ///
    /// [`NoMemory`] where an allocation is refused. No piece is finished.
    fn take(&mut self) -> Result<Taken<Self::Work>, NoMemory>
        ensures job { job self.new ≡ job self.old }
        ensures closed { is_closed self.new ≡ is_closed self.old }
        ensures ran { IfOk result (λ taken. left self.old ≡ left self.new + ran_by taken) }
        ensures work { IfOk result (ForWork can_run) }
        ensures err { OnErr result (left self.new ≡ left self.old) };

    /// The piece that comes next. `None`: none is ready. Nothing is handed out.
    ///
    /// # Errors
    ///
    /// [`NoMemory`] where an allocation is refused.
    fn coming(&mut self) -> Result<Option<PieceId>, NoMemory>
        ensures next { IfOk result (is_next self.old) }
        ensures same { self.new ≡ self.old };

    /// The same piece is run here, and is finished. For a worker without others: nothing is handed out.
    ///
    /// # Errors
    ///
    /// [`NoMemory`] where an allocation is refused. No piece is finished.
    fn run_next(&mut self) -> Result<Option<PieceId>, NoMemory>
        ensures next { IfOk result (is_next self.old) }
        ensures job { job self.new ≡ job self.old }
        ensures closed { is_closed self.new ≡ is_closed self.old }
        ensures ran { IfOk result (λ next. left self.old ≡ left self.new + run_now next) }
        ensures err { OnErr result (self.new ≡ self.old) };

    /// Hands in a result: its piece is finished.
    ///
    /// # Errors
    ///
    /// The result, where it is not of a piece that is out, as the machine has it, or where an allocation is refused.
    fn finish(&mut self, done: Self::Done) -> Result<(), Self::Done>
        ensures job { job self.new ≡ job self.old }
        ensures closed { is_closed self.new ≡ is_closed self.old }
        ensures kept { OnOk result (left self.old ≡ left self.new + 1) }
        ensures refused { OnErr result (left self.new ≡ left self.old) };

    /// Gives back work that wasn't done: its piece is ready again.
    fn give_back(&mut self, work: Self::Work)
        ensures job { job self.new ≡ job self.old }
        ensures closed { is_closed self.new ≡ is_closed self.old }
        ensures left { left self.new ≡ left self.old };

    /// Each piece that is out is ready again.
    fn reclaim(&mut self)
        ensures job { job self.new ≡ job self.old }
        ensures closed { is_closed self.new ≡ is_closed self.old }
        ensures left { left self.new ≡ left self.old }
        ensures idle { is_idle self.new };

    /// Runs all that is left, here. The result is how many pieces that were.
    ///
    /// # Errors
    ///
    /// [`NoMemory`] where an allocation is refused.
    fn drain(&mut self) -> Result<u64, NoMemory>
        requires closed { is_closed self.old ≡ true }
        requires idle { is_idle self.old }
        ensures job { job self.new ≡ job self.old }
        ensures closed { is_closed self.new ≡ is_closed self.old }
        ensures finished { OnOk result (left self.new ≡ 0) }
        ensures count { IfOk result (λ drained. drained ≡ left self.old) };
}

/// A machine into which batches can be loaded while its pieces are taken.
pub trait Loads: Machine {
    // a job with one batch more
    ghost with_batch: { Self → ABatch → Self };

    // the number of the first transaction of a job's next batch
    ghost next_txn: { Self → ℕ };

    // the types of the parameters of a job's procedures, and those of its tables
    ghost params: { Self → List (List ATy) };

    ghost tables: { Self → List ATableTypes };

    /// Loads a batch: its pieces aren't finished.
    ///
    /// # Errors
    ///
    /// [`NoMemory`] where they find no room. Nothing is changed.
    fn load(&mut self, batch: Batch) -> Result<(), NoMemory>
        requires open { Self.is_closed self.old ≡ false }
        requires first { batch.first ≡ next_txn (Self.job self.old) }
        requires fits { AllByRecursion (TxnFitsTypes (params (Self.job self.old)) (tables (Self.job self.old))) batch.txns }
        requires numbers { batch.first + length batch.txns < 2 ^ 64 }
        ensures job { OnOk result (Self.job self.new ≡ with_batch (Self.job self.old) batch) }
        ensures closed { Self.is_closed self.new ≡ Self.is_closed self.old }
        ensures next { OnOk result (next_txn (Self.job self.new) ≡ batch.first + length batch.txns) }
        ensures types { OnOk result ((params (Self.job self.new) ≡ params (Self.job self.old)) × (tables (Self.job self.new) ≡ tables (Self.job self.old))) }
        ensures left { OnOk result (Self.left self.new + Self.size (Self.job self.old) ≡ Self.left self.old + Self.size (Self.job self.new)) }
        ensures refused { OnErr result ((Self.job self.new ≡ Self.job self.old) × (Self.left self.new ≡ Self.left self.old)) };
}
