// A machine of pieces in chains: each piece waits for the one before it in its chain.
ghost use Rattle.std.specs.Prelude.{◌≡◌, ◌+◌, ◌<◌, ℕ, Bool, true, IfOk};
ghost use Rattle.std.specs.Coded.{coded×, coded_ℕ, coded_bool};

use crate::gates::{Counters, zeros};
use pac_base::NoMemory;
use pac_ops::PieceId;
use pac_workers::{Machine, Ready, Taken};
use std::alloc::Global;
use std::marker::Model;
use std::sync::Arc;
use std::sync::atomic::Ordering;

/// How many chains there are, how long each is, how many turns each piece takes, and which pieces are run on the spot: each
/// `spot_every`-th, or none for 0.
#[derive(Clone, Copy)]
pub struct Pattern {
    pub chains: u16,
    pub length: u32,
    pub turns: u32,
    pub spot_every: u64,
}

impl Pattern {
    /// How many pieces there are.
    pub fn pieces(&self) -> u64 {
        u64::from(self.chains).saturating_mul(u64::from(self.length))
    }

    /// Whether a piece is handed out, and isn't run on the spot. The first pieces of all chains come first, then the second ones.
    pub fn is_handed_out(&self, piece: u64) -> bool {
        self.spot_every == 0 || piece % self.spot_every != 0
    }

    // The number of a piece of a chain.
    fn number(&self, chain: u16, at: u32) -> u64 {
        u64::from(at)
            .saturating_mul(u64::from(self.chains))
            .saturating_add(u64::from(chain))
    }
}

/// How far a chain is: how many of its pieces are finished, whether the next one is out, and the value that the finished ones left.
#[derive(Clone, Copy)]
struct Chain {
    finished: u32,
    is_out: bool,
    value: u64,
}

/// A piece that is handed out: where it stands, how many turns it takes, the value before it, whether it will find no memory, and
/// where its run is counted.
#[derive(Drop)]
pub struct Task {
    chain: u16,
    at: u32,
    number: u64,
    turns: u32,
    value: u64,
    is_starved: bool,
    runs: Counters,
}

/// A piece with the value after it.
#[derive(Drop)]
pub struct TaskDone {
    task: Task,
    value: u64,
}

/// The pieces of some chains. Contracts see how many there are, how many aren't finished, and whether no more come.
#[derive(Drop)]
pub struct Chains {
    pattern: Pattern,
    chains: Vec<Chain>,
    total: u64,
    left: u64,
    is_closed: bool,
    starved: u32,
    refused: u32,
    runs: Counters,
}

impl Model for Chains {
    ghost Value = { ℕ × (ℕ × Bool) };

    ghost view = { λ c. (c.total, (c.left, c.is_closed)) };
}

impl Chains {
    /// No piece is taken.
    pub fn new(alloc: Global, pattern: Pattern) -> Result<Chains, NoMemory>
        ensures { IfOk result (λ machine. machine.1.1 ≡ true) }
    {
        Ok(Chains {
            pattern,
            chains: begun(alloc, pattern.chains)?,
            total: pattern.pieces(),
            left: pattern.pieces(),
            is_closed: true,
            starved: 0,
            refused: 0,
            runs: Arc::new(alloc, zeros(alloc, pattern.pieces())?)?,
        })
    }

    /// How often each piece was run by a worker: one more owner of the counters.
    pub fn runs(&self) -> Result<Counters, NoMemory> {
        Ok(Arc::try_clone(&self.runs)?)
    }

    /// The next `pieces` pieces that are handed out, or run on their turn, will find no memory.
    pub fn starve(&mut self, pieces: u32)
        ensures { self.new ≡ self.old }
    {
        self.starved = pieces;
    }

    /// The next `results` results that are handed in will be refused.
    pub fn refuse(&mut self, results: u32)
        ensures { self.new ≡ self.old }
    {
        self.refused = results;
    }

    /// Whether each chain has the value that its pieces leave one after another.
    pub fn is_right(&self) -> bool {
        let mut value = 0;
        for at in 0..self.pattern.length {
            value = value_after(value, at, self.pattern.turns);
        }
        for chain in &self.chains {
            if chain.value != value {
                return false;
            }
        }
        true
    }

    // The chain whose next piece comes first of those that are ready.
    fn first_ready(&self) -> Option<(u16, Chain)> {
        let mut first: Option<(u16, Chain)> = None;
        for number in 0..self.pattern.chains {
            let Some(chain) = self.chains.get(usize::from(number)) else {
                break;
            };
            let comes_first = match &first {
                Some((_, other)) => chain.finished < other.finished,
                None => true,
            };
            if comes_first && is_ready(chain, self.pattern.length) {
                first = Some((number, *chain));
            }
        }
        first
    }

    // A worker runs this piece.
    fn count_run(&self, number: u64) {
        count_run(&self.runs, number);
    }

    // The next piece of a chain is out, or isn't.
    fn set_out(&mut self, chain: u16, is_out: bool)
        ensures { self.new ≡ self.old }
    {
        if let Some(chain) = self.chains.get_mut(usize::from(chain)) {
            chain.is_out = is_out;
        }
    }

    // The next piece of a chain is finished, and left this value.
    fn finish_next(&mut self, chain: u16, value: u64)
        requires { 0 < self.old.1.0 }
        ensures { (self.new.0 ≡ self.old.0) × (self.new.1.0 + 1 ≡ self.old.1.0) × (self.new.1.1 ≡ self.old.1.1) }
    {
        if let Some(chain) = self.chains.get_mut(usize::from(chain)) {
            chain.finished = chain.finished.saturating_add(1);
            chain.is_out = false;
            chain.value = value;
        }
        self.left -= 1;
    }
}

impl Machine for Chains {
    type Work = Task;

    type Done = TaskDone;

    ghost job = { λ m. (m.0, (0, true)) };

    ghost coded = { coded× coded_ℕ (coded× coded_ℕ coded_bool) };

    ghost is_closed = { λ m. m.1.1 };

    ghost left = { λ m. m.1.0 };

    ghost size = { λ m. m.0 };

    ghost is_idle = { λ _. Unit {0} };

    ghost can_run = { λ _. Unit {0} };

    ghost is_next = { λ _ _. Unit {0} };

    fn unfinished(&self) -> u64 {
        self.left
    }

    fn ready(&self) -> Ready {
        let length = self.pattern.length;
        let mut pieces = 0u64;
        for chain in &self.chains {
            pieces = pieces.saturating_add(u64::from(is_ready(chain, length)));
        }
        Ready {
            pieces,
            weight: pieces.saturating_mul(u64::from(self.pattern.turns)),
        }
    }

    fn piece(work: &Task) -> PieceId {
        PieceId {
            txn: u64::from(work.at),
            block: work.chain,
        }
    }

    fn weight(work: &Task) -> u64 {
        u64::from(work.turns)
    }

    fn run(_: Global, work: Task) -> Result<TaskDone, (Task, NoMemory)> {
        if work.is_starved {
            return Err((work, NoMemory));
        }
        count_run(&work.runs, work.number);
        let value = value_after(work.value, work.at, work.turns);
        Ok(TaskDone { task: work, value })
    }

    fn into_work(done: TaskDone) -> Task {
        let TaskDone { task, value: _ } = done;
        task
    }

    fn close(&mut self) {
        self.is_closed = true;
    }

    fn take(&mut self) -> Result<Taken<Task>, NoMemory> {
        if self.left == 0 && self.is_closed {
            return Ok(Taken::Done);
        }
        let Some((number, chain)) = self.first_ready() else {
            return Ok(Taken::NotReady);
        };
        let turns = self.pattern.turns;
        let piece = self.pattern.number(number, chain.finished);
        if self.left > 0 && !self.pattern.is_handed_out(piece) {
            self.count_run(piece);
            self.finish_next(number, value_after(chain.value, chain.finished, turns));
            return Ok(Taken::Ran);
        }
        let runs = self.runs()?;
        let is_starved = self.starved > 0;
        self.starved = self.starved.saturating_sub(1);
        self.set_out(number, true);
        Ok(Taken::Work(Task {
            chain: number,
            at: chain.finished,
            number: piece,
            turns,
            value: chain.value,
            is_starved,
            runs,
        }))
    }

    fn coming(&mut self) -> Result<Option<PieceId>, NoMemory> {
        match self.first_ready() {
            Some((number, chain)) => Ok(Some(PieceId {
                txn: u64::from(chain.finished),
                block: number,
            })),
            None => Ok(None),
        }
    }

    fn run_next(&mut self) -> Result<Option<PieceId>, NoMemory> {
        if self.left == 0 {
            return Ok(None);
        }
        let Some((number, chain)) = self.first_ready() else {
            return Ok(None);
        };
        if self.starved > 0 {
            self.starved -= 1;
            return Err(NoMemory);
        }
        self.count_run(self.pattern.number(number, chain.finished));
        let turns = self.pattern.turns;
        self.finish_next(number, value_after(chain.value, chain.finished, turns));
        Ok(Some(PieceId {
            txn: u64::from(chain.finished),
            block: number,
        }))
    }

    fn finish(&mut self, done: TaskDone) -> Result<(), TaskDone> {
        if self.refused > 0 || self.left == 0 {
            self.refused = self.refused.saturating_sub(1);
            return Err(done);
        }
        let is_own = match self.chains.get(usize::from(done.task.chain)) {
            Some(chain) => chain.is_out && chain.finished == done.task.at,
            None => false,
        };
        if !is_own {
            return Err(done);
        }
        self.finish_next(done.task.chain, done.value);
        Ok(())
    }

    fn give_back(&mut self, work: Task) {
        self.set_out(work.chain, false);
    }

    fn reclaim(&mut self) {
        reclaim_all(self.chains.as_mut_slice());
    }

    fn drain(&mut self) -> Result<u64, NoMemory> {
        let drained = self.left;
        drain_all(self.chains.as_mut_slice(), self.pattern);
        self.left = 0;
        Ok(drained)
    }
}

// A piece is run once more.
fn count_run(runs: &Counters, number: u64) {
    if let Some(count) = runs.get(number as usize) {
        count.fetch_add(1, Ordering::SeqCst);
    }
}

// `chains` chains of which nothing is finished.
fn begun(alloc: Global, chains: u16) -> Result<Vec<Chain>, NoMemory> {
    let mut begun = Vec::new(alloc);
    for _ in 0..chains {
        begun.push(Chain {
            finished: 0,
            is_out: false,
            value: 0,
        })?;
    }
    Ok(begun)
}

// Whether the next piece of a chain may be taken.
fn is_ready(chain: &Chain, length: u32) -> bool {
    !chain.is_out && chain.finished < length
}

// No piece is out.
fn reclaim_all(chains: &mut [Chain]) {
    for chain in chains {
        chain.is_out = false;
    }
}

// What is left of each chain is run.
fn drain_all(chains: &mut [Chain], pattern: Pattern) {
    for chain in chains {
        let from = chain.finished;
        for at in from..pattern.length {
            chain.value = value_after(chain.value, at, pattern.turns);
        }
        chain.finished = pattern.length;
    }
}

// The value after a piece.
fn value_after(value: u64, at: u32, turns: u32) -> u64 {
    let mut value = value
        .wrapping_mul(31)
        .wrapping_add(u64::from(at))
        .wrapping_add(1);
    for turn in 0..turns {
        value = value.rotate_left(5) ^ u64::from(turn);
    }
    value
}
