// Gates that tell who passed.
use pac_base::NoMemory;
use pac_ops::Gate;
use std::alloc::Global;
use std::sync::Arc;
use std::sync::atomic::{AtomicU64, Ordering};
use std::thread;

/// Holds the first that enters until another worker enters with another piece, for at most 1,000,000 turns. It tells workers and
/// pieces apart by their numbers: workers below 256, transactions below 2^32.
#[derive(Drop)]
pub struct Meeting {
    first: AtomicU64,
    others: AtomicU64,
    given_up: AtomicU64,
}

impl Meeting {
    /// Nobody has entered.
    pub fn new() -> Meeting {
        Meeting {
            first: AtomicU64::new(0),
            others: AtomicU64::new(0),
            given_up: AtomicU64::new(0),
        }
    }

    /// Whether another worker entered with another piece while the first was held.
    pub fn have_met(&self) -> bool {
        self.others.load(Ordering::SeqCst) > 0 && self.given_up.load(Ordering::SeqCst) == 0
    }

    // Waits for another.
    fn hold(&self) {
        for _ in 0..1_000_000u32 {
            if self.others.load(Ordering::SeqCst) > 0 {
                return;
            }
            thread::yield_now();
        }
        self.given_up.store(1, Ordering::SeqCst);
    }
}

impl Gate for Meeting {
    fn enter(&self, worker: u32, txn: u64, block: u16) {
        let piece = number_of(txn, block) % WORKERS_FROM;
        let mine = u64::from(worker)
            .saturating_add(1)
            .wrapping_mul(WORKERS_FROM)
            .wrapping_add(piece);
        match self
            .first
            .compare_exchange(0, mine, Ordering::SeqCst, Ordering::SeqCst)
        {
            Ok(_) => self.hold(),
            Err(first) => {
                if first / WORKERS_FROM != mine / WORKERS_FROM && first % WORKERS_FROM != piece {
                    self.others.fetch_add(1, Ordering::SeqCst);
                }
            }
        }
    }
}

// Where the number of a worker stands above that of a piece.
const WORKERS_FROM: u64 = 281_474_976_710_656; // 2^48

// One number for a piece.
fn number_of(txn: u64, block: u16) -> u64 {
    txn.wrapping_mul(65_536).wrapping_add(u64::from(block))
}

/// Writes down which pieces enter, in order.
#[derive(Drop)]
pub struct Logging {
    next: AtomicU64,
    lines: Vec<AtomicU64>,
}

impl Logging {
    /// Nobody has entered. There is room for `room` entries.
    pub fn new(alloc: Global, room: u64) -> Result<Logging, NoMemory> {
        Ok(Logging {
            next: AtomicU64::new(0),
            lines: zeros(alloc, room)?,
        })
    }

    /// How many entered.
    pub fn count(&self) -> u64 {
        self.next.load(Ordering::SeqCst)
    }

    /// Whether these entered in this order, by transaction and block, and no others.
    pub fn are(&self, expected: &[(u64, u16)]) -> bool {
        if self.count() != expected.len() as u64 {
            return false;
        }
        for (line, (txn, block)) in self.lines.iter().zip(expected) {
            if line.load(Ordering::SeqCst) != number_of(*txn, *block) {
                return false;
            }
        }
        true
    }

    /// How often this piece entered.
    pub fn times(&self, txn: u64, block: u16) -> u64 {
        let mut times = 0u64;
        for line in &self.lines {
            if line.load(Ordering::SeqCst) == number_of(txn, block) {
                times = times.saturating_add(1);
            }
        }
        times
    }
}

impl Gate for Logging {
    fn enter(&self, _worker: u32, txn: u64, block: u16) {
        let at = self.next.fetch_add(1, Ordering::SeqCst);
        if let Some(line) = self.lines.get(at as usize) {
            line.store(number_of(txn, block), Ordering::SeqCst);
        }
    }
}

/// Counters that a machine and a gate share, one for each piece.
pub type Counters = Arc<Vec<AtomicU64>, Global>;

/// Counts how often each piece enters and with how many each worker does, and sees whether one enters that was run before.
#[derive(Drop)]
pub struct Counting {
    chains: u64,
    pieces: Vec<AtomicU64>,
    workers: Vec<AtomicU64>,
    runs: Counters,
    late: AtomicU64,
}

impl Counting {
    /// Nobody has entered. A piece was run where its counter of `runs` isn't 0. The pieces of `chains` chains are numbered through:
    /// the first ones of all chains, then the second ones.
    pub fn new(
        alloc: Global,
        chains: u16,
        pieces: u64,
        workers: u32,
        runs: Counters,
    ) -> Result<Counting, NoMemory> {
        Ok(Counting {
            chains: u64::from(chains),
            pieces: zeros(alloc, pieces)?,
            workers: zeros(alloc, u64::from(workers))?,
            runs,
            late: AtomicU64::new(0),
        })
    }

    /// How often each piece entered.
    pub fn pieces(&self) -> &[AtomicU64] {
        self.pieces.as_slice()
    }

    /// With how many pieces this worker entered.
    pub fn by_worker(&self, worker: u64) -> u64 {
        match self.workers.get(worker as usize) {
            Some(count) => count.load(Ordering::SeqCst),
            None => 0,
        }
    }

    /// Whether each piece entered before it was run.
    pub fn none_was_late(&self) -> bool {
        self.late.load(Ordering::SeqCst) == 0
    }
}

impl Gate for Counting {
    fn enter(&self, worker: u32, txn: u64, block: u16) {
        let at = txn.wrapping_mul(self.chains).wrapping_add(u64::from(block));
        if let Some(count) = self.pieces.get(at as usize) {
            count.fetch_add(1, Ordering::SeqCst);
        }
        if let Some(count) = self.workers.get(worker as usize) {
            count.fetch_add(1, Ordering::SeqCst);
        }
        if let Some(runs) = self.runs.get(at as usize) {
            if runs.load(Ordering::SeqCst) > 0 {
                self.late.fetch_add(1, Ordering::SeqCst);
            }
        }
    }
}

/// `number` counters, each at 0.
pub fn zeros(alloc: Global, number: u64) -> Result<Vec<AtomicU64>, NoMemory> {
    let mut zeros = Vec::new(alloc);
    for _ in 0..number {
        zeros.push(AtomicU64::new(0))?;
    }
    Ok(zeros)
}
