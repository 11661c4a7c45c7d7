// What a worker holds outside the lock.
ghost use Rattle.std.specs.Prelude.{◌≡◌, All};

use crate::machine::Machine;
use pac_base::NoMemory;
use pac_ops::Gate;
use std::alloc::Global;
use std::collections::VecDeque;

/// What a worker holds outside the lock: work that it took and didn't run, and results that it didn't hand in.
#[derive(Drop)]
pub(crate) struct Hand<M: Machine> {
    pub works: VecDeque<M::Work>,
    pub dones: VecDeque<M::Done>,
    /// Whether it ever ran a piece.
    pub has_run: bool,
}

impl<M: Machine> Hand<M> {
    /// It holds nothing. It takes memory for `pieces` pieces.
    pub fn new(alloc: Global, pieces: usize) -> Result<Hand<M>, NoMemory> {
        Ok(Hand {
            works: VecDeque::with_capacity(alloc, pieces)?,
            dones: VecDeque::with_capacity(alloc, pieces)?,
            has_run: false,
        })
    }

    /// Whether it holds nothing.
    pub fn is_empty(&self) -> bool {
        self.works.is_empty() && self.dones.is_empty()
    }

    /// Runs what was taken, in order, as long as there is memory. The rest stays as it was taken.
    pub fn run_all<G: Gate>(&mut self, alloc: Global, gate: &G, worker: u32)
        requires { All M.can_run self.old.works.items }
    {
        self.has_run = true;
        while let Some(work) = self.works.pop_front() {
            let piece = M::piece(&work);
            gate.enter(worker, piece.txn, piece.block);
            if let Err(work) = self.run(alloc, work) {
                self.works.push_front_reserved(work);
                return;
            }
        }
    }

    // Runs a piece, and holds its result. `Err`: the work, for which there was no memory.
    fn run(&mut self, alloc: Global, work: M::Work) -> Result<(), M::Work>
        requires { M.can_run work }
        ensures { self.new.works ≡ self.old.works }
    {
        let done = M::run(alloc, work).map_err(|refused| refused.0)?;
        self.dones
            .push_back(done)
            .map_err(|refused| M::into_work(refused.value))
    }
}
