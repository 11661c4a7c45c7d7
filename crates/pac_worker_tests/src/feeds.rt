// Feeds of batches that are at hand.
ghost use Rattle.std.specs.Prelude.{◌≡◌, ◌≤◌, ◌++◌, false, true, map, IfOk};
ghost use Rattle.std.specs.VecDeque.{deque_len};
ghost use Rattle.pac_commute.specs.Loads.{next_in_job};

use crate::executions::{one_table, two_puts};
use pac_base::{Exact, NoMemory};
use pac_core::Core;
use pac_ops::{Batch, Gate};
use pac_plan::Plan;
use pac_tables::{OrderedRows, Rows};
use pac_workers::{Feed, GhostList, replay_feed};
use std::alloc::Global;
use std::collections::VecDeque;
use std::sync::Wait;
use std::thread::Threads;

/// Gives batches as long as they fit a plan, and their numbers run on.
#[derive(Drop)]
pub struct BatchQueue {
    plan: Plan,
    next: u64,
    rest: VecDeque<Batch>,
    so_far: GhostList<Batch>,
}

impl Feed for BatchQueue {
    ghost so_far = { λ queue. queue.so_far.items };

    ghost gives = { λ old given new. new.so_far.items ≡ old.so_far.items ++ given };

    ghost is_over = { λ _. true };

    ghost room = { λ queue. deque_len queue.rest };

    ghost next_txn = { λ queue. queue.next };

    ghost params = { λ queue. map (λ program. program.params) queue.plan.programs };

    ghost tables = { λ queue. queue.plan.tables };

    fn next(&mut self) -> Option<Batch> {
        let batch = self.rest.pop_front()?;
        let next = batch.first.checked_add(batch.txns.items().len() as u64)?;
        if batch.first != self.next || !self.plan.fits_all(batch.txns.items()) {
            return None;
        }
        self.next = next;
        self.so_far = self.so_far.with(&batch);
        Some(batch)
    }

    fn gives_none(&self) {}
}

/// A feed of two batches of two rows, or of none.
pub fn two_batches(alloc: Global, plan: &Plan, is_empty: bool) -> Result<BatchQueue, NoMemory>
    ensures { IfOk result (λ queue. (queue.plan ≡ plan.now) × (queue.next ≡ 1)) }
{
    let mut rest = VecDeque::with_capacity(alloc, 2)?;
    if !is_empty {
        rest.push_back(two_puts(alloc, 1, (7, 1), (8, 2))?)?;
        rest.push_back(two_puts(alloc, 3, (7, 3), (9, 4))?)?;
    }
    Ok(BatchQueue {
        plan: plan.copy(alloc)?,
        next: 1,
        rest,
        so_far: GhostList::new(),
    })
}

/// What a replay that was fed leaves: how many pieces its workers finished and how many were drained after them, whether its core is
/// closed, and which number comes next in it.
#[derive(Clone, Copy, Debug, PartialEq, Eq)]
pub struct AfterFeed {
    pub finished: u64,
    pub drained: u64,
    pub is_closed: bool,
    pub next_txn: u64,
}

/// What an empty core is left as by `workers` workers that are fed from a queue.
pub fn fed<G: Gate + Sync, H: Threads + Wait + Sync>(
    rt: &H,
    alloc: Global,
    workers: u32,
    is_empty: bool,
    gate: &G,
) -> Result<AfterFeed, NoMemory>
    requires { 1 ≤ workers }
{
    let plan = one_table(alloc)?;
    let mut feed = two_batches(alloc, &plan, is_empty)?;
    let core = Core::new(alloc, plan, 1, OrderedRows::new(alloc, 1)?)?;
    left_by(rt, alloc, workers, core, &mut feed, gate)
}

// What a core is left as by `workers` workers that are fed from a queue.
fn left_by<R: Rows + Send, G: Gate + Sync, H: Threads + Wait + Sync>(
    rt: &H,
    alloc: Global,
    workers: u32,
    core: Core<R>,
    feed: &mut BatchQueue,
    gate: &G,
) -> Result<AfterFeed, NoMemory>
    requires workers { 1 ≤ workers }
    requires open { core.is_closed ≡ false }
    requires next { feed.old.next ≡ next_in_job core.job core.batches }
    requires plan { feed.old.plan ≡ core.job.parts }
{
    let replayed = replay_feed(rt, alloc, workers, core, feed, gate)?;
    let finished = replayed
        .tallies
        .as_slice()
        .iter()
        .fold(0, |sum: u64, count| sum.saturating_add(*count));
    Ok(AfterFeed {
        finished,
        drained: replayed.drained,
        is_closed: replayed.machine.is_closed(),
        next_txn: replayed.machine.next_txn(),
    })
}
