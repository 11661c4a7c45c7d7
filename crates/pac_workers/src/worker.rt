// What a worker does.
ghost use Rattle.std.specs.Prelude.{◌<◌, All};

use crate::guarded::{Guarded, MAX_TAKEN, Next};
use crate::hand::Hand;
use crate::machine::Machine;
use crate::tally::{Lent, Tally};
use pac_ops::Gate;
use std::alloc::Global;
use std::sync::{Condvar, Mutex, Wait};

/// What all workers of a replay share: a monitor, which is a lock and the condition on which they wait under it.
#[derive(Drop)]
pub(crate) struct Monitor<M: Machine, L: Lent> {
    pub guarded: Mutex<Guarded<M, L>>,
    pub changed: Condvar,
    /// How many workers there are.
    pub workers: u32,
}

/// Takes pieces, runs them and hands them in, until all are finished or there is no memory.
pub(crate) fn run_worker<M: Machine, L: Lent, G: Gate, H: Wait>(
    rt: &H,
    alloc: Global,
    monitor: &Monitor<M, L>,
    gate: &G,
    tally: &mut Tally<L>,
) {
    if monitor.workers <= 1 {
        run_alone(rt, monitor, gate, tally);
        return;
    }
    let Ok(mut hand) = Hand::new(alloc, MAX_TAKEN) else {
        return;
    };
    for _ in rt.forever() {
        if !take_turn(rt, monitor, tally, &mut hand) {
            return;
        }
        hand.run_all(alloc, gate, tally.worker);
    }
}

// Runs pieces one after another, each in a hold of the lock, until all are finished or there is no memory. For a worker without others:
// nothing is handed out.
fn run_alone<M: Machine, L: Lent, G: Gate, H: Wait>(
    rt: &H,
    monitor: &Monitor<M, L>,
    gate: &G,
    tally: &mut Tally<L>,
) {
    for _ in rt.forever() {
        let mut guarded = monitor.guarded.lock(rt);
        match guarded.run_here(gate, tally) {
            Next::Run | Next::Take => {}
            Next::Rest => drop(monitor.changed.wait(rt, guarded)),
            Next::End => return,
        }
    }
}

// One hold of the lock, but for rests: hands in what was run, and takes what comes next. Whether there is something to run.
fn take_turn<M: Machine, L: Lent, H: Wait>(
    rt: &H,
    monitor: &Monitor<M, L>,
    tally: &mut Tally<L>,
    hand: &mut Hand<M>,
) -> bool
    requires { 1 < monitor.now.workers }
    ensures { All M.can_run hand.new.works.items }
{
    let mut guarded = monitor.guarded.lock(rt);
    let is_all_kept = guarded.hand_in(tally, hand);
    if !is_all_kept {
        drop(guarded);
        monitor.changed.notify_all();
        return false;
    }
    for _ in rt.forever() {
        match guarded.next(monitor.workers, tally, hand) {
            Next::Run => {
                let is_waking = guarded.is_waking();
                drop(guarded);
                if is_waking {
                    monitor.changed.notify_one();
                }
                return true;
            }
            Next::Take => {}
            Next::Rest => {
                guarded.rest();
                guarded = monitor.changed.wait(rt, guarded);
                guarded.wake();
            }
            Next::End => {
                drop(guarded);
                monitor.changed.notify_all();
                return false;
            }
        }
    }
    unreachable!()
}
