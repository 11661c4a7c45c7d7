// Tests of what no clause says: that threads run, wait, wake each other and end.
use crate::chains::{Chains, Pattern};
use crate::executions::leaves_the_last;
use crate::feeds::{AfterFeed, fed};
use crate::gates::{Counting, Logging, Meeting};
use pac_base::NoMemory;
use pac_ops::OpenGate;
use pac_workers::replay;
use std::alloc::Global;
use std::sync::Wait;
use std::sync::atomic::Ordering;
use std::thread::Threads;

// Two workers enter the gate, where there is work for both: the first waits there until the other enters with another piece.
#[test]
fn two_workers_meet(rt: HostRuntime) -> Result<(), NoMemory> {
    let alloc: Global = rt.alloc();
    for round in 0..200u16 {
        let pattern = Pattern {
            chains: 2 + round % 5,
            length: 3,
            turns: if round % 2 == 0 { 0 } else { 500 },
            spot_every: 0,
        };
        let gate = Meeting::new();
        let replayed = replay(&rt, alloc, 2, Chains::new(alloc, pattern)?, &gate)?;
        assert!(rt; gate.have_met(), "round {round}");
        assert_eq!(rt; sum(replayed.tallies.as_slice()), pattern.pieces());
        assert_eq!(rt; replayed.drained, 0);
        assert!(rt; replayed.machine.is_right());
    }
    Ok(())
}

// The transactions and blocks of pieces, in order.
const IN_ORDER: &[(u64, u16)] = &[
    (0, 0),
    (0, 1),
    (0, 2),
    (1, 0),
    (1, 1),
    (1, 2),
    (2, 0),
    (2, 1),
    (2, 2),
];

// One worker runs the pieces in their order. It passes the gate with those too that a take would run on the spot.
#[test]
fn one_worker_order(rt: HostRuntime) -> Result<(), NoMemory> {
    let alloc: Global = rt.alloc();
    let pattern = Pattern {
        chains: 3,
        length: 3,
        turns: 200,
        spot_every: 4,
    };
    let gate = Logging::new(alloc, 16)?;
    let replayed = replay(&rt, alloc, 1, Chains::new(alloc, pattern)?, &gate)?;
    assert!(rt; gate.are(IN_ORDER));
    assert_eq!(rt; replayed.tallies.as_slice().len(), 1);
    assert_eq!(rt; sum(replayed.tallies.as_slice()), 9);
    assert_eq!(rt; replayed.drained, 0);
    assert!(rt; replayed.machine.is_right());
    Ok(())
}

// However many workers there are, and however heavy the pieces: each piece is run once, in the order of its chain, after it passed
// the gate, and is in the tally of the worker that passed with it.
#[test]
fn each_piece_once(rt: HostRuntime) -> Result<(), NoMemory> {
    let alloc: Global = rt.alloc();
    for workers in [1u32, 2, 4, 16, 64] {
        for (chains, length, turns, spot_every) in [
            (0u16, 0u32, 0u32, 0u64),
            (1, 1, 0, 0),
            (1, 400, 100, 0),
            (64, 40, 0, 0),
            (64, 40, 500, 0),
            (5, 100, 300, 7),
        ] {
            let pattern = Pattern {
                chains,
                length,
                turns,
                spot_every,
            };
            assert!(rt;
                runs_each_once(&rt, alloc, workers, pattern)?,
                "{workers} workers, {chains} chains of {length}"
            );
        }
    }
    Ok(())
}

// Whether so many workers, one at least, run each piece once.
fn runs_each_once<H: Threads + Wait + Sync>(
    rt: &H,
    alloc: Global,
    workers: u32,
    pattern: Pattern,
) -> Result<bool, NoMemory> {
    if workers == 0 {
        return Ok(false);
    }
    let machine = Chains::new(alloc, pattern)?;
    let runs = machine.runs()?;
    let gate = Counting::new(alloc, pattern.chains, pattern.pieces(), workers, runs)?;
    let replayed = replay(rt, alloc, workers, machine, &gate)?;
    let tallies = replayed.tallies.as_slice();
    Ok(
        is_each_once(&gate, pattern, workers)
            && gate.none_was_late()
            && are_counted(&gate, pattern, tallies)
            && tallies.len() == workers as usize
            && sum(tallies) == pattern.pieces()
            && replayed.drained == 0
            && replayed.machine.is_right(),
    )
}

// Whether each piece that `workers` workers pass the gate with entered once, and no other. One worker passes it with each piece,
// more with those that are handed out.
fn is_each_once(gate: &Counting, pattern: Pattern, workers: u32) -> bool {
    let pieces = gate.pieces();
    for at in 0..pieces.len() {
        let passes = workers == 1 || pattern.is_handed_out(at as u64);
        if pieces[at].load(Ordering::SeqCst) != u64::from(passes) {
            return false;
        }
    }
    true
}

// Whether each worker entered with the pieces in its tally: with all of them where none is run on the spot, else with no more.
fn are_counted(gate: &Counting, pattern: Pattern, tallies: &[u64]) -> bool {
    let all_enter = tallies.len() == 1 || pattern.spot_every == 0;
    for worker in 0..tallies.len() {
        let entered = gate.by_worker(worker as u64);
        if entered > tallies[worker] || (all_enter && entered != tallies[worker]) {
            return false;
        }
    }
    true
}

// A worker that finds no memory, or whose result is refused, gives back what it took and ends. The others do what is left; what all
// leave is drained. One worker hands no result in, so that none is refused.
#[test]
fn workers_that_end_give_back(rt: HostRuntime) -> Result<(), NoMemory> {
    let alloc: Global = rt.alloc();
    let pattern = Pattern {
        chains: 8,
        length: 20,
        turns: 300,
        spot_every: 0,
    };
    for (workers, starved, refused) in [
        (1u32, 1u32, 0u32),
        (1, 0, 1),
        (4, 1, 0),
        (4, 0, 1),
        (4, 2, 1),
        (4, u32::MAX, 0),
        (4, 0, u32::MAX),
        (16, 5, 5),
    ] {
        let mut machine = Chains::new(alloc, pattern)?;
        machine.starve(starved);
        machine.refuse(refused);
        let replayed = replay(&rt, alloc, workers, machine, &OpenGate)?;
        let counted = sum(replayed.tallies.as_slice());
        assert_eq!(rt; counted.saturating_add(replayed.drained), pattern.pieces());
        assert!(rt; replayed.machine.is_right());
        let ended = if workers == 1 {
            starved
        } else {
            starved.saturating_add(refused)
        };
        if ended < workers {
            assert_eq!(rt; replayed.drained, 0, "{workers} workers, {ended} ended");
        }
        if ended == u32::MAX || (workers == 1 && ended > 0) {
            assert_eq!(rt; counted, 0);
        }
    }
    Ok(())
}

// However many workers there are, of two batches the rows are left that are put last.
#[test]
fn last_rows_are_left(rt: HostRuntime) -> Result<(), NoMemory> {
    let alloc: Global = rt.alloc();
    for workers in [1u32, 4] {
        assert!(rt; leaves_the_last(&rt, alloc, workers)?, "{workers} workers");
    }
    Ok(())
}

// However many workers are fed, they finish each piece of what was given. Where nothing is given, the core comes back empty and closed.
#[test]
fn what_is_fed_is_finished(rt: HostRuntime) -> Result<(), NoMemory> {
    let alloc: Global = rt.alloc();
    for workers in [1u32, 2, 4] {
        assert_eq!(rt;
            fed(&rt, alloc, workers, false, &OpenGate)?,
            ALL_FED,
            "{workers} workers"
        );
        assert_eq!(rt;
            fed(&rt, alloc, workers, true, &OpenGate)?,
            NONE_FED,
            "{workers} workers"
        );
    }
    Ok(())
}

const ALL_FED: AfterFeed = AfterFeed {
    finished: 4,
    drained: 0,
    is_closed: true,
    next_txn: 5,
};

const NONE_FED: AfterFeed = AfterFeed {
    finished: 0,
    drained: 0,
    is_closed: true,
    next_txn: 1,
};

// Two workers that are fed enter the gate too: the first waits there for the second.
#[test]
fn two_fed_workers_meet(rt: HostRuntime) -> Result<(), NoMemory> {
    let alloc: Global = rt.alloc();
    for round in 0..100u16 {
        let gate = Meeting::new();
        assert_eq!(rt; fed(&rt, alloc, 2, false, &gate)?, ALL_FED, "round {round}");
        assert!(rt; gate.have_met(), "round {round}");
    }
    Ok(())
}

// One worker that is fed runs the pieces in their order.
#[test]
fn one_fed_worker_order(rt: HostRuntime) -> Result<(), NoMemory> {
    let alloc: Global = rt.alloc();
    let gate = Logging::new(alloc, 16)?;
    assert_eq!(rt; fed(&rt, alloc, 1, false, &gate)?, ALL_FED);
    assert!(rt; gate.are(FED_IN_ORDER));
    Ok(())
}

// The transactions of the two batches, each in the only block.
const FED_IN_ORDER: &[(u64, u16)] = &[(1, 0), (2, 0), (3, 0), (4, 0)];

// The numbers, added up.
fn sum(numbers: &[u64]) -> u64 {
    numbers
        .iter()
        .fold(0, |sum: u64, number| sum.saturating_add(*number))
}
