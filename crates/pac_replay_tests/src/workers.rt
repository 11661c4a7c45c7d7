// Workers over the core of the bank's three batches: each piece is counted once, and passes the gate once.
use crate::cores::script_core;
use crate::ends::{hold, outcome_of};
use crate::takes::{AFTER_THREE, THREE};
use pac_base::NoMemory;
use pac_core::Core;
use pac_ops::Gate;
use pac_script::BANK;
use pac_tables::Rows;
use pac_worker_tests::gates::Logging;
use pac_workers::replay;
use std::alloc::Global;
use std::sync::Wait;
use std::thread::Threads;

/// What workers leave of the three batches.
#[derive(Clone, Copy, Debug, PartialEq, Eq)]
struct Counted {
    tallies: usize,
    finished: u64,
    drained: u64,
    has_right_tables: bool,
}

// What `workers` workers leave of a core.
fn replayed_by<R: Rows + Send, G: Gate + Sync, H: Threads + Wait + Sync>(
    rt: &H,
    alloc: Global,
    workers: u32,
    mut core: Core<R>,
    gate: &G,
) -> Option<Counted> {
    if workers == 0 {
        return None;
    }
    core.close();
    let replayed = replay(rt, alloc, workers, core, gate).ok()?;
    let tallies = replayed.tallies.as_slice();
    let finished = tallies
        .iter()
        .fold(0, |sum: u64, tally| sum.saturating_add(*tally));
    let counted = Counted {
        tallies: tallies.len(),
        finished,
        drained: replayed.drained,
        has_right_tables: false,
    };
    let outcome = outcome_of(replayed.machine)?;
    Some(Counted {
        has_right_tables: hold(&outcome.tables, AFTER_THREE) && outcome.first_note.is_none(),
        ..counted
    })
}

// The pieces of the three batches: a deposit's, a record's and a transfer's, in the order in which one worker runs them.
const PIECES: &[(u64, u16)] = &[
    (1, 2),
    (1, 3),
    (1, 4),
    (1, 5),
    (2, 0),
    (3, 0),
    (3, 1),
    (3, 2),
    (3, 4),
];

// Whether each of the pieces passed once, and no other; one worker passes with them in their order.
fn are_passed(gate: &Logging, workers: u32) -> bool {
    for (txn, block) in PIECES {
        if gate.times(*txn, *block) != 1 {
            return false;
        }
    }
    gate.count() == PIECES.len() as u64 && (workers > 1 || gate.are(PIECES))
}

#[test]
fn workers_count_each_piece_of_three_batches_once(rt: HostRuntime) -> Result<(), NoMemory> {
    let alloc: Global = rt.alloc();
    for workers in [1u32, 2, 4, 16] {
        for round in 0..20u32 {
            let gate = Logging::new(alloc, 32)?;
            let left = match script_core(alloc, BANK, THREE) {
                Some(core) => replayed_by(&rt, alloc, workers, core, &gate),
                None => None,
            };
            let expected = Counted {
                tallies: workers as usize,
                finished: 9,
                drained: 0,
                has_right_tables: true,
            };
            assert_eq!(rt; left, Some(expected), "{workers} workers, round {round}");
            assert!(rt;
                are_passed(&gate, workers),
                "{workers} workers, round {round}"
            );
        }
    }
    Ok(())
}
