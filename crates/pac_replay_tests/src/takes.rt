// What takes answer, in the order that was worked by hand, and the tables at the end.
use crate::cores::{ADD, script_core};
use crate::ends::{KeyedNumbers, hold, outcome_of};
use crate::steps::{CoreStep, count_right, take};
use pac_core::Core;
use pac_piece::Done;
use pac_script::BANK;
use pac_tables::Rows;
use std::alloc::Global;

/// A script, the steps of its core, and the tables that it leaves, if it is then done.
struct Case {
    name: &'static str,
    catalogue: &'static [u8],
    lines: &'static [u8],
    // The lines of another core, whose first result is among the results at first.
    other: &'static [u8],
    steps: &'static [CoreStep],
    tables: &'static [KeyedNumbers],
}

// The key that is written comes from the row that is read.
pub(crate) const HOP: &[u8] = b"table T(key int, next int);
proc Hop(k int, w int) { read d = T[k].next default 0; put T[d] = (w); }
";

// Three batches: a deposit, a record and a transfer.
pub(crate) const THREE: &[u8] = b"call Deposit(1, 100, 7)
flush
adhoc put Family[1] = (2)
flush
call Transfer(1, 40)
";

/// What the three batches leave.
pub(crate) const AFTER_THREE: &[KeyedNumbers] = &[
    &[(1, 2)],
    &[(1, 60), (2, 40)],
    &[(1, 1)],
    &[(7, 1)],
];

// The bank's blocks are those of its families, their spouses' test, the current accounts, the test of a deposit, the savings
// and the statistics. Edges lead from 0 to 1 and 2, from 1 to 2 and 4, from 2 to 3 and 4, and from 3 to 4.
const CASES: &[Case] = &[
    Case {
        name: "nothing is loaded",
        catalogue: BANK,
        lines: b"",
        other: b"",
        steps: &[
            CoreStep::Left(0),
            CoreStep::Waits,
            CoreStep::Close,
            CoreStep::Ends,
        ],
        tables: &[&[], &[], &[], &[]],
    },
    Case {
        name: "each piece is finished before the next take",
        catalogue: BANK,
        lines: THREE,
        other: b"",
        steps: &[
            CoreStep::Close,
            CoreStep::Left(9),
            CoreStep::Gives(1, 2),
            CoreStep::Finishes(1, 2),
            CoreStep::Gives(1, 3),
            CoreStep::Finishes(1, 3),
            CoreStep::Gives(1, 4),
            CoreStep::Finishes(1, 4),
            CoreStep::Gives(1, 5),
            CoreStep::Finishes(1, 5),
            CoreStep::Gives(2, 0),
            CoreStep::Finishes(2, 0),
            CoreStep::Gives(3, 0),
            CoreStep::Finishes(3, 0),
            CoreStep::Gives(3, 1),
            CoreStep::Finishes(3, 1),
            CoreStep::Gives(3, 2),
            CoreStep::Finishes(3, 2),
            CoreStep::Left(1),
            CoreStep::Gives(3, 4),
            CoreStep::Finishes(3, 4),
            CoreStep::Ends,
        ],
        tables: AFTER_THREE,
    },
    Case {
        name: "what is ready is taken at once, and some is given back",
        catalogue: BANK,
        lines: THREE,
        other: b"",
        steps: &[
            CoreStep::Close,
            CoreStep::Gives(1, 2),
            CoreStep::Gives(1, 5),
            CoreStep::Gives(2, 0),
            CoreStep::Waits,
            CoreStep::Finishes(2, 0),
            CoreStep::Gives(3, 0),
            CoreStep::Waits,
            CoreStep::Finishes(3, 0),
            CoreStep::Gives(3, 1),
            CoreStep::Finishes(3, 1),
            CoreStep::Waits,
            CoreStep::GiveBack(1, 5),
            CoreStep::Left(6),
            CoreStep::Finishes(1, 2),
            CoreStep::Gives(1, 3),
            CoreStep::Gives(1, 5),
            CoreStep::Gives(3, 2),
            CoreStep::Waits,
            CoreStep::GiveBack(1, 3),
            CoreStep::Gives(1, 3),
            CoreStep::Finishes(3, 2),
            CoreStep::Waits,
            CoreStep::Finishes(1, 3),
            CoreStep::Gives(1, 4),
            CoreStep::Waits,
            CoreStep::Finishes(1, 4),
            CoreStep::Gives(3, 4),
            CoreStep::Finishes(3, 4),
            CoreStep::Waits,
            CoreStep::Finishes(1, 5),
            CoreStep::Ends,
        ],
        tables: AFTER_THREE,
    },
    Case {
        name: "batches come until the core is closed",
        catalogue: BANK,
        lines: b"call Deposit(1, 5, 7)\n",
        other: b"",
        steps: &[
            CoreStep::Gives(1, 2),
            CoreStep::Finishes(1, 2),
            CoreStep::Gives(1, 3),
            CoreStep::Finishes(1, 3),
            CoreStep::Gives(1, 4),
            CoreStep::Finishes(1, 4),
            CoreStep::Gives(1, 5),
            CoreStep::Finishes(1, 5),
            CoreStep::Left(0),
            CoreStep::Waits,
            CoreStep::Close,
            CoreStep::Ends,
        ],
        tables: &[&[], &[(1, 5)], &[], &[(7, 1)]],
    },
    Case {
        name: "the result of another deposit is foreign",
        catalogue: BANK,
        lines: b"call Deposit(1, 5, 7)\n",
        other: b"call Deposit(1, 6, 7)\n",
        steps: &[
            CoreStep::Close,
            CoreStep::Gives(1, 2),
            CoreStep::Refuses(1, 2),
            CoreStep::Left(4),
            CoreStep::Finishes(1, 2),
            CoreStep::Gives(1, 3),
            CoreStep::Finishes(1, 3),
            CoreStep::Gives(1, 4),
            CoreStep::Finishes(1, 4),
            CoreStep::Gives(1, 5),
            CoreStep::Finishes(1, 5),
            CoreStep::Ends,
        ],
        tables: &[&[], &[(1, 5)], &[], &[(7, 1)]],
    },
    Case {
        name: "a deposit's statistics wait for nothing",
        catalogue: BANK,
        lines: b"call Deposit(1, 5, 7)\n",
        other: b"",
        steps: &[
            CoreStep::Close,
            CoreStep::Gives(1, 2),
            CoreStep::Gives(1, 5),
            CoreStep::Waits,
            CoreStep::Left(4),
        ],
        tables: &[],
    },
    Case {
        name: "what may touch any row is run on the spot",
        catalogue: HOP,
        lines: b"adhoc put T[1] = (2)\ncall Hop(1, 1)\ncall Hop(2, 9)\ncall Hop(1, 7)\n",
        other: b"",
        steps: &[
            CoreStep::Close,
            CoreStep::Gives(1, 0),
            CoreStep::Finishes(1, 0),
            CoreStep::Runs(2, 0),
            CoreStep::Runs(3, 0),
            CoreStep::Runs(4, 0),
            CoreStep::Ends,
        ],
        tables: &[&[(1, 9), (2, 1), (9, 7)]],
    },
    Case {
        name: "two amounts are added to one row",
        catalogue: ADD,
        lines: b"call Add(1, 1)\ncall Add(1, 1)\n",
        other: b"",
        steps: &[
            CoreStep::Close,
            CoreStep::Gives(1, 0),
            CoreStep::Gives(2, 0),
            CoreStep::Waits,
            CoreStep::Finishes(2, 0),
            CoreStep::Waits,
            CoreStep::Finishes(1, 0),
            CoreStep::Gives(1, 1),
            CoreStep::Waits,
            CoreStep::Finishes(1, 1),
            CoreStep::Gives(2, 1),
            CoreStep::Finishes(2, 1),
            CoreStep::Ends,
        ],
        tables: &[&[(1, 2)]],
    },
];

// Closes a core and takes one piece of it.
fn take_first<R: Rows>(alloc: Global, core: &mut Core<R>, results: &mut Vec<Done>) {
    core.close();
    take(alloc, core, results);
}

// The results that are there at first.
fn other_results(alloc: Global, case: &Case) -> Option<Vec<Done>> {
    let mut results = Vec::new(alloc);
    if !case.other.is_empty() {
        let mut core = script_core(alloc, case.catalogue, case.other)?;
        take_first(alloc, &mut core, &mut results);
    }
    Some(results)
}

fn count_in<R: Rows>(alloc: Global, core: &mut Core<R>, case: &Case) -> usize {
    match other_results(alloc, case) {
        Some(mut results) => count_right(alloc, core, &mut results, case.steps),
        None => 0,
    }
}

// Whether the core ends with the tables of the case, or is not to end.
fn ends_so<R: Rows>(core: Core<R>, case: &Case) -> bool {
    match outcome_of(core) {
        Some(outcome) => hold(&outcome.tables, case.tables) && outcome.first_note.is_none(),
        None => case.tables.is_empty(),
    }
}

// How many steps go as worked before the first that doesn't, and whether the tables at the end are so.
fn found_in(alloc: Global, case: &Case) -> Option<(usize, bool)> {
    let mut core = script_core(alloc, case.catalogue, case.lines)?;
    let count = count_in(alloc, &mut core, case);
    Some((count, ends_so(core, case)))
}

#[test]
fn pieces_are_taken_as_worked(rt: HostRuntime) {
    for case in CASES {
        assert_eq!(rt;
            found_in(rt.alloc(), case),
            Some((case.steps.len(), true)),
            "{}",
            case.name
        );
    }
}
