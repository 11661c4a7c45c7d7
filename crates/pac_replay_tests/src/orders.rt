// Random orders in which pieces are taken, finished and given back leave what serial execution does.
ghost use Rattle.std.specs.Prelude.{◌<◌, length};
ghost use Rattle.pac_types.specs.Fits.{FitsCatalogue};
ghost use Rattle.pac_types.specs.OperationLimits.{HasFewOperations};
ghost use Rattle.pac_script.specs.BatchFits.{BatchesFit, BatchesHaveNumbers};

use crate::cores::{ADD, core_of, plan_of, script_of};
use crate::ends::{are_same_rows, outcome_of};
use crate::steps::{HandInAnswer, TakeAnswer, hand_in, take};
use pac_core::{Core, Outcome};
use pac_ops::{Batch, Note};
use pac_piece::Done;
use pac_plan::Plan;
use pac_script::{BANK, Script};
use pac_serial::{AllError, exec_all, no_rows};
use pac_tables::{HashedRows, HashedTable, JoinedRows, Rows};
use pac_types::Catalogue;
use std::alloc::Global;

// A catalogue and lines.
type Row = (&'static [u8], &'static [u8]);

// The procedures read what others write, in one block, in two or with keys from rows.
const MIXED: &[u8] = b"table A(key int, v int);
table B(key int, v int);
table N(key text, v int);
proc Copy(k int, j int) { read x = A[k].v default 0; put B[j] = (x + 1); }
proc Back(k int, j int) { read x = B[k].v default 0; if x > 2 { delete A[j]; } else { put A[j] = (x); } }
proc Hop(k int) { read d = A[k].v default 1; put A[d] = (k); }
proc Name(t text, k int) { has there = N[t]; if there { set N[t].v = k; } else { put N[t] = (k * 2); } }
proc Free(k int) { read v = N[\"a\"].v default 0; abort if v == k; put B[9] = (v); }
";

const ROWS: &[Row] = &[
    (
        BANK,
        b"call Deposit(1, 100, 7)\nflush\nadhoc put Family[1] = (2)\nflush\ncall Transfer(1, 40)",
    ),
    (
        BANK,
        b"adhoc put Family[1] = (2); put Family[2] = (1)\ncall Deposit(1, 10500, 7)\ncall Deposit(2, 20000, 7)
call Transfer(1, 500)\ncall Transfer(2, 700)\ncall Deposit(2, 3, 8)\ncall Transfer(1, 1)",
    ),
    (
        BANK,
        b"call Deposit(1, 9000, 1)\ncall Deposit(1, 2000, 1)\nflush\ncall Deposit(1, 30, 2)\nadhoc delete Current[1]
call Deposit(1, 4, 1)\nflush\nadhoc put Saving[1] = (7); put Stats[1] = (40)\ncall Deposit(1, 20000, 1)",
    ),
    (
        BANK,
        b"adhoc put Family[1] = (2)\ncall Transfer(1, 5)\nadhoc put Family[1] = (3)\ncall Transfer(1, 6)\nflush
adhoc delete Family[1]\ncall Transfer(1, 7)\ncall Transfer(2, 8)\nadhoc put Family[2] = (1)\ncall Transfer(2, 9)",
    ),
    (
        ADD,
        b"call Add(1, 1)\ncall Add(1, 2)\ncall Add(2, 3)\ncall Need(1)\ncall Add(1, 4)\nflush\ncall Need(2)\ncall Add(2, 5)",
    ),
    (
        ADD,
        b"call Add(1, 9223372036854775807)\ncall Add(2, 5)\nflush\ncall Add(1, 1)\ncall Need(1)\ncall Add(3, 1)",
    ),
    (
        ADD,
        b"adhoc put T[4] = (0)\ncall Need(4)\ncall Need(4)\ncall Add(4, 1)\nflush\ncall Need(4)",
    ),
    (
        MIXED,
        b"adhoc put A[1] = (2); put A[2] = (3); put A[3] = (1)\ncall Copy(1, 1)\ncall Hop(1)\ncall Back(1, 5)
call Hop(2)\ncall Copy(2, 2)\nflush\ncall Hop(3)\ncall Back(2, 3)\ncall Copy(3, 9)\ncall Hop(9)",
    ),
    (
        MIXED,
        b"call Name(\"a\", 1)\ncall Name(\"a\", 2)\ncall Name(\"b\", 3)\ncall Free(1)\nadhoc delete N[\"a\"]
call Free(5)\ncall Name(\"b\", 4)\nflush\ncall Copy(9, 9)\ncall Back(9, 9)\ncall Name(\"a\", 6)",
    ),
    (
        MIXED,
        b"call Name(\"a\", 4)\ncall Copy(1, 1)\ncall Free(8)\ncall Name(\"a\", 8)\ncall Free(8)\nflush\ncall Hop(1)
call Free(8)\ncall Back(1, 1)",
    ),
];

// How many random orders of each are tried.
const ORDERS: u64 = 20;

// The next number of a sequence that looks random.
fn next(state: &mut u64) -> u64 {
    let mut number = *state;
    number ^= number << 13;
    number ^= number >> 7;
    number ^= number << 17;
    *state = number;
    number
}

// What becomes of a core.
#[derive(Clone, Copy, Debug, PartialEq, Eq)]
enum Turn {
    GoesOn,
    IsDone,
    Reclaims,
    Fails,
}

fn take_one<R: Rows>(alloc: Global, core: &mut Core<R>, results: &mut Vec<Done>) -> Turn {
    match take(alloc, core, results) {
        TakeAnswer::Done => Turn::IsDone,
        TakeAnswer::NoMemory => Turn::Fails,
        TakeAnswer::Given(_) | TakeAnswer::Ran(_) | TakeAnswer::NotReady => Turn::GoesOn,
    }
}

// One of the results, which is no longer among them.
fn any_result(results: &mut Vec<Done>, random: &mut u64) -> Option<Done> {
    if results.is_empty() {
        return None;
    }
    let at = (next(random) % results.len() as u64) as usize;
    Some(results.remove(at))
}

// A result is handed in. Where only results are at hand that were taken since the last reclaim, none is foreign.
fn finish_one<R: Rows>(
    core: &mut Core<R>,
    results: &mut Vec<Done>,
    random: &mut u64,
    are_own: bool,
) -> Turn {
    let Some(done) = any_result(results, random) else {
        return Turn::GoesOn;
    };
    match hand_in(core, done) {
        HandInAnswer::Foreign if are_own => Turn::Fails,
        HandInAnswer::Kept | HandInAnswer::Foreign => Turn::GoesOn,
        HandInAnswer::NoMemory => Turn::Fails,
    }
}

fn give_one_back<R: Rows>(core: &mut Core<R>, results: &mut Vec<Done>, random: &mut u64) -> Turn {
    if let Some(done) = any_result(results, random) {
        core.give_back(done.into_work());
    }
    Turn::GoesOn
}

// One event. Of 64, 15 to 45 are takes, 4 give a piece back and 1 reclaims all.
fn one_turn<R: Rows>(
    alloc: Global,
    core: &mut Core<R>,
    results: &mut Vec<Done>,
    random: &mut u64,
    takes: u64,
    are_own: bool,
) -> Turn {
    let number = next(random) % 64;
    if number == 0 {
        Turn::Reclaims
    } else if number < 5 {
        give_one_back(core, results, random)
    } else if number < takes.saturating_add(5) {
        take_one(alloc, core, results)
    } else {
        finish_one(core, results, random, are_own)
    }
}

// Events up to one that is no step of a piece.
fn turns<R: Rows>(
    alloc: Global,
    core: &mut Core<R>,
    results: &mut Vec<Done>,
    random: &mut u64,
    takes: u64,
    are_own: bool,
) -> Turn {
    for _ in 0..2_000u32 {
        let turn = one_turn(alloc, core, results, random, takes, are_own);
        if turn != Turn::GoesOn {
            return turn;
        }
    }
    Turn::Fails
}

// A core after as many events as it takes to end it. Of every other seed results from before a reclaim are handed in too; of the
// others none, and then each is kept.
fn ended<R: Rows>(
    alloc: Global,
    mut core: Core<R>,
    results: &mut Vec<Done>,
    seed: u64,
) -> Option<Core<R>> {
    let mut random = seed.wrapping_mul(0x9E37_79B9_7F4A_7C15);
    let are_own = seed % 2 == 0;
    let takes = 15 + seed / 2 % 6 * 6;
    for _ in 0..100u32 {
        match turns(alloc, &mut core, results, &mut random, takes, are_own) {
            Turn::IsDone => return Some(core),
            Turn::Reclaims => {
                core = core.reclaim();
                if are_own {
                    results.clear();
                }
            }
            Turn::GoesOn | Turn::Fails => return None,
        }
    }
    None
}

fn outcome_in(
    alloc: Global,
    plan: &Plan,
    batches: &[Batch],
    seed: u64,
) -> Option<Outcome<HashedRows>> {
    let mut core = core_of(alloc, plan, batches)?;
    core.close();
    let mut results = Vec::new(alloc);
    outcome_of(ended(alloc, core, &mut results, seed)?)
}

// What serial execution leaves in the tables, or the note of the transaction that aborts.
fn execute<R: Rows>(
    alloc: Global,
    catalogue: &Catalogue,
    batches: &[Batch],
    rows: &mut R,
) -> Option<Option<Note>>
    requires few { HasFewOperations catalogue.now.procs }
    requires fit { BatchesFit catalogue.now batches.now }
    requires numbers { BatchesHaveNumbers batches.now }
    requires rows { FitsCatalogue catalogue.now (R.tables rows.old) (R.held rows.old) }
{
    for batch in batches {
        match exec_all(alloc, catalogue, batch, rows) {
            Ok(()) => {}
            Err(AllError::Abort(note)) => return Some(Some(note)),
            Err(AllError::NoMemory) => return None,
        }
    }
    Some(None)
}

// Whether a replay leaves these tables, or else this note.
fn is_outcome<R: Rows>(outcome: &Outcome<HashedRows>, rows: &R, note: Option<Note>) -> bool {
    if outcome.first_note != note {
        return false;
    }
    note.is_some() || are_same_rows(&outcome.tables, rows).unwrap_or(false)
}

// The first seed of an order that leaves something else.
fn wrong_seed<R: Rows>(
    alloc: Global,
    plan: &Plan,
    batches: &[Batch],
    rows: &R,
    note: Option<Note>,
) -> Option<u64> {
    for seed in 1..ORDERS + 1 {
        match outcome_in(alloc, plan, batches, seed) {
            Some(outcome) if is_outcome(&outcome, rows, note) => {}
            _ => return Some(seed),
        }
    }
    None
}

// The same beside serial execution; 0 where that finds no memory.
fn wrong_beside_serial(alloc: Global, script: &Script, plan: &Plan) -> Option<u64>
    requires few { HasFewOperations script.now.catalogue.procs }
    requires fit { BatchesFit script.now.catalogue script.now.batches }
    requires numbers { BatchesHaveNumbers script.now.batches }
{
    let batches = script.batches.as_slice();
    let Ok(mut rows): Result<JoinedRows<HashedTable>, _> = no_rows(alloc, &script.catalogue) else {
        return Some(0);
    };
    match execute(alloc, &script.catalogue, batches, &mut rows) {
        Some(note) => wrong_seed(alloc, plan, batches, &rows, note),
        None => Some(0),
    }
}

// 0 where there is no plan.
fn wrong_in_script(alloc: Global, script: &Script) -> Option<u64>
    requires fit { BatchesFit script.now.catalogue script.now.batches }
    requires numbers { BatchesHaveNumbers script.now.batches }
{
    match plan_of(alloc, &script.catalogue) {
        Some(plan) => wrong_beside_serial(alloc, script, &plan),
        None => Some(0),
    }
}

// 0 where there is no script.
fn wrong_in(alloc: Global, row: &Row) -> Option<u64> {
    match script_of(alloc, row.0, row.1) {
        Some(script) => wrong_in_script(alloc, &script),
        None => Some(0),
    }
}

#[test]
fn random_orders_leave_what_serial_execution_does(rt: HostRuntime) {
    for (at, row) in ROWS.iter().enumerate() {
        assert_eq!(rt; wrong_in(rt.alloc(), row), None, "script {at}");
    }
}
