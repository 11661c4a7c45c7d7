// The pieces of the bank's three batches, and the accesses of those that wait for no other of their transaction.
ghost use Rattle.std.specs.Prelude.{◌≡◌};
ghost use Rattle.std.specs.FinMap.{empty};

use super::{CAP, plan_code};
use crate::cores::script_of;
use crate::takes::{HOP, THREE};
use pac_base::{Exact, Listed, listed};
use pac_batch::{PieceSet, sets};
use pac_keys::{PlanCode, arguments, has_arguments};
use pac_ops::{Batch, PieceId, Txn};
use pac_piece::{Done, Work, arguments_run, arguments_run_on, rows_fit, run, run_on};
use pac_plan::{Access, Touch};
use pac_script::BANK;
use pac_tables::{HashedRows, OrderedRows, Rows, Write};
use pac_value::{Key, Value};
use std::alloc::Global;

// One call of a hop.
const HOP_LINES: &[u8] = b"call Hop(1, 1)\n";

// A block, and the transactions that have a piece in it.
type Set = (u16, &'static [u64]);

const SETS: &[&[Set]] = &[
    &[(2, &[1]), (3, &[1]), (4, &[1]), (5, &[1])],
    &[(0, &[2])],
    &[(0, &[3]), (1, &[3]), (2, &[3]), (4, &[3])],
];

fn are_sets(found: &[PieceSet], wanted: &[Set]) -> bool {
    let mut rest = wanted;
    for set in found {
        match rest {
            [first, after @ ..] if set.block == first.0 && set.txns.as_slice() == first.1 => {
                rest = after;
            }
            _ => return false,
        }
    }
    rest.is_empty()
}

fn has_sets(alloc: Global, code: &PlanCode, batch: &Batch, wanted: &[Set]) -> bool {
    if batch.first > 1_000 || batch.txns.items().len() > 1_000 {
        return false;
    }
    if !code.plan().fits_all(batch.txns.items()) {
        return false;
    }
    match sets(alloc, code, batch) {
        Ok(found) => are_sets(&found, wanted),
        Err(_) => false,
    }
}

fn have_sets(alloc: Global, code: &PlanCode, batches: &Listed<Batch>) -> bool {
    let mut rest = SETS;
    for batch in batches.as_slice() {
        match rest {
            [first, after @ ..] if has_sets(alloc, code, batch, first) => rest = after,
            _ => return false,
        }
    }
    rest.is_empty()
}

fn sets_are_so(alloc: Global) -> bool {
    let Some(script) = script_of(alloc, BANK, THREE) else {
        return false;
    };
    match plan_code(alloc, &script.catalogue) {
        Some(code) => have_sets(alloc, &code, &script.batches),
        None => false,
    }
}

#[test]
fn the_bank_has_its_pieces(rt: HostRuntime) {
    assert!(rt; sets_are_so(rt.alloc()));
}

// The access of a transaction's piece in a block to which no edge leads.
fn access_of(alloc: Global, code: &PlanCode, txn: &Txn, block: u16) -> Option<Access> {
    let env = arguments(alloc, txn).ok()?;
    if block >= code.plan().blocks() || !code.plan().is_entry(block) || !code.plan().fits(txn) {
        return None;
    }
    has_arguments(code, txn, block, &env);
    code.access(alloc, txn, block, &env).ok()
}

// A table, a key in it, and whether the row there is modified.
type Row = (u16, i64, bool);

fn are_touches(touches: &[Touch], rows: &[Row]) -> bool {
    let mut rest = rows;
    for touch in touches {
        match rest {
            [(table, key, is_write), after @ ..]
                if touch.table == *table
                    && touch.key == Key::Int(*key)
                    && touch.is_write == *is_write => {
                rest = after;
            }
            _ => return false,
        }
    }
    rest.is_empty()
}

// `None`: it is whole.
fn is_access(access: &Access, rows: Option<&[Row]>) -> bool {
    match (access, rows) {
        (Access::Keys(touches), Some(rows)) => are_touches(touches.as_slice(), rows),
        (Access::Whole, None) => true,
        _ => false,
    }
}

// Whether the only transaction of a batch has this access in a block.
fn touches_so(
    alloc: Global,
    code: &PlanCode,
    batch: &Batch,
    block: u16,
    rows: Option<&[Row]>,
) -> bool {
    let [txn] = batch.txns.items() else {
        return false;
    };
    match access_of(alloc, code, txn, block) {
        Some(access) => is_access(&access, rows),
        None => false,
    }
}

// The same of the batch with this number in the script of a catalogue and lines.
fn access_is_so(
    alloc: Global,
    catalogue: &[u8],
    lines: &[u8],
    number: usize,
    block: u16,
    rows: Option<&[Row]>,
) -> bool {
    let Some(script) = script_of(alloc, catalogue, lines) else {
        return false;
    };
    let Some(batch) = script.batches.as_slice().get(number) else {
        return false;
    };
    match plan_code(alloc, &script.catalogue) {
        Some(code) => touches_so(alloc, &code, batch, block, rows),
        None => false,
    }
}

#[test]
fn pieces_touch_their_rows(rt: HostRuntime) {
    let stats: &[Row] = &[(3, 7, false), (3, 7, true)];
    assert!(rt; access_is_so(rt.alloc(), BANK, THREE, 0, 5, Some(stats)));
    let family: &[Row] = &[(0, 1, true)];
    assert!(rt; access_is_so(rt.alloc(), BANK, THREE, 1, 0, Some(family)));
    let read: &[Row] = &[(0, 1, false)];
    assert!(rt; access_is_so(rt.alloc(), BANK, THREE, 2, 0, Some(read)));
    assert!(rt; access_is_so(rt.alloc(), HOP, HOP_LINES, 0, 0, None));
    let both: &[Row] = &[(0, 1, false), (0, 2, true)];
    assert!(rt; access_is_so(rt.alloc(), CAP, b"call Cap(1, 2)\n", 0, 0, Some(both)));
}

// A copy of the row at a key of the statistics, where there is none.
fn absent(alloc: Global, key: i64) -> Option<Listed<Write>> {
    let mut rows = Vec::new(alloc);
    let row = Write {
        table: 3,
        key: Key::Int(key),
        row: None,
    };
    rows.push(row).ok()?;
    Some(listed(rows))
}

// Whether one row is written, with one value.
fn is_one_row(writes: &[Write], table: u16, key: i64, value: i64) -> bool {
    match writes {
        [write] => {
            write.table == table
                && write.key == Key::Int(key)
                && match &write.row {
                    Some(row) => row.items() == [Value::Int(value)].as_slice(),
                    None => false,
                }
        }
        _ => false,
    }
}

// Whether what is done is that the count at a key of the statistics is written as 1.
fn counts_one(done: &Done, key: i64) -> bool {
    done.note().is_none() && is_one_row(done.writes(), 3, key, 1)
}

// Whether a deposit's work in the statistics' block counts one in a row that is not there.
fn counts_so(alloc: Global, code: &PlanCode, txn: &Txn, piece: PieceId, key: i64) -> bool {
    let Txn::Call(call) = txn else {
        return false;
    };
    let plan = code.plan();
    if call.proc >= plan.procs() || piece.block >= plan.blocks() || !plan.is_entry(piece.block) {
        return false;
    }
    let Ok(shared) = code.code(call.proc, piece.block).copy(alloc) else {
        return false;
    };
    let Ok(env) = arguments(alloc, txn) else {
        return false;
    };
    let Some(rows) = absent(alloc, key) else {
        return false;
    };
    let work = Work {
        piece,
        code: shared,
        env,
        rows,
    };
    if !plan.fits(txn) || !rows_fit(plan, work.rows.as_slice()) {
        return false;
    }
    arguments_run(plan, txn, &work);
    match run(alloc, work) {
        Ok(done) => counts_one(&done, key),
        Err(_) => false,
    }
}

fn first_counts(alloc: Global, code: &PlanCode, batch: &Batch) -> bool {
    let [txn] = batch.txns.items() else {
        return false;
    };
    counts_so(alloc, code, txn, PieceId { txn: 1, block: 5 }, 7)
}

fn statistics_are_so(alloc: Global) -> bool {
    let Some(script) = script_of(alloc, BANK, THREE) else {
        return false;
    };
    let Some(batch) = script.batches.as_slice().first() else {
        return false;
    };
    match plan_code(alloc, &script.catalogue) {
        Some(code) => first_counts(alloc, &code, batch),
        None => false,
    }
}

#[test]
fn a_deposit_counts_in_the_statistics(rt: HostRuntime) {
    assert!(rt; statistics_are_so(rt.alloc()));
}

// Whether a hop over tables without rows writes its value at the default of what it reads.
fn hops_so<R: Rows>(alloc: Global, code: &PlanCode, txn: &Txn, rows: &R) -> bool
    requires { R.held rows.now ≡ empty }
{
    let Txn::Call(call) = txn else {
        return false;
    };
    let plan = code.plan();
    let piece = PieceId { txn: 1, block: 0 };
    if call.proc >= plan.procs() || piece.block >= plan.blocks() || !plan.is_entry(piece.block) {
        return false;
    }
    if !plan.fits(txn) || rows.tables() < plan.tables() {
        return false;
    }
    let Ok(env) = arguments(alloc, txn) else {
        return false;
    };
    let ops = code.code(call.proc, piece.block).get();
    arguments_run_on(plan, txn, piece.block, ops, &env, rows);
    match run_on(alloc, piece, ops, env, rows) {
        Ok(outcome) => outcome.note.is_none() && is_one_row(outcome.writes.items(), 0, 0, 1),
        Err(_) => false,
    }
}

// The same over tables of both forms.
fn first_hops(alloc: Global, code: &PlanCode, batch: &Batch) -> bool {
    let [txn] = batch.txns.items() else {
        return false;
    };
    let Ok(ordered) = OrderedRows::new(alloc, 1) else {
        return false;
    };
    let Ok(hashed) = HashedRows::new(alloc, 1) else {
        return false;
    };
    hops_so(alloc, code, txn, &ordered) && hops_so(alloc, code, txn, &hashed)
}

fn hop_is_so(alloc: Global) -> bool {
    let Some(script) = script_of(alloc, HOP, HOP_LINES) else {
        return false;
    };
    let Some(batch) = script.batches.as_slice().first() else {
        return false;
    };
    match plan_code(alloc, &script.catalogue) {
        Some(code) => first_hops(alloc, &code, batch),
        None => false,
    }
}

#[test]
fn a_hop_runs_over_the_tables(rt: HostRuntime) {
    assert!(rt; hop_is_so(rt.alloc()));
}
