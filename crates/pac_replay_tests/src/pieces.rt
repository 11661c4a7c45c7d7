// Which keys are bounded in procedures that were worked by hand, and which accesses conflict.
mod bank;
mod order;

use crate::takes::HOP;
use pac_base::listed;
use pac_batch::{preds, queue_preds};
use pac_flat::flatten;
use pac_global::global;
use pac_keys::PlanCode;
use pac_plan::{Access, Touch};
use pac_types::{Catalogue, read_catalogue};
use pac_value::Key;
use std::alloc::Global;

// Both keys are parameters.
const CAP: &[u8] = b"table T(key int, v int);
proc Cap(k int, j int) { read a = T[k].v default 0; if a > 10 { put T[j] = (0); } }
";

fn only_piece_is_bounded(code: &PlanCode) -> Option<bool> {
    if code.plan().procs() != 1 || code.plan().blocks() != 1 {
        return None;
    }
    Some(code.is_bounded(0, 0))
}

// The plan of a catalogue, with the code of its pieces.
fn plan_code(alloc: Global, catalogue: &Catalogue) -> Option<PlanCode> {
    let Ok(programs) = flatten(alloc, catalogue) else {
        return None;
    };
    let _procs = catalogue.procs(); // so few that they can be planned
    let Ok(plan) = global(alloc, catalogue, programs) else {
        return None;
    };
    PlanCode::new(alloc, plan).ok()
}

fn bounded_in(alloc: Global, catalogue: &Catalogue) -> Option<bool> {
    match plan_code(alloc, catalogue) {
        Some(code) => only_piece_is_bounded(&code),
        None => None,
    }
}

fn bounded(alloc: Global, text: &[u8]) -> Option<bool> {
    match read_catalogue(alloc, text) {
        Ok(catalogue) => bounded_in(alloc, &catalogue),
        Err(_) => None,
    }
}

#[test]
fn keys_are_bounded_as_worked(rt: HostRuntime) {
    assert!(rt; bounded(rt.alloc(), HOP) == Some(false));
    assert!(rt; bounded(rt.alloc(), CAP) == Some(true));
}

// The access of one row of table 0.
fn one_row(alloc: Global, key: i64, is_write: bool) -> Option<Access> {
    let mut touches = Vec::new(alloc);
    let touch = Touch {
        table: 0,
        key: Key::Int(key),
        is_write,
    };
    match touches.push(touch) {
        Ok(()) => Some(Access::Keys(listed(touches))),
        Err(_) => None,
    }
}

// The accesses of these rows, each with whether it is modified, and then perhaps a whole one.
fn accesses(alloc: Global, rows: &[(i64, bool)], whole: bool) -> Option<Vec<Access>> {
    let mut accesses = Vec::new(alloc);
    for row in rows {
        let access = one_row(alloc, row.0, row.1)?;
        accesses.push(access).ok()?;
    }
    if whole {
        accesses.push(Access::Whole).ok()?;
    }
    Some(accesses)
}

fn conflict_so(alloc: Global, rows: &[(i64, bool)], whole: bool, pairs: &[(u32, u32)]) -> bool {
    let Some(accesses) = accesses(alloc, rows, whole) else {
        return false;
    };
    if accesses.len() > 1024 {
        return false;
    }
    match preds(alloc, &accesses) {
        Ok(found) => found.pairs() == pairs,
        Err(_) => false,
    }
}

fn are_next_so(alloc: Global, rows: &[(i64, bool)], whole: bool, pairs: &[(u32, u32)]) -> bool {
    let Some(accesses) = accesses(alloc, rows, whole) else {
        return false;
    };
    if accesses.len() > 1024 {
        return false;
    }
    match queue_preds(alloc, &accesses) {
        Ok(found) => found.pairs() == pairs,
        Err(_) => false,
    }
}

const ROWS: &[(i64, bool)] = &[(1, false), (1, true), (2, true)];

#[test]
fn accesses_conflict_as_worked(rt: HostRuntime) {
    assert!(rt; conflict_so(rt.alloc(), ROWS, false, &[(0, 1)]));
    assert!(rt; conflict_so(rt.alloc(), ROWS, true, &[(0, 1), (0, 3), (1, 3), (2, 3)]));
}

// Two reads of a row between two modifications.
const READ_TWICE: &[(i64, bool)] = &[(1, true), (1, false), (1, false), (1, true)];

// Three modifications of a row, and one of another.
const WRITTEN_ON: &[(i64, bool)] = &[(1, true), (1, true), (2, true), (1, true)];

#[test]
fn accesses_are_next_as_worked(rt: HostRuntime) {
    assert!(rt; are_next_so(rt.alloc(), ROWS, false, &[(0, 1)]));
    assert!(rt; are_next_so(rt.alloc(), ROWS, true, &[(0, 1), (0, 3), (1, 3), (2, 3)]));
    assert!(rt;
        are_next_so(
            rt.alloc(),
            READ_TWICE,
            false,
            &[(0, 1), (0, 2), (0, 3), (1, 3), (2, 3)]
        )
    );
    assert!(rt; are_next_so(rt.alloc(), WRITTEN_ON, false, &[(0, 1), (1, 3)]));
    assert!(rt; are_next_so(rt.alloc(), &[], true, &[]));
}

// 1,024 writes, all of one row or each of its own.
fn writes(alloc: Global, is_one_row: bool) -> Option<Vec<Access>> {
    let mut accesses = Vec::new(alloc);
    for i in 0..1024_u16 {
        let access = one_row(alloc, if is_one_row { 1 } else { i64::from(i) }, true)?;
        accesses.push(access).ok()?;
    }
    Some(accesses)
}

// How many pairs conflict, and how many are next to each other.
fn pairs_of_writes(alloc: Global, is_one_row: bool) -> Option<(usize, usize)> {
    let accesses = writes(alloc, is_one_row)?;
    if accesses.len() > 1024 {
        return None;
    }
    let all = preds(alloc, &accesses).ok()?;
    let next = queue_preds(alloc, &accesses).ok()?;
    Some((all.pairs().len(), next.pairs().len()))
}

#[test]
fn writes_of_one_row_conflict_with_each_other(rt: HostRuntime) {
    assert!(rt; pairs_of_writes(rt.alloc(), true) == Some((523_776, 1_023)));
    assert!(rt; pairs_of_writes(rt.alloc(), false) == Some((0, 0)));
}
