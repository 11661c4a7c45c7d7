// The pairs that a core keeps, and the least note of several.
use crate::cores::{ADD, script_core};
use crate::ends::drained;
use crate::steps::{HandInAnswer, TakeAnswer, hand_in, take};
use pac_core::Core;
use pac_ops::{Note, PieceId, Reason};
use pac_piece::Done;
use pac_tables::Rows;
use std::alloc::{AllocError, Global};

// Takes a piece and finishes it. The block that it is in, if it was handed out and its result is kept.
fn finish_next<R: Rows>(alloc: Global, core: &mut Core<R>, results: &mut Vec<Done>) -> Option<u16> {
    let TakeAnswer::Given(piece) = take(alloc, core, results) else {
        return None;
    };
    let done = results.pop()?;
    if hand_in(core, done) == HandInAnswer::Kept {
        Some(piece.block)
    } else {
        None
    }
}

// How many pieces of block 0 are finished one after another, and the pairs that are kept once one more is taken.
fn finish_first_block<R: Rows>(
    alloc: Global,
    core: &mut Core<R>,
    results: &mut Vec<Done>,
) -> (usize, TakeAnswer, u64) {
    let mut count = 0usize;
    for _ in 0..1_024u32 {
        if finish_next(alloc, core, results) != Some(0) {
            break;
        }
        count = count.saturating_add(1);
    }
    let next = take(alloc, core, results);
    (count, next, core.pairs())
}

fn pairs_in<R: Rows>(alloc: Global, core: &mut Core<R>) -> (usize, TakeAnswer, u64) {
    core.close();
    let mut results = Vec::new(alloc);
    finish_first_block(alloc, core, &mut results)
}

fn pairs_of(alloc: Global, lines: &[u8]) -> Option<(usize, TakeAnswer, u64)> {
    let mut core = script_core(alloc, ADD, lines)?;
    Some(pairs_in(alloc, &mut core))
}

// As many calls as a batch has, all of one row.
fn calls(alloc: Global) -> Result<Vec<u8>, AllocError> {
    let mut lines = Vec::new(alloc);
    for _ in 0..1_024u32 {
        lines.extend_from_slice(b"call Add(1, 1)\n")?;
    }
    Ok(lines)
}

fn pairs_of_calls(alloc: Global) -> Option<(usize, TakeAnswer, u64)> {
    match calls(alloc) {
        Ok(lines) => pairs_of(alloc, &lines),
        Err(_) => None,
    }
}

#[test]
fn a_piece_of_one_row_waits_only_for_the_one_before_it(rt: HostRuntime) {
    let next = TakeAnswer::Given(PieceId { txn: 1, block: 1 });
    assert_eq!(rt; pairs_of_calls(rt.alloc()), Some((1_024, next, 1_023)));
}

// The third overflows. Its variable is 0 then, and so is the row that the fourth needs.
const FOUR: &[u8] = b"call Add(1, 9223372036854775807)
call Add(2, 5)
call Add(1, 1)
call Need(1)
";

fn note_of<R: Rows>(core: Core<R>) -> Option<Note> {
    let outcome = drained(core)?;
    outcome.first_note
}

fn note_of_four(alloc: Global) -> Option<Note> {
    let mut core = script_core(alloc, ADD, FOUR)?;
    core.close();
    note_of(core)
}

#[test]
fn the_least_note_is_left(rt: HostRuntime) {
    let least = Note {
        txn: 3,
        op: 2,
        reason: Reason::Overflow,
    };
    assert_eq!(rt; note_of_four(rt.alloc()), Some(least));
}
