// What a scheduler hands out, in the order that was worked by hand.
ghost use Rattle.std.specs.Prelude.{◌≡◌, ◌+◌, ◌<◌, ◌++◌, ℕ, length, slice_index_or, IfSome};
ghost use Rattle.pac_ops.specs.declared.piece.PieceId.{PieceId};
ghost use Rattle.pac_sched.specs.Schedules.{AreDifferent, ArePairsBelow};

use pac_ops::PieceId;
use pac_plan::Preds;
use pac_sched::{Pick, PieceState, Sched};
use std::alloc::Global;

// A call, and what it answers. A piece is named by its transaction.
enum Step {
    Gives(u64),
    Waits,
    Ends,
    GiveBack(u64),
    Finish(u64),
    Reclaim,
    State(u64, Option<PieceState>),
    Numbers {
        ready: usize,
        out: usize,
        unfinished: usize,
    },
}

// How many pieces are opened, of the transactions from 1 on; the pairs of their positions; and the steps.
type Row = (usize, &'static [(u32, u32)], &'static [Step]);

const ROWS: &[Row] = &[
    // The second of three waits for the first.
    (
        3,
        &[(0, 1)],
        &[
            Step::State(4, None),
            Step::State(1, Some(PieceState::Waiting)),
            Step::Numbers {
                ready: 2,
                out: 0,
                unfinished: 3,
            },
            Step::Gives(1),
            Step::Gives(3),
            Step::Waits,
            Step::State(1, Some(PieceState::Out)),
            Step::GiveBack(1),
            Step::Gives(1),
            Step::Finish(1),
            Step::State(1, Some(PieceState::Finished)),
            Step::Gives(2),
            Step::Finish(2),
            Step::Waits,
            Step::Finish(3),
            Step::Ends,
            Step::Numbers {
                ready: 0,
                out: 0,
                unfinished: 0,
            },
        ],
    ),
    // A piece waits for all of its pairs, and one that is reclaimed comes again before a later one.
    (
        4,
        &[(0, 3), (1, 3), (0, 2)],
        &[
            Step::Gives(1),
            Step::Gives(2),
            Step::Finish(1),
            Step::Gives(3),
            Step::Waits,
            Step::Reclaim,
            Step::Numbers {
                ready: 2,
                out: 0,
                unfinished: 3,
            },
            Step::Gives(2),
            Step::Finish(2),
            Step::Gives(3),
            Step::Gives(4),
            Step::Waits,
            Step::Finish(4),
            Step::Finish(3),
            Step::Ends,
        ],
    ),
    // With nothing open all is finished.
    (
        0,
        &[],
        &[
            Step::Ends,
            Step::Numbers {
                ready: 0,
                out: 0,
                unfinished: 0,
            },
        ],
    ),
];

// Two pieces are opened, and then a third.
const TWO_SETS: &[Step] = &[
    Step::Numbers {
        ready: 3,
        out: 0,
        unfinished: 3,
    },
    Step::Gives(1),
    Step::Gives(2),
    Step::Gives(3),
    Step::Waits,
];

fn piece(txn: u64) -> PieceId
    ensures { result ≡ record { txn = txn; block = 0 } }
{
    PieceId { txn, block: 0 }
}

fn give_back(sched: &mut Sched, id: PieceId) -> bool {
    match sched.state(id) {
        Some(PieceState::Out) => {
            sched.give_back(id);
            true
        }
        _ => false,
    }
}

fn finish(sched: &mut Sched, id: PieceId) -> bool {
    match sched.state(id) {
        Some(PieceState::Out) => {
            sched.finish(id);
            true
        }
        _ => false,
    }
}

fn reclaim(sched: &mut Sched) -> bool {
    sched.reclaim();
    sched.out() == 0
}

fn goes(sched: &mut Sched, step: &Step) -> bool {
    match step {
        Step::Gives(txn) => sched.take() == Pick::Piece(piece(*txn)),
        Step::Waits => sched.take() == Pick::NotReady,
        Step::Ends => sched.take() == Pick::Done,
        Step::GiveBack(txn) => give_back(sched, piece(*txn)),
        Step::Finish(txn) => finish(sched, piece(*txn)),
        Step::Reclaim => reclaim(sched),
        Step::State(txn, state) => sched.state(piece(*txn)) == *state,
        Step::Numbers {
            ready,
            out,
            unfinished,
        } => (sched.ready(), sched.out(), sched.unfinished()) == (*ready, *out, *unfinished),
    }
}

fn all_go(sched: &mut Sched, steps: &[Step]) -> bool {
    for step in steps {
        if !goes(sched, step) {
            return false;
        }
    }
    true
}

// The pieces of the transactions from 1 on.
fn pieces(alloc: Global, len: usize) -> Option<Vec<PieceId>>
    ensures { IfSome result (λ pieces. (k : ℕ) (d : PieceId) → k < length pieces.items → (slice_index_or pieces.items k d).txn ≡ k + 1) }
{
    let mut pieces = Vec::new(alloc);
    for i in 0..len {
        pieces.push(piece_at(i)).ok()?;
    }
    Some(pieces)
}

// The piece at a position.
fn piece_at(i: usize) -> PieceId
    requires { i < 18446744073709551615 }
    ensures { result.txn ≡ i + 1 }
{
    piece(i as u64 + 1)
}

// These pairs, if each is of an earlier and a later position below a number.
fn pairs_below(alloc: Global, len: usize, pairs: &[(u32, u32)]) -> Option<Preds>
    ensures { IfSome result (λ preds. ArePairsBelow len preds) }
{
    let mut kept = Vec::new(alloc);
    for i in 0..pairs.len() {
        let (earlier, later) = pairs[i];
        if earlier >= later || later as usize >= len {
            return None;
        }
        kept.push((earlier, later)).ok()?;
    }
    Some(Preds::new(kept))
}

fn opened_go(alloc: Global, pieces: &[PieceId], preds: &Preds, steps: &[Step]) -> bool
    requires different { AreDifferent pieces.now }
    requires below { ArePairsBelow (length pieces.now) preds.now }
{
    let mut sched = Sched::new(alloc);
    match sched.open_set(pieces, preds) {
        Ok(()) => sched.pairs() == preds.pairs().len() && all_go(&mut sched, steps),
        Err(_) => false,
    }
}

fn pieces_go(alloc: Global, pieces: &[PieceId], row: &Row) -> bool
    requires { (k : ℕ) (d : PieceId) → k < length pieces.now → (slice_index_or pieces.now k d).txn ≡ k + 1 }
{
    match pairs_below(alloc, pieces.len(), row.1) {
        Some(preds) => opened_go(alloc, pieces, &preds, row.2),
        None => false,
    }
}

fn row_goes(alloc: Global, row: &Row) -> bool {
    match pieces(alloc, row.0) {
        Some(pieces) => pieces_go(alloc, &pieces, row),
        None => false,
    }
}

// Two sets without pairs are opened, one after the other.
fn sets_go(alloc: Global, pieces: &[PieceId], cut: usize, steps: &[Step]) -> bool
    requires numbers { (k : ℕ) (d : PieceId) → k < length pieces.now → (slice_index_or pieces.now k d).txn ≡ k + 1 }
    requires cut { cut < length pieces.now }
{
    let mut sched = Sched::new(alloc);
    let none = Preds::new(Vec::new(alloc));
    match sched.open_set(&pieces[..cut], &none) {
        Ok(()) => {}
        Err(_) => return false,
    }
    match sched.open_set(&pieces[cut..], &none) {
        Ok(()) => all_go(&mut sched, steps),
        Err(_) => false,
    }
}

fn two_sets_go(alloc: Global) -> bool {
    match pieces(alloc, 3) {
        Some(pieces) => pieces.len() == 3 && sets_go(alloc, &pieces, 2, TWO_SETS),
        None => false,
    }
}

#[test]
fn pieces_are_handed_out_as_worked(rt: HostRuntime) {
    for (at, row) in ROWS.iter().enumerate() {
        assert!(rt; row_goes(rt.alloc(), row), "row {at}");
    }
}

#[test]
fn a_set_is_opened_after_another(rt: HostRuntime) {
    assert!(rt; two_sets_go(rt.alloc()));
}
