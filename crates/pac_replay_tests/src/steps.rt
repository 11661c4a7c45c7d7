// Calls of a core, one after another, each with what it answers.
ghost use Rattle.std.specs.Prelude.{◌<◌, length, IfSome};
ghost use Rattle.pac_piece.specs.Runnable.{IsRunnable};

use pac_core::{Core, Finish, Take};
use pac_ops::PieceId;
use pac_piece::{Done, Work, run};
use pac_tables::Rows;
use std::alloc::Global;

/// A call, and what it answers. A piece is named by its transaction and its block.
pub(crate) enum CoreStep {
    /// A take hands this piece out. Its work is done at once, and the result is kept.
    Gives(u64, u16),
    /// A take runs this piece on the spot.
    Runs(u64, u16),
    /// A take answers that none is ready.
    Waits,
    /// A take answers that all is done.
    Ends,
    /// The first result of this piece is handed in, and the piece is finished.
    Finishes(u64, u16),
    /// It is handed in, and foreign.
    Refuses(u64, u16),
    /// The work of the first result of this piece is given back.
    GiveBack(u64, u16),
    /// No more batches come.
    Close,
    /// How many pieces are not finished.
    Left(u64),
}

/// What a take answers, where the work is done at once.
#[derive(Clone, Copy, Debug, PartialEq, Eq)]
pub(crate) enum TakeAnswer {
    Given(PieceId),
    Ran(PieceId),
    NotReady,
    Done,
    NoMemory,
}

/// What became of a result.
#[derive(Clone, Copy, Debug, PartialEq, Eq)]
pub(crate) enum HandInAnswer {
    Kept,
    Foreign,
    NoMemory,
}

// Does the work, and keeps the result.
fn work(alloc: Global, work: Work, results: &mut Vec<Done>) -> TakeAnswer
    requires { IsRunnable work }
{
    let piece = work.piece;
    let Ok(done) = run(alloc, work) else {
        return TakeAnswer::NoMemory;
    };
    match results.push(done) {
        Ok(()) => TakeAnswer::Given(piece),
        Err(_) => TakeAnswer::NoMemory,
    }
}

/// Takes a piece. Where it is handed out, its work is done and the result kept.
pub(crate) fn take<R: Rows>(
    alloc: Global,
    core: &mut Core<R>,
    results: &mut Vec<Done>,
) -> TakeAnswer {
    match core.take() {
        Ok(Take::Given(given)) => work(alloc, given, results),
        Ok(Take::Ran(piece)) => TakeAnswer::Ran(piece),
        Ok(Take::NotReady) => TakeAnswer::NotReady,
        Ok(Take::Done) => TakeAnswer::Done,
        Err(_) => TakeAnswer::NoMemory,
    }
}

/// Hands a result in.
pub(crate) fn hand_in<R: Rows>(core: &mut Core<R>, done: Done) -> HandInAnswer {
    match core.finish(done) {
        Finish::Kept => HandInAnswer::Kept,
        Finish::Foreign(_) => HandInAnswer::Foreign,
        Finish::NoMemory(_) => HandInAnswer::NoMemory,
    }
}

// Where the first result of a piece stands.
fn place_of(results: &[Done], piece: PieceId) -> Option<usize>
    ensures { IfSome result (λ at. at < length results.now) }
{
    for at in 0..results.len() {
        if results[at].work().piece == piece {
            return Some(at);
        }
    }
    None
}

// The first result of a piece, which is no longer among the results.
fn result_of(results: &mut Vec<Done>, txn: u64, block: u16) -> Option<Done> {
    let at = place_of(results, PieceId { txn, block })?;
    Some(results.remove(at))
}

// Whether the first result of a piece is handed in so.
fn is_handed<R: Rows>(
    core: &mut Core<R>,
    results: &mut Vec<Done>,
    txn: u64,
    block: u16,
    handed: HandInAnswer,
) -> bool {
    match result_of(results, txn, block) {
        Some(done) => hand_in(core, done) == handed,
        None => false,
    }
}

// Whether there is a result of a piece whose work is given back.
fn is_given_back<R: Rows>(
    core: &mut Core<R>,
    results: &mut Vec<Done>,
    txn: u64,
    block: u16,
) -> bool {
    match result_of(results, txn, block) {
        Some(done) => {
            core.give_back(done.into_work());
            true
        }
        None => false,
    }
}

// Whether no more batches come, then.
fn is_closed<R: Rows>(core: &mut Core<R>) -> bool {
    core.close();
    core.is_closed()
}

fn goes<R: Rows>(
    alloc: Global,
    core: &mut Core<R>,
    results: &mut Vec<Done>,
    step: &CoreStep,
) -> bool {
    match *step {
        CoreStep::Gives(txn, block) => {
            take(alloc, core, results) == TakeAnswer::Given(PieceId { txn, block })
        }
        CoreStep::Runs(txn, block) => take(alloc, core, results)
            == TakeAnswer::Ran(PieceId { txn, block }),
        CoreStep::Waits => take(alloc, core, results) == TakeAnswer::NotReady,
        CoreStep::Ends => take(alloc, core, results) == TakeAnswer::Done,
        CoreStep::Finishes(txn, block) => is_handed(core, results, txn, block, HandInAnswer::Kept),
        CoreStep::Refuses(txn, block) => is_handed(
            core,
            results,
            txn,
            block,
            HandInAnswer::Foreign,
        ),
        CoreStep::GiveBack(txn, block) => is_given_back(core, results, txn, block),
        CoreStep::Close => is_closed(core),
        CoreStep::Left(count) => core.unfinished() == count,
    }
}

/// How many steps go as expected before the first that doesn't.
pub(crate) fn count_right<R: Rows>(
    alloc: Global,
    core: &mut Core<R>,
    results: &mut Vec<Done>,
    steps: &[CoreStep],
) -> usize {
    let mut count = 0usize;
    for step in steps {
        if !goes(alloc, core, results, step) {
            break;
        }
        count = count.saturating_add(1);
    }
    count
}
