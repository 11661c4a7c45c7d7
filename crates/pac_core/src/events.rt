// What each event of a core does, over its parts.
ghost use Rattle.std.specs.Prelude.{◌≡◌, ◌<◌, IfErr, IfNone, IfOk, IfSome, OnErr, OnOk};
ghost use Rattle.pac_plan.specs.declared.access.Access.TheVariants.{Whole};
ghost use Rattle.pac_tables.specs.Written.{AreWithin, written};
ghost use Rattle.pac_sched.specs.declared.state.PieceState.TheVariants.{Out, Waiting};
ghost use Rattle.pac_commute.specs.Machine.{IsReadyAt};
ghost use Rattle.pac_core.specs.Calls.{IsGivenBack, IsGivenWork, IsHandedIn, IsNextFinished, IsOwn, IsTakenPiece, MovesOut};
ghost use Rattle.pac_core.specs.Links.{IsCore, IsKeptProgress, core_of, job_of};
ghost use Rattle.pac_core.specs.Moves.{AreValuesKept, HasValuesAt, IsFirstLeft, IsNextAlone, IsNextAt, IsReadyAtOffset, keeps_all};
ghost use Rattle.pac_core.specs.Places.{IsPieceAt, IsPlaceOf};
ghost use Rattle.pac_core.specs.Replay.{machine_of, with_finished};
ghost use Rattle.pac_core.specs.Results.{FitsAt, HasKept, HasLeft, HasTxnAt, IsResultAmong, KeepsLeft};
ghost use Rattle.pac_core.specs.Takes.{IsNextPiece, access_now};

use crate::alone::NextAlone;
use crate::answers::{Finish, Take};
use crate::cells::PieceCells;
use crate::loaded::LoadedBatch;
use crate::moves::keep_given;
use crate::passing::{code_of, find, interface_of};
use crate::place::Place;
use crate::progress::Progress;
use crate::work::{is_work_of, work_of};
use pac_base::NoMemory;
use pac_keys::PlanCode;
use pac_ops::PieceId;
use pac_piece::{Done, PieceOutcome, Work, is_value, run_on};
use pac_plan::Shared;
use pac_tables::{Rows, Writes};
use pac_undo::UndoRows;
use pac_value::Env;
use std::mem;

/// The piece that comes next is handed out, or run on the spot.
///
/// # Errors
///
/// [`NoMemory`] where sets that are opened, or what the piece needs, find no room.
pub(crate) fn take_next<R: Rows>(
    progress: &mut Progress,
    rows: &mut UndoRows<R>,
    room: &mut Env,
) -> Result<Take, NoMemory>
    requires { IsCore progress.old rows.old }
    ensures keeps { IsCore progress.new rows.new }
    ensures ok { IfOk result (λ take. IsTakenPiece (core_of progress.old rows.old) take (core_of progress.new rows.new)) }
    ensures err { OnErr result (core_of progress.new rows.new ≡ core_of progress.old rows.old) }
{
    match progress.next_ready()? {
        Some((at, piece)) => take_piece(progress, rows, room, at, piece),
        None if progress.is_done() => Ok(Take::Done),
        None => Ok(Take::NotReady),
    }
}

// A piece that comes next is handed out, or run on the spot.
fn take_piece<R: Rows>(
    progress: &mut Progress,
    rows: &mut UndoRows<R>,
    room: &mut Env,
    at: usize,
    piece: PieceId,
) -> Result<Take, NoMemory>
    requires core { IsCore progress.old rows.old }
    requires next { IsNextAt (job_of progress.old rows.old) progress.old (Some (at, piece)) }
    ensures keeps { IsCore progress.new rows.new }
    ensures ok { IfOk result (λ take. IsTakenPiece (core_of progress.old rows.old) take (core_of progress.new rows.new)) }
    ensures err { OnErr result (core_of progress.new rows.new ≡ core_of progress.old rows.old) }
{
    let place = progress.place_of_ready(at, piece);
    match given(progress, rows, place, piece)? {
        Some(work) => {
            progress.hand_out(place.at);
            Ok(Take::Given(work))
        }
        None => {
            run_here(progress, rows, room, place, piece)?;
            Ok(Take::Ran(piece))
        }
    }
}

/// The piece that comes next. `None`: none is ready.
///
/// # Errors
///
/// [`NoMemory`] where sets that are opened find no room.
pub(crate) fn coming<R: Rows>(
    progress: &mut Progress,
    rows: &UndoRows<R>,
) -> Result<Option<PieceId>, NoMemory>
    requires { IsCore progress.old rows.now }
    ensures keeps { IsCore progress.new rows.now }
    ensures next { IfOk result (IsNextPiece (core_of progress.old rows.now)) }
    ensures same { core_of progress.new rows.now ≡ core_of progress.old rows.now }
{
    match progress.next_alone()? {
        Some(next) => Ok(Some(next.piece())),
        None => Ok(None),
    }
}

/// The piece that comes next is run over the tables, and is finished. `None`: none is ready.
///
/// # Errors
///
/// [`NoMemory`] where sets that are opened, or what the piece leaves, find no room.
pub(crate) fn run_next<R: Rows>(
    progress: &mut Progress,
    rows: &mut UndoRows<R>,
    room: &mut Env,
) -> Result<Option<PieceId>, NoMemory>
    requires { IsCore progress.old rows.old }
    ensures keeps { IsCore progress.new rows.new }
    ensures ok { IfOk result (λ next. IsNextFinished (core_of progress.old rows.old) next (core_of progress.new rows.new)) }
    ensures err { OnErr result (core_of progress.new rows.new ≡ core_of progress.old rows.old) }
{
    match progress.next_alone()? {
        Some(next) => run_alone(progress, rows, room, next),
        None => Ok(None),
    }
}

// What comes next is run over the tables, and is finished.
fn run_alone<R: Rows>(
    progress: &mut Progress,
    rows: &mut UndoRows<R>,
    room: &mut Env,
    next: NextAlone,
) -> Result<Option<PieceId>, NoMemory>
    requires core { IsCore progress.old rows.old }
    requires next { IsNextAlone (job_of progress.old rows.old) progress.old (Some next) }
    ensures keeps { IsCore progress.new rows.new }
    ensures ok { IfOk result (λ next. IsNextFinished (core_of progress.old rows.old) next (core_of progress.new rows.new)) }
    ensures err { OnErr result (core_of progress.new rows.new ≡ core_of progress.old rows.old) }
{
    match next {
        NextAlone::OfWaiting(place, piece) => run_first(progress, rows, room, place, piece),
        NextAlone::OfOpen(at, piece) => run_piece(progress, rows, room, at, piece),
    }
}

// A piece that comes next is run over the tables, and is finished.
fn run_piece<R: Rows>(
    progress: &mut Progress,
    rows: &mut UndoRows<R>,
    room: &mut Env,
    at: usize,
    piece: PieceId,
) -> Result<Option<PieceId>, NoMemory>
    requires core { IsCore progress.old rows.old }
    requires next { IsNextAt (job_of progress.old rows.old) progress.old (Some (at, piece)) }
    ensures keeps { IsCore progress.new rows.new }
    ensures ok { IfOk result (λ next. IsNextFinished (core_of progress.old rows.old) next (core_of progress.new rows.new)) }
    ensures err { OnErr result (core_of progress.new rows.new ≡ core_of progress.old rows.old) }
{
    let place = progress.place_of_ready(at, piece);
    run_here(progress, rows, room, place, piece)?;
    Ok(Some(piece))
}

// The first piece that is left of a set that waits is run over the tables, and is finished.
fn run_first<R: Rows>(
    progress: &mut Progress,
    rows: &mut UndoRows<R>,
    room: &mut Env,
    place: Place,
    first: PieceId,
) -> Result<Option<PieceId>, NoMemory>
    requires core { IsCore progress.old rows.old }
    requires next { IsNextPiece (core_of progress.old rows.old) (Some first) }
    requires left { IsFirstLeft progress.old place first }
    ensures keeps { IsCore progress.new rows.new }
    ensures ok { IfOk result (λ next. IsNextFinished (core_of progress.old rows.old) next (core_of progress.new rows.new)) }
    ensures err { OnErr result (core_of progress.new rows.new ≡ core_of progress.old rows.old) }
{
    let outcome = outcome_of(progress, rows, room, place, first)?;
    let PieceOutcome {
        writes,
        values,
        note,
    } = outcome;
    match leave(progress, rows, place, first, &values, writes) {
        Ok(()) => {
            *room = values;
            progress.finish_first(place, note);
            Ok(Some(first))
        }
        Err((_, refused)) => Err(refused),
    }
}

// The work of a ready piece whose access is of keys. `None`: it may touch any row of its block.
fn given<R: Rows>(
    progress: &Progress,
    rows: &UndoRows<R>,
    place: Place,
    piece: PieceId,
) -> Result<Option<Work>, NoMemory>
    requires core { IsCore progress.now rows.now }
    requires place { IsPieceAt progress.now place piece Waiting }
    requires ready { IsReadyAt (job_of progress.now rows.now) (machine_of (core_of progress.now rows.now)) piece }
    ensures given { IfOk result (λ given. IfSome given (IsGivenWork (core_of progress.now rows.now) piece)) }
    ensures whole { IfOk result (λ given. IfNone given (access_now (core_of progress.now rows.now) piece ≡ Whole)) }
{
    match progress.cells_at(place, piece) {
        PieceCells::Keys(cells) => {
            let txn = progress.txn_at(place, piece);
            let kept = progress.values_at(place, piece);
            let work = work_of(
                progress.alloc,
                &progress.pieces,
                piece,
                txn,
                kept,
                cells.as_slice(),
                rows.rows(),
            )?;
            Ok(Some(work))
        }
        PieceCells::Whole => Ok(None),
    }
}

// A ready piece is run over the tables, and is finished. On an error it isn't. Its values have their room where those of the last such
// piece had it.
fn run_here<R: Rows>(
    progress: &mut Progress,
    rows: &mut UndoRows<R>,
    room: &mut Env,
    place: Place,
    piece: PieceId,
) -> Result<(), NoMemory>
    requires core { IsCore progress.old rows.old }
    requires place { IsPieceAt progress.old place piece Waiting }
    requires ready { IsReadyAt (job_of progress.old rows.old) (machine_of (core_of progress.old rows.old)) piece }
    requires first { IsReadyAtOffset progress.old place.at piece }
    ensures keeps { IsCore progress.new rows.new }
    ensures ok { OnOk result (core_of progress.new rows.new ≡ with_finished (core_of progress.old rows.old) piece) }
    ensures err { OnErr result (core_of progress.new rows.new ≡ core_of progress.old rows.old) }
{
    let outcome = outcome_of(progress, rows, room, place, piece)?;
    let PieceOutcome {
        writes,
        values,
        note,
    } = outcome;
    match leave(progress, rows, place, piece, &values, writes) {
        Ok(()) => {
            *room = values;
            progress.hand_out(place.at);
            progress.finish(place, piece, note);
            Ok(())
        }
        Err((_, refused)) => Err(refused),
    }
}

// What a ready piece leaves that is run over the tables.
fn outcome_of<R: Rows>(
    progress: &Progress,
    rows: &UndoRows<R>,
    room: &mut Env,
    place: Place,
    piece: PieceId,
) -> Result<PieceOutcome, NoMemory>
    requires core { IsCore progress.now rows.now }
    requires place { IsPlaceOf progress.now place piece }
    requires ready { IsReadyAt (job_of progress.now rows.now) (machine_of (core_of progress.now rows.now)) piece }
    ensures result { IfOk result (λ outcome. IsResultAmong (core_of progress.now rows.now) progress.now place piece outcome.writes outcome.values outcome.note) }
    ensures within { IfOk result (λ outcome. AreWithin rows.now.tables outcome.writes) }
{
    let alloc = progress.alloc;
    let txn = progress.txn_at(place, piece);
    let kept = progress.values_at(place, piece);
    let code = code_of(alloc, &progress.pieces, txn, piece.block)?;
    let mut env = mem::replace(room, Env::new(alloc));
    find(&progress.pieces, &mut env, txn, piece.block, kept)?;
    run_on(alloc, piece, code.get(), env, rows.rows())
}

// What a piece leaves: its writes are made in rows, and the values that it gave for others are kept of its transaction. On an
// error nothing is changed.
fn leave<R: Rows>(
    progress: &mut Progress,
    rows: &mut UndoRows<R>,
    place: Place,
    piece: PieceId,
    outs: &Env,
    writes: Writes,
) -> Result<(), (Writes, NoMemory)>
    requires kept { IsKeptProgress progress.old }
    requires place { IsPlaceOf progress.old place piece }
    requires within { AreWithin rows.old.tables writes }
    ensures left { OnOk result (HasLeft progress.old place piece outs.now progress.new) }
    ensures made { OnOk result (rows.new ≡ record rows.old { current = written rows.old.current writes }) }
    ensures kept { OnErr result (HasKept progress.old place progress.new) }
    ensures same { OnErr result (rows.new ≡ rows.old) }
    ensures writes { IfErr result (λ refused. refused.0 ≡ writes) }
{
    keep_left(
        &mut progress.batches,
        &progress.pieces,
        place,
        piece.block,
        outs,
        rows,
        writes,
    )
}

// The same, of the piece that the transaction at a place has in a block.
fn keep_left<R: Rows>(
    batches: &mut Vec<LoadedBatch>,
    pieces: &Shared<PlanCode>,
    place: Place,
    block: u16,
    outs: &Env,
    rows: &mut UndoRows<R>,
    writes: Writes,
) -> Result<(), (Writes, NoMemory)>
    requires fits { FitsAt pieces.now batches.old.items place }
    requires block { block < pieces.now.blocks }
    requires inside { HasTxnAt batches.old.items place }
    requires there { HasValuesAt batches.old.items place.batch place.index }
    requires within { AreWithin rows.old.tables writes }
    ensures left { OnOk result (KeepsLeft pieces.now block batches.old.items place outs.now batches.new.items) }
    ensures made { OnOk result (rows.new ≡ record rows.old { current = written rows.old.current writes }) }
    ensures kept { OnErr result (AreValuesKept batches.old.items place.batch keeps_all batches.new.items) }
    ensures same { OnErr result (rows.new ≡ rows.old) }
    ensures writes { IfErr result (λ refused. refused.0 ≡ writes) }
{
    let txn = &batches[place.batch].batch.txns.items()[place.index];
    match interface_of(pieces, txn, block) {
        Some(interface) => {
            let vars = interface.outputs.as_slice();
            keep_given(batches, place, vars, outs, rows, writes)
        }
        None => keep_given(batches, place, &[], outs, rows, writes),
    }
}

// Where the piece of work belongs, if it is out and the work is its own. Takes no memory.
fn own_place<R: Rows>(progress: &Progress, rows: &UndoRows<R>, work: &Work) -> Option<Place>
    requires { IsCore progress.now rows.now }
    ensures own { IfSome result (λ place. IsOwn (core_of progress.now rows.now) work.now) }
    ensures place { IfSome result (λ place. IsPieceAt progress.now place work.now.piece Out) }
    ensures foreign { IfNone result (IsOwn (core_of progress.now rows.now) work.now → ⊥) }
{
    let piece = work.piece;
    let place = progress.place_of_out(piece)?;
    match progress.cells_at(place, piece) {
        PieceCells::Keys(cells) => {
            let txn = progress.txn_at(place, piece);
            let kept = progress.values_at(place, piece);
            if is_work_of(
                &progress.pieces,
                piece,
                txn,
                kept,
                cells.as_slice(),
                rows.rows(),
                work,
            ) {
                Some(place)
            } else {
                None
            }
        }
        PieceCells::Whole => None,
    }
}

/// A result is handed in. It is kept where its piece is out and it is of the work that the replay has for it.
pub(crate) fn hand_in<R: Rows>(
    progress: &mut Progress,
    rows: &mut UndoRows<R>,
    done: Done,
) -> Finish
    requires { IsCore progress.old rows.old }
    ensures keeps { IsCore progress.new rows.new }
    ensures answer { IsHandedIn (core_of progress.old rows.old) done result (core_of progress.new rows.new) }
{
    let Some(place) = own_place(progress, rows, done.work()) else {
        return Finish::Foreign(done);
    };
    let piece = done.work().piece;
    is_value(&done);
    let (work, writes, outs, note) = done.into_parts();
    match leave(progress, rows, place, piece, &outs, writes) {
        Ok(()) => {
            progress.finish(place, piece, note);
            Finish::Kept
        }
        Err((writes, NoMemory)) => { Finish::NoMemory(Done::of_parts(work, writes, outs, note)) }
    }
}

/// Work is given back. Its piece is ready again where it is out and the work is its own. Takes no memory.
pub(crate) fn give_back<R: Rows>(progress: &mut Progress, rows: &UndoRows<R>, work: &Work)
    requires { IsCore progress.old rows.now }
    ensures keeps { IsCore progress.new rows.now }
    ensures back { IsGivenBack (core_of progress.old rows.now) work.now (core_of progress.new rows.now) }
    ensures rest { MovesOut (core_of progress.old rows.now) (core_of progress.new rows.now) }
{
    progress.recent = 0;
    if let Some(place) = own_place(progress, rows, work) {
        progress.put_back(place.at, work.piece);
    }
}
