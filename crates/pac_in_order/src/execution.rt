// Executing batches in order, by one worker on the caller's thread.
ghost use Rattle.std.specs.Prelude.{◌≡◌, ◌+◌, ◌^◌, ◌<◌, All, IfOk, List, None, OnOk, length, map, true};
ghost use Rattle.pac_ops.specs.Notes.{first_note};
ghost use Rattle.pac_ops.specs.Shapes.{RowsFit};
ghost use Rattle.pac_ops.specs.Transactions.{replayed};
ghost use Rattle.pac_ops.specs.declared.batch.Batch.{Batch as ABatch};
ghost use Rattle.pac_commute.specs.Loads.{pieces_of};
ghost use Rattle.pac_commute.specs.PartialFits.{TxnsFitPlan};
ghost use Rattle.pac_commute.specs.PlanLaws.{NumbersRunOn, txns_of};
ghost use Rattle.pac_in_order.specs.Courses.{IsCourseOutcome, IsNextInOrder, MayFollow, RanBatch, RanOn};
ghost use Rattle.pac_core.specs.FedExecution.{IsExecutedFeed};
ghost use Rattle.pac_workers.specs.Fed.{HasFed};

use crate::in_order::InOrder;
use pac_base::NoMemory;
use pac_keys::PlanCode;
use pac_ops::{Batch, Batches, Gate, Note, OpenGate};
use pac_plan::Shared;
use pac_tables::Rows;
use pac_workers::Feed;
use std::alloc::Global;
use std::collections::VecDeque;

/// What the execution of batches in order leaves.
#[derive(Drop)]
pub struct ExecutedInOrder<R: Rows> {
    pub tables: R,
    /// The first transaction that aborted, where one did: the tables don't count then.
    pub first_note: Option<Note>,
    /// How many pieces the worker ran.
    pub pieces: u64,
    /// How many were run after it, without the gate: of a batch in which it found no memory, those that it left.
    pub drained: u64,
}

/// How many pieces were run.
#[derive(Clone, Copy)]
struct Counts {
    pieces: u64,
    drained: u64,
}

/// The number of the one worker, which the gate is told.
const WORKER: u32 = 0;

/// Executes consecutive batches over tables, by one worker on this thread. What is left is what executing their transactions one
/// after another leaves. The worker passes the gate with each piece, before it runs.
///
/// # Errors
///
/// [`NoMemory`] where an allocation is refused again, once the piece for which it was refused first was begun again; where what is
/// loaded finds no room; or where there are more pieces than a count can hold.
pub fn execute_in_order<R: Rows, G: Gate>(
    alloc: Global,
    plan: Shared<PlanCode>,
    first: u64,
    tables: R,
    batches: Batches,
    gate: &G,
) -> Result<ExecutedInOrder<R>, NoMemory>
    requires tables { R.tables tables ≡ length plan.tables }
    requires fit { RowsFit plan.tables (R.held tables) }
    requires runs { NumbersRunOn first batches }
    requires txns { All (λ (batch : ABatch). TxnsFitPlan plan batch.txns) batches }
    requires numbers { first + length (txns_of batches) < 2 ^ 64 }
    ensures tables { IfOk result (λ e. R.tables e.tables ≡ length plan.tables) }
    ensures fit { IfOk result (λ e. RowsFit plan.tables (R.held e.tables)) }
    ensures held { IfOk result (λ e. R.held e.tables ≡ (replayed plan.programs first (txns_of batches) (R.held tables)).tables) }
    ensures note { IfOk result (λ e. e.first_note ≡ first_note (replayed plan.programs first (txns_of batches) (R.held tables)).notes) }
    ensures counted { IfOk result (λ e. e.pieces + e.drained ≡ length (pieces_of (record { parts = plan; first = first; tables = R.held tables }) batches)) }
{
    let mut replay = InOrder::new(alloc, plan, first, tables);
    let mut counts = Counts {
        pieces: 0,
        drained: 0,
    };
    let mut rest = in_turn(alloc, batches)?;
    while let Some(batch) = rest.pop_front() {
        run_batch(&mut replay, batch, gate, &mut counts)?;
    }
    Ok(into_executed(replay, counts))
}

/// Executes over tables what a feed gives, by one worker on this thread: each batch is loaded, run and let go before the next one is
/// asked for. What is left is what executing the transactions of its batches one after another leaves. The worker passes the gate with each
/// piece, before it runs. Executions of parts of one log share the plan's code.
///
/// # Errors
///
/// [`NoMemory`] as [`execute_in_order`]. The feed isn't asked any more then.
pub fn execute_feed_in_order<R: Rows, F: Feed, G: Gate>(
    alloc: Global,
    plan: Shared<PlanCode>,
    first: u64,
    tables: R,
    feed: &mut F,
    gate: &G,
) -> Result<ExecutedInOrder<R>, NoMemory>
    requires tables { R.tables tables ≡ length plan.tables }
    requires fit { RowsFit plan.tables (R.held tables) }
    requires next { F.next_txn feed.old ≡ first }
    requires types { (F.params feed.old ≡ map (λ program. program.params) plan.programs) × (F.tables feed.old ≡ plan.tables) }
    ensures given { (batches : List ABatch) × HasFed F.so_far F.gives feed.old batches feed.new }
    ensures tables { IfOk result (λ e. R.tables e.tables ≡ length plan.tables) }
    ensures fit { IfOk result (λ e. RowsFit plan.tables (R.held e.tables)) }
    ensures executed { IfOk result (λ e. IsExecutedFeed (HasFed F.so_far F.gives) (record { parts = plan; first = first; tables = R.held tables }) feed.old feed.new (R.held e.tables) e.first_note (e.pieces + e.drained)) }
    ensures over { OnOk result (F.is_over feed.new ≡ true) }
    ensures same_types { (F.params feed.new ≡ F.params feed.old) × (F.tables feed.new ≡ F.tables feed.old) }
{
    feed.gives_none();
    let mut replay = InOrder::new(alloc, plan, first, tables);
    let mut counts = Counts {
        pieces: 0,
        drained: 0,
    };
    while let Some(batch) = feed.next() {
        run_batch(&mut replay, batch, gate, &mut counts)?;
    }
    Ok(into_executed(replay, counts))
}

// Batches, to be taken one after another from the first on.
fn in_turn(alloc: Global, batches: Batches) -> Result<VecDeque<Batch>, NoMemory>
    ensures { IfOk result (λ rest. rest.items ≡ batches) }
{
    let mut batches = batches;
    let mut rest = VecDeque::with_capacity(alloc, batches.len())?;
    while let Some(batch) = batches.pop() {
        rest.push_front(batch)?;
    }
    Ok(rest)
}

// Loads a batch and runs it.
fn run_batch<R: Rows, G: Gate>(
    replay: &mut InOrder<R>,
    batch: Batch,
    gate: &G,
    counts: &mut Counts,
) -> Result<(), NoMemory>
    requires finished { IsNextInOrder replay.old None }
    requires may { MayFollow replay.old batch }
    requires numbers { batch.first + length batch.txns < 2 ^ 64 }
    ensures ran { OnOk result (RanBatch replay.old batch replay.new) }
    ensures counts { OnOk result (counts.new.pieces + counts.new.drained + length replay.old.finished ≡ counts.old.pieces + counts.old.drained + length replay.new.finished) }
{
    if replay.load(batch).is_err() {
        return Err(NoMemory);
    }
    let Counts { pieces, drained } = finish(replay, gate)?;
    let Some(pieces) = counts.pieces.checked_add(pieces) else {
        return Err(NoMemory);
    };
    let Some(drained) = counts.drained.checked_add(drained) else {
        return Err(NoMemory);
    };
    *counts = Counts { pieces, drained };
    Ok(())
}

// Runs all that is loaded: what the worker leaves, where it finds no memory, is run after it.
fn finish<R: Rows, G: Gate>(replay: &mut InOrder<R>, gate: &G) -> Result<Counts, NoMemory>
    ensures ran { IfOk result (λ counts. RanOn replay.old (counts.pieces + counts.drained) replay.new) }
    ensures finished { OnOk result (IsNextInOrder replay.new None) }
{
    match replay.run(gate, WORKER) {
        Ok(pieces) => Ok(Counts { pieces, drained: 0 }),
        Err(stopped) => match replay.run(&OpenGate, WORKER) {
            Ok(drained) => Ok(Counts {
                pieces: stopped.pieces,
                drained,
            }),
            Err(_) => Err(NoMemory),
        },
    }
}

// What is left once all is finished.
fn into_executed<R: Rows>(replay: InOrder<R>, counts: Counts) -> ExecutedInOrder<R>
    requires { IsNextInOrder replay None }
    ensures outcome { IsCourseOutcome replay (R.held result.tables) result.first_note }
    ensures tables { R.tables result.tables ≡ length replay.job.parts.tables }
    ensures fit { RowsFit replay.job.parts.tables (R.held result.tables) }
    ensures counts { result.pieces + result.drained ≡ counts.pieces + counts.drained }
{
    let Counts { pieces, drained } = counts;
    let (tables, first_note) = replay.into_parts();
    ExecutedInOrder {
        tables,
        first_note,
        pieces,
        drained,
    }
}
