// Executing batches by a number of workers: one executes in order and in place, several are handed pieces by a core.
ghost use Rattle.std.specs.Prelude.{◌≡◌, ◌+◌, ◌^◌, ◌<◌, ◌≤◌, ◌∷◌, [], All, IfOk, List, OnOk, length, map, sum, true, vec_capacity, vec_len};
ghost use Rattle.pac_ops.specs.Notes.{first_note};
ghost use Rattle.pac_ops.specs.Shapes.{RowsFit};
ghost use Rattle.pac_ops.specs.Transactions.{replayed};
ghost use Rattle.pac_ops.specs.declared.batch.Batch.{Batch as ABatch};
ghost use Rattle.pac_commute.specs.Loads.{pieces_of};
ghost use Rattle.pac_commute.specs.PartialFits.{TxnsFitPlan};
ghost use Rattle.pac_commute.specs.PlanLaws.{NumbersRunOn, txns_of};
ghost use Rattle.pac_core.specs.FedExecution.{IsExecutedFeed};
ghost use Rattle.pac_workers.specs.Fed.{HasFed};

use crate::execution::{ExecutedInOrder, execute_feed_in_order, execute_in_order};
use pac_base::{NoMemory, listed};
use pac_core::Executed;
use pac_keys::PlanCode;
use pac_ops::{Batches, Gate};
use pac_plan::{Plan, Shared};
use pac_tables::Rows;
use pac_workers::Feed;
use std::alloc::Global;
use std::sync::Wait;
use std::thread::Threads;

/// Executes consecutive batches over tables, by `workers` workers. What is left is what executing their transactions one after
/// another leaves, whichever worker runs which piece, and when. One executes as [`execute_in_order`], several as
/// [`execute`](pac_core::execute) of a core.
///
/// # Errors
///
/// [`NoMemory`] where an allocation is refused, as these two say.
pub fn execute<R: Rows + Send, G: Gate + Sync, H: Threads + Wait + Sync>(
    rt: &H,
    alloc: Global,
    workers: u32,
    plan: Plan,
    first: u64,
    tables: R,
    batches: Batches,
    gate: &G,
) -> Result<Executed<R>, NoMemory>
    requires workers { 1 ≤ workers }
    requires tables { R.tables tables ≡ length plan.tables }
    requires fit { RowsFit plan.tables (R.held tables) }
    requires runs { NumbersRunOn first batches }
    requires txns { All (λ (batch : ABatch). TxnsFitPlan plan batch.txns) batches }
    requires numbers { first + length (txns_of batches) < 2 ^ 64 }
    ensures tables { IfOk result (λ e. R.tables e.tables ≡ length plan.tables) }
    ensures fit { IfOk result (λ e. RowsFit plan.tables (R.held e.tables)) }
    ensures held { IfOk result (λ e. R.held e.tables ≡ (replayed plan.programs first (txns_of batches) (R.held tables)).tables) }
    ensures note { IfOk result (λ e. e.first_note ≡ first_note (replayed plan.programs first (txns_of batches) (R.held tables)).notes) }
    ensures tallies { IfOk result (λ e. length e.tallies ≡ workers) }
    ensures counted { IfOk result (λ e. sum e.tallies + e.drained ≡ length (pieces_of (record { parts = plan; first = first; tables = R.held tables }) batches)) }
{
    if workers > 1 {
        return pac_core::execute(rt, alloc, workers, plan, first, tables, batches, gate);
    }
    let room = Vec::with_capacity(alloc, 1)?;
    let code = Shared::new(alloc, PlanCode::new(alloc, plan)?)?;
    let executed = execute_in_order(alloc, code, first, tables, batches, gate)?;
    Ok(by_one(room, executed))
}

/// Executes over tables what a feed gives, by `workers` workers. What is left is what executing the transactions of its batches one
/// after another leaves. One executes as [`execute_feed_in_order`], several as [`execute_feed`](pac_core::execute_feed) of a core.
/// Executions of parts of one log share the plan's code.
///
/// # Errors
///
/// [`NoMemory`] where an allocation is refused, as these two say. The feed isn't asked any more then.
pub fn execute_feed<R: Rows + Send, F: Feed, G: Gate + Sync, H: Threads + Wait + Sync>(
    rt: &H,
    alloc: Global,
    workers: u32,
    plan: Shared<PlanCode>,
    first: u64,
    tables: R,
    feed: &mut F,
    gate: &G,
) -> Result<Executed<R>, NoMemory>
    requires workers { 1 ≤ workers }
    requires tables { R.tables tables ≡ length plan.tables }
    requires fit { RowsFit plan.tables (R.held tables) }
    requires next { F.next_txn feed.old ≡ first }
    requires types { (F.params feed.old ≡ map (λ program. program.params) plan.programs) × (F.tables feed.old ≡ plan.tables) }
    ensures given { (batches : List ABatch) × HasFed F.so_far F.gives feed.old batches feed.new }
    ensures tables { IfOk result (λ e. R.tables e.tables ≡ length plan.tables) }
    ensures fit { IfOk result (λ e. RowsFit plan.tables (R.held e.tables)) }
    ensures executed { IfOk result (λ e. IsExecutedFeed (HasFed F.so_far F.gives) (record { parts = plan; first = first; tables = R.held tables }) feed.old feed.new (R.held e.tables) e.first_note (sum e.tallies + e.drained)) }
    ensures tallies { IfOk result (λ e. length e.tallies ≡ workers) }
    ensures over { OnOk result (F.is_over feed.new ≡ true) }
    ensures same_types { (F.params feed.new ≡ F.params feed.old) × (F.tables feed.new ≡ F.tables feed.old) }
{
    if workers > 1 {
        return pac_core::execute_feed(rt, alloc, workers, plan, first, tables, feed, gate);
    }
    feed.gives_none();
    let room = Vec::with_capacity(alloc, 1)?;
    let executed = execute_feed_in_order(alloc, plan, first, tables, feed, gate)?;
    Ok(by_one(room, executed))
}

// What one worker leaves, told as of several. Its tally takes the room.
fn by_one<R: Rows>(room: Vec<u64>, executed: ExecutedInOrder<R>) -> Executed<R>
    requires { (vec_len room ≡ 0) × (vec_capacity room ≡ 1) }
    ensures tables { result.tables ≡ executed.tables }
    ensures note { result.first_note ≡ executed.first_note }
    ensures tallies { result.tallies ≡ executed.pieces ∷ [] }
    ensures drained { result.drained ≡ executed.drained }
{
    let ExecutedInOrder {
        tables,
        first_note,
        pieces,
        drained,
    } = executed;
    let mut tallies = room;
    tallies.push_reserved(pieces);
    Executed {
        tables,
        first_note,
        tallies: listed(tallies),
        drained,
    }
}
