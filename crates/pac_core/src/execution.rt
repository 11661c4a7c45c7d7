// Executing batches by workers.
ghost use Rattle.std.specs.Prelude.{◌≡◌, ◌+◌, ◌^◌, ◌<◌, ◌≤◌, All, IfOk, List, OnOk, length, map, sum, true};
ghost use Rattle.pac_ops.specs.Notes.{first_note};
ghost use Rattle.pac_ops.specs.Shapes.{RowsFit};
ghost use Rattle.pac_ops.specs.Transactions.{replayed};
ghost use Rattle.pac_ops.specs.declared.batch.Batch.{Batch as ABatch};
ghost use Rattle.pac_commute.specs.Loads.{pieces_of};
ghost use Rattle.pac_commute.specs.PartialFits.{TxnsFitPlan};
ghost use Rattle.pac_commute.specs.PlanLaws.{NumbersRunOn, txns_of};
ghost use Rattle.pac_core.specs.Calls.{IsReplayDone, IsReplayOutcome, with_batches};
ghost use Rattle.pac_core.specs.Replay.{closed, opening_replay};
ghost use Rattle.pac_core.specs.FedExecution.{IsExecutedFeed};
ghost use Rattle.pac_workers.specs.Fed.{HasFed};

use crate::answers::Outcome;
use crate::replay::Core;
use pac_base::{Listed, NoMemory};
use pac_keys::PlanCode;
use pac_ops::{Batches, Gate, Note};
use pac_plan::{Plan, Shared};
use pac_tables::Rows;
use pac_workers::{Feed, Replayed, replay, replay_feed};
use std::alloc::Global;
use std::sync::Wait;
use std::thread::Threads;

/// What the execution of batches by workers leaves.
#[derive(Drop)]
pub struct Executed<R: Rows> {
    pub tables: R,
    /// The first transaction that aborted, where one did: the tables don't count then.
    pub first_note: Option<Note>,
    /// How many pieces each worker finished.
    pub tallies: Listed<u64>,
    /// How many were left by all workers, and were run after them.
    pub drained: u64,
}

/// Executes consecutive batches over tables, by `workers` workers. What is left is what executing their transactions one after
/// another leaves, whichever worker runs which piece, and when. Workers pass the gate as in [`replay`](pac_workers::replay).
///
/// # Errors
///
/// [`NoMemory`] where an allocation is refused: for what is loaded, or as in [`replay`].
pub fn execute<R: Rows + Send, G: Gate + Sync, H: Threads + Wait + Sync>(
    rt: &H,
    alloc: Global,
    workers: u32,
    plan: Plan,
    first: u64,
    tables: R,
    batches: Batches,
    gate: &G,
) -> Result<Executed<R>, NoMemory>
    requires workers { 1 ≤ workers }
    requires tables { R.tables tables ≡ length plan.tables }
    requires fit { RowsFit plan.tables (R.held tables) }
    requires runs { NumbersRunOn first batches }
    requires txns { All (λ (batch : ABatch). TxnsFitPlan plan batch.txns) batches }
    requires numbers { first + length (txns_of batches) < 2 ^ 64 }
    ensures tables { IfOk result (λ e. R.tables e.tables ≡ length plan.tables) }
    ensures fit { IfOk result (λ e. RowsFit plan.tables (R.held e.tables)) }
    ensures held { IfOk result (λ e. R.held e.tables ≡ (replayed plan.programs first (txns_of batches) (R.held tables)).tables) }
    ensures note { IfOk result (λ e. e.first_note ≡ first_note (replayed plan.programs first (txns_of batches) (R.held tables)).notes) }
    ensures tallies { IfOk result (λ e. length e.tallies ≡ workers) }
    ensures counted { IfOk result (λ e. sum e.tallies + e.drained ≡ length (pieces_of (record { parts = plan; first = first; tables = R.held tables }) batches)) }
{
    let core = loaded(alloc, plan, first, tables, batches)?;
    let replayed = replay(rt, alloc, workers, core, gate)?;
    Ok(into_executed(replayed))
}

/// Executes over tables what a feed gives, by `workers` workers, while the caller's thread loads it. What is left is what
/// executing the transactions of its batches one after another leaves. Workers pass the gate as in [`replay`](pac_workers::replay).
/// Executions of parts of one log share the plan's code.
///
/// # Errors
///
/// [`NoMemory`] as [`replay_feed`]. The feed isn't asked any more then.
pub fn execute_feed<R: Rows + Send, F: Feed, G: Gate + Sync, H: Threads + Wait + Sync>(
    rt: &H,
    alloc: Global,
    workers: u32,
    plan: Shared<PlanCode>,
    first: u64,
    tables: R,
    feed: &mut F,
    gate: &G,
) -> Result<Executed<R>, NoMemory>
    requires workers { 1 ≤ workers }
    requires tables { R.tables tables ≡ length plan.tables }
    requires fit { RowsFit plan.tables (R.held tables) }
    requires next { F.next_txn feed.old ≡ first }
    requires types { (F.params feed.old ≡ map (λ program. program.params) plan.programs) × (F.tables feed.old ≡ plan.tables) }
    ensures given { (batches : List ABatch) × HasFed F.so_far F.gives feed.old batches feed.new }
    ensures tables { IfOk result (λ e. R.tables e.tables ≡ length plan.tables) }
    ensures fit { IfOk result (λ e. RowsFit plan.tables (R.held e.tables)) }
    ensures executed { IfOk result (λ e. IsExecutedFeed (HasFed F.so_far F.gives) (record { parts = plan; first = first; tables = R.held tables }) feed.old feed.new (R.held e.tables) e.first_note (sum e.tallies + e.drained)) }
    ensures tallies { IfOk result (λ e. length e.tallies ≡ workers) }
    ensures over { OnOk result (F.is_over feed.new ≡ true) }
    ensures same_types { (F.params feed.new ≡ F.params feed.old) × (F.tables feed.new ≡ F.tables feed.old) }
{
    feed.gives_none();
    let core = Core::with_code(alloc, plan, first, tables)?;
    let replayed = replay_feed(rt, alloc, workers, core, feed, gate)?;
    Ok(into_executed(replayed))
}

// What a finished replay leaves.
fn into_executed<R: Rows>(replayed: Replayed<Core<R>>) -> Executed<R>
    requires { IsReplayDone replayed.machine }
    ensures outcome { IsReplayOutcome replayed.machine (R.held result.tables) result.first_note }
    ensures tables { R.tables result.tables ≡ length replayed.machine.job.parts.tables }
    ensures fit { RowsFit replayed.machine.job.parts.tables (R.held result.tables) }
    ensures counts { (result.tallies ≡ replayed.tallies) × (result.drained ≡ replayed.drained) }
{
    let Replayed {
        machine,
        tallies,
        drained,
    } = replayed;
    let Outcome { tables, first_note } = machine.outcome();
    Executed {
        tables,
        first_note,
        tallies,
        drained,
    }
}

// Batches are loaded, and no more come.
fn loaded<R: Rows>(
    alloc: Global,
    plan: Plan,
    first: u64,
    tables: R,
    batches: Batches,
) -> Result<Core<R>, NoMemory>
    requires tables { R.tables tables ≡ length plan.tables }
    requires fit { RowsFit plan.tables (R.held tables) }
    requires runs { NumbersRunOn first batches }
    requires txns { All (λ (batch : ABatch). TxnsFitPlan plan batch.txns) batches }
    requires numbers { first + length (txns_of batches) < 2 ^ 64 }
    ensures { IfOk result (λ core. core ≡ closed (with_batches (opening_replay (record { parts = plan; first = first; tables = R.held tables })) batches)) }
{
    let mut core = Core::new(alloc, plan, first, tables)?;
    core.load_all(batches)?;
    core.close();
    Ok(core)
}
