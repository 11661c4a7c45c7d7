// Cores over tables without rows, in which the batches of a script are loaded.
ghost use Rattle.std.specs.Prelude.{◌≡◌, ◌<◌, ◌+◌, ◌^◌, [], length, IfSome, IsTrue};
ghost use Rattle.std.specs.FinMap.{empty};
ghost use Rattle.pac_types.specs.OperationLimits.{HasFewOperations};
ghost use Rattle.pac_commute.specs.PartialFits.{TxnsFitPlan};
ghost use Rattle.pac_script.specs.BatchFits.{BatchesFit, BatchesHaveNumbers};
ghost use Rattle.pac_core.specs.Replay.{opening_replay};

use pac_base::Exact;
use pac_core::Core;
use pac_flat::flatten;
use pac_global::global;
use pac_ops::Batch;
use pac_plan::Plan;
use pac_script::{Script, read_script};
use pac_tables::{HashedRows, Rows};
use pac_types::Catalogue;
use std::alloc::{AllocError, Global};

/// Amounts are added to rows, and a procedure needs one.
pub(crate) const ADD: &[u8] = b"table T(key int, v int);
proc Add(k int, n int) {
  read a = T[k].v default 0;
  let m = n;
  let b = a + m;
  put T[k] = (b);
}
proc Need(k int) {
  read a = T[k].v default 1;
  abort if a == 0;
}
";

// A catalogue, and lines after the mark.
fn text_of(alloc: Global, catalogue: &[u8], lines: &[u8]) -> Result<Vec<u8>, AllocError> {
    let mut text = catalogue.to_vec(alloc)?;
    text.extend_from_slice(b"---\n")?;
    text.extend_from_slice(lines)?;
    Ok(text)
}

/// The script of a catalogue and of lines.
pub(crate) fn script_of(alloc: Global, catalogue: &[u8], lines: &[u8]) -> Option<Script>
    ensures fits { IfSome result (λ script. BatchesFit script.catalogue script.batches) }
    ensures numbers { IfSome result (λ script. BatchesHaveNumbers script.batches) }
{
    match text_of(alloc, catalogue, lines) {
        Ok(text) => read_script(alloc, &text).ok(),
        Err(_) => None,
    }
}

/// The plan of a catalogue.
pub(crate) fn plan_of(alloc: Global, catalogue: &Catalogue) -> Option<Plan>
    ensures { IfSome result (λ _. HasFewOperations catalogue.now.procs) }
{
    let Ok(programs) = flatten(alloc, catalogue) else {
        return None;
    };
    let _procs = catalogue.procs(); // so few that they can be planned
    global(alloc, catalogue, programs).ok()
}

// A core with nothing loaded.
fn empty_core(alloc: Global, plan: &Plan) -> Option<Core<HashedRows>>
    ensures { IfSome result (λ core. core ≡ opening_replay (record { parts = plan.now; first = 1; tables = empty })) }
{
    let Ok(copy) = plan.copy(alloc) else {
        return None;
    };
    match HashedRows::new(alloc, plan.tables()) {
        Ok(rows) => Core::new(alloc, copy, 1, rows).ok(),
        Err(_) => None,
    }
}

/// Whether a batch may come next, by a plan and the number of its first transaction.
pub(crate) fn may_come(plan: &Plan, next: u64, batch: &Batch) -> bool
    ensures first { IsTrue result → batch.now.first ≡ next }
    ensures fits { IsTrue result → TxnsFitPlan plan.now batch.now.txns }
    ensures numbers { IsTrue result → next + length batch.now.txns < 2 ^ 64 }
{
    let txns = batch.txns.items();
    if batch.first != next || next > 1_000_000_000 || txns.len() > 1_024 {
        return false;
    }
    plan.fits_all(txns)
}

// Whether a batch is loaded: where it may be, and there is room.
fn is_loaded<R: Rows>(core: &mut Core<R>, plan: &Plan, batch: Batch) -> bool
    requires { core.old.job.parts ≡ plan.now }
    ensures job { core.new.job ≡ core.old.job }
    ensures out { core.new.out ≡ core.old.out }
{
    if core.is_closed() || !may_come(plan, core.next_txn(), &batch) {
        return false;
    }
    core.load(batch).is_ok()
}

// Whether copies of these batches are loaded one after another.
fn are_loaded<R: Rows>(alloc: Global, core: &mut Core<R>, plan: &Plan, batches: &[Batch]) -> bool
    requires { core.old.job.parts ≡ plan.now }
    ensures job { core.new.job ≡ core.old.job }
    ensures out { core.new.out ≡ core.old.out }
{
    for batch in batches {
        let Ok(copy) = batch.copy(alloc) else {
            return false;
        };
        if !is_loaded(core, plan, copy) {
            return false;
        }
    }
    true
}

/// A core in which these batches are loaded.
pub(crate) fn core_of(alloc: Global, plan: &Plan, batches: &[Batch]) -> Option<Core<HashedRows>>
    ensures { IfSome result (λ core. (core.job.tables ≡ empty) × (core.out ≡ [])) }
{
    let mut core = empty_core(alloc, plan)?;
    if are_loaded(alloc, &mut core, plan, batches) {
        Some(core)
    } else {
        None
    }
}

/// A core in which the batches of a script are loaded.
pub(crate) fn script_core(alloc: Global, catalogue: &[u8], lines: &[u8]) -> Option<Core<HashedRows>>
    ensures { IfSome result (λ core. (core.job.tables ≡ empty) × (core.out ≡ [])) }
{
    let script = script_of(alloc, catalogue, lines)?;
    let plan = plan_of(alloc, &script.catalogue)?;
    core_of(alloc, &plan, script.batches.as_slice())
}
