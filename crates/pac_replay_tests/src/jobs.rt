// How a core recognizes its job, and cores that begin a job anew.
ghost use Rattle.std.specs.Prelude.{◌≡◌, false, IfSome, IsTrue};
ghost use Rattle.std.specs.FinMap.{empty};
ghost use Rattle.pac_commute.specs.Loads.{next_in_job};
ghost use Rattle.pac_core.specs.Calls.{MayLoadAll};
ghost use Rattle.pac_core.specs.Replay.{Replay};

use crate::cores::{may_come, script_core};
use crate::ends::{drained, hold};
use crate::takes::{AFTER_THREE, THREE};
use pac_core::{Core, Job};
use pac_ops::Batch;
use pac_plan::Plan;
use pac_script::BANK;
use pac_tables::{HashedRows, Rows};
use std::alloc::Global;

// The third batch is another call.
const OTHER: &[u8] = b"call Deposit(1, 100, 7)
flush
adhoc put Family[1] = (2)
flush
call Transfer(1, 41)
";

fn closed_core(alloc: Global, lines: &[u8]) -> Option<Core<HashedRows>>
    ensures { IfSome result (λ core. core.job.tables ≡ empty) }
{
    let mut core = script_core(alloc, BANK, lines)?;
    core.close();
    Some(core)
}

// Whether a job is that of a core.
fn is_job_of<R: Rows>(core: &Core<R>, job: &Job<R>) -> Option<bool> {
    core.is_of(job).ok()
}

fn is_job_of_lines(alloc: Global, lines: &[u8], job: &Job<HashedRows>) -> Option<bool> {
    let core = closed_core(alloc, lines)?;
    is_job_of(&core, job)
}

// Whether the job of these lines is that of the three batches.
fn is_known(alloc: Global, lines: &[u8]) -> Option<bool> {
    let core = closed_core(alloc, lines)?;
    let job = core.job().ok()?;
    is_job_of_lines(alloc, THREE, &job)
}

#[test]
fn a_core_knows_its_own_job(rt: HostRuntime) {
    assert_eq!(rt; is_known(rt.alloc(), THREE), Some(true));
    assert_eq!(rt; is_known(rt.alloc(), OTHER), Some(false));
}

// Whether batches may be loaded by a plan one after another, from a number on.
fn may_be_loaded(plan: &Plan, next: u64, batches: &[Batch]) -> bool
    ensures { IsTrue result → (r : Replay) → r.job.parts ≡ plan.now → r.is_closed ≡ false
        → next_in_job r.job r.batches ≡ next → MayLoadAll r batches.now }
{
    match batches {
        [] => true,
        [batch, rest @ ..] => {
            if !may_come(plan, next, batch) {
                return false;
            }
            may_be_loaded(plan, next + batch.txns.items().len() as u64, rest)
        }
    }
}

// A core that begins the job of another.
fn begun_anew<R: Rows>(alloc: Global, core: &Core<R>) -> Option<Core<R>>
    requires { core.now.job.tables ≡ empty }
{
    let Ok(job) = core.job() else {
        return None;
    };
    if may_be_loaded(&job.plan, job.first, job.batches.as_slice()) {
        Core::from_job(alloc, job).ok()
    } else {
        None
    }
}

fn begun_of_three(alloc: Global) -> Option<Core<HashedRows>> {
    let core = closed_core(alloc, THREE)?;
    begun_anew(alloc, &core)
}

// How many pieces are left in a core, and whether it ends as the three batches do.
fn ends_as_three<R: Rows>(core: Core<R>) -> (u64, bool) {
    let left = core.unfinished();
    match drained(core) {
        Some(outcome) => (left, hold(&outcome.tables, AFTER_THREE)),
        None => (left, false),
    }
}

fn end_of_three(alloc: Global) -> Option<(u64, bool)> {
    let core = begun_of_three(alloc)?;
    Some(ends_as_three(core))
}

#[test]
fn a_job_is_begun_anew(rt: HostRuntime) {
    assert_eq!(rt; end_of_three(rt.alloc()), Some((9, true)));
}
