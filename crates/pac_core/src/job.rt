// What tells a core's job.
ghost use Rattle.std.specs.Prelude.{◌≡◌, ◌↔◌, IfOk, IsTrue, map};
ghost use Rattle.pac_core.specs.declared.loaded.LoadedBatch.{LoadedBatch as ALoaded};

use crate::loaded::LoadedBatch;
use pac_base::{Exact, NoMemory, Same};
use pac_ops::{Batch, Batches};
use pac_plan::{Plan, one_plan};
use pac_tables::Rows;
use std::alloc::Global;
use std::collections::VecDeque;

/// What tells a core's job: its plan, the number of its first transaction, the tables of its opening, and the loaded batches
/// in order.
#[derive(Drop)]
pub struct Job<R: Rows> {
    pub plan: Plan,
    pub first: u64,
    pub opening: R,
    pub batches: Batches,
}

/// Batches, to be taken one after another from the first on.
///
/// # Errors
///
/// [`NoMemory`] where they find no room.
pub(crate) fn in_turn(alloc: Global, batches: Batches) -> Result<VecDeque<Batch>, NoMemory>
    ensures { IfOk result (λ rest. rest.items ≡ batches) }
{
    let mut batches = batches;
    let mut rest = VecDeque::with_capacity(alloc, batches.len())?;
    while let Some(batch) = batches.pop() {
        rest.push_front(batch)?;
    }
    Ok(rest)
}

/// Copies of the loaded batches.
///
/// # Errors
///
/// [`NoMemory`] where they find no room.
pub(crate) fn batch_copies(alloc: Global, loaded: &[LoadedBatch]) -> Result<Vec<Batch>, NoMemory>
    ensures { IfOk result (λ batches. map (λ (one : ALoaded). one.batch) loaded.now ≡ batches.items) }
{
    let mut batches = Vec::with_capacity(alloc, loaded.len())?;
    for one in loaded {
        batches.push(one.batch.copy(alloc)?)?;
    }
    Ok(batches)
}

/// Whether two plans are equal. Takes no memory.
pub(crate) fn are_same_plans(plan: &Plan, other: &Plan) -> bool
    ensures { IsTrue result ↔ (plan.now ≡ other.now) }
{
    if !are_same_programs(plan, other) {
        return false;
    }
    if !are_same_tables(plan, other) {
        return false;
    }
    one_plan(plan, other);
    true
}

// Whether they have the same programs.
fn are_same_programs(plan: &Plan, other: &Plan) -> bool
    ensures { IsTrue result ↔ (plan.now.programs ≡ other.now.programs) }
{
    if plan.procs() != other.procs() {
        return false;
    }
    for proc in 0..plan.procs() {
        if !plan.program(proc).same(other.program(proc)) {
            return false;
        }
    }
    true
}

// Whether they have the same tables.
fn are_same_tables(plan: &Plan, other: &Plan) -> bool
    ensures { IsTrue result ↔ (plan.now.tables ≡ other.now.tables) }
{
    if plan.tables() != other.tables() {
        return false;
    }
    for table in 0..plan.tables() {
        if !plan.table_types(table).same(other.table_types(table)) {
            return false;
        }
    }
    true
}

/// Whether these are the loaded batches. Takes no memory.
pub(crate) fn are_batches(loaded: &[LoadedBatch], batches: &[Batch]) -> bool
    ensures { IsTrue result ↔ (map (λ (one : ALoaded). one.batch) loaded.now ≡ batches.now) }
{
    if loaded.len() != batches.len() {
        return false;
    }
    for i in 0..loaded.len() {
        if !loaded[i].batch.same(&batches[i]) {
            return false;
        }
    }
    true
}
