// Opening the pieces of a set.
ghost use Rattle.std.specs.Prelude.{◌≡◌, ◌<◌, ◌≤◌, ◌+◌, ◌-◌, ℕ, List, IfOk, OnOk, Some, length, map, slice_get};
ghost use Rattle.std.specs.List.{AllByRecursion};
ghost use Rattle.pac_ops.specs.declared.transaction.Txn.{Txn as ATxn};
ghost use Rattle.pac_value.specs.Expressions.{Values};
ghost use Rattle.pac_plan.specs.Codes.{HasTxnInputs, TxnFitsPlan};
ghost use Rattle.pac_batch.specs.Sets.{set_of};
ghost use Rattle.pac_core.specs.Cells.{HasCellsOf};
ghost use Rattle.pac_core.specs.Inputs.{FindsInputs};
ghost use Rattle.pac_core.specs.Links.{IsRest};
ghost use Rattle.pac_core.specs.Moves.{HasAllInputs, IsFreshlyOpen, access_over};

use crate::cells::{PieceCells, cells_of};
use crate::loaded::LoadedBatch;
use crate::passing::find;
use crate::stage::OpenSet;
use pac_base::NoMemory;
use pac_batch::queue_preds;
use pac_keys::PlanCode;
use pac_ops::PieceId;
use pac_plan::{Access, Shared};
use pac_sched::Sched;
use pac_value::Env;
use std::alloc::Global;

/// Opens the pieces that these transactions of a batch have in a block: computes their accesses, and from them which of the
/// pieces wait for which.
///
/// # Errors
///
/// [`NoMemory`] where what is kept of them finds no room.
pub(crate) fn open_set(
    alloc: Global,
    plan: &Shared<PlanCode>,
    loaded: &LoadedBatch,
    block: u16,
    txns: &[u64],
) -> Result<OpenSet, NoMemory>
    requires fit { AllByRecursion (TxnFitsPlan plan.now) loaded.now.batch.txns }
    requires block { block < plan.now.blocks }
    requires txns { IsRest (set_of plan.now loaded.now.batch.first loaded.now.batch.txns block).txns txns.now }
    requires inputs { HasAllInputs plan.now loaded.now block }
    ensures { IfOk result (IsFreshlyOpen plan.now loaded.now block txns.now) }
{
    let _few = loaded.batch.txns.items();
    let mut accesses = Vec::with_capacity(alloc, txns.len())?;
    let mut cells = Vec::with_capacity(alloc, txns.len())?;
    let mut pieces = Vec::with_capacity(alloc, txns.len())?;
    let mut env = Env::new(alloc);
    for txn in txns {
        let access = access_of(alloc, plan, loaded, block, *txn, &mut env)?;
        cells.push(cells_of(alloc, &access)?)?;
        accesses.push(access)?;
        pieces.push(PieceId { txn: *txn, block })?;
    }
    let preds = queue_preds(alloc, &accesses)?;
    let mut sched = Sched::new(alloc);
    sched.open_set(&pieces, &preds)?;
    Ok(OpenSet { sched, cells })
}

// The access of a transaction's piece in a block. It puts what the piece finds in place of what an environment had.
fn access_of(
    alloc: Global,
    plan: &Shared<PlanCode>,
    loaded: &LoadedBatch,
    block: u16,
    txn: u64,
    env: &mut Env,
) -> Result<Access, NoMemory>
    requires fit { AllByRecursion (TxnFitsPlan plan.now) loaded.now.batch.txns }
    requires block { block < plan.now.blocks }
    requires first { loaded.now.batch.first ≤ txn }
    requires last { txn < loaded.now.batch.first + length loaded.now.batch.txns }
    requires inputs { HasAllInputs plan.now loaded.now block }
    ensures { IfOk result (λ access. access ≡ access_over plan.now loaded.now block txn) }
{
    let i = (txn - loaded.batch.first) as usize;
    let txn = &loaded.batch.txns.items()[i];
    find(plan, env, txn, block, &loaded.kept[i])?;
    plan.get().access(alloc, txn, block, env)
}
