// What a piece finds of the values that are kept of its transaction, what it passes on, and its code.
ghost use Rattle.std.specs.Prelude.{◌≡◌, ◌↔◌, ◌<◌, IfNone, IfOk, IfSome, IsTrue, OnOk, [], length};
ghost use Rattle.pac_keys.specs.Interfaces.{IsInterfaceOf};
ghost use Rattle.pac_plan.specs.Codes.{TxnFitsPlan, code_in};
ghost use Rattle.pac_core.specs.Inputs.{FindsInputs, PassesOn};

use crate::kept_values::KeptValues;
use crate::values::{are_values, find_values};
use pac_base::{Exact, NoMemory, Same};
use pac_keys::{Interface, PlanCode};
use pac_ops::Txn;
use pac_plan::{Code, Shared, is_plan};
use pac_value::Env;
use std::alloc::Global;

// The values that pass between a procedure's operations in a block and others.
fn interface<'a>(plan: &'a Shared<PlanCode>, proc: u16, block: u16) -> &'a Interface
    requires proc { proc < length plan.now.programs }
    requires block { block < plan.now.blocks }
    ensures { IsInterfaceOf plan.now proc block result.now }
{
    plan.get().interface(proc, block)
}

/// What a transaction's piece in a block finds of the values that are kept of the transaction.
///
/// # Errors
///
/// [`NoMemory`] where the values find no room.
pub(crate) fn found(
    alloc: Global,
    plan: &Shared<PlanCode>,
    txn: &Txn,
    block: u16,
    kept: &KeptValues,
) -> Result<Env, NoMemory>
    requires fits { TxnFitsPlan plan.now txn.now }
    requires block { block < plan.now.blocks }
    ensures { IfOk result (FindsInputs plan.now block txn.now kept.now) }
{
    let mut env = Env::new(alloc);
    find(plan, &mut env, txn, block, kept)?;
    Ok(env)
}

/// The same, in place of what an environment had.
///
/// # Errors
///
/// [`NoMemory`] where the values find no room.
pub(crate) fn find(
    plan: &Shared<PlanCode>,
    env: &mut Env,
    txn: &Txn,
    block: u16,
    kept: &KeptValues,
) -> Result<(), NoMemory>
    requires fits { TxnFitsPlan plan.now txn.now }
    requires block { block < plan.now.blocks }
    ensures { OnOk result (FindsInputs plan.now block txn.now kept.now env.new) }
{
    match txn {
        Txn::Call(call) => {
            let interface = interface(plan, call.proc, block);
            find_values(env, interface.inputs.as_slice(), kept)
        }
        Txn::AdHoc { records: _ } => {
            is_plan(plan.get().plan());
            env.clear();
            Ok(())
        }
    }
}

/// Whether these values are what the piece finds. Takes no memory.
pub(crate) fn finds(
    plan: &Shared<PlanCode>,
    txn: &Txn,
    block: u16,
    kept: &KeptValues,
    env: &Env,
) -> bool
    requires fits { TxnFitsPlan plan.now txn.now }
    requires block { block < plan.now.blocks }
    ensures { IsTrue result ↔ FindsInputs plan.now block txn.now kept.now env.now }
{
    match txn {
        Txn::Call(call) => {
            let interface = interface(plan, call.proc, block);
            are_values(interface.inputs.as_slice(), kept, env)
        }
        Txn::AdHoc { .. } => {
            is_plan(plan.get().plan());
            are_values(&[], kept, env)
        }
    }
}

/// The values that pass between a transaction's piece in a block and others. `None`: others need none of it.
pub(crate) fn interface_of<'a>(
    plan: &'a Shared<PlanCode>,
    txn: &Txn,
    block: u16,
) -> Option<&'a Interface>
    requires fits { TxnFitsPlan plan.now txn.now }
    requires block { block < plan.now.blocks }
    ensures some { IfSome result (λ interface. PassesOn plan.now block txn.now interface.now.outputs) }
    ensures none { IfNone result (PassesOn plan.now block txn.now []) }
{
    match txn {
        Txn::Call(call) => Some(interface(plan, call.proc, block)),
        Txn::AdHoc { .. } => None,
    }
}

/// The code of a transaction's piece in a block, one that is shared where it is a procedure's.
///
/// # Errors
///
/// [`NoMemory`] where the code of records finds no room.
pub(crate) fn code_of(
    alloc: Global,
    plan: &Shared<PlanCode>,
    txn: &Txn,
    block: u16,
) -> Result<Shared<Code>, NoMemory>
    requires fits { TxnFitsPlan plan.now txn.now }
    requires block { block < plan.now.blocks }
    ensures { IfOk result (λ code. code ≡ code_in plan.now block txn.now) }
{
    match txn {
        Txn::Call(call) => plan.get().code(call.proc, block).copy(alloc),
        Txn::AdHoc { records } => plan.get().records(alloc, records.items(), block),
    }
}

/// Whether this is the code of the piece. Takes no memory.
pub(crate) fn is_code_of(plan: &Shared<PlanCode>, txn: &Txn, block: u16, code: &Code) -> bool
    requires fits { TxnFitsPlan plan.now txn.now }
    requires block { block < plan.now.blocks }
    ensures { IsTrue result ↔ (code.now ≡ code_in plan.now block txn.now) }
{
    match (txn, code) {
        (Txn::Call(call), code) => plan.get().code(call.proc, block).get().same(code),
        (Txn::AdHoc { records }, Code::Records(own)) => {
            plan.get()
                .are_records(records.items(), block, own.as_slice())
        }
        (Txn::AdHoc { .. }, Code::Ops(_)) => false,
    }
}
