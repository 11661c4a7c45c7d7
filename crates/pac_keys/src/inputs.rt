// The arguments of transactions as inputs of pieces.
ghost use Rattle.std.specs.Prelude.{◌≡◌, ◌<◌, ◌^◌, ℕ, length, Some, IfOk};
ghost use Rattle.std.specs.FinMap.{empty};
ghost use Rattle.pac_ops.specs.Operations.{with_values};
ghost use Rattle.pac_plan.specs.Analysis.{HasBlockEdge};
ghost use Rattle.pac_plan.specs.Worlds.{txn_args};
ghost use Rattle.pac_plan.specs.Codes.{HasTxnInputs};

use crate::PlanCode;
use pac_base::NoMemory;
use pac_ops::Txn;
use pac_plan::{arguments_are_inputs, is_plan};
use pac_value::{Env, Value};
use std::alloc::Global;

/// The values that a transaction begins with: the arguments of a call, by the numbers of the parameters.
///
/// # Errors
///
/// [`NoMemory`] where the values find no room.
pub fn arguments(alloc: Global, txn: &Txn) -> Result<Env, NoMemory>
    ensures { IfOk result (λ env. env ≡ with_values 0 (txn_args (Some txn.now)) empty) }
{
    match txn {
        Txn::Call(call) => numbered(alloc, call.args.items()),
        Txn::AdHoc { .. } => Ok(Env::new(alloc)),
    }
}

// Values of the variables from number 0 on.
fn numbered(alloc: Global, values: &[Value]) -> Result<Env, NoMemory>
    requires { length values.now < 2 ^ 16 }
    ensures { IfOk result (λ env. env ≡ with_values 0 values.now empty) }
{
    let mut env = Env::new(alloc);
    for i in 0..values.len() {
        env.set(i as u16, &values[i])?;
    }
    Ok(env)
}

/// In a block to which no edge leads a transaction has its arguments as inputs: a law.
pub fn has_arguments(code: &PlanCode, txn: &Txn, block: u16, env: &Env)
    requires entry { (from : ℕ) → ¬ HasBlockEdge code.now from block }
    requires env { env.now ≡ with_values 0 (txn_args (Some txn.now)) empty }
    ensures { HasTxnInputs code.now block txn.now env.now }
{
    is_plan(code.plan());
    arguments_are_inputs();
    let _txn = txn;
    let _block = block;
    let _env = env;
}
