// What the operations of a piece define themselves, and what comes from elsewhere.
ghost use Rattle.std.specs.Prelude.{◌≡◌, IfOk, filter, not};
ghost use Rattle.pac_ops.specs.Effects.{is_var, defined_in};
ghost use Rattle.pac_plan.specs.Pieces.{avoids};
ghost use Rattle.pac_keys.specs.Probes.{outer_conds};

use pac_base::NoMemory;
use pac_ops::{Conds, FlatOp};
use pac_value::Expr;
use std::alloc::Global;

/// Whether it is this variable that is defined.
pub(crate) fn is_var(var: u16, defined: Option<u16>) -> bool
    ensures { result ≡ is_var var defined }
{
    match defined {
        Some(other) => var == other,
        None => false,
    }
}

/// Whether one of the operations defines the variable.
pub(crate) fn defines(ops: &[(u16, FlatOp)], var: u16) -> bool
    ensures { result ≡ defined_in ops.now var }
{
    ops.iter().any(|op| is_var(var, op.1.kind.defined()))
}

/// Whether the operations define no variable of the expression.
pub(crate) fn avoids(ops: &[(u16, FlatOp)], expr: &Expr) -> bool
    ensures { result ≡ avoids (defined_in ops.now) expr.now }
{
    match expr {
        Expr::Lit(_) => true,
        Expr::Var(var) => !defines(ops, *var),
        Expr::Bin { left, right, .. } => avoids(ops, left.get()) && avoids(ops, right.get()),
        Expr::Not(operand) => avoids(ops, operand.get()),
    }
}

/// The conditions on variables that the operations don't define.
pub(crate) fn outer_conds(
    alloc: Global,
    ops: &[(u16, FlatOp)],
    conds: &[(u16, bool)],
) -> Result<Conds, NoMemory>
    ensures { IfOk result (λ outer. outer ≡ outer_conds ops.now conds.now) }
{
    let mut outer = Conds::new(alloc);
    for cond in conds {
        if !defines(ops, cond.0) {
            outer.push(*cond)?;
        }
    }
    Ok(outer)
}
