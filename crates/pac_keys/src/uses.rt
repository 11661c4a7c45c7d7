// The variables that operations use.
ghost use Rattle.std.specs.Prelude.{OnOk};
ghost use Rattle.pac_ops.specs.Effects.{used_in};
ghost use Rattle.pac_ops.specs.Uses.{expr_uses, exprs_use, conds_use, kind_uses};
ghost use Rattle.pac_keys.specs.Interfaces.{AddsVars};

use pac_base::NoMemory;
use pac_ops::{FlatOp, OpKind};
use pac_value::Expr;

// Adds the variables that an expression uses.
fn add_expr(expr: &Expr, vars: &mut Vec<u16>) -> Result<(), NoMemory>
    ensures { OnOk result (AddsVars (λ x. expr_uses x expr.now) vars.old.items vars.new.items) }
{
    match expr {
        Expr::Lit(_) => Ok(()),
        Expr::Var(var) => {
            vars.push(*var)?;
            Ok(())
        }
        Expr::Bin { left, right, .. } => {
            add_expr(left.get(), vars)?;
            add_expr(right.get(), vars)
        }
        Expr::Not(operand) => add_expr(operand.get(), vars),
    }
}

// Adds those that one of several uses.
fn add_exprs(exprs: &[Expr], vars: &mut Vec<u16>) -> Result<(), NoMemory>
    ensures { OnOk result (AddsVars (λ x. exprs_use x exprs.now) vars.old.items vars.new.items) }
{
    for expr in exprs {
        add_expr(expr, vars)?;
    }
    Ok(())
}

// Adds those of conditions.
fn add_conds(conds: &[(u16, bool)], vars: &mut Vec<u16>) -> Result<(), NoMemory>
    ensures { OnOk result (AddsVars (λ x. conds_use x conds.now) vars.old.items vars.new.items) }
{
    for cond in conds {
        vars.push(cond.0)?;
    }
    Ok(())
}

// Adds those of the key, the values and the test of an operation.
fn add_kind(kind: &OpKind, vars: &mut Vec<u16>) -> Result<(), NoMemory>
    ensures { OnOk result (AddsVars (λ x. kind_uses x kind.now) vars.old.items vars.new.items) }
{
    match kind {
        OpKind::Let { value, .. } => add_expr(value, vars),
        OpKind::Cond { test, .. } => add_expr(test, vars),
        OpKind::AbortIf { test } => add_expr(test, vars),
        OpKind::Read { key, .. } => add_expr(key, vars),
        OpKind::Has { key, .. } => add_expr(key, vars),
        OpKind::Delete { key, .. } => add_expr(key, vars),
        OpKind::Put { key, values, .. } => {
            add_expr(key, vars)?;
            add_exprs(values.as_slice(), vars)
        }
        OpKind::SetCol { key, value, .. } => {
            add_expr(key, vars)?;
            add_expr(value, vars)
        }
    }
}

/// Adds the variables that operations use.
pub(crate) fn add_ops(ops: &[(u16, FlatOp)], vars: &mut Vec<u16>) -> Result<(), NoMemory>
    ensures { OnOk result (AddsVars (used_in ops.now) vars.old.items vars.new.items) }
{
    for op in ops {
        add_conds(op.1.conds.as_slice(), vars)?;
        add_kind(&op.1.kind, vars)?;
    }
    Ok(())
}
