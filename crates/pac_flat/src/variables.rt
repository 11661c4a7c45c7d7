// The types of a program's variables.
ghost use Rattle.std.specs.Prelude.{◌≡◌, slice_get, IfOk};
ghost use Rattle.pac_value.specs.Expressions.{operator_type, type_in};
ghost use Rattle.pac_ops.specs.Programs.{given_type, scope_in};
ghost use Rattle.pac_flat.specs.FlatForm.{types_after};

use pac_base::NoMemory;
use pac_ops::{FlatOp, OpKind};
use pac_value::{BinOp, Expr, Ty};
use std::alloc::Global;

/// The types of all variables: those of the parameters, and then that of each operation's variable.
pub(crate) fn variable_types(
    alloc: Global,
    params: &[Ty],
    ops: &[FlatOp],
) -> Result<Vec<Ty>, NoMemory>
    ensures { IfOk result (λ vars. vars.items ≡ types_after params.now ops.now) }
{
    let mut vars = Vec::new(alloc);
    for ty in params {
        vars.push(*ty)?;
    }
    for op in ops {
        if let Some(ty) = given_type(&op.kind, vars.as_slice()) {
            vars.push(ty)?;
        }
    }
    Ok(vars)
}

// The type that an operation gives its variable. `None`: it has none.
fn given_type(kind: &OpKind, vars: &[Ty]) -> Option<Ty>
    ensures { result ≡ given_type (scope_in vars.now) kind.now }
{
    match kind {
        OpKind::Let { value, .. } => type_of_expr(value, vars),
        OpKind::Cond { .. } | OpKind::Has { .. } => Some(Ty::Bool),
        OpKind::Read { default, .. } => Some(default.ty()),
        OpKind::Put { .. }
        | OpKind::SetCol { .. }
        | OpKind::Delete { .. }
        | OpKind::AbortIf { .. } => None,
    }
}

// The type of an expression over variables of these types. `None`: it is not well typed.
fn type_of_expr(expr: &Expr, vars: &[Ty]) -> Option<Ty>
    ensures { result ≡ type_in (scope_in vars.now) expr.now }
{
    match expr {
        Expr::Lit(value) => Some(value.ty()),
        Expr::Var(var) => type_of_variable(*var, vars),
        Expr::Bin { op, left, right } => {
            let left = type_of_expr(left.get(), vars)?;
            let right = type_of_expr(right.get(), vars)?;
            type_of_operator(*op, left, right)
        }
        Expr::Not(operand) => match type_of_expr(operand.get(), vars)? {
            Ty::Bool => Some(Ty::Bool),
            _ => None,
        },
    }
}

// The type of a variable. `None`: there is no such variable.
fn type_of_variable(var: u16, vars: &[Ty]) -> Option<Ty>
    ensures { result ≡ slice_get vars.now var }
{
    let index = usize::from(var);
    if index < vars.len() {
        Some(vars[index])
    } else {
        None
    }
}

// The type of what an operator gives for operands of these types. `None`: it takes no such operands.
fn type_of_operator(op: BinOp, left: Ty, right: Ty) -> Option<Ty>
    ensures { result ≡ operator_type op left right }
{
    match op {
        BinOp::Add | BinOp::Sub | BinOp::Mul | BinOp::Div | BinOp::Rem => match (left, right) {
            (Ty::Int, Ty::Int) => Some(Ty::Int),
            _ => None,
        },
        BinOp::Eq | BinOp::Ne => match (left, right) {
            (Ty::Int, Ty::Int) | (Ty::Text, Ty::Text) | (Ty::Bool, Ty::Bool) => Some(Ty::Bool),
            _ => None,
        },
        BinOp::Lt | BinOp::Le | BinOp::Gt | BinOp::Ge => match (left, right) {
            (Ty::Int, Ty::Int) | (Ty::Text, Ty::Text) => Some(Ty::Bool),
            _ => None,
        },
        BinOp::And | BinOp::Or => match (left, right) {
            (Ty::Bool, Ty::Bool) => Some(Ty::Bool),
            _ => None,
        },
    }
}
