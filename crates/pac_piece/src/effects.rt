// What single operations do.
ghost use Rattle.std.specs.Prelude.{◌≡◌, ◌<◌, length, slice_set, IfOk, IsSome, IsTrue};
ghost use Rattle.std.specs.List.{AllByRecursion};
ghost use Rattle.std.specs.Option.{option_map};
ghost use Rattle.pac_value.specs.Values.{is_stored};
ghost use Rattle.pac_value.specs.Expressions.{value};
ghost use Rattle.pac_value.specs.Scopes.{is_width};
ghost use Rattle.pac_ops.specs.Operations.{values, column_or, replaced, effect};
ghost use Rattle.pac_ops.specs.Reasons.{or_abort};
ghost use Rattle.pac_piece.specs.Effects.{AnswersEffect, AnswersAs, CanDo};
ghost use Rattle.pac_plan.specs.Codes.{IsStoredTyped};

use crate::failed::OpFailed;
use pac_base::{NoMemory, copy_of};
use pac_ops::{OpKind, Reason};
use pac_value::{Env, Expr, Row, Trap, Value, eval};
use std::alloc::Global;

/// What an operation does.
#[derive(Drop)]
pub(crate) enum OpEffect {
    Nothing,
    /// The variable gets the value.
    Gives { var: u16, value: Value },
    /// The row stands at the operation's cell from now on, or none.
    Leaves { row: Option<Row> },
}

/// What an operation does where this row stands at its cell.
pub(crate) fn effect(
    alloc: Global,
    kind: &OpKind,
    row: Option<&Row>,
    env: &Env,
) -> Result<OpEffect, OpFailed>
    requires { CanDo env.now kind.now }
    ensures { AnswersEffect result (effect kind.now env.now (option_map (λ r. r.now) row.entry)) }
{
    match kind {
        OpKind::Let { var, value } | OpKind::Cond { var, test: value } => Ok(OpEffect::Gives {
            var: *var,
            value: eval(value, env)?,
        }),
        OpKind::Read {
            var,
            column,
            default,
            ..
        } => Ok(OpEffect::Gives {
            var: *var,
            value: *column_or(row, *column, default),
        }),
        OpKind::Has { var, .. } => Ok(OpEffect::Gives {
            var: *var,
            value: Value::Bool(row.is_some()),
        }),
        OpKind::Put { values, .. } => Ok(OpEffect::Leaves {
            row: Some(row_of(alloc, values.as_slice(), env)?),
        }),
        OpKind::SetCol { column, value, .. } => Ok(OpEffect::Leaves {
            row: Some(replaced(alloc, row, *column, stored_value(value, env)?)?),
        }),
        OpKind::Delete { .. } => Ok(OpEffect::Leaves { row: None }),
        OpKind::AbortIf { test } => match eval(test, env)? {
            Value::Bool(true) => Err(OpFailed::Abort(Reason::Asked)),
            _ => Ok(OpEffect::Nothing),
        },
    }
}

/// The column of a row, or the default where there is no row. It is lent: a value is large.
pub(crate) fn column_or<'a>(row: Option<&'a Row>, column: u16, default: &'a Value) -> &'a Value
    ensures { result.now ≡ column_or (option_map (λ r. r.now) row.entry) column default.now }
{
    match row {
        Some(row) => row.items().get(usize::from(column)).unwrap_or(default),
        None => default,
    }
}

// The value of an expression that a column can hold.
fn stored_value(expr: &Expr, env: &Env) -> Result<Value, Trap>
    requires { IsStoredTyped env.now expr.now }
    ensures value { result ≡ value expr.now env.now }
    ensures stored { IfOk result (λ v. IsTrue (is_stored v)) }
{
    match eval(expr, env)? {
        Value::Bool(_) => unreachable!(),
        value => Ok(value),
    }
}

/// The row of the values of expressions.
pub(crate) fn row_of(alloc: Global, exprs: &[Expr], env: &Env) -> Result<Row, OpFailed>
    requires width { IsTrue (is_width (length exprs.now)) }
    requires typed { AllByRecursion (IsStoredTyped env.now) exprs.now }
    ensures { AnswersAs result (or_abort (values exprs.now env.now)) }
{
    let mut row = Vec::with_capacity(alloc, exprs.len())?;
    for expr in exprs {
        row.push(stored_value(expr, env)?)?;
    }
    Ok(Row::of(row))
}

// A copy of the row with another value in a column.
fn replaced(alloc: Global, row: Option<&Row>, column: u16, value: Value) -> Result<Row, OpFailed>
    requires { IsTrue (is_stored value) }
    ensures { AnswersAs result (replaced (option_map (λ r. r.now) row.entry) column value) }
{
    let Some(row) = row else {
        return Err(OpFailed::Abort(Reason::Missing));
    };
    Ok(with_column(alloc, row, column, value)?)
}

// The same where there is a row.
fn with_column(alloc: Global, row: &Row, column: u16, value: Value) -> Result<Row, NoMemory>
    requires { IsTrue (is_stored value) }
    ensures { IfOk result (λ r. r ≡ slice_set row.now column value) }
{
    let mut values = copy_of(alloc, row.items())?;
    let column = usize::from(column);
    if column < values.len() {
        values[column] = value;
    }
    Ok(Row::of(values))
}
