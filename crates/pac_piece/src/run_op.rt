// One operation of a piece.
ghost use Rattle.std.specs.Prelude.{◌≡◌, true, OnOk};
ghost use Rattle.pac_value.specs.Expressions.{is_arithmetic};
ghost use Rattle.pac_value.specs.State.{Tables};
ghost use Rattle.pac_ops.specs.Flat.{all_hold, default_of};
ghost use Rattle.pac_ops.specs.Defaults.{trapped_expr, trapped_type};
ghost use Rattle.pac_ops.specs.Operations.{touched};
ghost use Rattle.pac_tables.specs.Written.{IsOnce};
ghost use Rattle.pac_piece.specs.Effects.{CanDo, effect_of};
ghost use Rattle.pac_piece.specs.Frames.{StepsTo, state_seen};
ghost use Rattle.pac_piece.specs.Sources.{HasTable};
ghost use Rattle.pac_piece.specs.Steps.{AnswersAt, Applies, GivesUp, GivesValueOf};

use crate::changes::change;
use crate::effects::{OpEffect, effect};
use crate::failed::OpFailed;
use crate::frame::{Frame, Outs, give, lesser};
use crate::source::{RowSource, row_at};
use pac_base::NoMemory;
use pac_ops::{FlatOp, Note, OpKind, Reason, all_hold, key_of};
use pac_value::{BinOp, Env, Expr, Key, Text, Trap, Ty, Value, eval};
use std::alloc::Global;

/// Runs one operation, over the rows of a source and what the piece has done so far.
pub(crate) fn run_op<S: RowSource, K: Outs>(
    alloc: Global,
    txn: u64,
    op: &(u16, FlatOp),
    source: &S,
    frame: &mut Frame<K>,
) -> Result<(), NoMemory>
    requires can { all_hold frame.old.env op.now.1.conds ≡ true → CanDo frame.old.env op.now.1.kind }
    requires there { HasTable (S.There source.now) op.now.1.kind }
    requires once { IsOnce frame.old.writes.items }
    ensures { OnOk result (StepsTo K.Adds (S.base source.now) txn op.now frame.old frame.new) }
{
    let conds = op.1.conds.as_slice();
    if !conds.is_empty() && !all_hold(conds, &frame.env) {
        return Ok(());
    }
    match &op.1.kind {
        OpKind::Let { var, value } => run_value(txn, op, *var, value, frame),
        OpKind::Cond { var, test } => run_value(txn, op, *var, test, frame),
        _ => run_touching(alloc, txn, op, source, frame),
    }
}

// Runs an operation that gives a variable the value of an expression, and touches no cell. The value is handed on by
// reference: it is large.
fn run_value<K: Outs>(
    txn: u64,
    op: &(u16, FlatOp),
    var: u16,
    expr: &Expr,
    frame: &mut Frame<K>,
) -> Result<(), NoMemory>
    requires kind { GivesValueOf op.now.1.kind var expr.now }
    requires holds { all_hold frame.old.env op.now.1.conds ≡ true }
    requires can { CanDo frame.old.env op.now.1.kind }
    requires once { IsOnce frame.old.writes.items }
    ensures { OnOk result ((base : Tables) → StepsTo K.Adds base txn op.now frame.old frame.new) }
{
    match eval(expr, &frame.env) {
        Ok(value) => give(frame, var, &value),
        Err(trap) => give_up(txn, op, Reason::from(trap), frame),
    }
}

// Runs any operation whose conditions hold.
fn run_touching<S: RowSource, K: Outs>(
    alloc: Global,
    txn: u64,
    op: &(u16, FlatOp),
    source: &S,
    frame: &mut Frame<K>,
) -> Result<(), NoMemory>
    requires holds { all_hold frame.old.env op.now.1.conds ≡ true }
    requires can { CanDo frame.old.env op.now.1.kind }
    requires there { HasTable (S.There source.now) op.now.1.kind }
    requires once { IsOnce frame.old.writes.items }
    ensures { OnOk result (StepsTo K.Adds (S.base source.now) txn op.now frame.old frame.new) }
{
    match touched_effect(alloc, &op.1.kind, source, frame) {
        Ok((cell, effect)) => apply(cell, effect, frame),
        Err(OpFailed::Abort(reason)) => give_up(txn, op, reason, frame),
        Err(OpFailed::NoMemory) => Err(NoMemory),
    }
}

/// The cell that an operation touches, and what it does there.
pub(crate) fn touched_effect<S: RowSource, K>(
    alloc: Global,
    kind: &OpKind,
    source: &S,
    frame: &Frame<K>,
) -> Result<(Option<(u16, Key)>, OpEffect), OpFailed>
    requires can { CanDo frame.now.env kind.now }
    requires there { HasTable (S.There source.now) kind.now }
    ensures { AnswersAt kind.now (state_seen (S.base source.now) frame.now) result }
{
    let cell = touched(kind, &frame.env)?;
    let row = match &cell {
        Some((table, key)) => row_at(source, &frame.writes, *table, key),
        None => None,
    };
    let effect = effect(alloc, kind, row, &frame.env)?;
    Ok((cell, effect))
}

// The cell that an operation touches.
fn touched(kind: &OpKind, env: &Env) -> Result<Option<(u16, Key)>, Trap>
    requires { CanDo env.now kind.now }
    ensures { result ≡ touched kind.now env.now }
{
    match kind {
        OpKind::Read { table, key, .. }
        | OpKind::Has { table, key, .. }
        | OpKind::Put { table, key, .. }
        | OpKind::SetCol { table, key, .. }
        | OpKind::Delete { table, key } => Ok(Some((*table, key_of(key, env)?))),
        OpKind::Let { .. } | OpKind::Cond { .. } | OpKind::AbortIf { .. } => Ok(None),
    }
}

/// An effect is had.
pub(crate) fn apply<K: Outs>(
    cell: Option<(u16, Key)>,
    effect: OpEffect,
    frame: &mut Frame<K>,
) -> Result<(), NoMemory>
    requires { IsOnce frame.old.writes.items }
    ensures { OnOk result (Applies K.Adds cell (effect_of effect) frame.old frame.new) }
{
    match effect {
        OpEffect::Nothing => Ok(()),
        OpEffect::Gives { var, value } => give(frame, var, &value),
        OpEffect::Leaves { row } => match cell {
            Some((table, key)) => change(&mut frame.writes, table, key, row),
            None => Ok(()),
        },
    }
}

// An operation would abort: it leaves a note, and its variable gets the default.
fn give_up<K: Outs>(
    txn: u64,
    op: &(u16, FlatOp),
    reason: Reason,
    frame: &mut Frame<K>,
) -> Result<(), NoMemory>
    ensures { OnOk result (GivesUp K.Adds txn op.now reason frame.old frame.new) }
{
    let note = Note {
        txn,
        op: op.0,
        reason,
    };
    frame.note = lesser(frame.note, note);
    match op.1.kind.defined() {
        Some(var) => give(frame, var, &default_of(trapped_type(&op.1.kind))),
        None => Ok(()),
    }
}

/// The default of a type.
pub(crate) fn default_of(ty: Ty) -> Value
    ensures { result ≡ default_of ty }
{
    match ty {
        Ty::Int => Value::Int(0),
        Ty::Text => Value::Text(Text::from_bytes(b"").unwrap()),
        Ty::Bool => Value::Bool(false),
    }
}

/// The type of what an operation would give that aborts.
pub(crate) fn trapped_type(kind: &OpKind) -> Ty
    ensures { result ≡ trapped_type kind.now }
{
    match kind {
        OpKind::Let { value, .. } => trapped_expr(value),
        OpKind::Read { default, .. } => default.ty(),
        _ => Ty::Bool,
    }
}

// The type of an expression that traps.
fn trapped_expr(expr: &Expr) -> Ty
    ensures { result ≡ trapped_expr expr.now }
{
    match expr {
        Expr::Lit(value) => value.ty(),
        Expr::Bin { op, .. } if is_arithmetic(*op) => Ty::Int,
        _ => Ty::Bool,
    }
}

fn is_arithmetic(op: BinOp) -> bool
    ensures { result ≡ is_arithmetic op }
{
    matches!(
        op,
        BinOp::Add | BinOp::Sub | BinOp::Mul | BinOp::Div | BinOp::Rem
    )
}
