// The code of a piece over the tables themselves.
ghost use Rattle.std.specs.Prelude.{◌≡◌, ◌<◌, ℕ, Some, true, map, IfSome, OnErr, OnOk};
ghost use Rattle.std.specs.FinMap.{get};
ghost use Rattle.pac_ops.specs.Defaults.{trapped_type};
ghost use Rattle.pac_ops.specs.Flat.{all_hold};
ghost use Rattle.pac_ops.specs.Notes.{least};
ghost use Rattle.pac_ops.specs.Operations.{column_or, define, with_effect};
ghost use Rattle.pac_ops.specs.declared.program.OpKind.TheVariants.{Delete, Read, Put};
ghost use Rattle.pac_ops.specs.Uses.{defined_variable};
ghost use Rattle.pac_ops.specs.Effects.{numbered_from, record_op};
ghost use Rattle.pac_plan.specs.Codes.{IsStoredTyped, code_ops};
ghost use Rattle.pac_piece.specs.Effects.{CanDo, effect_of};
ghost use Rattle.pac_piece.specs.Frames.{CanRun, defaulted};
ghost use Rattle.pac_piece.specs.InPlace.{DoesHere, IsLeft, KeepsGround, RunsHere, Stands, StepsHere, StopsHere, state_here, tables_seen};
ghost use Rattle.pac_piece.specs.Records.{record_cell, record_row};
ghost use Rattle.pac_piece.specs.Sources.{HasTable, HaveTables};
ghost use Rattle.pac_piece.specs.Steps.{GivesValueOf};
ghost use Rattle.pac_piece.specs.Values.{CanRunCode};

use crate::effects::{OpEffect, column_or, row_of};
use crate::failed::OpFailed;
use crate::frame::lesser;
use crate::ground::{Ground, leave};
use crate::run_op::{default_of, touched_effect, trapped_type};
use crate::source::{Standing, row_at};
use pac_base::{Exact, NoMemory};
use pac_ops::{Change, FlatOp, Note, OpKind, Reason, all_hold, key_of};
use pac_plan::Code;
use pac_tables::Rows;
use pac_value::{Expr, Key, Value, eval};
use std::alloc::Global;

/// Runs code over the tables themselves. On an error it has run the first of its operations.
pub(crate) fn run_code_here<R: Rows>(
    alloc: Global,
    txn: u64,
    code: &Code,
    ground: &mut Ground<R>,
) -> Result<(), NoMemory>
    requires can { CanRunCode code.now (state_here R.held ground.old) }
    requires there { HaveTables (λ t. t < R.tables ground.old.rows) (code_ops code.now) }
    requires stands { Stands R.held R.tables ground.old }
    ensures keeps { KeepsGround R.held R.tables ground.old ground.new }
    ensures ok { OnOk result (RunsHere R.held txn (code_ops code.now) ground.old ground.new) }
    ensures err { OnErr result (StopsHere R.held (code_ops code.now) ground.old ground.new) }
{
    match code {
        Code::Ops(ops) => run_ops_here(alloc, txn, ops.as_slice(), ground),
        Code::Records(records) => make_changes(alloc, records.as_slice(), ground),
    }
}

// Runs operations one after another.
fn run_ops_here<R: Rows>(
    alloc: Global,
    txn: u64,
    ops: &[(u16, FlatOp)],
    ground: &mut Ground<R>,
) -> Result<(), NoMemory>
    requires can { CanRun ops.now (state_here R.held ground.old) }
    requires there { HaveTables (λ t. t < R.tables ground.old.rows) ops.now }
    requires stands { Stands R.held R.tables ground.old }
    ensures keeps { KeepsGround R.held R.tables ground.old ground.new }
    ensures ok { OnOk result (RunsHere R.held txn ops.now ground.old ground.new) }
    ensures err { OnErr result (StopsHere R.held ops.now ground.old ground.new) }
{
    for op in ops {
        run_op_here(alloc, txn, op, ground)?;
    }
    Ok(())
}

// Makes the changes of records one after another. They give no values, and leave no note.
fn make_changes<R: Rows>(
    alloc: Global,
    records: &[Change],
    ground: &mut Ground<R>,
) -> Result<(), NoMemory>
    requires there { HaveTables (λ t. t < R.tables ground.old.rows) (numbered_from 0 (map record_op records.now)) }
    requires stands { Stands R.held R.tables ground.old }
    ensures keeps { KeepsGround R.held R.tables ground.old ground.new }
    ensures ok { (txn : ℕ) → OnOk result (RunsHere R.held txn (numbered_from 0 (map record_op records.now)) ground.old ground.new) }
    ensures values { ground.new.frame.env ≡ ground.old.frame.env }
{
    for change in records {
        make_change(alloc, change, ground)?;
    }
    Ok(())
}

// Makes the change of a record.
fn make_change<R: Rows>(
    alloc: Global,
    change: &Change,
    ground: &mut Ground<R>,
) -> Result<(), NoMemory>
    requires there { HasTable (λ t. t < R.tables ground.old.rows) (record_op change.now).kind }
    requires stands { Stands R.held R.tables ground.old }
    ensures keeps { KeepsGround R.held R.tables ground.old ground.new }
    ensures ok { OnOk result (IsLeft R.held (record_cell change.now) (record_row change.now) ground.old ground.new) }
    ensures values { ground.new.frame.env ≡ ground.old.frame.env }
    ensures note { ground.new.frame.note ≡ ground.old.frame.note }
{
    match change {
        Change::Put { table, key, row } => {
            let row = row.copy(alloc)?;
            leave(ground, *table, key, Some(row))
        }
        Change::Delete { table, key } => leave(ground, *table, key, None),
    }
}

// Runs one operation.
fn run_op_here<R: Rows>(
    alloc: Global,
    txn: u64,
    op: &(u16, FlatOp),
    ground: &mut Ground<R>,
) -> Result<(), NoMemory>
    requires can { all_hold ground.old.frame.env op.now.1.conds ≡ true → CanDo ground.old.frame.env op.now.1.kind }
    requires there { HasTable (λ t. t < R.tables ground.old.rows) op.now.1.kind }
    requires stands { Stands R.held R.tables ground.old }
    ensures keeps { KeepsGround R.held R.tables ground.old ground.new }
    ensures ok { OnOk result (StepsHere R.held txn op.now ground.old ground.new) }
    ensures err { OnErr result (ground.new.frame.env ≡ ground.old.frame.env) }
{
    let conds = op.1.conds.as_slice();
    if !conds.is_empty() && !all_hold(conds, &ground.frame.env) {
        return Ok(());
    }
    match &op.1.kind {
        OpKind::Let { var, value } => run_value_here(txn, op, *var, value, ground),
        OpKind::Cond { var, test } => run_value_here(txn, op, *var, test, ground),
        _ => run_touching_here(alloc, txn, op, ground),
    }
}

// Runs an operation that gives a variable the value of an expression, and touches no cell.
fn run_value_here<R: Rows>(
    txn: u64,
    op: &(u16, FlatOp),
    var: u16,
    expr: &Expr,
    ground: &mut Ground<R>,
) -> Result<(), NoMemory>
    requires kind { GivesValueOf op.now.1.kind var expr.now }
    requires holds { all_hold ground.old.frame.env op.now.1.conds ≡ true }
    requires can { CanDo ground.old.frame.env op.now.1.kind }
    requires stands { Stands R.held R.tables ground.old }
    ensures keeps { KeepsGround R.held R.tables ground.old ground.new }
    ensures ok { OnOk result (StepsHere R.held txn op.now ground.old ground.new) }
    ensures err { OnErr result (ground.new.frame.env ≡ ground.old.frame.env) }
{
    match eval(expr, &ground.frame.env) {
        Ok(value) => give_here(ground, var, &value),
        Err(trap) => default_here(txn, op, Reason::from(trap), ground),
    }
}

// Runs any operation whose conditions hold.
fn run_touching_here<R: Rows>(
    alloc: Global,
    txn: u64,
    op: &(u16, FlatOp),
    ground: &mut Ground<R>,
) -> Result<(), NoMemory>
    requires holds { all_hold ground.old.frame.env op.now.1.conds ≡ true }
    requires can { CanDo ground.old.frame.env op.now.1.kind }
    requires there { HasTable (λ t. t < R.tables ground.old.rows) op.now.1.kind }
    requires stands { Stands R.held R.tables ground.old }
    ensures keeps { KeepsGround R.held R.tables ground.old ground.new }
    ensures ok { OnOk result (StepsHere R.held txn op.now ground.old ground.new) }
    ensures err { OnErr result (ground.new.frame.env ≡ ground.old.frame.env) }
{
    match do_here(alloc, &op.1.kind, ground) {
        Ok(()) => Ok(()),
        Err(OpFailed::Abort(reason)) => default_here(txn, op, reason, ground),
        Err(OpFailed::NoMemory) => Err(NoMemory),
    }
}

// Does what an operation means.
fn do_here<R: Rows>(alloc: Global, kind: &OpKind, ground: &mut Ground<R>) -> Result<(), OpFailed>
    requires can { CanDo ground.old.frame.env kind.now }
    requires there { HasTable (λ t. t < R.tables ground.old.rows) kind.now }
    requires stands { Stands R.held R.tables ground.old }
    ensures keeps { KeepsGround R.held R.tables ground.old ground.new }
    ensures does { DoesHere R.held kind.now ground.old ground.new result }
{
    match kind {
        OpKind::Read {
            var,
            table,
            key,
            column,
            default,
        } => read_here(*var, *table, key, *column, default, ground),
        OpKind::Put { table, key, values } => {
            put_here(alloc, *table, key, values.as_slice(), ground)
        }
        OpKind::Delete { table, key } => delete_here(*table, key, ground),
        _ => have_effect(alloc, kind, ground),
    }
}

// Does what a read means.
fn read_here<R: Rows>(
    var: u16,
    table: u16,
    key: &Expr,
    column: u16,
    default: &Value,
    ground: &mut Ground<R>,
) -> Result<(), OpFailed>
    requires can { IsStoredTyped ground.old.frame.env key.now }
    requires there { table < R.tables ground.old.rows }
    requires stands { Stands R.held R.tables ground.old }
    ensures keeps { KeepsGround R.held R.tables ground.old ground.new }
    ensures does { DoesHere R.held (Read var table key.now column default.now) ground.old ground.new result }
{
    let key = key_of(key, &ground.frame.env)?;
    Ok(give_column(var, table, &key, column, default, ground)?)
}

// A variable gets the value of a column. It is handed on where it stands: it is large.
fn give_column<R: Rows>(
    var: u16,
    table: u16,
    key: &Key,
    column: u16,
    default: &Value,
    ground: &mut Ground<R>,
) -> Result<(), NoMemory>
    requires there { table < R.tables ground.old.rows }
    requires stands { Stands R.held R.tables ground.old }
    ensures keeps { KeepsGround R.held R.tables ground.old ground.new }
    ensures ok { OnOk result (state_here R.held ground.new ≡ define var (column_or (get (tables_seen R.held ground.old) (table, key.now)) column default.now) (state_here R.held ground.old)) }
    ensures err { OnErr result (ground.new.frame.env ≡ ground.old.frame.env) }
    ensures note { ground.new.frame.note ≡ ground.old.frame.note }
{
    let source = Standing { rows: &ground.rows };
    let row = row_at(&source, &ground.frame.writes, table, key);
    let value = column_or(row, column, default);
    ground.frame.env.set(var, value)
}

// Does what a put means. No row is looked up before it is put.
fn put_here<R: Rows>(
    alloc: Global,
    table: u16,
    key: &Expr,
    values: &[Expr],
    ground: &mut Ground<R>,
) -> Result<(), OpFailed>
    requires can { CanDo ground.old.frame.env (Put table key.now values.now) }
    requires there { table < R.tables ground.old.rows }
    requires stands { Stands R.held R.tables ground.old }
    ensures keeps { KeepsGround R.held R.tables ground.old ground.new }
    ensures does { DoesHere R.held (Put table key.now values.now) ground.old ground.new result }
{
    let key = key_of(key, &ground.frame.env)?;
    let row = row_of(alloc, values, &ground.frame.env)?;
    Ok(leave(ground, table, &key, Some(row))?)
}

// Does what a delete means. Its row is looked up once, to see whether one stands there.
fn delete_here<R: Rows>(table: u16, key: &Expr, ground: &mut Ground<R>) -> Result<(), OpFailed>
    requires can { IsStoredTyped ground.old.frame.env key.now }
    requires there { table < R.tables ground.old.rows }
    requires stands { Stands R.held R.tables ground.old }
    ensures keeps { KeepsGround R.held R.tables ground.old ground.new }
    ensures does { DoesHere R.held (Delete table key.now) ground.old ground.new result }
{
    let key = key_of(key, &ground.frame.env)?;
    Ok(leave(ground, table, &key, None)?)
}

// Does what any operation means: its row is looked up first.
fn have_effect<R: Rows>(
    alloc: Global,
    kind: &OpKind,
    ground: &mut Ground<R>,
) -> Result<(), OpFailed>
    requires can { CanDo ground.old.frame.env kind.now }
    requires there { HasTable (λ t. t < R.tables ground.old.rows) kind.now }
    requires stands { Stands R.held R.tables ground.old }
    ensures keeps { KeepsGround R.held R.tables ground.old ground.new }
    ensures does { DoesHere R.held kind.now ground.old ground.new result }
{
    let source = Standing { rows: &ground.rows };
    let (cell, effect) = touched_effect(alloc, kind, &source, &ground.frame)?;
    Ok(have(cell, effect, ground)?)
}

// An effect is had.
fn have<R: Rows>(
    cell: Option<(u16, Key)>,
    effect: OpEffect,
    ground: &mut Ground<R>,
) -> Result<(), NoMemory>
    requires there { IfSome cell (λ cell. cell.0 < R.tables ground.old.rows) }
    requires stands { Stands R.held R.tables ground.old }
    ensures keeps { KeepsGround R.held R.tables ground.old ground.new }
    ensures ok { OnOk result (state_here R.held ground.new ≡ with_effect cell (effect_of effect) (state_here R.held ground.old)) }
    ensures err { OnErr result (ground.new.frame.env ≡ ground.old.frame.env) }
    ensures note { ground.new.frame.note ≡ ground.old.frame.note }
{
    match effect {
        OpEffect::Nothing => Ok(()),
        OpEffect::Gives { var, value } => give_here(ground, var, &value),
        OpEffect::Leaves { row } => match cell {
            Some((table, key)) => leave(ground, table, &key, row),
            None => Ok(()),
        },
    }
}

// A variable gets a value.
fn give_here<R: Rows>(ground: &mut Ground<R>, var: u16, value: &Value) -> Result<(), NoMemory>
    requires { Stands R.held R.tables ground.old }
    ensures keeps { KeepsGround R.held R.tables ground.old ground.new }
    ensures ok { OnOk result (state_here R.held ground.new ≡ define var value.now (state_here R.held ground.old)) }
    ensures err { OnErr result (ground.new.frame.env ≡ ground.old.frame.env) }
    ensures note { ground.new.frame.note ≡ ground.old.frame.note }
{
    ground.frame.env.set(var, value)
}

// An operation would abort: it leaves a note, and its variable gets the default.
fn default_here<R: Rows>(
    txn: u64,
    op: &(u16, FlatOp),
    reason: Reason,
    ground: &mut Ground<R>,
) -> Result<(), NoMemory>
    requires { Stands R.held R.tables ground.old }
    ensures keeps { KeepsGround R.held R.tables ground.old ground.new }
    ensures ok { OnOk result (state_here R.held ground.new ≡ defaulted (defined_variable op.now.1.kind) (trapped_type op.now.1.kind) (state_here R.held ground.old)) }
    ensures note { ground.new.frame.note ≡ least ground.old.frame.note (Some (record { txn = txn; op = op.now.0; reason = reason })) }
    ensures err { OnErr result (ground.new.frame.env ≡ ground.old.frame.env) }
{
    let note = Note {
        txn,
        op: op.0,
        reason,
    };
    ground.frame.note = lesser(ground.frame.note, note);
    match op.1.kind.defined() {
        Some(var) => give_here(ground, var, &default_of(trapped_type(&op.1.kind))),
        None => Ok(()),
    }
}
