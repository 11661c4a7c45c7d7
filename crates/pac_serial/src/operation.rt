// Executes single operations.
ghost use Rattle.std.specs.Prelude.{◌≡◌, ◌<◌, ℕ, map, length, slice_set, OnOk, IfOk, IfErr, IsSome, IsTrue, Some, Ok, Err};
ghost use Rattle.std.specs.Option.{option_map};
ghost use Rattle.std.specs.FinMap as fin;
ghost use Rattle.pac_value.specs.Values.{type_of, key_value, is_stored};
ghost use Rattle.pac_value.specs.Expressions.{type_in, types_of};
ghost use Rattle.pac_value.specs.State.{Tables};
ghost use Rattle.pac_value.specs.Scopes.{with_var, is_bool, is_wanted, are_wanted, is_width};
ghost use Rattle.pac_value.specs.declared.values.Ty.TheVariants.{Bool as BoolTy};
ghost use Rattle.pac_ops.specs.Operations.{values, cell_at, column_or, done};
ghost use Rattle.pac_ops.specs.declared.program.OpKind.TheVariants as kind;
ghost use Rattle.pac_ops.specs.Reasons.{or_abort};
ghost use Rattle.pac_types.specs.WellFormed.{key_type, column_type, column_types};
ghost use Rattle.pac_serial.specs.Writes.{cells_put};
ghost use Rattle.pac_serial.specs.WriteSets.{ChangesAt};
ghost use Rattle.pac_serial.specs.Outcomes.{Does, DoesGive};
ghost use Rattle.pac_serial.specs.Transactions.{state_of, RunsOver};

use crate::spare::{row_room, values_copy};
use crate::transaction::{RunningTxn, Target};
use pac_base::{Listed, NoMemory, push};
use pac_ops::Reason;
use pac_tables::Rows;
use pac_types::Table;
use pac_value::{Env, Expr, Key, Row, Trap, Value, eval, eval_key};
use std::alloc::{AllocError, AllocFailed, Global};

/// Why operations are not executed.
#[derive(Clone, Copy, Debug, PartialEq, Eq)]
pub(crate) enum Halt {
    /// One aborts; it has this number, counted from the first of them.
    Abort { op: u16, reason: Reason },
    /// An allocation was refused.
    NoMemory,
}

impl From<NoMemory> for Halt {
    ghost use Rattle.std.specs.Prelude.{◌≡◌};
    ghost use Rattle.pac_serial.specs.declared.operation.Halt.TheVariants.{NoMemory};

    ghost from_gives = { λ _ halt. halt ≡ NoMemory };

    fn from(_: NoMemory) -> Self {
        Halt::NoMemory
    }
}

impl From<AllocError> for Halt {
    ghost use Rattle.std.specs.Prelude.{◌≡◌};
    ghost use Rattle.pac_serial.specs.declared.operation.Halt.TheVariants.{NoMemory};

    ghost from_gives = { λ _ halt. halt ≡ NoMemory };

    fn from(_: AllocError) -> Self {
        Halt::NoMemory
    }
}

impl<T: Drop> From<AllocFailed<T>> for Halt {
    ghost use Rattle.std.specs.Prelude.{◌≡◌};
    ghost use Rattle.pac_serial.specs.declared.operation.Halt.TheVariants.{NoMemory};

    ghost from_gives = { λ _ halt. halt ≡ NoMemory };

    fn from(_: AllocFailed<T>) -> Self {
        Halt::NoMemory
    }
}

impl From<Reason> for Halt {
    ghost use Rattle.std.specs.Prelude.{◌≡◌};
    ghost use Rattle.pac_serial.specs.declared.operation.Halt.TheVariants.{Abort};

    ghost from_gives = { λ reason halt. halt ≡ Abort 0 reason };

    fn from(reason: Reason) -> Self {
        Halt::Abort { op: 0, reason }
    }
}

impl From<Trap> for Halt {
    ghost use Rattle.std.specs.Prelude.{◌≡◌};
    ghost use Rattle.pac_ops.specs.Reasons.{reason_of};
    ghost use Rattle.pac_serial.specs.declared.operation.Halt.TheVariants.{Abort};

    ghost from_gives = { λ trap halt. halt ≡ Abort 0 (reason_of trap) };

    fn from(trap: Trap) -> Self {
        Halt::from(Reason::from(trap))
    }
}

/// Gives a variable a value.
pub(crate) fn define(env: &mut Env, var: u16, value: &Value) -> Result<(), NoMemory>
    ensures ok { OnOk result (env.new ≡ fin.insert env.old var value.now) }
    ensures types { OnOk result (types_of env.new ≡ with_var (types_of env.old) var (type_of value.now)) }
{
    env.set(var, value)?;
    Ok(())
}

// The key of a table operation.
fn key_of(tables: &[Table], target: &Target<'_>, env: &Env) -> Result<Key, Trap>
    requires { IsTrue (is_wanted (type_in (types_of env.now) target.now.key.now) (key_type tables.now target.now.table)) }
    ensures ok { IfOk result (λ k. cell_at target.now.table target.now.key.now env.now ≡ Ok (Some (target.now.table, k))) }
    ensures typed { IfOk result (λ k. key_type tables.now target.now.table ≡ Some (type_of (key_value k))) }
    ensures within { target.now.table < length tables.now }
    ensures trap { IfErr result (λ trap. cell_at target.now.table target.now.key.now env.now ≡ Err trap) }
{
    eval_key(target.key, env)
}

// The column of a row, or the default where there is no row.
fn column_or<'a>(row: Option<&'a Row>, column: u16, default: &'a Value) -> &'a Value
    ensures { result.now ≡ column_or (option_map (λ r. r.now) row.entry) column default.now }
{
    match row {
        Some(row) => row.items().get(usize::from(column)).unwrap_or(default),
        None => default,
    }
}

/// `read`.
pub(crate) fn read<R: Rows>(
    tables: &[Table],
    rows: &R,
    target: &Target<'_>,
    column: u16,
    default: &Value,
    var: u16,
    txn: &mut RunningTxn,
) -> Result<(), Halt>
    requires key { IsTrue (is_wanted (type_in (types_of txn.old.env) target.now.key.now) (key_type tables.now target.now.table)) }
    requires column { IsTrue (is_wanted (Some (type_of default.now)) (column_type tables.now target.now.table column)) }
    requires over { RunsOver tables.now (R.tables rows.now) (R.held rows.now) txn.old.write_set }
    ensures does { Does result (done (kind.Read var target.now.table target.now.key.now column default.now) (state_of (R.held rows.now) txn.old)) (state_of (R.held rows.now) txn.new) }
    ensures types { OnOk result (types_of txn.new.env ≡ with_var (types_of txn.old.env) var (type_of default.now)) }
    ensures write_set { txn.new.write_set ≡ txn.old.write_set }
{
    let key = key_of(tables, target, &txn.env)?;
    let value = column_or(txn.write_set.get(rows, target.table, &key), column, default);
    Ok(define(&mut txn.env, var, value)?)
}

/// `has`.
pub(crate) fn has<R: Rows>(
    tables: &[Table],
    rows: &R,
    target: &Target<'_>,
    var: u16,
    txn: &mut RunningTxn,
) -> Result<(), Halt>
    requires key { IsTrue (is_wanted (type_in (types_of txn.old.env) target.now.key.now) (key_type tables.now target.now.table)) }
    requires over { RunsOver tables.now (R.tables rows.now) (R.held rows.now) txn.old.write_set }
    ensures does { Does result (done (kind.Has var target.now.table target.now.key.now) (state_of (R.held rows.now) txn.old)) (state_of (R.held rows.now) txn.new) }
    ensures types { OnOk result (types_of txn.new.env ≡ with_var (types_of txn.old.env) var BoolTy) }
    ensures write_set { txn.new.write_set ≡ txn.old.write_set }
{
    let key = key_of(tables, target, &txn.env)?;
    let found = txn.write_set.get(rows, target.table, &key).is_some();
    Ok(define(&mut txn.env, var, &Value::Bool(found))?)
}

/// `delete`.
pub(crate) fn delete<R: Rows>(
    tables: &[Table],
    rows: &R,
    target: &Target<'_>,
    txn: &mut RunningTxn,
) -> Result<(), Halt>
    requires key { IsTrue (is_wanted (type_in (types_of txn.old.env) target.now.key.now) (key_type tables.now target.now.table)) }
    requires over { RunsOver tables.now (R.tables rows.now) (R.held rows.now) txn.old.write_set }
    ensures does { Does result (done (kind.Delete target.now.table target.now.key.now) (state_of (R.held rows.now) txn.old)) (state_of (R.held rows.now) txn.new) }
    ensures writes { OnOk result (ChangesAt (cells_put (kind.Delete target.now.table target.now.key.now) (state_of (R.held rows.now) txn.old)) txn.old.write_set txn.new.write_set) }
    ensures env { txn.new.env ≡ txn.old.env }
    ensures over { OnOk result (RunsOver tables.now (R.tables rows.now) (R.held rows.now) txn.new.write_set) }
{
    let key = key_of(tables, target, &txn.env)?;
    txn.write_set.change(target.table, key, None)?;
    Ok(())
}

// The values of a row.
fn row_of(
    alloc: Global,
    spare: &mut Listed<Row>,
    tables: &[Table],
    table: u16,
    exprs: &[Expr],
    env: &Env,
) -> Result<Row, Halt>
    requires width { IsTrue (is_width (length exprs.now)) }
    requires typed { IsTrue (are_wanted (map (type_in (types_of env.now)) exprs.now) (column_types tables.now table)) }
    ensures does { DoesGive result (or_abort (values exprs.now env.now)) }
    ensures typed { IfOk result (λ row. map type_of row ≡ column_types tables.now table) }
{
    let mut row = row_room(alloc, spare, exprs.len())?;
    for expr in exprs {
        push(&mut row, eval(expr, env)?)?;
    }
    Ok(Row::of(row))
}

/// `put`.
pub(crate) fn put<R: Rows>(
    tables: &[Table],
    rows: &R,
    target: &Target<'_>,
    exprs: &[Expr],
    txn: &mut RunningTxn,
) -> Result<(), Halt>
    requires key { IsTrue (is_wanted (type_in (types_of txn.old.env) target.now.key.now) (key_type tables.now target.now.table)) }
    requires width { IsTrue (is_width (length exprs.now)) }
    requires typed { IsTrue (are_wanted (map (type_in (types_of txn.old.env)) exprs.now) (column_types tables.now target.now.table)) }
    requires over { RunsOver tables.now (R.tables rows.now) (R.held rows.now) txn.old.write_set }
    ensures does { Does result (done (kind.Put target.now.table target.now.key.now exprs.now) (state_of (R.held rows.now) txn.old)) (state_of (R.held rows.now) txn.new) }
    ensures writes { OnOk result (ChangesAt (cells_put (kind.Put target.now.table target.now.key.now exprs.now) (state_of (R.held rows.now) txn.old)) txn.old.write_set txn.new.write_set) }
    ensures env { txn.new.env ≡ txn.old.env }
    ensures over { OnOk result (RunsOver tables.now (R.tables rows.now) (R.held rows.now) txn.new.write_set) }
{
    let key = key_of(tables, target, &txn.env)?; // before the values
    let row = row_of(
        txn.alloc,
        &mut txn.spare,
        tables,
        target.table,
        exprs,
        &txn.env,
    )?;
    txn.write_set.change(target.table, key, Some(row))?;
    Ok(())
}

// The row with another value in a column.
fn with_column(
    alloc: Global,
    spare: &mut Listed<Row>,
    row: &Row,
    column: u16,
    value: Value,
) -> Result<Row, NoMemory>
    requires column { column < length row.now }
    requires stored { IsTrue (is_stored value) }
    ensures { IfOk result (λ r. r ≡ slice_set row.now column value) }
{
    let mut values = values_copy(alloc, spare, row.items())?;
    values[usize::from(column)] = value;
    Ok(Row::of(values))
}

/// `set`.
pub(crate) fn set<R: Rows>(
    tables: &[Table],
    rows: &R,
    target: &Target<'_>,
    column: u16,
    value: &Expr,
    txn: &mut RunningTxn,
) -> Result<(), Halt>
    requires key { IsTrue (is_wanted (type_in (types_of txn.old.env) target.now.key.now) (key_type tables.now target.now.table)) }
    requires column { IsTrue (is_wanted (type_in (types_of txn.old.env) value.now) (column_type tables.now target.now.table column)) }
    requires over { RunsOver tables.now (R.tables rows.now) (R.held rows.now) txn.old.write_set }
    ensures does { Does result (done (kind.SetCol target.now.table target.now.key.now column value.now) (state_of (R.held rows.now) txn.old)) (state_of (R.held rows.now) txn.new) }
    ensures writes { OnOk result (ChangesAt (cells_put (kind.SetCol target.now.table target.now.key.now column value.now) (state_of (R.held rows.now) txn.old)) txn.old.write_set txn.new.write_set) }
    ensures env { txn.new.env ≡ txn.old.env }
    ensures over { OnOk result (RunsOver tables.now (R.tables rows.now) (R.held rows.now) txn.new.write_set) }
{
    let key = key_of(tables, target, &txn.env)?;
    let value = eval(value, &txn.env)?;
    let Some(row) = txn.write_set.get(rows, target.table, &key) else {
        return Err(Halt::from(Reason::Missing));
    };
    let row = with_column(txn.alloc, &mut txn.spare, row, column, value)?;
    txn.write_set.change(target.table, key, Some(row))?;
    Ok(())
}

/// `let`.
pub(crate) fn assign(var: u16, value: &Expr, txn: &mut RunningTxn) -> Result<(), Halt>
    requires { IsSome (type_in (types_of txn.old.env) value.now) }
    ensures does { (held : Tables) → Does result (done (kind.Let var value.now) (state_of held txn.old)) (state_of held txn.new) }
    ensures types { OnOk result (option_map (with_var (types_of txn.old.env) var) (type_in (types_of txn.old.env) value.now) ≡ Some (types_of txn.new.env)) }
    ensures write_set { txn.new.write_set ≡ txn.old.write_set }
{
    let value = eval(value, &txn.env)?;
    define(&mut txn.env, var, &value)?;
    Ok(())
}

/// `abort if`.
pub(crate) fn abort_if(test: &Expr, txn: &RunningTxn) -> Result<(), Halt>
    requires { IsTrue (is_bool (type_in (types_of txn.now.env) test.now)) }
    ensures { (held : Tables) → Does result (done (kind.AbortIf test.now) (state_of held txn.now)) (state_of held txn.now) }
{
    match eval(test, &txn.env)? {
        Value::Bool(true) => Err(Halt::from(Reason::Asked)),
        _ => Ok(()),
    }
}
