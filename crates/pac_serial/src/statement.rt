// Executes statements.
ghost use Rattle.std.specs.Prelude.{◌≡◌, ◌+◌, ◌-◌, ◌*◌, ◌<◌, ◌^◌, ◌==◌, ◌||◌, ◌-ℤ◌, ◌≤ℤ◌, ℕ, length, map, IsTrue, IfErr, Ok, Err, OnOk, IfOk, IsSome};
ghost use Rattle.pac_value.specs.Expressions.{types_of, type_in, value};
ghost use Rattle.pac_value.specs.Scopes.{is_bool};
ghost use Rattle.pac_value.specs.declared.values.Value.TheVariants.{Bool as Truth};
ghost use Rattle.pac_value.specs.Scopes.{with_var};
ghost use Rattle.pac_value.specs.declared.values.Ty.TheVariants.{Int as IntTy};
ghost use Rattle.pac_types.specs.Unrolled.{natural, turns, turn_numbers};
ghost use Rattle.pac_types.specs.WellFormed.{without, check, any_defines, scope_after, scope_after_all};
ghost use Rattle.pac_serial.specs.TextMeaning.{code, code_count, run_turns, turn_cells, text_meaning, text_cells};
ghost use Rattle.pac_serial.specs.WriteSets.{ChangesAt};
ghost use Rattle.pac_serial.specs.Outcomes.{RunsFrom, IsHaltWithin, IsTrapOf, moved, Sees, KeepsTypes};
ghost use Rattle.pac_serial.specs.Transactions.{state_of, RunsOver};

use crate::operation::{Halt, abort_if, assign, define, delete, has, put, read, set};
use crate::transaction::{RunningTxn, Target};
use pac_tables::Rows;
use pac_types::{Stmt, Table, count_operations};
use pac_value::{Env, Expr, Value, eval};

// The halt of operations that stand after that many others.
fn after(before: u16, halt: Halt) -> Halt
    requires { IsHaltWithin (2 ^ 16 - before) halt }
    ensures { result ≡ moved before halt }
{
    match halt {
        Halt::Abort { op, reason } => Halt::Abort {
            op: before + op,
            reason,
        },
        Halt::NoMemory => Halt::NoMemory,
    }
}

// How many operations statements are.
fn count(stmts: &[Stmt]) -> u16
    requires { code_count stmts.now < 2 ^ 16 }
    ensures { result ≡ code_count stmts.now }
{
    count_operations(stmts) as u16
}

// How many operations stand in the turns before that of a number.
fn count_before(from: i64, number: i64, body: &[Stmt]) -> u16
    requires up { from ≤ℤ number }
    requires block { code_count body.now < 2 ^ 16 }
    requires all { natural (number -ℤ from) * code_count body.now < 2 ^ 16 }
    ensures { result ≡ natural (number -ℤ from) * code_count body.now }
{
    let turns = (i128::from(number) - i128::from(from)) as u64;
    (turns * u64::from(count(body))) as u16
}

// The value of a conditional's test.
fn test_of(test: &Expr, env: &Env) -> Result<bool, Halt>
    requires { IsTrue (is_bool (type_in (types_of env.now) test.now)) }
    ensures ok { IfOk result (λ truth. value test.now env.now ≡ Ok (Truth truth)) }
    ensures trap { IfErr result (λ halt. IsTrapOf halt (value test.now env.now)) }
{
    match eval(test, env)? {
        Value::Bool(truth) => Ok(truth),
        _ => unreachable!(),
    }
}

// Executes a statement.
#[cycle(exec)]
fn exec_stmt<R: Rows>(
    tables: &[Table],
    rows: &R,
    stmt: &Stmt,
    txn: &mut RunningTxn,
) -> Result<(), Halt>
    requires well_formed { IsSome (scope_after tables.now stmt.now (types_of txn.old.env)) }
    requires numbers { (code stmt.now).count < 2 ^ 16 }
    requires over { RunsOver tables.now (R.tables rows.now) (R.held rows.now) txn.old.write_set }
    ensures runs { (n : ℕ) → RunsFrom n result ((code stmt.now).run n (state_of (R.held rows.now) txn.old)) (state_of (R.held rows.now) txn.new) }
    ensures writes { OnOk result ((n : ℕ) → ChangesAt ((code stmt.now).cells n (state_of (R.held rows.now) txn.old)) txn.old.write_set txn.new.write_set) }
    ensures within { IfErr result (IsHaltWithin (code stmt.now).count) }
    ensures sees { OnOk result (Sees (scope_after tables.now stmt.now (types_of txn.old.env)) txn.new.env) }
    ensures keeps { OnOk result (KeepsTypes (check tables.now stmt.now).defines txn.old.env txn.new.env) }
    ensures over { OnOk result (RunsOver tables.now (R.tables rows.now) (R.held rows.now) txn.new.write_set) }
{
    match stmt {
        Stmt::Let { var, value } => assign(*var, value, txn),
        Stmt::Read {
            var,
            table,
            key,
            column,
            default,
        } => {
            let target = Target { table: *table, key };
            read(tables, rows, &target, *column, default, *var, txn)
        }
        Stmt::Has { var, table, key } => {
            let target = Target { table: *table, key };
            has(tables, rows, &target, *var, txn)
        }
        Stmt::Put { table, key, values } => {
            let target = Target { table: *table, key };
            put(tables, rows, &target, values.as_slice(), txn)
        }
        Stmt::Set {
            table,
            key,
            column,
            value,
        } => {
            let target = Target { table: *table, key };
            set(tables, rows, &target, *column, value, txn)
        }
        Stmt::Delete { table, key } => {
            let target = Target { table: *table, key };
            delete(tables, rows, &target, txn)
        }
        Stmt::AbortIf { test } => abort_if(test, txn),
        Stmt::If {
            var,
            test,
            first,
            second,
        } => {
            let truth = test_of(test, &txn.env)?;
            define(&mut txn.env, *var, &Value::Bool(truth))?;
            if truth {
                match exec_block(tables, rows, first.as_slice(), txn) {
                    Ok(()) => Ok(()),
                    Err(halt) => Err(after(1, halt)),
                }
            } else {
                match exec_block(tables, rows, second.as_slice(), txn) {
                    Ok(()) => Ok(()),
                    Err(halt) => Err(after(1 + count(first.as_slice()), halt)),
                }
            }
        }
        Stmt::For {
            var,
            from,
            to,
            body,
        } => exec_turns(tables, rows, *var, *from, *to, body.as_slice(), txn),
    }
}

// Executes a block once for each number from one on and below another, ascending. Its variables and the loop's have one
// place each, which the next turn fills anew.
#[cycle(exec)]
fn exec_turns<R: Rows>(
    tables: &[Table],
    rows: &R,
    var: u16,
    from: i64,
    to: i64,
    body: &[Stmt],
    txn: &mut RunningTxn,
) -> Result<(), Halt>
    requires well_formed { IsSome (scope_after_all tables.now body.now (with_var (without (any_defines (map (check tables.now) body.now)) (types_of txn.old.env)) var IntTy)) }
    requires numbers { turns from to * code_count body.now < 2 ^ 16 }
    requires over { RunsOver tables.now (R.tables rows.now) (R.held rows.now) txn.old.write_set }
    ensures runs { (n : ℕ) → RunsFrom n result (run_turns var (map code body.now) (turn_numbers from to) n (state_of (R.held rows.now) txn.old)) (state_of (R.held rows.now) txn.new) }
    ensures writes { OnOk result ((n : ℕ) → ChangesAt (turn_cells var (map code body.now) (turn_numbers from to) n (state_of (R.held rows.now) txn.old)) txn.old.write_set txn.new.write_set) }
    ensures within { IfErr result (IsHaltWithin (turns from to * code_count body.now)) }
    ensures keeps { OnOk result (KeepsTypes (λ y. y == var || any_defines (map (check tables.now) body.now) y) txn.old.env txn.new.env) }
    ensures over { OnOk result (RunsOver tables.now (R.tables rows.now) (R.held rows.now) txn.new.write_set) }
{
    for number in from..to {
        define(&mut txn.env, var, &Value::Int(number))?;
        match exec_block(tables, rows, body, txn) {
            Ok(()) => {}
            Err(halt) => return Err(after(count_before(from, number, body), halt)),
        }
    }
    Ok(())
}

/// Executes statements in order. Operations are counted where one aborts.
#[cycle(exec)]
pub(crate) fn exec_block<R: Rows>(
    tables: &[Table],
    rows: &R,
    stmts: &[Stmt],
    txn: &mut RunningTxn,
) -> Result<(), Halt>
    requires well_formed { IsSome (scope_after_all tables.now stmts.now (types_of txn.old.env)) }
    requires numbers { code_count stmts.now < 2 ^ 16 }
    requires over { RunsOver tables.now (R.tables rows.now) (R.held rows.now) txn.old.write_set }
    ensures runs { (n : ℕ) → RunsFrom n result (text_meaning stmts.now n (state_of (R.held rows.now) txn.old)) (state_of (R.held rows.now) txn.new) }
    ensures writes { OnOk result ((n : ℕ) → ChangesAt (text_cells stmts.now n (state_of (R.held rows.now) txn.old)) txn.old.write_set txn.new.write_set) }
    ensures within { IfErr result (IsHaltWithin (code_count stmts.now)) }
    ensures keeps { OnOk result (KeepsTypes (any_defines (map (check tables.now) stmts.now)) txn.old.env txn.new.env) }
    ensures over { OnOk result (RunsOver tables.now (R.tables rows.now) (R.held rows.now) txn.new.write_set) }
{
    for (i, stmt) in stmts.iter().enumerate() {
        match exec_stmt(tables, rows, stmt, txn) {
            Ok(()) => {}
            Err(halt) => return Err(after(count(&stmts[..i]), halt)),
        }
    }
    Ok(())
}
