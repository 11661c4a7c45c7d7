// The operations of statements, under the conditions round them.
ghost use Rattle.std.specs.Prelude.{◌≡◌, ◌+◌, ◌*◌, ◌<◌, ◌≤◌, ◌^◌, ◌++◌, ◌∷◌, [], map, length, IfOk, OnOk};
ghost use Rattle.pac_types.specs.Meaning.{operations, stmt_operations};
ghost use Rattle.pac_types.specs.Unrolled.{End, turns, turn_numbers, renamed, unrolling, in_steps, all_after, in_turns, after_turns};
ghost use Rattle.pac_flat.specs.FlatForm.{flat, inside, under};
ghost use Rattle.pac_flat.specs.Names.{point_of};

use crate::point::Point;
use pac_base::{Exact, NoMemory, listed};
use pac_ops::{Conds, FlatOp, OpKind};
use pac_types::Stmt;
use pac_value::Expr;
use std::alloc::Global;

/// The operations of statements, which stand in no conditional. Linear in them and in their conditions, and in the turns
/// of loops.
pub(crate) fn flat_operations(
    alloc: Global,
    stmts: &[Stmt],
    mut point: Point,
) -> Result<Vec<FlatOp>, NoMemory>
    requires room { point.next + operations stmts.now < 2 ^ 16 }
    ensures { IfOk result (λ ops. ops.items ≡ flat (in_steps (map unrolling stmts.now) (point_of point) End) []) }
{
    let mut ops = Vec::new(alloc);
    push_block(alloc, stmts, &Conds::new(alloc), &mut point, &mut ops)?;
    Ok(ops)
}

#[cycle(flat)]
fn push_block(
    alloc: Global,
    stmts: &[Stmt],
    conds: &Conds,
    point: &mut Point,
    ops: &mut Vec<FlatOp>,
) -> Result<(), NoMemory>
    requires room { point.old.next + operations stmts.now < 2 ^ 16 }
    ensures next { OnOk result (point.new.next ≤ point.old.next + operations stmts.now) }
    ensures point { OnOk result (point_of point.new ≡ all_after (map unrolling stmts.now) (point_of point.old)) }
    ensures ops { OnOk result (ops.new.items ≡ ops.old.items ++ flat (in_steps (map unrolling stmts.now) (point_of point.old) End) conds.now) }
{
    for stmt in stmts {
        push_stmt(alloc, stmt, conds, point, ops)?;
    }
    Ok(())
}

#[cycle(flat)]
fn push_stmt(
    alloc: Global,
    stmt: &Stmt,
    conds: &Conds,
    point: &mut Point,
    ops: &mut Vec<FlatOp>,
) -> Result<(), NoMemory>
    requires room { point.old.next + stmt_operations stmt.now < 2 ^ 16 }
    ensures next { OnOk result (point.new.next ≤ point.old.next + stmt_operations stmt.now) }
    ensures point { OnOk result (point_of point.new ≡ (unrolling stmt.now).after (point_of point.old)) }
    ensures ops { OnOk result (ops.new.items ≡ ops.old.items ++ flat ((unrolling stmt.now).steps (point_of point.old) End) conds.now) }
{
    match stmt {
        Stmt::If {
            var,
            test,
            first,
            second,
        } => {
            let test = point.renamed(alloc, test)?;
            let var = point.name_next(*var)?;
            push(alloc, conds, OpKind::Cond { var, test }, ops)?;
            push_block(
                alloc,
                first.as_slice(),
                &within(alloc, conds, var, true)?,
                point,
                ops,
            )?;
            push_block(
                alloc,
                second.as_slice(),
                &within(alloc, conds, var, false)?,
                point,
                ops,
            )
        }
        Stmt::For {
            var,
            from,
            to,
            body,
        } => push_turns(alloc, *var, *from, *to, body.as_slice(), conds, point, ops),
        Stmt::Let { var, value } => {
            let value = point.renamed(alloc, value)?;
            let var = point.name_next(*var)?;
            push(alloc, conds, OpKind::Let { var, value }, ops)
        }
        Stmt::Read {
            var,
            table,
            key,
            column,
            default,
        } => {
            let key = point.renamed(alloc, key)?;
            let kind = OpKind::Read {
                var: point.name_next(*var)?,
                table: *table,
                key,
                column: *column,
                default: *default,
            };
            push(alloc, conds, kind, ops)
        }
        Stmt::Has { var, table, key } => {
            let key = point.renamed(alloc, key)?;
            let kind = OpKind::Has {
                var: point.name_next(*var)?,
                table: *table,
                key,
            };
            push(alloc, conds, kind, ops)
        }
        Stmt::Put { table, key, values } => {
            let kind = OpKind::Put {
                table: *table,
                key: point.renamed(alloc, key)?,
                values: listed(renamed_all(alloc, values.as_slice(), point)?),
            };
            push(alloc, conds, kind, ops)
        }
        Stmt::Set {
            table,
            key,
            column,
            value,
        } => {
            let kind = OpKind::SetCol {
                table: *table,
                key: point.renamed(alloc, key)?,
                column: *column,
                value: point.renamed(alloc, value)?,
            };
            push(alloc, conds, kind, ops)
        }
        Stmt::Delete { table, key } => {
            let kind = OpKind::Delete {
                table: *table,
                key: point.renamed(alloc, key)?,
            };
            push(alloc, conds, kind, ops)
        }
        Stmt::AbortIf { test } => {
            let test = point.renamed(alloc, test)?;
            push(alloc, conds, OpKind::AbortIf { test }, ops)
        }
    }
}

// The operations of a loop's turns.
#[cycle(flat)]
fn push_turns(
    alloc: Global,
    var: u16,
    from: i64,
    to: i64,
    body: &[Stmt],
    conds: &Conds,
    point: &mut Point,
    ops: &mut Vec<FlatOp>,
) -> Result<(), NoMemory>
    requires room { point.old.next + turns from to * operations body.now < 2 ^ 16 }
    ensures next { OnOk result (point.new.next ≤ point.old.next + turns from to * operations body.now) }
    ensures point { OnOk result (point_of point.new ≡ after_turns var (map unrolling body.now) (turn_numbers from to) (point_of point.old)) }
    ensures ops { OnOk result (ops.new.items ≡ ops.old.items ++ flat (in_turns var (map unrolling body.now) (turn_numbers from to) (point_of point.old) End) conds.now) }
{
    for number in from..to {
        point.name_turn(var, number)?;
        push_block(alloc, body, conds, point, ops)?;
    }
    Ok(())
}

// Expressions over what their variables stand for.
fn renamed_all(alloc: Global, exprs: &[Expr], point: &Point) -> Result<Vec<Expr>, NoMemory>
    ensures { IfOk result (λ es. es.items ≡ map (renamed (point_of point.now).names) exprs.now) }
{
    let mut all = Vec::with_capacity(alloc, exprs.len())?;
    for expr in exprs {
        all.push(point.renamed(alloc, expr)?)?;
    }
    Ok(all)
}

// One more operation under conditions.
fn push(alloc: Global, conds: &Conds, kind: OpKind, ops: &mut Vec<FlatOp>) -> Result<(), NoMemory>
    ensures { OnOk result (ops.new.items ≡ ops.old.items ++ under conds.now kind ∷ []) }
{
    let conds = conds.copy(alloc)?;
    ops.push(FlatOp { conds, kind })?;
    Ok(())
}

// The conditions in a block of a conditional: those round it, and that its hidden variable has this value.
fn within(alloc: Global, conds: &Conds, var: u16, value: bool) -> Result<Conds, NoMemory>
    ensures { IfOk result (λ more. more ≡ inside conds.now var value) }
{
    let mut more = conds.copy(alloc)?;
    more.push((var, value))?;
    Ok(more)
}
