// Statements by numbers.
ghost use Rattle.std.specs.Prelude.{◌≡◌, ◌≤◌, ◌<◌, ◌+◌, ◌^◌, OnOk, Some, length, map};
ghost use Rattle.std.specs.Prelude.{slice_get};
ghost use Rattle.pac_base.specs.Refusals.{Reports};
ghost use Rattle.pac_syntax.specs.Limits.{size, sizes};
ghost use Rattle.pac_types.specs.WellFormed.{types, column_type, column_types};
ghost use Rattle.pac_types.specs.Checking.{checked_cell, checked_field, checked_values, same_count, checked_put, checked_read, checked_stmt, checked_run, checked_block, cell_of, field_of};

use crate::checker::expressions::{check_expr, check_test, check_wanted, taken, wanted};
use crate::checker::scope::Scope;
use crate::checker::tables::Tables;
use crate::type_error::{TypeFault, TypeFaultKind};
use crate::{Column, Stmt, TypeError};
use pac_base::listed;
use pac_syntax::{ExprNode, LiteralNode, NameNode, StmtNode};
use pac_value::{Expr, Ty};
use std::alloc::Global;

// A table, and an expression for a key of it.
#[derive(Drop)]
struct Cell {
    table: u16,
    key: Expr,
}

// A table, an expression for a key of it, and a column of it.
#[derive(Drop)]
struct Field {
    table: u16,
    key: Expr,
    column: u16,
}

// `TABLE[KEY]`
fn check_cell(
    alloc: Global,
    tables: &Tables,
    scope: &Scope,
    table: &NameNode,
    key: &ExprNode,
) -> Result<Cell, TypeError>
    ensures { Reports cell_of result (checked_cell tables.now scope.now table.now key.now) }
{
    let table = tables.find(table)?;
    let key = check_wanted(alloc, scope, key, tables.key_type(table))?;
    Ok(Cell { table, key })
}

// `TABLE[KEY].COLUMN`
fn check_field(
    alloc: Global,
    tables: &Tables,
    scope: &Scope,
    table: &NameNode,
    key: &ExprNode,
    column: &NameNode,
) -> Result<Field, TypeError>
    ensures { Reports field_of result (checked_field tables.now scope.now table.now key.now column.now) }
{
    let Cell { table, key } = check_cell(alloc, tables, scope, table, key)?;
    let column = tables.find_column(table, column)?;
    Ok(Field { table, key, column })
}

// That a `put` has as many values as its table has columns.
fn same_count(at: usize, values: usize, columns: usize) -> Result<(), TypeFault>
    ensures { result ≡ same_count at values columns }
{
    if values == columns {
        Ok(())
    } else {
        let kind = TypeFaultKind::WrongCount;
        Err(TypeFault { at, kind })
    }
}

// Values for as many columns.
fn check_values(
    alloc: Global,
    scope: &Scope,
    nodes: &[ExprNode],
    columns: &[Column],
) -> Result<Vec<Expr>, TypeError>
    requires { length nodes.now ≡ length columns.now }
    ensures { Reports (λ values. values.items) result (checked_values scope.now nodes.now (types columns.now)) }
{
    let mut values = Vec::with_capacity(alloc, nodes.len())?;
    for i in 0..nodes.len() {
        values.push(check_wanted(alloc, scope, &nodes[i], Some(columns[i].ty))?)?;
    }
    Ok(values)
}

// `put TABLE[KEY] = (VALUES);`
fn check_put(
    alloc: Global,
    tables: &Tables,
    scope: &Scope,
    table: &NameNode,
    key: &ExprNode,
    values: &[ExprNode],
) -> Result<Stmt, TypeError>
    ensures { Reports (λ stmt. stmt) result (checked_put tables.now scope.now table.now key.now values.now) }
{
    let number = tables.find(table)?;
    let columns = tables.columns(number);
    same_count(table.at, values.len(), columns.len())?;
    let key = check_wanted(alloc, scope, key, tables.key_type(number))?;
    let values = check_values(alloc, scope, values, columns)?;
    Ok(Stmt::Put {
        table: number,
        key,
        values: listed(values),
    })
}

// What is after `read NAME = `, where this field is read.
fn check_read(
    tables: &Tables,
    scope: &mut Scope,
    field: Field,
    default: &LiteralNode,
) -> Result<Stmt, TypeError>
    requires { scope.old.next < 2 ^ 16 }
    ensures stmt { Reports (λ stmt. (stmt, scope.new)) result (checked_read tables.now scope.old (field_of field) default.now) }
    ensures room { OnOk result (scope.new.next ≤ scope.old.next + 1) }
{
    let ty = default.value.ty();
    taken(
        default.at,
        wanted(ty, tables.column_type(field.table, field.column)),
    )?;
    Ok(Stmt::Read {
        var: scope.define(ty)?,
        table: field.table,
        key: field.key,
        column: field.column,
        default: default.value,
    })
}

// The statement of a node, after which the variable that it defines is visible.
#[cycle(check)]
fn check_stmt(
    alloc: Global,
    tables: &Tables,
    scope: &mut Scope,
    node: &StmtNode,
) -> Result<Stmt, TypeError>
    requires fits { scope.old.next + size node.now ≤ 2 ^ 16 }
    ensures stmt { Reports (λ stmt. (stmt, scope.new)) result (checked_stmt tables.now node.now scope.old) }
    ensures room { OnOk result (scope.new.next ≤ scope.old.next + size node.now) }
{
    match node {
        StmtNode::Let { name, value } => {
            scope.once(name)?;
            let typed = check_expr(alloc, scope, value)?;
            Ok(Stmt::Let {
                var: scope.define(typed.ty)?,
                value: typed.expr,
            })
        }
        StmtNode::Read {
            name,
            table,
            key,
            column,
            default,
        } => {
            scope.once(name)?;
            let field = check_field(alloc, tables, scope, table, key, column)?;
            check_read(tables, scope, field, default)
        }
        StmtNode::Has { name, table, key } => {
            scope.once(name)?;
            let Cell { table, key } = check_cell(alloc, tables, scope, table, key)?;
            let var = scope.define(Ty::Bool)?;
            Ok(Stmt::Has { var, table, key })
        }
        StmtNode::Put { table, key, values } => {
            check_put(alloc, tables, scope, table, key, values.as_slice())
        }
        StmtNode::Set {
            table,
            key,
            column,
            value,
        } => {
            let field = check_field(alloc, tables, scope, table, key, column)?;
            let by = tables.column_type(field.table, field.column);
            Ok(Stmt::Set {
                table: field.table,
                key: field.key,
                column: field.column,
                value: check_wanted(alloc, scope, value, by)?,
            })
        }
        StmtNode::Delete { table, key } => {
            let Cell { table, key } = check_cell(alloc, tables, scope, table, key)?;
            Ok(Stmt::Delete { table, key })
        }
        StmtNode::AbortIf { test } => Ok(Stmt::AbortIf {
            test: check_test(alloc, scope, test)?,
        }),
        StmtNode::If {
            test,
            first,
            second,
        } => {
            let test = check_test(alloc, scope, test)?;
            let var = scope.hide();
            let first = check_block(alloc, tables, scope, first.as_slice())?;
            let second = check_block(alloc, tables, scope, second.as_slice())?;
            Ok(Stmt::If {
                var,
                test,
                first: listed(first),
                second: listed(second),
            })
        }
        StmtNode::For {
            name,
            from,
            to,
            body,
        } => {
            scope.once(name)?;
            let before = scope.len();
            let var = scope.define(Ty::Int)?;
            let body = check_block(alloc, tables, scope, body.as_slice())?;
            // The loop's name is visible in its block alone.
            scope.leave(before);
            Ok(Stmt::For {
                var,
                from: *from,
                to: *to,
                body: listed(body),
            })
        }
    }
}

/// The statements of a block, after which no variable of it is visible.
#[cycle(check)]
pub(crate) fn check_block(
    alloc: Global,
    tables: &Tables,
    scope: &mut Scope,
    nodes: &[StmtNode],
) -> Result<Vec<Stmt>, TypeError>
    requires fits { scope.old.next + sizes nodes.now ≤ 2 ^ 16 }
    ensures block { Reports (λ stmts. (stmts.items, scope.new)) result (checked_block tables.now nodes.now scope.old) }
    ensures room { OnOk result (scope.new.next ≤ scope.old.next + sizes nodes.now) }
{
    let start = scope.len();
    let mut stmts = Vec::with_capacity(alloc, nodes.len())?;
    for i in 0..nodes.len() {
        stmts.push(check_stmt(alloc, tables, scope, &nodes[i])?)?;
    }
    scope.leave(start);
    Ok(stmts)
}
