// Statements.
ghost use Rattle.std.specs.Prelude.{◌≡◌, IfOk};

use pac_base::{Exact, Listed, NoMemory, listed};
use pac_value::{Expr, Value};
use std::alloc::Global;

/// Expressions, in order.
pub type Exprs = Listed<Expr>;

/// Statements, in order.
pub type Stmts = Listed<Stmt>;

/// A statement. Variables, tables and columns have numbers: the parameters of a procedure are its first variables, and
/// each statement that defines a variable has the next one.
#[derive(Debug, Drop)]
pub enum Stmt {
    /// The variable gets the value.
    Let {
        var: u16,
        value: Expr,
    },
    /// The variable gets a column of the row at a key, or the default where there is no row.
    Read {
        var: u16,
        table: u16,
        key: Expr,
        column: u16,
        default: Value,
    },
    /// The variable gets whether there is a row at a key.
    Has {
        var: u16,
        table: u16,
        key: Expr,
    },
    /// Inserts or replaces the row at a key.
    Put {
        table: u16,
        key: Expr,
        values: Exprs,
    },
    /// Replaces a column of the row at a key, which has to be there.
    Set {
        table: u16,
        key: Expr,
        column: u16,
        value: Expr,
    },
    /// Removes the row at a key, where there is one.
    Delete {
        table: u16,
        key: Expr,
    },
    /// Aborts the transaction where the test is true.
    AbortIf {
        test: Expr,
    },
    /// Runs the first block where the test is true, and else the second. The hidden variable gets the test's value.
    If {
        var: u16,
        test: Expr,
        first: Stmts,
        second: Stmts,
    },
    /// Runs its block once for each whole number from `from` on and below `to`, ascending. In the block the variable has
    /// that number.
    For {
        var: u16,
        from: i64,
        to: i64,
        body: Stmts,
    },
}

impl Exact for Stmt {
    #[cycle(copy)]
    fn copy(&self, alloc: Global) -> Result<Stmt, NoMemory> {
        Ok(match self {
            Stmt::Let { var, value } => Stmt::Let {
                var: *var,
                value: value.copy(alloc)?,
            },
            Stmt::Read {
                var,
                table,
                key,
                column,
                default,
            } => Stmt::Read {
                var: *var,
                table: *table,
                key: key.copy(alloc)?,
                column: *column,
                default: *default,
            },
            Stmt::Has { var, table, key } => Stmt::Has {
                var: *var,
                table: *table,
                key: key.copy(alloc)?,
            },
            Stmt::Put { table, key, values } => Stmt::Put {
                table: *table,
                key: key.copy(alloc)?,
                values: values.copy(alloc)?,
            },
            Stmt::Set {
                table,
                key,
                column,
                value,
            } => Stmt::Set {
                table: *table,
                key: key.copy(alloc)?,
                column: *column,
                value: value.copy(alloc)?,
            },
            Stmt::Delete { table, key } => Stmt::Delete {
                table: *table,
                key: key.copy(alloc)?,
            },
            Stmt::AbortIf { test } => Stmt::AbortIf {
                test: test.copy(alloc)?,
            },
            Stmt::If {
                var,
                test,
                first,
                second,
            } => Stmt::If {
                var: *var,
                test: test.copy(alloc)?,
                first: copy_all(alloc, first.as_slice())?,
                second: copy_all(alloc, second.as_slice())?,
            },
            Stmt::For {
                var,
                from,
                to,
                body,
            } => Stmt::For {
                var: *var,
                from: *from,
                to: *to,
                body: copy_all(alloc, body.as_slice())?,
            },
        })
    }
}

/// A copy of a block.
#[cycle(copy)]
pub(crate) fn copy_all(alloc: Global, stmts: &[Stmt]) -> Result<Stmts, NoMemory>
    ensures { IfOk result (λ copy. copy ≡ stmts.now) }
{
    let mut copy = Vec::with_capacity(alloc, stmts.len())?;
    for stmt in stmts {
        copy.push(stmt.copy(alloc)?)?;
    }
    Ok(listed(copy))
}
