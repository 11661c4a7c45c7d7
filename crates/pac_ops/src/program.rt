// Flat operations and programs.
ghost use Rattle.std.specs.Prelude.{◌≡◌, ◌↔◌, IsTrue, IfOk};

use crate::Types;
use pac_base::{Exact, Listed, NoMemory, Same, ShortList};
use pac_value::{Expr, Value};
use std::alloc::Global;

/// What an operation does where its conditions hold. Variables, tables and columns have numbers.
#[derive(Debug, Drop)]
pub enum OpKind {
    /// The variable gets the value.
    Let {
        var: u16,
        value: Expr,
    },
    /// The hidden variable of a conditional gets the value of its test.
    Cond {
        var: u16,
        test: Expr,
    },
    /// The variable gets a column of the row at a key, or the default where there is no row.
    Read {
        var: u16,
        table: u16,
        key: Expr,
        column: u16,
        default: Value,
    },
    /// The variable gets whether there is a row at a key.
    Has {
        var: u16,
        table: u16,
        key: Expr,
    },
    /// Inserts or replaces the row at a key.
    Put {
        table: u16,
        key: Expr,
        values: Listed<Expr>,
    },
    /// Replaces a column of the row at a key, which has to be there.
    SetCol {
        table: u16,
        key: Expr,
        column: u16,
        value: Expr,
    },
    /// Removes the row at a key, where there is one.
    Delete {
        table: u16,
        key: Expr,
    },
    /// Aborts the transaction where the test is true.
    AbortIf {
        test: Expr,
    },
}

/// The conditions of an operation, those of the outermost conditional first: a hidden variable, and the value that it
/// has to have. Up to four take no allocation.
pub type Conds = ShortList<(u16, bool), 4>;

/// An operation that stands by itself: with the conditions under which it does anything.
#[derive(Debug, Drop)]
pub struct FlatOp {
    pub conds: Conds,
    pub kind: OpKind,
}

/// Operations in order, numbered from 0.
pub type Ops = Listed<FlatOp>;

/// A procedure without names and blocks: its operations in the order of its text, the types of its parameters, and the
/// types of all its variables, the parameters first.
#[derive(Debug, Drop)]
pub struct Program {
    pub ops: Ops,
    pub params: Types,
    pub vars: Types,
}

/// The programs of all procedures, in the order of their numbers.
pub type Programs = Listed<Program>;

impl Exact for OpKind {
    fn copy(&self, alloc: Global) -> Result<OpKind, NoMemory> {
        Ok(match self {
            OpKind::Let { var, value } => OpKind::Let {
                var: *var,
                value: value.copy(alloc)?,
            },
            OpKind::Cond { var, test } => OpKind::Cond {
                var: *var,
                test: test.copy(alloc)?,
            },
            OpKind::Read {
                var,
                table,
                key,
                column,
                default,
            } => OpKind::Read {
                var: *var,
                table: *table,
                key: key.copy(alloc)?,
                column: *column,
                default: *default,
            },
            OpKind::Has { var, table, key } => OpKind::Has {
                var: *var,
                table: *table,
                key: key.copy(alloc)?,
            },
            OpKind::Put { table, key, values } => OpKind::Put {
                table: *table,
                key: key.copy(alloc)?,
                values: values.copy(alloc)?,
            },
            OpKind::SetCol {
                table,
                key,
                column,
                value,
            } => OpKind::SetCol {
                table: *table,
                key: key.copy(alloc)?,
                column: *column,
                value: value.copy(alloc)?,
            },
            OpKind::Delete { table, key } => OpKind::Delete {
                table: *table,
                key: key.copy(alloc)?,
            },
            OpKind::AbortIf { test } => OpKind::AbortIf {
                test: test.copy(alloc)?,
            },
        })
    }
}

impl Same for OpKind {
    fn same(&self, other: &OpKind) -> bool {
        match (self, other) {
            (
                OpKind::Let { var, value },
                OpKind::Let {
                    var: other_var,
                    value: other_value,
                },
            ) => *var == *other_var && value.same(other_value),
            (
                OpKind::Cond { var, test },
                OpKind::Cond {
                    var: other_var,
                    test: other_test,
                },
            ) => *var == *other_var && test.same(other_test),
            (
                OpKind::Read {
                    var,
                    table,
                    key,
                    column,
                    default,
                },
                OpKind::Read {
                    var: other_var,
                    table: other_table,
                    key: other_key,
                    column: other_column,
                    default: other_default,
                },
            ) => {
                *var == *other_var
                    && *table == *other_table
                    && key.same(other_key)
                    && *column == *other_column
                    && *default == *other_default
            }
            (
                OpKind::Has { var, table, key },
                OpKind::Has {
                    var: other_var,
                    table: other_table,
                    key: other_key,
                },
            ) => *var == *other_var && *table == *other_table && key.same(other_key),
            (
                OpKind::Put { table, key, values },
                OpKind::Put {
                    table: other_table,
                    key: other_key,
                    values: other_values,
                },
            ) => *table == *other_table && key.same(other_key) && values.same(other_values),
            (
                OpKind::SetCol {
                    table,
                    key,
                    column,
                    value,
                },
                OpKind::SetCol {
                    table: other_table,
                    key: other_key,
                    column: other_column,
                    value: other_value,
                },
            ) => {
                *table == *other_table
                    && key.same(other_key)
                    && *column == *other_column
                    && value.same(other_value)
            }
            (
                OpKind::Delete { table, key },
                OpKind::Delete {
                    table: other_table,
                    key: other_key,
                },
            ) => *table == *other_table && key.same(other_key),
            (OpKind::AbortIf { test: a }, OpKind::AbortIf { test: b }) => a.same(b),
            _ => false,
        }
    }
}

impl Exact for FlatOp {
    fn copy(&self, alloc: Global) -> Result<FlatOp, NoMemory> {
        let conds = self.conds.copy(alloc)?;
        let kind = self.kind.copy(alloc)?;
        Ok(FlatOp { conds, kind })
    }
}

impl Same for FlatOp {
    fn same(&self, other: &FlatOp) -> bool {
        self.conds.same(&other.conds) && self.kind.same(&other.kind)
    }
}

impl Exact for Program {
    fn copy(&self, alloc: Global) -> Result<Program, NoMemory> {
        let ops = self.ops.copy(alloc)?;
        let params = self.params.copy(alloc)?;
        let vars = self.vars.copy(alloc)?;
        Ok(Program { ops, params, vars })
    }
}

impl Same for Program {
    fn same(&self, other: &Program) -> bool {
        self.ops.same(&other.ops) && self.params.same(&other.params) && self.vars.same(&other.vars)
    }
}
