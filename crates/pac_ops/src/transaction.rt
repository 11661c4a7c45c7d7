// Transactions.
ghost use Rattle.std.specs.Prelude.{◌≡◌, ◌↔◌, IsTrue, IfOk};

use pac_base::{Exact, NoMemory, Rule, Ruled, Same};
use pac_value::{Key, Row, Value};
use std::alloc::Global;

/// The arguments of a call: at most 16, none a bool.
pub type Args = Ruled<ArgsRule>;

/// What the values of [`Args`] keep.
pub struct ArgsRule;

impl Rule for ArgsRule {
    type Item = Value;

    ghost use Rattle.pac_ops.specs.Arguments.{IsArgs};

    ghost holds = { IsArgs };
}

/// A call of a procedure, by its number.
#[derive(Drop)]
pub struct Call {
    pub proc: u16,
    pub args: Args,
}

/// A change of one row, by its table's number and its key.
#[derive(Drop)]
pub enum Change {
    /// Inserts or replaces the row.
    Put { table: u16, key: Key, row: Row },
    /// Removes the row, where there is one.
    Delete { table: u16, key: Key },
}

/// The records of an ad hoc transaction, in order: 1 to 64 changes.
pub type Records = Ruled<RecordsRule>;

/// What the changes of [`Records`] keep.
pub struct RecordsRule;

impl Rule for RecordsRule {
    type Item = Change;

    ghost use Rattle.pac_ops.specs.Sizes.{HasOneTo};
    ghost use Rattle.pac_ops.specs.declared.limits.TheConstants.{MAX_RECORDS};

    ghost holds = { HasOneTo MAX_RECORDS };
}

/// A transaction, as it is asked for.
#[derive(Drop)]
pub enum Txn {
    /// The call of a procedure.
    Call(Call),
    /// Changes that no procedure makes.
    AdHoc { records: Records },
}

impl Exact for Call {
    fn copy(&self, alloc: Global) -> Result<Call, NoMemory> {
        let args = self.args.copy(alloc)?;
        Ok(Call {
            proc: self.proc,
            args,
        })
    }
}

impl Same for Call {
    fn same(&self, other: &Call) -> bool {
        self.proc == other.proc && self.args.same(&other.args)
    }
}

impl Exact for Change {
    fn copy(&self, alloc: Global) -> Result<Change, NoMemory> {
        Ok(match self {
            Change::Put { table, key, row } => Change::Put {
                table: *table,
                key: *key,
                row: row.copy(alloc)?,
            },
            Change::Delete { table, key } => Change::Delete {
                table: *table,
                key: *key,
            },
        })
    }
}

impl Same for Change {
    fn same(&self, other: &Change) -> bool {
        match (self, other) {
            (
                Change::Put { table, key, row },
                Change::Put {
                    table: other_table,
                    key: other_key,
                    row: other_row,
                },
            ) => *table == *other_table && *key == *other_key && row.same(other_row),
            (
                Change::Delete { table, key },
                Change::Delete {
                    table: other_table,
                    key: other_key,
                },
            ) => *table == *other_table && *key == *other_key,
            _ => false,
        }
    }
}

impl Exact for Txn {
    fn copy(&self, alloc: Global) -> Result<Txn, NoMemory> {
        match self {
            Txn::Call(call) => Ok(Txn::Call(call.copy(alloc)?)),
            Txn::AdHoc { records } => {
                let records = records.copy(alloc)?;
                Ok(Txn::AdHoc { records })
            }
        }
    }
}

impl Same for Txn {
    fn same(&self, other: &Txn) -> bool {
        match (self, other) {
            (Txn::Call(a), Txn::Call(b)) => a.same(b),
            (Txn::AdHoc { records: a }, Txn::AdHoc { records: b }) => a.same(b),
            _ => false,
        }
    }
}
