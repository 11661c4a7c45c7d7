// Transactions that have not ended.
ghost use Rattle.std.specs.Prelude.{◌≡◌, ◌≤◌, length, OnOk};
ghost use Rattle.std.specs.FinMap as map;
ghost use Rattle.pac_ops.specs.Operations.{with_values};

use crate::write_set::WriteSet;
use pac_base::{Listed, NoMemory};
use pac_value::{Env, Expr, Row, Value};
use std::alloc::Global;

/// A transaction that has not ended: the values of its variables, and its changes. One serves many transactions, one
/// after another, so that what it holds is made once; new rows take the room of rows that earlier ones replaced. A variable that is not set yet may have a value of an earlier
/// transaction, which well-formed statements don't see: so each variable has its place after the first call.
#[derive(Drop)]
pub struct RunningTxn {
    pub(crate) alloc: Global,
    pub(crate) env: Env,
    pub(crate) write_set: WriteSet,
    // Rows that were replaced, or never made.
    pub(crate) spare: Listed<Row>,
}

/// Where a statement reads or writes: a table, and the expression of a key.
#[derive(Drop)]
pub(crate) struct Target<'a> {
    pub(crate) table: u16,
    pub(crate) key: &'a Expr,
}

impl RunningTxn {
    /// Nothing is executed yet. Takes no memory.
    pub fn new(alloc: Global) -> RunningTxn {
        RunningTxn {
            alloc,
            env: Env::new(alloc),
            write_set: WriteSet::new(alloc),
            spare: Listed::new(alloc),
        }
    }

    /// Begins anew: the parameters have the values of the arguments, and nothing is changed.
    #[inline(always)]
    pub(crate) fn begin(&mut self, args: &[Value]) -> Result<(), NoMemory>
        requires { length args.now ≤ 65536 }
        ensures env { OnOk result (self.new.env ≡ with_values 0 args.now self.old.env) }
        ensures write_set { OnOk result (self.new.write_set ≡ map.empty) }
    {
        self.write_set.clear(&mut self.spare);
        for (i, value) in args.iter().enumerate() {
            self.env.set(i as u16, value)?;
        }
        Ok(())
    }
}
