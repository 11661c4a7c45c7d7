// The code of pieces.
ghost use Rattle.std.specs.Prelude.{◌≡◌, ◌↔◌, IsTrue, IfOk};

use pac_base::{Exact, Listed, NoMemory, Same};
use pac_ops::{Change, FlatOp};
use std::alloc::Global;

/// Operations in order, each with its number in its procedure.
pub type NumberedOps = Listed<(u16, FlatOp)>;

/// What one piece runs. `specs/Codes.antt` says which code a piece of a plan has.
#[derive(Drop)]
pub enum Code {
    /// The operations of a procedure in a block.
    Ops(NumberedOps),
    /// The records of an ad hoc transaction whose tables have the block as their home.
    Records(Listed<Change>),
}

impl Exact for Code {
    fn copy(&self, alloc: Global) -> Result<Code, NoMemory> {
        Ok(match self {
            Code::Ops(ops) => Code::Ops(ops.copy(alloc)?),
            Code::Records(records) => Code::Records(records.copy(alloc)?),
        })
    }
}

impl Same for Code {
    fn same(&self, other: &Code) -> bool {
        match (self, other) {
            (Code::Ops(a), Code::Ops(b)) => a.same(b),
            (Code::Records(a), Code::Records(b)) => a.same(b),
            _ => false,
        }
    }
}
