// Accesses: which rows a piece may touch.
ghost use Rattle.std.specs.Prelude.{◌≡◌, ◌↔◌, IsTrue, IfOk};

use pac_base::{Exact, Listed, NoMemory, Same};
use pac_value::Key;
use std::alloc::Global;

/// A row that a piece may touch, by its table's number and its key, and whether the piece may modify it. Touches are
/// ordered by table, then by key, then reads before writes.
#[derive(Clone, Copy, Debug, PartialEq, Eq, PartialOrd, Ord)]
pub struct Touch {
    pub table: u16,
    pub key: Key,
    pub is_write: bool,
}

/// Touches in the order of the operations.
pub type Touches = Listed<Touch>;

/// Which rows a piece may touch.
#[derive(Debug, Drop)]
pub enum Access {
    /// Those at these keys.
    Keys(Touches),
    /// Any of its block: a key depends on what the piece itself computes.
    Whole,
}

impl Exact for Touch {
    fn copy(&self, _: Global) -> Result<Touch, NoMemory> {
        Ok(*self)
    }
}

impl Same for Touch {
    fn same(&self, other: &Touch) -> bool {
        *self == *other
    }
}

impl Exact for Access {
    fn copy(&self, alloc: Global) -> Result<Access, NoMemory> {
        Ok(match self {
            Access::Keys(touches) => Access::Keys(touches.copy(alloc)?),
            Access::Whole => Access::Whole,
        })
    }
}

impl Same for Access {
    fn same(&self, other: &Access) -> bool {
        match (self, other) {
            (Access::Keys(a), Access::Keys(b)) => a.same(b),
            (Access::Whole, Access::Whole) => true,
            _ => false,
        }
    }
}
