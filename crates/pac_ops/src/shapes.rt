// The types that the rows of tables have.
ghost use Rattle.std.specs.Prelude.{◌≡◌, ◌↔◌, IsTrue, IfOk};

use pac_base::{Exact, Listed, NoMemory, Same};
use pac_value::Ty;
use std::alloc::Global;

/// The types of columns, parameters or variables, in the order of their numbers.
pub type Types = Listed<Ty>;

/// The type of a table's key, and those of its columns.
#[derive(Debug, Drop)]
pub struct TableTypes {
    pub key: Ty,
    pub columns: Types,
}

/// The types of tables, in the order of their numbers.
pub type TableTypesList = Listed<TableTypes>;

impl Exact for TableTypes {
    fn copy(&self, alloc: Global) -> Result<TableTypes, NoMemory> {
        let columns = self.columns.copy(alloc)?;
        Ok(TableTypes {
            key: self.key,
            columns,
        })
    }
}

impl Same for TableTypes {
    fn same(&self, other: &TableTypes) -> bool {
        self.key == other.key && self.columns.same(&other.columns)
    }
}
