// Tables and their columns.
use pac_base::{Exact, Listed, NoMemory};
use pac_value::{Name, Ty};
use std::alloc::Global;

/// A column of a table, or a parameter of a procedure.
#[derive(Clone, Copy, Debug, PartialEq, Eq)]
pub struct Column {
    pub name: Name,
    pub ty: Ty,
}

/// The columns of a table, or the parameters of a procedure, in order.
pub type Columns = Listed<Column>;

/// A table: its name, the type of its key, and its columns.
#[derive(Debug, Drop)]
pub struct Table {
    pub name: Name,
    pub key: Ty,
    pub columns: Columns,
}

impl Exact for Column {
    fn copy(&self, _: Global) -> Result<Column, NoMemory> {
        Ok(*self)
    }
}

impl Exact for Table {
    fn copy(&self, alloc: Global) -> Result<Table, NoMemory> {
        let columns = self.columns.copy(alloc)?;
        Ok(Table {
            name: self.name,
            key: self.key,
            columns,
        })
    }
}
