// Procedures.
use crate::statement::{Stmts, copy_all};
use crate::table::Columns;
use pac_base::{Exact, NoMemory};
use pac_value::Name;
use std::alloc::Global;

/// A procedure: its name, its parameters and its statements.
#[derive(Debug, Drop)]
pub struct Proc {
    pub name: Name,
    pub params: Columns,
    pub body: Stmts,
}

impl Exact for Proc {
    fn copy(&self, alloc: Global) -> Result<Proc, NoMemory> {
        let params = self.params.copy(alloc)?;
        let body = copy_all(alloc, self.body.as_slice())?;
        Ok(Proc {
            name: self.name,
            params,
            body,
        })
    }
}
