// The parts of a plan.
ghost use Rattle.std.specs.Prelude.{◌≡◌, IfOk};

use pac_base::{Exact, Listed, NoMemory};
use pac_ops::{Numbers, Pairs, Programs, TableTypesList};
use std::alloc::Global;

/// For each procedure the block of each of its operations.
pub type BlocksOf = Listed<Numbers>;

/// What a plan holds.
#[derive(Debug, Drop)]
pub struct PlanParts {
    /// The programs of the procedures.
    pub programs: Programs,
    /// The types of the tables.
    pub tables: TableTypesList,
    /// The block of each operation.
    pub block_of: BlocksOf,
    /// The block of each table's operations, its home.
    pub homes: Numbers,
    /// How many blocks there are.
    pub blocks: u16,
    /// The edges between different blocks, each once, ascending.
    pub edges: Pairs,
}

impl Exact for PlanParts {
    fn copy(&self, alloc: Global) -> Result<PlanParts, NoMemory> {
        let programs = self.programs.copy(alloc)?;
        let tables = self.tables.copy(alloc)?;
        let block_of = self.block_of.copy(alloc)?;
        let homes = self.homes.copy(alloc)?;
        let edges = self.edges.copy(alloc)?;
        Ok(PlanParts {
            programs,
            tables,
            block_of,
            homes,
            blocks: self.blocks,
            edges,
        })
    }
}
