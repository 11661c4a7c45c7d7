// Plans.
ghost use Rattle.std.specs.Prelude.{◌≡◌, ◌↔◌, ℕ, ◌<◌, length, slice_get, Some, IsTrue, IfOk};

use crate::PlanParts;
use pac_base::{Exact, NoMemory};
use pac_ops::{Program, TableTypes};
use std::alloc::Global;
use std::marker::Model;

/// The blocks of a catalogue's procedures. It keeps by its type that they are those of the analysis.
#[derive(Debug, Drop)]
pub struct Plan {
    pub(crate) parts: PlanParts,
}

impl Model for Plan {
    ghost use Rattle.pac_plan.specs.declared.parts.PlanParts.{PlanParts};
    ghost use Rattle.pac_plan.specs.contracts.parts.PlanParts as coding;
    ghost use Rattle.pac_plan.specs.Analysis.{IsPlan};

    ghost Value = { PlanParts };

    ghost coded = { coding.the_row.coded };

    ghost view = { λ plan. plan.parts };

    ghost invariant = { λ plan. IsPlan plan.parts };
}

impl Plan {
    ghost use Rattle.pac_plan.specs.Nodes.{IsNode, Operation, VirtualWrite};
    ghost use Rattle.pac_plan.specs.Analysis.{IsPlan, block_in, HasBlockEdge};

    /// The plan of these parts. Takes no memory.
    pub fn new(parts: PlanParts) -> Plan
        requires { IsPlan parts }
        ensures { result ≡ parts }
    {
        Plan { parts }
    }

    /// The program of a procedure.
    pub fn program(&self, proc: u16) -> &Program
        requires { proc < length self.now.programs }
        ensures { slice_get self.now.programs proc ≡ Some result.now }
    {
        &self.parts.programs.as_slice()[usize::from(proc)]
    }

    /// The types of a table.
    pub fn table_types(&self, table: u16) -> &TableTypes
        requires { table < length self.now.tables }
        ensures { slice_get self.now.tables table ≡ Some result.now }
    {
        &self.parts.tables.as_slice()[usize::from(table)]
    }

    /// The block of a procedure's operation.
    pub fn block_of(&self, proc: u16, op: u16) -> u16
        requires { IsNode self.now.programs (length self.now.tables) (Operation proc op) }
        ensures { result ≡ block_in self.now (Operation proc op) }
    {
        self.parts.block_of.as_slice()[usize::from(proc)].as_slice()[usize::from(op)]
    }

    /// The home of a table: the block of its operations.
    pub fn home_of(&self, table: u16) -> u16
        requires { table < length self.now.tables }
        ensures { result ≡ block_in self.now (VirtualWrite table) }
    {
        self.parts.homes.as_slice()[usize::from(table)]
    }

    /// How many blocks there are. They are numbered from 0 on.
    pub fn blocks(&self) -> u16
        ensures { result ≡ self.now.blocks }
    {
        self.parts.blocks
    }

    /// Whether an edge leads from a block to another. It looks through the edges.
    pub fn has_edge(&self, from: u16, to: u16) -> bool
        ensures { IsTrue result ↔ HasBlockEdge self.now from to }
    {
        self.parts.edges.as_slice().contains(&(from, to))
    }

    /// Whether no edge leads to a block, so that its pieces wait for no other of their transaction. It looks through the edges.
    pub fn is_entry(&self, block: u16) -> bool
        ensures { IsTrue result ↔ ((from : ℕ) → ¬ HasBlockEdge self.now from block) }
    {
        for edge in self.parts.edges.as_slice() {
            if edge.1 == block {
                return false;
            }
        }
        true
    }

    /// The edges between different blocks, each once, ascending.
    pub fn edges(&self) -> &[(u16, u16)]
        ensures { result.now ≡ self.now.edges }
    {
        self.parts.edges.as_slice()
    }

    /// How many programs there are.
    pub fn procs(&self) -> u16
        ensures { result ≡ length self.now.programs }
    {
        self.parts.programs.as_slice().len() as u16
    }

    /// How many tables there are.
    pub fn tables(&self) -> u16
        ensures { result ≡ length self.now.tables }
    {
        self.parts.tables.as_slice().len() as u16
    }
}

impl Exact for Plan {
    fn copy(&self, alloc: Global) -> Result<Plan, NoMemory> {
        Ok(Plan {
            parts: self.parts.copy(alloc)?,
        })
    }
}
