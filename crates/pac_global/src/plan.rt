// The plan of a catalogue.
ghost use Rattle.std.specs.Prelude.{◌≡◌, ℕ, ◌<◌, ◌≤◌, length, map, IfOk};
ghost use Rattle.pac_graph.specs.Graph.{Reach};
ghost use Rattle.pac_ops.specs.declared.limits.TheConstants.{MAX_ALL_OPS};
ghost use Rattle.pac_ops.specs.Programs.{AreWellFormedPrograms};
ghost use Rattle.pac_plan.specs.Analysis.{IsAnalysis, IsPlan, HasBlockEdge};
ghost use Rattle.pac_types.specs.Fits.{shape};
ghost use Rattle.pac_value.specs.declared.limits.TheConstants.{MAX_PROCS};
ghost use Rattle.pac_ops.specs.Programs.{count_ops};

use crate::blocks::{blocks_of, row, table_types};
use crate::draw::{add_programs, op_count};
use pac_base::{NoMemory, listed};
use pac_graph::Digraph;
use pac_ops::Program;
use pac_plan::{Plan, PlanParts};
use pac_types::Catalogue;
use std::alloc::Global;

/// The plan of a catalogue, of which these are the programs of its procedures. Its blocks are those that flow and
/// conflicts make of all operations and of a virtual write for each table; the home of a table is the block of its virtual
/// write. A block is numbered once those with an edge into it are, and of those that are ready the one with the first
/// operation is next, where virtual writes come after all operations.
///
/// It takes time that grows with the square of the operations and tables together, by a word for each 64 pairs, and within a
/// procedure by a step for each pair.
///
/// # Errors
///
/// [`NoMemory`] where the plan, or what finds it, finds no room; the programs are dropped then.
pub fn global(alloc: Global, cat: &Catalogue, programs: Vec<Program>) -> Result<Plan, NoMemory>
    requires well_formed { AreWellFormedPrograms (map shape cat.now.tables) programs.items }
    requires few { length programs.items ≤ MAX_PROCS }
    requires ops { count_ops programs.items ≤ MAX_ALL_OPS }
    ensures programs { IfOk result (λ plan. plan.programs ≡ programs.items) }
    ensures tables { IfOk result (λ plan. plan.tables ≡ map shape cat.now.tables) }
    ensures analysis { IfOk result (λ plan. IsAnalysis plan) }
    ensures rises { IfOk result (λ plan. (b c : ℕ) → HasBlockEdge plan b c → b < c) }
    ensures acyclic { IfOk result (λ plan. (b c : ℕ) → HasBlockEdge plan b c → Reach (HasBlockEdge plan) c b → ⊥) }
{
    Ok(Plan::new(parts_of(alloc, cat, programs)?))
}

// The parts of the plan: the groups of the graph of all operations and virtual writes.
fn parts_of(alloc: Global, cat: &Catalogue, programs: Vec<Program>) -> Result<PlanParts, NoMemory>
    requires well_formed { AreWellFormedPrograms (map shape cat.now.tables) programs.items }
    requires few { length programs.items ≤ MAX_PROCS }
    requires ops { count_ops programs.items ≤ MAX_ALL_OPS }
    ensures programs { IfOk result (λ parts. parts.programs ≡ programs.items) }
    ensures tables { IfOk result (λ parts. parts.tables ≡ map shape cat.now.tables) }
    ensures plan { IfOk result (λ parts. IsPlan parts) }
{
    let tables = table_types(alloc, cat.tables())?;
    let total = op_count(&programs);
    let mut graph = Digraph::new(alloc, total + tables.len())?;
    add_programs(&programs, total, &mut graph);
    let groups = graph.groups()?;
    let numbers = groups.numbers.as_slice();
    let block_of = blocks_of(alloc, &programs, numbers)?;
    let homes = row(alloc, numbers, total, tables.len())?;
    Ok(PlanParts {
        programs: listed(programs),
        tables: listed(tables),
        block_of: listed(block_of),
        homes: listed(homes),
        blocks: groups.count,
        edges: groups.edges,
    })
}
