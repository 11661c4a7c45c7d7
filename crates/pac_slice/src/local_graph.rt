// The slices of a procedure.
ghost use Rattle.std.specs.Prelude.{◌≡◌, ℕ, ◌≤◌, length, IfOk};
ghost use Rattle.pac_graph.specs.Adding.{Adds};
ghost use Rattle.pac_ops.specs.declared.limits.TheConstants.{MAX_OPS};
ghost use Rattle.pac_slice.specs.Slices.{AreSlices};

use crate::conflicts::add_conflicts_from;
use crate::deps::add_flow;
use pac_base::NoMemory;
use pac_graph::Digraph;
use pac_ops::{Numbers, Pairs, Program};
use std::alloc::Global;

/// The slices of a procedure.
#[derive(Debug, Drop)]
pub struct LocalGraph {
    /// The slice of each operation.
    pub slice_of: Numbers,
    /// The edges between different slices, ascending.
    pub edges: Pairs,
}

/// The slices of a procedure: two operations are in one exactly where each is reached from the other, by flow and, both
/// ways, by conflicts. A slice is numbered once those with an edge into it are, and of those that are ready the one with
/// the first operation is next.
///
/// # Errors
///
/// [`NoMemory`] where the slices, or what finds them, find no room.
pub fn slices(alloc: Global, program: &Program) -> Result<LocalGraph, NoMemory>
    requires { length program.now.ops ≤ MAX_OPS }
    ensures { IfOk result (λ graph. AreSlices program.now.ops graph) }
{
    let ops = program.ops.as_slice();
    let mut links = Digraph::new(alloc, ops.len())?;
    add_flow(ops, 0, &mut links);
    for from in 0..ops.len() {
        add_conflicts_from(ops, from, 0, &mut links);
    }
    let groups = links.groups()?;
    Ok(LocalGraph {
        slice_of: groups.numbers,
        edges: groups.edges,
    })
}
