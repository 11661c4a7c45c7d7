// Which operations of a procedure depend on which.
ghost use Rattle.std.specs.Prelude.{◌≡◌, ℕ, ◌+◌, ◌<◌, ◌≤◌, length, IfOk};
ghost use Rattle.pac_graph.specs.declared.limits.TheConstants.{MAX_NODES};
ghost use Rattle.pac_graph.specs.Graph.{HasEdge};
ghost use Rattle.pac_graph.specs.Adding.{Adds};
ghost use Rattle.pac_ops.specs.declared.limits.TheConstants.{MAX_OPS};
ghost use Rattle.pac_ops.specs.Dependencies.{IsFlow};
ghost use Rattle.pac_slice.specs.Dependent.{ArePairsOf, IsConflictPair, IsFlowAt, IsFlowFrom};

use crate::conflicts::add_conflicts_from;
use pac_base::NoMemory;
use pac_graph::Digraph;
use pac_ops::{FlatOp, Pairs, Program};
use std::alloc::Global;

/// The dependencies of a procedure's operations, by their numbers; both lists ascend.
#[derive(Debug, Drop)]
pub struct Deps {
    /// The first defines a variable that the second uses.
    pub flow: Pairs,
    /// Both access one table, and at least one modifies it. The first has the lower number.
    pub conflict: Pairs,
}

/// The dependencies of a procedure.
///
/// # Errors
///
/// [`NoMemory`] where the lists, or what finds them, find no room.
pub fn dependencies(alloc: Global, program: &Program) -> Result<Deps, NoMemory>
    requires { length program.now.ops ≤ MAX_OPS }
    ensures flow { IfOk result (λ deps. ArePairsOf (IsFlow program.now.ops) deps.flow) }
    ensures conflict { IfOk result (λ deps. ArePairsOf (IsConflictPair program.now.ops) deps.conflict) }
{
    let ops = program.ops.as_slice();
    let mut flow = Digraph::new(alloc, ops.len())?;
    add_flow(ops, 0, &mut flow);
    let mut conflict = Digraph::new(alloc, ops.len())?;
    for from in 0..ops.len() {
        add_conflicts_from(ops, from, from + 1, &mut conflict);
    }
    Ok(Deps {
        flow: flow.edges()?,
        conflict: conflict.edges()?,
    })
}

/// Adds the flow of a procedure's operations to a graph in which they are the nodes from `first` on. Takes no memory.
pub fn add_flow(ops: &[FlatOp], first: usize, graph: &mut Digraph)
    requires room { first + length ops.now ≤ graph.old.nodes }
    requires few { graph.old.nodes ≤ MAX_NODES }
    ensures { Adds graph.old (IsFlowAt ops.now first) graph.new }
{
    for from in 0..ops.len() {
        add_flow_from(ops, first, from, graph);
    }
}

// Adds the flow from one operation.
fn add_flow_from(ops: &[FlatOp], first: usize, from: usize, graph: &mut Digraph)
    requires from { from < length ops.now }
    requires room { first + length ops.now ≤ graph.old.nodes }
    requires few { graph.old.nodes ≤ MAX_NODES }
    ensures { Adds graph.old (IsFlowFrom ops.now first from) graph.new }
{
    let Some(var) = ops[from].kind.defined() else {
        return;
    };
    for to in from + 1..ops.len() {
        if ops[to].uses(var) {
            graph.edge(first + from, first + to);
        }
    }
}
