// The graph of all operations and virtual writes.
ghost use Rattle.std.specs.Prelude.{◌≡◌, ℕ, ◌+◌, ◌<◌, ◌≤◌, length, slice_get, Some};
ghost use Rattle.pac_graph.specs.declared.limits.TheConstants.{MAX_NODES};
ghost use Rattle.pac_graph.specs.Adding.{Adds};
ghost use Rattle.pac_ops.specs.declared.program.Program.{Program as AProgram};
ghost use Rattle.pac_ops.specs.Dependencies.{Accesses};
ghost use Rattle.pac_ops.specs.declared.limits.TheConstants.{MAX_ALL_OPS};
ghost use Rattle.pac_ops.specs.Programs.{count_ops};
ghost use Rattle.pac_global.specs.Drawing.{IsBothWays, HasHomeEdge, HasEdgeOf};

use pac_graph::Digraph;
use pac_ops::{FlatOp, Program};
use pac_slice::add_flow;

// How many operations programs have.
pub(crate) fn op_count(programs: &[Program]) -> usize
    requires { count_ops programs.now ≤ MAX_ALL_OPS }
    ensures { result ≡ count_ops programs.now }
{
    let mut count = 0;
    for program in programs {
        count += program.ops.as_slice().len();
    }
    count
}

// Adds the edges of all procedures; the virtual writes are the nodes from `total` on.
pub(crate) fn add_programs(programs: &[Program], total: usize, graph: &mut Digraph)
    requires total { total ≡ count_ops programs.now }
    requires nodes { total ≤ graph.old.nodes }
    requires few { graph.old.nodes ≤ MAX_NODES }
    requires tables { (p i t : ℕ) (program : AProgram) → slice_get programs.now p ≡ Some program → Accesses program.ops i t → total + t < graph.old.nodes }
    ensures { Adds graph.old (λ u v. (p : ℕ) × HasEdgeOf programs.now p u v) graph.new }
{
    let mut first = 0;
    for program in programs {
        let ops = program.ops.as_slice();
        add_flow(ops, first, graph);
        add_homes(ops, first, total, graph);
        first += ops.len();
    }
}

// Links each operation on a table both ways with the virtual write of the table.
fn add_homes(ops: &[FlatOp], first: usize, total: usize, graph: &mut Digraph)
    requires room { first + length ops.now ≤ graph.old.nodes }
    requires few { graph.old.nodes ≤ MAX_NODES }
    requires tables { (i t : ℕ) → Accesses ops.now i t → total + t < graph.old.nodes }
    ensures { Adds graph.old (HasHomeEdge ops.now first total) graph.new }
{
    for i in 0..ops.len() {
        if let Some(table) = ops[i].kind.table() {
            link(first + i, total + usize::from(table), graph);
        }
    }
}

// Adds the edges between two nodes, both ways.
fn link(a: usize, b: usize, graph: &mut Digraph)
    requires a { a < graph.old.nodes }
    requires b { b < graph.old.nodes }
    ensures { Adds graph.old (IsBothWays a b) graph.new }
{
    graph.edge(a, b);
    graph.edge(b, a);
}
