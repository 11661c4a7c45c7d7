// Which operations of a procedure conflict.
ghost use Rattle.std.specs.Prelude.{◌≡◌, ◌↔◌, ℕ, ◌+◌, ◌<◌, ◌≤◌, length, IsTrue};
ghost use Rattle.pac_graph.specs.Adding.{Adds};
ghost use Rattle.pac_slice.specs.Dependent.{IsConflictFrom, AreConflicting};

use pac_graph::Digraph;
use pac_ops::{FlatOp, OpKind};

// Adds an edge from an operation to each, from `at` on, that it conflicts with.
pub(crate) fn add_conflicts_from(ops: &[FlatOp], from: usize, at: usize, graph: &mut Digraph)
    requires from { from < length ops.now }
    requires room { length ops.now ≤ graph.old.nodes }
    ensures { Adds graph.old (IsConflictFrom ops.now at from) graph.new }
{
    for to in at..ops.len() {
        if do_conflict(&ops[from].kind, &ops[to].kind) {
            graph.edge(from, to);
        }
    }
}

// Whether two operations conflict: they access one table, and at least one of them modifies it.
fn do_conflict(a: &OpKind, b: &OpKind) -> bool
    ensures { IsTrue result ↔ AreConflicting a.now b.now }
{
    match (a.table(), b.table()) {
        (Some(table), Some(other)) => table == other && (a.modifies() || b.modifies()),
        _ => false,
    }
}
