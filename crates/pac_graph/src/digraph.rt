// Directed graphs.
ghost use Rattle.std.specs.Prelude.{◌≡◌, ◌⊎◌, ◌↔◌, ℕ, ◌<◌, ◌≤◌, IfOk, MatchOption};

use crate::matrix::Matrix;
use pac_base::NoMemory;
use std::alloc::Global;
use std::marker::Model;

/// Nodes, numbered from 0, and edges that lead from node to node. A contract sees how many nodes there are and where an
/// edge leads: two graphs are equal exactly where they have the same of both.
///
/// It takes a bit for each pair of nodes, however many edges there are.
#[derive(Drop)]
pub struct Digraph {
    alloc: Global,
    matrix: Matrix,
}

impl Model for Digraph {
    ghost use Rattle.pac_graph.specs.Graph.{Graph, graph_code};
    ghost use Rattle.pac_graph.specs.Matrix.{graph_of};

    ghost Value = { Graph };

    ghost coded = { graph_code };

    ghost view = { λ graph. graph_of graph.matrix };
}

impl Digraph {
    ghost use Rattle.pac_graph.specs.Graph.{HasEdge};
    ghost use Rattle.pac_graph.specs.declared.limits.TheConstants.{MAX_NODES};

    /// That many nodes, with no edge.
    ///
    /// # Errors
    ///
    /// [`NoMemory`] where the graph finds no room.
    pub fn new(alloc: Global, nodes: usize) -> Result<Digraph, NoMemory>
        requires { nodes ≤ MAX_NODES }
        ensures nodes { IfOk result (λ graph. graph.nodes ≡ nodes) }
        ensures empty { IfOk result (λ graph. (a b : ℕ) → HasEdge graph a b → ⊥) }
    {
        let matrix = Matrix::new(alloc, nodes)?;
        Ok(Digraph { alloc, matrix })
    }

    /// Adds an edge, if it isn't there. Takes no memory.
    pub fn edge(&mut self, from: usize, to: usize)
        requires from { from < self.old.nodes }
        requires to { to < self.old.nodes }
        ensures nodes { self.new.nodes ≡ self.old.nodes }
        ensures edges { (a b : ℕ) → HasEdge self.new a b ↔ (HasEdge self.old a b ⊎ ((a ≡ from) × (b ≡ to))) }
    {
        self.matrix.set(from, to);
    }

    // The allocator that it was made with.
    pub(crate) fn alloc(&self) -> Global {
        self.alloc
    }

    /// How many nodes there are.
    pub fn nodes(&self) -> usize
        ensures nodes { result ≡ self.now.nodes }
        ensures few { self.now.nodes ≤ MAX_NODES }
    {
        self.matrix.nodes()
    }

    // The first node from `at` on to which an edge leads.
    pub(crate) fn next(&self, from: usize, at: usize) -> Option<usize>
        requires { from < self.now.nodes }
        ensures { MatchOption result ((b : ℕ) → at ≤ b → HasEdge self.now from b → ⊥) (λ to. (at ≤ to) × (to < self.now.nodes) × HasEdge self.now from to × ((b : ℕ) → at ≤ b → b < to → HasEdge self.now from b → ⊥)) }
    {
        self.matrix.next(from, at)
    }
}
