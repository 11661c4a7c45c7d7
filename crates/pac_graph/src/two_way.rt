// Graphs whose edges are followed both ways.
ghost use Rattle.std.specs.Prelude.{◌≡◌, ◌⊎◌, ◌↔◌, ℕ, ◌<◌, ◌≤◌, Contains, IfOk, MatchOption};
ghost use Rattle.pac_graph.specs.Graph.{HasEdge};
ghost use Rattle.pac_graph.specs.Groups.{ArePairsAscending};

use crate::Digraph;
use pac_base::{Listed, NoMemory};
use std::alloc::Global;
use std::marker::Model;

// A graph beside its reverse. A contract sees the one graph.
#[derive(Drop)]
pub(crate) struct TwoWay {
    forward: Digraph,
    reverse: Digraph,
}

impl Model for TwoWay {
    ghost use Rattle.pac_graph.specs.Graph.{Graph, graph_code};
    ghost use Rattle.pac_graph.specs.Condensed.{IsReverse};

    ghost Value = { Graph };

    ghost coded = { graph_code };

    ghost view = { λ edges. edges.forward };

    ghost invariant = { λ edges. IsReverse edges.forward edges.reverse };
}

impl TwoWay {
    ghost use Rattle.pac_graph.specs.declared.limits.TheConstants.{MAX_NODES};

    // That many nodes, with no edge.
    pub(crate) fn new(alloc: Global, nodes: usize) -> Result<TwoWay, NoMemory>
        requires { nodes ≤ MAX_NODES }
        ensures nodes { IfOk result (λ graph. graph.nodes ≡ nodes) }
        ensures empty { IfOk result (λ graph. (a b : ℕ) → HasEdge graph a b → ⊥) }
    {
        let forward = Digraph::new(alloc, nodes)?;
        let reverse = Digraph::new(alloc, nodes)?;
        Ok(TwoWay { forward, reverse })
    }

    // Adds an edge, if it isn't there.
    pub(crate) fn edge(&mut self, from: usize, to: usize)
        requires from { from < self.old.nodes }
        requires to { to < self.old.nodes }
        ensures nodes { self.new.nodes ≡ self.old.nodes }
        ensures edges { (a b : ℕ) → HasEdge self.new a b ↔ (HasEdge self.old a b ⊎ ((a ≡ from) × (b ≡ to))) }
    {
        self.forward.edge(from, to);
        self.reverse.edge(to, from);
    }

    // How many nodes there are.
    pub(crate) fn nodes(&self) -> usize
        ensures nodes { result ≡ self.now.nodes }
        ensures few { self.now.nodes ≤ MAX_NODES }
    {
        self.forward.nodes()
    }

    // The edges, each once, ascending.
    pub(crate) fn edges(&self) -> Result<Listed<(u16, u16)>, NoMemory>
        ensures each { IfOk result (λ pairs. (a b : ℕ) → Contains pairs (a, b) ↔ HasEdge self.now a b) }
        ensures ascending { IfOk result (λ pairs. ArePairsAscending pairs) }
    {
        self.forward.edges()
    }

    // The first node from `at` on to which an edge leads.
    pub(crate) fn target(&self, from: usize, at: usize) -> Option<usize>
        requires { from < self.now.nodes }
        ensures { MatchOption result ((b : ℕ) → at ≤ b → HasEdge self.now from b → ⊥) (λ to. (at ≤ to) × (to < self.now.nodes) × HasEdge self.now from to × ((b : ℕ) → at ≤ b → b < to → HasEdge self.now from b → ⊥)) }
    {
        self.forward.next(from, at)
    }

    // The first node from `at` on from which an edge leads.
    pub(crate) fn source(&self, to: usize, at: usize) -> Option<usize>
        requires { to < self.now.nodes }
        ensures { MatchOption result ((a : ℕ) → at ≤ a → HasEdge self.now a to → ⊥) (λ from. (at ≤ from) × (from < self.now.nodes) × HasEdge self.now from to × ((a : ℕ) → at ≤ a → a < from → HasEdge self.now a to → ⊥)) }
    {
        self.reverse.next(to, at)
    }
}
