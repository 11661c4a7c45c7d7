// The list of a graph's edges.
ghost use Rattle.std.specs.Prelude.{◌≡◌, ◌↔◌, ℕ, ◌+◌, ◌<◌, Contains, IfOk, OnOk};
ghost use Rattle.pac_graph.specs.Graph.{HasEdge};
ghost use Rattle.pac_graph.specs.Listing.{AreEdgesBelow};

use crate::Digraph;
use pac_base::{Listed, NoMemory, listed};

impl Digraph {
    ghost use Rattle.pac_graph.specs.Groups.{ArePairsAscending};

    /// The edges, each once, ascending.
    ///
    /// # Errors
    ///
    /// [`NoMemory`] where the list finds no room.
    pub fn edges(&self) -> Result<Listed<(u16, u16)>, NoMemory>
        ensures each { IfOk result (λ pairs. (a b : ℕ) → Contains pairs (a, b) ↔ HasEdge self.now a b) }
        ensures ascending { IfOk result (λ pairs. ArePairsAscending pairs) }
    {
        let mut pairs = Vec::new(self.alloc());
        for from in 0..self.nodes() {
            push_edges_from(self, from, &mut pairs)?;
        }
        Ok(listed(pairs))
    }
}

// Adds the edges of a node, after those of the nodes before it.
fn push_edges_from(
    graph: &Digraph,
    from: usize,
    pairs: &mut Vec<(u16, u16)>,
) -> Result<(), NoMemory>
    requires from { from < graph.now.nodes }
    requires before { AreEdgesBelow graph.now pairs.old.items from 0 }
    ensures { OnOk result (AreEdgesBelow graph.now pairs.new.items (from + 1) 0) }
{
    let _few = graph.nodes();
    let mut at = 0;
    while let Some(to) = graph.next(from, at) {
        at = to + 1;
        pairs.push((from as u16, to as u16))?;
    }
    Ok(())
}
