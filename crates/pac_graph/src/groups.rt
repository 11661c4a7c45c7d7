// The groups of a graph's nodes: its classes as they are numbered, and the edges between them.
ghost use Rattle.std.specs.Prelude.{◌≡◌, ℕ, ◌<◌, length, slice_index, IfOk};
ghost use Rattle.pac_graph.specs.Groups.{AreGroupsOf};

use crate::Digraph;
use crate::condensation::edges_between;
use pac_base::{Listed, NoMemory, listed};
use std::alloc::Global;

/// The groups of a graph's nodes.
#[derive(Debug, Drop)]
pub struct Groups {
    /// The number of each node's group.
    pub numbers: Listed<u16>,
    /// How many groups there are.
    pub count: u16,
    /// The edges between different groups, each once, ascending.
    pub edges: Listed<(u16, u16)>,
}

impl Digraph {
    /// The groups of the nodes: two nodes are in one group exactly where each is reached from the other. A group is
    /// numbered once those with an edge into it are, and of those that are ready the one with the first node is next.
    ///
    /// # Errors
    ///
    /// [`NoMemory`] where the groups, or what finds them, find no room.
    pub fn groups(&self) -> Result<Groups, NoMemory>
        ensures { IfOk result (λ groups. AreGroupsOf self.now groups) }
    {
        let alloc = self.alloc();
        let classes = self.classes()?;
        let ranks = ascending(alloc, self.nodes())?;
        let turns = self.number(&classes, &ranks)?;
        let numbers = renumbered(alloc, classes.items(), &turns)?;
        let between = edges_between(self, &numbers, classes.count())?;
        let edges = between.edges()?;
        Ok(Groups {
            numbers: listed(numbers),
            count: classes.count() as u16,
            edges,
        })
    }
}

// The numbers from 0 on.
fn ascending(alloc: Global, count: usize) -> Result<Vec<u64>, NoMemory>
    ensures length { IfOk result (λ numbers. length numbers.items ≡ count) }
    ensures each { IfOk result (λ numbers. (u : ℕ) → u < count → slice_index numbers.items u ≡ u) }
{
    let mut numbers = Vec::with_capacity(alloc, count)?;
    for number in 0..count {
        numbers.push(number as u64)?;
    }
    Ok(numbers)
}

// The number of each node's class.
fn renumbered(alloc: Global, classes: &[u16], turns: &[u16]) -> Result<Vec<u16>, NoMemory>
    requires { (u : ℕ) → u < length classes.now → slice_index classes.now u < length turns.now }
    ensures length { IfOk result (λ numbers. length numbers.items ≡ length classes.now) }
    ensures each { IfOk result (λ numbers. (u : ℕ) → u < length classes.now → slice_index numbers.items u ≡ slice_index turns.now (slice_index classes.now u)) }
{
    let mut numbers = Vec::with_capacity(alloc, classes.len())?;
    for class in classes {
        numbers.push(turns[usize::from(*class)])?;
    }
    Ok(numbers)
}
