// The classes of a graph's nodes.
ghost use Rattle.std.specs.Prelude.{◌≡◌, ℕ, ◌^◌, ◌<◌, ◌≤◌, length, slice_index, IfOk};
ghost use Rattle.pac_graph.specs.declared.search.Mark.TheVariants.{Done};
ghost use Rattle.pac_graph.specs.Search.{mark_of};

use crate::Digraph;
use crate::search::{Mark, Search};
use pac_base::NoMemory;
use std::alloc::Global;
use std::marker::Model;

/// The class of each node of a graph. Classes are numbered from 0.
#[derive(Drop)]
pub struct Classes {
    numbers: Vec<u16>,
    count: usize,
}

impl Model for Classes {
    ghost use Rattle.std.specs.Prelude.{ℕ, List};
    ghost use Rattle.pac_graph.specs.Classes.{IsClassCount};

    ghost Value = { List ℕ };

    ghost view = { λ classes. classes.numbers.items };

    ghost invariant = { λ classes. IsClassCount classes.numbers.items classes.count };
}

impl Classes {
    ghost use Rattle.pac_graph.specs.Classes.{class_count, HaveNodes};

    /// The class of each node.
    pub fn items(&self) -> &[u16]
        ensures { result.now ≡ self.now }
    {
        &self.numbers
    }

    /// How many classes there are, which is no more than there are nodes. Each has a node.
    pub fn count(&self) -> usize
        ensures count { result ≡ class_count self.now }
        ensures used { HaveNodes self.now (class_count self.now) }
        ensures few { class_count self.now ≤ length self.now }
    {
        self.count
    }
}

impl Digraph {
    ghost use Rattle.pac_graph.specs.Classes.{AreClasses};

    /// The classes of the nodes: two nodes are of one class exactly where each is reached from the other.
    ///
    /// It takes time linear in the nodes' rows and in the edges.
    ///
    /// # Errors
    ///
    /// [`NoMemory`] where the classes, or what finds them, find no room.
    pub fn classes(&self) -> Result<Classes, NoMemory>
        ensures { IfOk result (λ classes. AreClasses self.now classes) }
    {
        let search = Search::run(self)?;
        let numbers = class_numbers(self.alloc(), &search.marks)?;
        Ok(Classes {
            numbers,
            count: search.count,
        })
    }
}

// The classes of nodes that are all done.
fn class_numbers(alloc: Global, marks: &[Mark]) -> Result<Vec<u16>, NoMemory>
    requires done { (u : ℕ) → u < length marks.now → (c : ℕ) × (mark_of marks.now u ≡ Done c) }
    requires fits { (u c : ℕ) → mark_of marks.now u ≡ Done c → c < 2 ^ 16 }
    ensures length { IfOk result (λ numbers. length numbers.items ≡ length marks.now) }
    ensures number { IfOk result (λ numbers. (u c : ℕ) → mark_of marks.now u ≡ Done c → slice_index numbers.items u ≡ c) }
{
    let mut numbers = Vec::with_capacity(alloc, marks.len())?;
    for mark in marks {
        if let Mark::Done(class) = *mark {
            numbers.push(class as u16)?;
        }
    }
    Ok(numbers)
}
