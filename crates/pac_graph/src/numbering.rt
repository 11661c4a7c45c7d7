// The numbering of a graph's classes.
ghost use Rattle.std.specs.Prelude.{◌≡◌, ℕ, ◌<◌, length, slice_index, IfOk};
ghost use Rattle.pac_graph.specs.Classes.{AreClasses};
ghost use Rattle.pac_graph.specs.Numbering.{IsNumbering};

use crate::condensation::Condensation;
use crate::turns::Turns;
use crate::{Classes, Digraph};
use pac_base::NoMemory;

impl Digraph {
    /// The number of each class, from 0 on: one number a class, so that of a node is the one of its class. A class is
    /// numbered once those with an edge into it are, and of the classes that are ready the one with the node of least
    /// rank is next. `order` is the rank of each node.
    ///
    /// It takes time linear in the rows of nodes and classes and in the edges, but for the classes that wait: these are
    /// kept in order of rank.
    ///
    /// # Errors
    ///
    /// [`NoMemory`] where the numbers, or what finds them, find no room.
    pub fn number(&self, classes: &Classes, order: &[u64]) -> Result<Vec<u16>, NoMemory>
        requires classes { AreClasses self.now classes.now }
        requires order { length order.now ≡ self.now.nodes }
        requires different { (u v : ℕ) → u < self.now.nodes → v < self.now.nodes → slice_index order.now u ≡ slice_index order.now v → u ≡ v }
        ensures { IfOk result (λ numbers. IsNumbering self.now classes.now order.now numbers.items) }
    {
        let graph = Condensation::new(self, classes, order)?;
        let turns = Turns::run(self.alloc(), &graph)?;
        Ok(turns.numbers)
    }
}
