// Classes that wait for their turn.
ghost use Rattle.std.specs.Prelude.{◌≡◌, ◌⊎◌, ◌↔◌, ℕ, ◌≤◌, OnOk, MatchOption};
ghost use Rattle.pac_graph.specs.Turns.{Waits};

use pac_base::NoMemory;
use std::alloc::Global;
use std::collections::BTreeMap;

// Classes by their ranks. No two have one rank.
#[derive(Drop)]
pub(crate) struct Queue {
    classes: BTreeMap<u64, usize>,
}

impl Queue {
    pub(crate) fn new(alloc: Global) -> Queue
        ensures { (rank class : ℕ) → Waits result rank class → ⊥ }
    {
        Queue {
            classes: BTreeMap::new(alloc),
        }
    }

    pub(crate) fn add(&mut self, rank: u64, class: usize) -> Result<(), NoMemory>
        ensures { OnOk result ((r c : ℕ) → Waits self.new r c ↔ (((r ≡ rank) × (c ≡ class)) ⊎ ((r ≡ rank → ⊥) × Waits self.old r c))) }
    {
        self.classes.insert(rank, class)?;
        Ok(())
    }

    // Takes the class of the least rank out.
    pub(crate) fn pop(&mut self) -> Option<(u64, usize)>
        ensures least { MatchOption result ((r c : ℕ) → Waits self.old r c → ⊥) (λ p. Waits self.old p.0 p.1 × ((r c : ℕ) → Waits self.old r c → p.0 ≤ r)) }
        ensures left { MatchOption result ((r c : ℕ) → Waits self.new r c ↔ Waits self.old r c) (λ p. (r c : ℕ) → Waits self.new r c ↔ ((r ≡ p.0 → ⊥) × Waits self.old r c)) }
    {
        self.classes.pop_first()
    }
}
