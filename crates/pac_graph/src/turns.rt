// The turns at which classes get their numbers.
ghost use Rattle.std.specs.Prelude.{◌≡◌, ◌⊎◌, ◌↔◌, ℕ, ◌+◌, ◌<◌, length, slice_index, slice_set, IfOk, OnOk, IsTrue};
ghost use Rattle.pac_graph.specs.Graph.{HasEdge};
ghost use Rattle.pac_graph.specs.Numbering.{IsInTurn};
ghost use Rattle.pac_graph.specs.Turns.{Waits, RanksUpTo, AreTurnsOf, IsNextReady, IsQueueOf, IsRankedGraph};

use crate::condensation::Condensation;
use crate::queue::Queue;
use pac_base::NoMemory;
use std::alloc::Global;

// The numbers given so far.
#[derive(Drop)]
pub(crate) struct Turns {
    // of each class its turn, or how many classes there are: no turn comes so late
    pub(crate) numbers: Vec<u16>,
    // of each class, up to where the classes with an edge into it had their turns
    passed: Vec<usize>,
    turn: usize,
}

impl Turns {
    // Gives each class its turn. A class is looked at again when one with an edge into it has had its turn, and then
    // from where it was left on.
    pub(crate) fn run(alloc: Global, graph: &Condensation) -> Result<Turns, NoMemory>
        requires { IsRankedGraph (HasEdge graph.now.edges) graph.now.edges.nodes graph.now.ranks.items }
        ensures { IfOk result (λ turns. IsInTurn (HasEdge graph.now.edges) (RanksUpTo graph.now.ranks.items) graph.now.edges.nodes turns.numbers.items) }
    {
        let mut turns = Turns::new(alloc, graph)?;
        let mut queue = Queue::new(alloc);
        turns.add_all(graph, &mut queue)?;
        while let Some((_, class)) = queue.pop() {
            turns.give(graph, class);
            turns.add_targets(graph, class, &mut queue)?;
        }
        Ok(turns)
    }

    fn new(alloc: Global, graph: &Condensation) -> Result<Turns, NoMemory>
        ensures { IfOk result (λ turns. AreTurnsOf graph.now turns) }
    {
        let count = graph.edges.nodes();
        let numbers = vec![in alloc; count as u16; count]?;
        let passed = vec![in alloc; 0; count]?;
        Ok(Turns {
            numbers,
            passed,
            turn: 0,
        })
    }

    // Whether a class had its turn.
    fn had_turn(&self, class: usize) -> bool
        requires { class < length self.now.numbers.items }
        ensures { IsTrue result ↔ (slice_index self.now.numbers.items class < self.now.turn) }
    {
        usize::from(self.numbers[class]) < self.turn
    }

    // Whether a class is ready.
    fn is_ready(&mut self, graph: &Condensation, class: usize) -> bool
        requires turns { AreTurnsOf graph.now self.old }
        requires class { class < graph.now.edges.nodes }
        ensures turns { AreTurnsOf graph.now self.new }
        ensures numbers { self.new.numbers ≡ self.old.numbers }
        ensures turn { self.new.turn ≡ self.old.turn }
        ensures ready { IsTrue result ↔ IsNextReady graph.now self.old class }
    {
        if self.had_turn(class) {
            return false;
        }
        while let Some(other) = graph.edges.source(class, self.passed[class]) {
            if !self.had_turn(other) {
                self.passed[class] = other;
                return false;
            }
            self.passed[class] = other + 1;
        }
        true
    }

    // Gives the next turn to a class.
    fn give(&mut self, graph: &Condensation, class: usize)
        requires turns { AreTurnsOf graph.now self.old }
        requires class { class < graph.now.edges.nodes }
        requires ready { IsNextReady graph.now self.old class }
        requires least { (other : ℕ) → other < graph.now.edges.nodes → (other ≡ class → ⊥) → IsNextReady graph.now self.old other → RanksUpTo graph.now.ranks.items class other }
        ensures turns { AreTurnsOf graph.now self.new }
        ensures numbers { self.new.numbers.items ≡ slice_set self.old.numbers.items class self.old.turn }
        ensures turn { self.new.turn ≡ self.old.turn + 1 }
    {
        self.numbers[class] = self.turn as u16;
        self.turn += 1;
    }

    // Lets a class wait if it is ready.
    fn add_if_ready(
        &mut self,
        graph: &Condensation,
        class: usize,
        queue: &mut Queue,
    ) -> Result<(), NoMemory>
        requires turns { AreTurnsOf graph.now self.old }
        requires class { class < graph.now.edges.nodes }
        requires ranks { length graph.now.ranks.items ≡ graph.now.edges.nodes }
        ensures turns { AreTurnsOf graph.now self.new }
        ensures numbers { self.new.numbers ≡ self.old.numbers }
        ensures turn { self.new.turn ≡ self.old.turn }
        ensures only { OnOk result ((r c : ℕ) → Waits queue.new r c → Waits queue.old r c ⊎ ((r ≡ slice_index graph.now.ranks.items class) × (c ≡ class) × IsNextReady graph.now self.old class)) }
        ensures kept { OnOk result ((r c : ℕ) → (r ≡ slice_index graph.now.ranks.items class → ⊥) → Waits queue.old r c → Waits queue.new r c) }
        ensures added { OnOk result (IsNextReady graph.now self.old class → Waits queue.new (slice_index graph.now.ranks.items class) class) }
    {
        if self.is_ready(graph, class) {
            queue.add(graph.ranks[class], class)?;
        }
        Ok(())
    }

    // Lets all classes wait that are ready.
    fn add_all(&mut self, graph: &Condensation, queue: &mut Queue) -> Result<(), NoMemory>
        requires turns { AreTurnsOf graph.now self.old }
        requires ordered { IsRankedGraph (HasEdge graph.now.edges) graph.now.edges.nodes graph.now.ranks.items }
        requires empty { (r c : ℕ) → Waits queue.old r c → ⊥ }
        ensures turns { AreTurnsOf graph.now self.new }
        ensures queue { OnOk result (IsQueueOf graph.now self.new queue.new (λ _. ⊥)) }
    {
        for class in 0..graph.edges.nodes() {
            self.add_if_ready(graph, class, queue)?;
        }
        Ok(())
    }

    // Lets the classes wait that are ready now that this one, with an edge into them, had its turn.
    fn add_targets(
        &mut self,
        graph: &Condensation,
        class: usize,
        queue: &mut Queue,
    ) -> Result<(), NoMemory>
        requires turns { AreTurnsOf graph.now self.old }
        requires ordered { IsRankedGraph (HasEdge graph.now.edges) graph.now.edges.nodes graph.now.ranks.items }
        requires class { class < graph.now.edges.nodes }
        requires queue { IsQueueOf graph.now self.old queue.old (HasEdge graph.now.edges class) }
        ensures turns { AreTurnsOf graph.now self.new }
        ensures numbers { self.new.numbers ≡ self.old.numbers }
        ensures queue { OnOk result (IsQueueOf graph.now self.new queue.new (λ _. ⊥)) }
    {
        let mut at = 0;
        while let Some(to) = graph.edges.target(class, at) {
            at = to + 1;
            self.add_if_ready(graph, to, queue)?;
        }
        Ok(())
    }
}
