// The graph of a graph's classes.
ghost use Rattle.std.specs.Prelude.{◌≡◌, ◌⊎◌, ◌↔◌, ℕ, ◌<◌, ◌≤◌, length, slice_index, IfOk};
ghost use Rattle.pac_graph.specs.Graph.{HasEdge};
ghost use Rattle.pac_graph.specs.Classes.{class_count, AreClasses};
ghost use Rattle.pac_graph.specs.Numbering.{IsClassEdge};
ghost use Rattle.pac_graph.specs.Condensed.{AreLeastRanks};

use crate::two_way::TwoWay;
use crate::{Classes, Digraph};
use pac_base::NoMemory;
use std::alloc::Global;

// The classes as nodes, with an edge where one leads from a class into another, and the least rank in each class.
#[derive(Drop)]
pub(crate) struct Condensation {
    pub(crate) edges: TwoWay,
    pub(crate) ranks: Vec<u64>,
}

impl Condensation {
    pub(crate) fn new(
        graph: &Digraph,
        classes: &Classes,
        order: &[u64],
    ) -> Result<Condensation, NoMemory>
        requires classes { AreClasses graph.now classes.now }
        requires order { length order.now ≡ graph.now.nodes }
        ensures nodes { IfOk result (λ c. c.edges.nodes ≡ class_count classes.now) }
        ensures edges { IfOk result (λ c. (a b : ℕ) → HasEdge c.edges a b ↔ IsClassEdge graph.now classes.now a b) }
        ensures ranks { IfOk result (λ c. AreLeastRanks classes.now order.now c.ranks.items) }
    {
        let edges = edges_between(graph, classes.items(), classes.count())?;
        let ranks = least_ranks(graph.alloc(), classes, order)?;
        Ok(Condensation { edges, ranks })
    }
}

// The edges between the classes of the nodes, however these are numbered.
pub(crate) fn edges_between(
    graph: &Digraph,
    numbers: &[u16],
    count: usize,
) -> Result<TwoWay, NoMemory>
    requires each { length numbers.now ≡ graph.now.nodes }
    requires below { (u : ℕ) → u < length numbers.now → slice_index numbers.now u < count }
    requires few { count ≤ graph.now.nodes }
    ensures nodes { IfOk result (λ edges. edges.nodes ≡ count) }
    ensures edges { IfOk result (λ edges. (a b : ℕ) → HasEdge edges a b ↔ IsClassEdge graph.now numbers.now a b) }
{
    let nodes = graph.nodes();
    let mut edges = TwoWay::new(graph.alloc(), count)?;
    for from in 0..nodes {
        add_edges_from(graph, numbers, from, &mut edges);
    }
    Ok(edges)
}

// Adds the edges of a node, as edges from its class.
fn add_edges_from(graph: &Digraph, numbers: &[u16], from: usize, edges: &mut TwoWay)
    requires each { length numbers.now ≡ graph.now.nodes }
    requires below { (u : ℕ) → u < length numbers.now → slice_index numbers.now u < edges.old.nodes }
    requires from { from < graph.now.nodes }
    ensures nodes { edges.new.nodes ≡ edges.old.nodes }
    ensures kept { (a b : ℕ) → HasEdge edges.old a b → HasEdge edges.new a b }
    ensures well_formed { (a b : ℕ) → HasEdge edges.new a b → HasEdge edges.old a b ⊎ IsClassEdge graph.now numbers.now a b }
    ensures complete { (v : ℕ) → HasEdge graph.now from v → (slice_index numbers.now from ≡ slice_index numbers.now v → ⊥) → HasEdge edges.new (slice_index numbers.now from) (slice_index numbers.now v) }
{
    let source = usize::from(numbers[from]);
    let mut at = 0;
    while let Some(to) = graph.next(from, at) {
        at = to + 1;
        let target = usize::from(numbers[to]);
        if source != target {
            edges.edge(source, target);
        }
    }
}

// The least rank in each class.
fn least_ranks(alloc: Global, classes: &Classes, order: &[u64]) -> Result<Vec<u64>, NoMemory>
    requires { length order.now ≡ length classes.now }
    ensures { IfOk result (λ ranks. AreLeastRanks classes.now order.now ranks.items) }
{
    let numbers = classes.items();
    let mut ranks = vec![in alloc; u64::MAX; classes.count()]?;
    for node in 0..numbers.len() {
        let class = usize::from(numbers[node]);
        ranks[class] = ranks[class].min(order[node]);
    }
    Ok(ranks)
}
