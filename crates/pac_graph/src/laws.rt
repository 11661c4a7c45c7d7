// What follows from a graph's classes and their numbering. Each law is a function without code.
ghost use Rattle.std.specs.Prelude.{◌≡◌, ℕ, ◌<◌, slice_index};
ghost use Rattle.pac_graph.specs.Graph.{HasEdge, Reach};
ghost use Rattle.pac_graph.specs.Classes.{class_count, AreClasses};
ghost use Rattle.pac_graph.specs.Groups.{AreGroupsOf};
ghost use Rattle.pac_graph.specs.Numbering.{IsClassEdge, IsNumbering};

use crate::{Classes, Digraph, Groups};

/// The graph of classes has no cycle: where an edge leads from a class to another, no way leads back.
pub fn no_cycle(graph: &Digraph, classes: &Classes)
    requires { AreClasses graph.now classes.now }
    ensures { (c d : ℕ) → IsClassEdge graph.now classes.now c d → Reach (IsClassEdge graph.now classes.now) d c → ⊥ }
{}

/// An edge from a class to another leads to a higher number.
pub fn numbers_rise(graph: &Digraph, classes: &Classes, order: &[u64], numbers: &[u16])
    requires classes { AreClasses graph.now classes.now }
    requires numbers { IsNumbering graph.now classes.now order.now numbers.now }
    ensures { (u v : ℕ) → HasEdge graph.now u v → (slice_index classes.now u ≡ slice_index classes.now v → ⊥) → slice_index numbers.now (slice_index classes.now u) < slice_index numbers.now (slice_index classes.now v) }
{}

/// No two classes have one number.
pub fn numbers_differ(graph: &Digraph, classes: &Classes, order: &[u64], numbers: &[u16])
    requires { IsNumbering graph.now classes.now order.now numbers.now }
    ensures { (c d : ℕ) → c < class_count classes.now → d < class_count classes.now → slice_index numbers.now c ≡ slice_index numbers.now d → c ≡ d }
{}

/// There is one numbering.
pub fn one_numbering(
    graph: &Digraph,
    classes: &Classes,
    order: &[u64],
    numbers: &[u16],
    others: &[u16],
)
    requires classes { AreClasses graph.now classes.now }
    requires numbers { IsNumbering graph.now classes.now order.now numbers.now }
    requires others { IsNumbering graph.now classes.now order.now others.now }
    ensures { numbers.now ≡ others.now }
{}

/// A graph has one grouping: the same groups, with the same numbers and the same edges.
pub fn one_grouping(graph: &Digraph, groups: &Groups, others: &Groups)
    requires groups { AreGroupsOf graph.now groups.now }
    requires others { AreGroupsOf graph.now others.now }
    ensures { groups.now ≡ others.now }
{}
