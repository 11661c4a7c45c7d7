// What follows from slices. The law is a function without code.
ghost use Rattle.std.specs.Prelude.{◌≡◌};
ghost use Rattle.pac_slice.specs.Slices.{AreSlices};

use crate::LocalGraph;
use pac_ops::Program;

/// A procedure has one local graph: the same slices, with the same numbers and the same edges.
pub fn one_local_graph(program: &Program, graph: &LocalGraph, other: &LocalGraph)
    requires graph { AreSlices program.now.ops graph.now }
    requires other { AreSlices program.now.ops other.now }
    ensures { graph.now ≡ other.now }
{}
