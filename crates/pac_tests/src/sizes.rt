// The largest graph.
use pac_base::NoMemory;
use pac_graph::{Digraph, MAX_NODES};
use std::alloc::{AllocError, Global};
use std::test::Fail;

// Adds an edge between two of the nodes.
fn add(graph: &mut Digraph, from: usize, to: usize) {
    if from < graph.nodes() && to < graph.nodes() {
        graph.edge(from, to);
    }
}

// Adds an edge from each node to the next one.
fn add_chain(graph: &mut Digraph) {
    for node in 1..MAX_NODES {
        add(graph, node - 1, node);
    }
}

// How many groups there are, and the number of the last node's.
fn groups_of(graph: &Digraph) -> Result<(u16, Option<u16>), NoMemory> {
    let groups = graph.groups()?;
    Ok((groups.count, groups.numbers.as_slice().last().copied()))
}

#[test]
fn the_most_nodes_are_as_many_groups_or_one(rt: HostRuntime) -> Result<(), Fail> {
    let mut graph = Digraph::new(rt.alloc(), MAX_NODES)?;
    add_chain(&mut graph);
    assert_eq!(rt; groups_of(&graph)?, (4_160, Some(4_159)));
    add(&mut graph, MAX_NODES - 1, 0);
    assert_eq!(rt; groups_of(&graph)?, (1, Some(0)));
    Ok(())
}
