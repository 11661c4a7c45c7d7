//! Directed graphs of up to [`MAX_NODES`] nodes: strongly connected components, here called classes, and their
//! numbering. The crate knows nothing of operations; a node is a number from 0.
//!
//! - [`Digraph::new`] makes nodes, [`Digraph::edge`] adds an edge, [`Digraph::edges`] lists them, each once and
//!   ascending.
//! - [`Digraph::classes`] returns the class of each node: two nodes have one class exactly where each reaches the
//!   other.
//! - [`Digraph::number`] numbers the classes by the ranks of their nodes: among the classes whose predecessors are all
//!   numbered, the one with the node of least rank is next.
//! - [`Digraph::groups`] does both where a node's rank is its number; [`Groups`] has the edges between classes too.
//! - [`no_cycle`], [`numbers_rise`], [`numbers_differ`], [`one_numbering`] and [`one_grouping`] are laws: functions
//!   without code whose clauses say that no path leads back between two classes, that edges lead to higher numbers, that
//!   two classes have two numbers, that a graph and ranks have one numbering, and that a graph has one grouping.
//!
//! ```
//! use pac_graph::Digraph;
//!
//! let mut graph = Digraph::new(alloc, 3)?;
//! graph.edge(0, 1);
//! graph.edge(1, 0);
//! graph.edge(1, 2);
//! let groups = graph.groups()?; // numbers 0, 0, 1; two classes; the edge from 0 to 1
//! ```
//!
//! `specs/Graph.antt` says what an edge is and what is reached, `specs/Classes.antt` what classes are,
//! `specs/Numbering.antt` how they are numbered, and `specs/Groups.antt` says the same of nodes of any kind. A graph of
//! n nodes is n rows of n bits. Finding the classes and numbering them each scan every row once. The search is
//! recursive, to a depth of at most n.
#![tactic(auto)]

mod classes;
mod condensation;
mod digraph;
mod groups;
mod laws;
mod limits;
mod listing;
mod matrix;
mod numbering;
mod queue;
mod search;
mod turns;
mod two_way;

pub use classes::Classes;
pub use digraph::Digraph;
pub use groups::Groups;
pub use laws::{no_cycle, numbers_differ, numbers_rise, one_grouping, one_numbering};
pub use limits::MAX_NODES;
