//! The dependencies of one procedure's operations, and its slices: which operations have to keep their order.
//!
//! - [`dependencies`] returns the pairs of operations that depend on each other, [`Deps`]. A flow leads from an
//!   operation that defines a variable to a later one that uses it. A conflict is between two operations on one
//!   table of which at least one modifies it.
//! - [`slices`] returns a [`LocalGraph`]: two operations are in one slice exactly where each reaches the other, by flows
//!   and, in both directions, by conflicts. Its edges are the flows between different slices.
//! - [`add_flow`] adds the flows alone to a graph, for a caller that links operations on tables in its own
//!   way.
//! - [`one_local_graph`] is a law: a function without code whose clause says that a procedure has one local graph.
//!
//! ```
//! use pac_slice::{dependencies, slices};
//!
//! let deps = dependencies(alloc, program)?; // deps.flow and deps.conflict, ascending
//! let graph = slices(alloc, program)?;
//! let slice = graph.slice_of.as_slice().first(); // the slice of operation 0
//! ```
//!
//! A procedure may have at most 256 operations. `pac_ops` defines dependences, `pac_graph` numbered classes;
//! `specs/Slices.antt` says that slices are these. Each pair of operations is tested, so the time grows with the square
//! of their number.
#![tactic(auto)]

mod conflicts;
mod deps;
mod laws;
mod local_graph;

pub use deps::{Deps, add_flow, dependencies};
pub use laws::one_local_graph;
pub use local_graph::{LocalGraph, slices};
