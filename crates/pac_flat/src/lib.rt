//! The flat form of procedures, for analysis and replay: the operations of a procedure in one list, without names,
//! branches and loops, each with the conditions under which it has an effect.
//!
//! - [`flatten`]: the [`Program`](pac_ops::Program) of each procedure of a catalogue, or the first procedure at which
//!   operations are [too many](TooManyOps): more than 256 of its own, or more than 4,096 up to its end.
//! - [`test_operations`]: whether they are few enough, without memory.
//! - [`accepted`]: the catalogue of a text, where a database takes it, or why it doesn't, an [`AcceptFault`].
//!   [`excess_fault`] is too many operations as such a fault.
//!
//! ```
//! use pac_flat::flatten;
//! use pac_types::read_catalogue;
//!
//! let cat = read_catalogue(alloc, b"table T(key int, v int); proc P() { if true { delete T[1]; } }")?;
//! let programs = flatten(alloc, &cat)?; // one program of two operations: the test, and the delete under it
//! ```
//!
//! `specs/FlatForm.antt` says which operations these are, by recursion on the steps of a procedure, where its loops are
//! unrolled. `specs/Agreement.antt` says that nothing is lost: a call of a program ends in the state that the procedure
//! means, and leaves no note; or its first note is the procedure's abort (`means`). The same holds for transactions one
//! after another (`replays`). An operation and a variable have the numbers that they have in the meaning; the test of a
//! conditional is an operation that defines its hidden variable.
#![tactic(auto)]

mod acceptance;
mod block;
mod catalogue;
mod point;
mod program;
mod variables;

pub use acceptance::{AcceptError, AcceptFault, accepted, excess_fault};
pub use catalogue::{FlatError, TooManyOps, flatten, test_operations};
