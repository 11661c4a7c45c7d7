//! The typed catalogue: tables and procedures whose names are resolved to numbers, and what they mean.
//!
//! - [`read_catalogue`]: the [`Catalogue`] of a text, or its first [`CatalogueFault`]. [`check`]: that of a tree, or
//!   its first [`TypeFault`].
//! - [`Table`], [`Column`]: a table's name, the type of its key, and its columns. [`Proc`], [`Stmt`]: a procedure's
//!   name, its parameters and its statements. [`count_operations`]: how many operations these are, those of every turn
//!   of a loop among them, up to a [million](MAX_COUNT).
//!
//! ```
//! use pac_types::read_catalogue;
//!
//! let cat = read_catalogue(alloc, b"table T(key int, v int); proc P(v int) { put T[1] = (v); }")?;
//! let table = cat.table_named(b"T"); // Some(0)
//! let none = cat.proc_named(b"Q"); // None
//! ```
//!
//! A text that has a catalogue is read as it, and no other; a fault is the first of the text or else of its names and
//! types; but for out of memory (`ok`, `only`, `fault`, `one`). A [`Catalogue`] is well-formed by its type: at most 64
//! tables and 64 procedures; 1 to 8 columns and at most 16 parameters, of ints and texts; each expression has the type
//! that its position requires; each variable is defined once, in the order of the text, from the number of parameters
//! on.
//!
//! - `specs/Faults.antt` says which faults a tree has, by the rules of scope and type and without an order of search.
//!   `specs/Typing.antt` says which catalogue a tree has, by the numbers of `specs/Numbering.antt` and the types of
//!   `specs/WellFormed.antt`. A tree has a catalogue exactly where it has no fault.
//! - `specs/Unrolled.antt` says which steps statements are, by recursion on the tree: a loop is its block repeated for
//!   each number, with operations and variables of its own. Where there is no loop they are what is written
//!   ([`procedures_without_loops_are_as_written`]). `specs/Meaning.antt` says what steps, and so procedures, do: the serial
//!   meaning.
//!   `specs/Execution.antt` says what transactions mean, one after another, and which table is over a limit;
//!   `specs/Fits.antt` which rows and transactions fit a catalogue. Every execution is held to these.
//! - `specs/OperationLimits.antt` says how many operations procedures may have; no call of this crate tests it.
//!
//! `specs/Checking.antt` is the checker as a function, from left to right up to the first fault that it meets; the code
//! is held to it. `proofs/FirstLemmas.antt` and `proofs/TypingLemmas.antt` show that it meets the first fault of the
//! definition and finds the tree's catalogue.
#![tactic(auto)]

mod catalogue;
mod checker;
mod count;
mod laws;
mod names;
mod procedure;
mod statement;
mod table;
mod text;
mod type_error;

pub use catalogue::Catalogue;
pub use checker::check;
pub use count::{MAX_COUNT, count_operations};
pub use laws::procedures_without_loops_are_as_written;
pub use procedure::Proc;
pub use statement::{Exprs, Stmt, Stmts};
pub use table::{Column, Columns, Table};
pub use text::{CatalogueError, CatalogueFault, read_catalogue};
pub use type_error::{TypeError, TypeFault, TypeFaultKind};
