//! The plan of a catalogue: the programs of its procedures, and the blocks in which their operations are replayed.
//!
//! - [`Plan::new`] makes a plan of its [`PlanParts`]. It requires that the parts are those of the analysis, and every
//!   plan keeps that by its type. A contract sees a plan as its parts.
//! - [`Plan::program`], [`Plan::table_types`], [`Plan::block_of`], [`Plan::home_of`], [`Plan::blocks`],
//!   [`Plan::has_edge`], [`Plan::is_entry`], [`Plan::edges`], [`Plan::procs`] and [`Plan::tables`] return the parts. [`Plan::fits`],
//!   [`Plan::fits_all`] and [`Plan::row_fits`] test whether transactions and rows are of the plan.
//! - [`is_plan`], [`keeps_order`] and [`one_plan`] are laws: functions that do nothing, whose clauses say what holds of
//!   every plan, and that programs and tables have one.
//!   What uses a variable is in the block of the operation that defines it or in one that an edge leads to; an edge
//!   leads to a higher number; each operation on a table is in the table's home block.
//!
//! ```
//! let block = plan.block_of(0, 2); // of operation 2 of procedure 0
//! let waits = plan.blocks() > 1 && plan.has_edge(0, 1); // whether block 1 uses what block 0 defines
//! ```
//!
//! `specs/Nodes.antt` says what depends on what over all procedures: flows within a procedure, and conflicts on a table,
//! which has a virtual write for ad hoc transactions. `specs/Analysis.antt` says which blocks these make:
//! two nodes are in one block exactly where each reaches the other. `specs/WellFormed.antt` says what a replay needs of
//! them. The definitions say nothing of how blocks are found.
//!
//! `specs/Pieces.antt` says what a piece is, which rows it may touch, which pieces conflict and which has to wait for
//! which, over any world of code and blocks. `specs/Worlds.antt` makes the world of a plan and of numbered transactions.
//! `specs/Codes.antt` says which code a transaction has in a block, when a transaction fits a plan, and when an environment has
//! the inputs of a piece. What crates pass on of pieces is declared here:
//!
//! - [`Access`]: the rows that a piece may touch, each a [`Touch`], or its block whole.
//! - [`Code`]: what a piece runs, [`NumberedOps`] or records. [`Shared`]: a value with several owners, as code is.
//! - [`Preds`]: pairs of an earlier position and a later one that has to wait for it.
//!
//! [`pieces_stay_fit`], [`arguments_are_inputs`] and [`next_pairs`] are laws: functions without code, whose clauses say what holds of all pieces.
#![tactic(auto)]

mod access;
mod code;
mod fits;
mod laws;
mod parts;
mod plan;
mod preds;
mod shared;

pub use access::{Access, Touch, Touches};
pub use code::{Code, NumberedOps};
pub use laws::{arguments_are_inputs, is_plan, keeps_order, next_pairs, one_plan, pieces_stay_fit};
pub use parts::{BlocksOf, PlanParts};
pub use plan::Plan;
pub use preds::Preds;
pub use shared::Shared;
