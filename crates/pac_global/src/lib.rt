//! The blocks of a catalogue: which operations of all its procedures have to be replayed together.
//!
//! - [`catalogue_plan`]: the [`Plan`](pac_plan::Plan) of a catalogue with few operations.
//! - [`global`]: the same of a catalogue and the programs of its procedures, for a caller that has them.
//!
//! `pac_plan` defines blocks: two operations are in one block exactly where each reaches the other, by flows and, in
//! both directions, by conflicts. A catalogue has one plan ([`one_plan`](pac_plan::one_plan)).
//!
//! ```
//! use pac_global::catalogue_plan;
//!
//! let plan = catalogue_plan(alloc, cat)?;
//! let blocks = plan.blocks();
//! ```
//!
//! `global` requires at most 64 well-formed programs with at most 4,096 operations together; those of
//! [`flatten`](pac_flat::flatten) are such. An edge leads to a higher number (`rises`), so no path leads back
//! (`acyclic`).
//!
//! The operations on one table may all conflict with one another: sixteen million pairs for 4,096 operations. The graph
//! that is searched has none of them: each operation is linked in both directions with the virtual write of its table,
//! which reaches the same nodes. `specs/Drawing.antt` says which graph it is.
#![tactic(auto)]

mod blocks;
mod catalogue;
mod draw;
mod plan;

pub use catalogue::catalogue_plan;
pub use plan::global;
