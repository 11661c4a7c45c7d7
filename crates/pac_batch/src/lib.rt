//! Which pieces a batch has, and which of them have to wait for which.
//!
//! - [`sets`]: the pieces of a batch, block by block, each a [`PieceSet`].
//! - [`queue_preds`]: the pairs of accesses that are next to each other. They are at most twice as many as accesses and touches,
//!   and suffice: accesses that conflict are joined by a chain of them.
//! - [`preds`]: all pairs of accesses that conflict. Their number may grow with the square of that of the accesses.
//!
//! ```
//! let sets = sets(alloc, &code, &batch)?; // code: the PlanCode of a plan
//! let pairs = queue_preds(alloc, &accesses)?; // of the pieces of one set, in order
//! ```
//!
//! Two accesses conflict where one of them is whole, or where both touch the row at one key and one of the two modifies it.
//! They are next to each other where they stand in one queue, one of them modifies, and none between them in that queue does: each
//! row has a queue of the accesses that touch it, and the block has one of all, which the whole ones modify.
//!
//! [`one_list`] and [`pairs_suffice`] are laws: functions without code, whose clauses say what holds of all lists of next pairs.
#![tactic(auto)]

mod conflict;
mod laws;
mod next_pairs;
mod pairs;
mod piece_set;
mod queues;

pub use laws::{one_list, pairs_suffice};
pub use next_pairs::queue_preds;
pub use pairs::preds;
pub use piece_set::{PieceSet, sets};
