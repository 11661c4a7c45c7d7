//! The order of piece-sets in a replay: which of them may be opened, and which have to wait.
//!
//! A piece-set has the pieces of one batch in one block. It waits for the sets of its batch from whose blocks an edge leads
//! to its own, and for those of its block and earlier batches. A set that waits for no unfinished one is open: its pieces
//! have their inputs, so that the rows which they may touch are known.
//!
//! - [`SetId`]: a set, by the numbers of its batch and its block. Sets are ordered by batch, then by block.
//! - [`Sets`]: the sets of what is loaded, and what is kept of each until it is finished. [`Sets::new`] knows the edges of a
//!   plan, [`Sets::add_all`] adds sets after the others, and [`Sets::finish`] lets go of what is kept of one.
//! - [`Sets::first_open`]: the first open set from an offset on. [`Sets::open_in`]: the open set of a block.
//! - [`Sets::find`], [`Sets::get`], [`Sets::keep`]: where a set stands, what is kept of it, and something else to keep.
//!
//! ```
//! let mut sets = Sets::new(alloc, &plan)?;
//! sets.add_all(vec![in alloc; (SetId { batch: 0, block: 2 }, Some(pieces))]?)?;
//! if let Some(at) = sets.first_open(0) {
//!     let (set, kept) = sets.get(at);
//!     sets.finish(at); // what waited for this set alone is open now
//! }
//! ```
//!
//! `specs/Sets.antt` says which set waits for which, over the edges and the list of sets alone.
#![tactic(auto)]

mod set_id;
mod sets;

pub use set_id::SetId;
pub use sets::{Kept, Sets};
