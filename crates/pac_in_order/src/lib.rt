//! A replay in order, by one worker, at the price of serial execution: transactions one after another, of each its pieces in
//! the order of blocks, each piece in place in the tables.
//!
//! - [`InOrder::new`] begins over any tables, with the code of a plan, which replays may share. [`InOrder::load`] takes a batch,
//!   and after [`InOrder::close`] none comes any more.
//! - [`InOrder::run_next`] runs the piece that comes next, and [`InOrder::run`] all that is loaded; each piece passes a gate first.
//!   A piece for which there is no memory is undone alone, and the next call begins it again.
//! - [`InOrder::into_parts`] gives the tables and the first transaction that aborted. [`InOrder::next_txn`] and
//!   [`InOrder::is_closed`] say what may be loaded, and [`InOrder::keeps_invariant`] what holds at every moment.
//! - [`execute_in_order`] executes batches so, and [`execute_feed_in_order`] what a feed gives, one batch after another.
//! - [`execute`] and [`execute_feed`] execute by a number of workers: one in order, several as they are handed pieces by a core.
//!
//! ```
//! let executed = execute_in_order(alloc, code, 1, rows, batches, &OpenGate)?;
//! let count = executed.pieces + executed.drained; // all pieces of the batches
//! let aborted = executed.first_note; // `None`: the tables are those that the transactions leave
//! ```
//!
//! No row is copied but those that a piece writes, no access is computed, nothing is compared, and no lock is taken: a row that
//! is read or put costs one look-up, one that is set or deleted two. A procedure's code is lent to its pieces by the plan. The values
//! of variables are those of the transaction that runs, and a batch is let go once its transactions are finished, so what is kept is
//! what wasn't run yet.
//!
//! A contract sees a `Course` (`specs/Courses.antt`): the job, the batches that were loaded, and the pieces that are finished, in
//! the order in which they ran. They are the first pieces in the order of transactions and blocks, each once. By the laws of
//! `pac_commute` and `pac_lanes` tables and note are at every moment those of the partial replay of what is finished, and at the end
//! those of the transactions in their flat form, one after another. A piece that is undone leaves values that its first operations gave;
//! `proofs/Again.antt` shows that run again it gives the same, since no operation uses or defines again what a later one defines.
#![tactic(auto)]

mod blocks;
mod execution;
mod in_order;
mod line;
mod running;
mod seeking;
mod workers;

pub use execution::{ExecutedInOrder, execute_feed_in_order, execute_in_order};
pub use in_order::{InOrder, Stopped};
pub use workers::{execute, execute_feed};
