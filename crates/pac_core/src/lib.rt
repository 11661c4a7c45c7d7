//! The state of a replay: batches are loaded, and their pieces are handed out, run elsewhere on copies of rows, and
//! finished, in any order that the plan allows.
//!
//! - [`Core::new`] makes a core over any tables. It copies none of them: of each row that a replay changes it keeps how the
//!   row stood first. [`Core::load`] takes a batch, and after [`Core::close`] none comes any more. [`Core::fits`] tests whether
//!   a batch may be loaded.
//! - [`Core::take`] hands out the work of the ready piece that comes first by batch, block and transaction, or runs it where
//!   it may touch any row of its block. [`Core::finish`] takes the result, [`Core::give_back`] the work undone, and
//!   [`Core::reclaim`] or [`Core::take_back`] all that is out. A result is refused as foreign where its work isn't what the core
//!   would hand out for a piece that is out. The work that a take gave is, until its piece is finished or put back.
//! - [`Core::coming`] says which piece comes next, and [`Core::run_next`] runs it over the tables, with nothing handed out. While
//!   no piece of a set was handed out, its pieces come in their order, and nothing is computed of what each may touch.
//!   [`Core::drain`] runs all that is left so, and [`Core::outcome`] gives the tables, and the first transaction that aborted.
//! - [`Core::load_all`] loads batches one after another. [`Core::ready`] is an estimate of what a take may find ready, and
//!   no clause says so. [`Core::keeps_invariant`] says what holds at every moment.
//! - [`Core::next_txn`], [`Core::is_closed`], [`Core::is_finished`], [`Core::unfinished`] and [`Core::pairs`] say how far it
//!   is. [`Core::job`] copies what tells its job, and [`Core::from_job`] begins that anew.
//! - [`execute`] executes batches of transactions over tables by a number of workers: a core is a machine of `pac_workers`.
//!   [`execute_feed`] does so with what a feed gives.
//!
//! ```
//! let mut core = Core::new(alloc, plan, 1, rows)?;
//! core.load(batch)?;
//! core.close();
//! while let Take::Given(work) = core.take()? {
//!     match run(alloc, work) {
//!         Ok(done) => {
//!             core.finish(done); // `Kept`, or the result comes back
//!         }
//!         Err((work, NoMemory)) => core.give_back(work),
//!     }
//! }
//! core.take_back(); // what found no room
//! core.drain()?; // what is ready later
//! let Outcome { tables, first_note } = core.outcome();
//! ```
//!
//! A contract sees a core as a `Replay` (`specs/Replay.antt`): its job, the loaded batches, and which of their pieces are
//! out and which are finished. `specs/Calls.antt` says what each call answers and makes of it. The tables and values of now
//! are those of the finished pieces, applied in the order of transactions, by the laws of `pac_commute`; so the outcome is
//! that of the transactions in their flat form, one after another. Where no transaction aborted, that is what executing them
//! leaves.
#![tactic(auto)]

mod alone;
mod answers;
mod cells;
mod events;
mod execution;
mod fitting;
mod job;
mod kept_values;
mod loaded;
mod loading;
mod machine;
mod moves;
mod opening;
mod passing;
mod place;
mod progress;
mod reclaiming;
mod replay;
mod stage;
mod values;
mod weighing;
mod work;

pub use answers::{Finish, Outcome, ReadyPieces, Take};
pub use execution::{Executed, execute, execute_feed};
pub use job::Job;
pub use replay::Core;
