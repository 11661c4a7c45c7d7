//! Sessions: requests are executed one after another over tables, and cut into groups. No device is known here.
//!
//! - [`Session`]: the tables, and the open group's transactions and replies. [`Session::run`] executes a transaction,
//!   [`Session::answer`] answers another request, [`Session::close`] returns a group and begins the next.
//! - [`Session::reuse`] takes the transactions back once they are stored, and [`Session::spare_args`] gives the room of their
//!   arguments to those of a later call.
//! - [`transaction_of`]: the transaction that a request asks for, or the request itself where it asks for none. [`Measured`]: a
//!   transaction with the length of its entry.
//!
//! ```
//! use pac_session::{Measured, Session};
//!
//! let mut session = Session::new(alloc, cat, rows, 0, 64, 1_000_000); // groups of 64 replies, tables of 1,000,000 rows
//! let txn = Measured::of(txn);
//! if !session.lacks_room(&txn) && !session.is_full() {
//!     session.run(txn)?;
//! }
//! let (txns, replies) = session.close();
//! ```
//!
//! A group ends after a `flush`, a `save` or a `stop`, after as many replies as it may have, and before a transaction
//! whose entry has no room in the group's batch. A transaction that aborts changes nothing but its reply.
//! `specs/Session.antt` says what requests amount to: replies, committed transactions and tables. `specs/Groups.antt`
//! says where they are cut into groups, and what each commits, replies and needs of the log. Both are about whole lists
//! of requests and know no [`Session`]; `specs/Open.antt` connects them with one. [`groups_are_a_cut`]: the groups are
//! the requests in their order. [`a_session_is_serial`]: serial execution of what a session commits gives its tables.
#![tactic(auto)]

mod asked;
mod execute;
mod law;
mod measured;
mod session;

pub use asked::transaction_of;
pub use law::{a_session_is_serial, groups_are_a_cut};
pub use measured::Measured;
pub use session::Session;
