//! Workers: threads that share a replay under a lock, and finish it together.
//!
//! - [`Machine`]: what is replayed. Its pieces are taken under the lock, run outside it by the worker that took them, and handed
//!   in under it. The trait asks only for what workers need, so that any order of pieces may stand behind it.
//! - [`replay`]: finishes a machine by a number of workers, and returns it as [`Replayed`], with the number of pieces that each
//!   worker finished and the number of those that were left by all.
//! - [`replay_feed`]: the same while the caller's thread loads into it what a [`Feed`] gives. A machine that can be loaded is one
//!   that [`Loads`]. A feed says which batches it gave so far; it may keep them as a [`GhostList`], which has no bytes.
//!
//! ```
//! use pac_ops::OpenGate;
//! use pac_workers::replay;
//!
//! let replayed = replay(rt, alloc, 4, machine, &OpenGate)?;
//! let machine = replayed.machine; // each piece is finished
//! ```
//!
//! Whatever the order in which workers get the lock, the machine that comes back is closed and finished, has the job of the one that
//! was lent with the batches that a feed gave, and the tallies and what was drained add up to what was unfinished and to the pieces of
//! these batches. None of this is checked at run time. What lies under the lock keeps by its type that its machine has the
//! job which a twin beside it shows, and that what was finished of it is in a ledger, of which each tally has a part. The other twin
//! is in the hands of the caller, who alone loads; and the ledger is that of this very call.
//!
//! That is all that is proved of threads. That several of them run, that each gets on, and that a wake-up comes are not; tests show
//! it. A machine should see to two things for it: where it is closed and no piece is out, it is done or a piece is ready; and
//! it refuses no result of a piece that it handed out.
//!
//! How workers go about it:
//!
//! - One worker without others runs a piece in each hold of the lock. Nothing is handed out to it, and it passes the gate with each
//!   piece.
//! - With others, a worker hands in what it ran in one hold of the lock, and takes what comes next: up to 64 pieces, as long as what
//!   it has weighs less than half of an equal share of what is ready, and than 1,024; and it leaves a piece for each other worker. It runs them
//!   outside the lock. A piece that is run on the spot doesn't pass the gate.
//! - A worker rests where no piece is ready. One that has run a piece rests too where what is ready isn't worth a wake-up,
//!   while another worker is active: handing light pieces from thread to thread costs more than running them.
//! - A worker that took something wakes one that rests, if what is still ready is worth it: if it weighs 64 or more. One that ends
//!   wakes all.
//! - A worker ends where all is finished. It ends too where there is no memory for a piece, or a result is refused: then it gives
//!   back what it has, and counts nothing for it. What all workers leave is drained by the caller's thread.
#![tactic(auto)]

mod feed;
mod feeding;
mod ghost_list;
mod guarded;
mod hand;
mod machine;
mod tally;
mod threads;
mod twins;
mod worker;

pub use feed::Feed;
pub use ghost_list::GhostList;
pub use machine::{Loads, Machine, Ready, Taken};
pub use threads::{Replayed, replay, replay_feed};
