//! Which piece comes next: pieces that are opened, handed out and finished, each only after those that it waits for.
//!
//! A [`Sched`] has pieces in the order of their opening, and pairs of an earlier piece and of a later one that waits for it. A
//! piece is ready where it is neither out nor finished and each piece that it waits for is finished.
//!
//! - [`Sched::open_set`] opens pieces with their pairs. It takes the memory for all that follows.
//! - [`Sched::take`] hands out the first ready piece. [`Sched::finish`], [`Sched::give_back`] and [`Sched::reclaim`] say what
//!   became of the pieces that are out. None of them takes memory.
//! - [`Sched::state`] says how far a piece is, and [`Sched::ready`], [`Sched::out`], [`Sched::unfinished`] and [`Sched::pairs`]
//!   are numbers.
//!
//! ```
//! use pac_ops::PieceId;
//! use pac_plan::Preds;
//! use pac_sched::{Pick, Sched};
//!
//! let pieces = [PieceId { txn: 1, block: 0 }, PieceId { txn: 2, block: 0 }];
//! let mut pairs = Vec::new(alloc);
//! pairs.push((0_u32, 1_u32))?; // the second waits for the first
//! let mut sched = Sched::new(alloc);
//! sched.open_set(&pieces, &Preds::new(pairs))?;
//! let first = sched.take(); // Pick::Piece(pieces[0])
//! let none = sched.take(); // Pick::NotReady
//! sched.finish(pieces[0]);
//! let second = sched.take(); // Pick::Piece(pieces[1])
//! ```
//!
//! [`pieces_come_once`] and [`takes_are_exact`] are laws: functions without code. Their clauses say of all calls, one after another,
//! that a piece is handed out only while it is ready, again only after it was given back, and never once it is finished; and of
//! takes, which piece comes and exactly when none does.
//!
//! `specs/Schedules.antt` says what a schedule is, and what is ready in it, in terms of pieces, pairs and states alone.
#![tactic(auto)]

mod followers;
mod laws;
mod opening;
mod positions;
mod ready_set;
mod sched;
mod state;

pub use laws::{pieces_come_once, takes_are_exact};
pub use sched::Sched;
pub use state::{Pick, PieceState};
