//! Hands out pieces that wait for one another without a lock: each piece has a word that counts down what it waits for.
//!
//! - [`Countdown::new`]: a countdown of up to 1,024 pieces, of which pairs say which has to wait for which, and the opener's
//!   [`Pass`]. A pass is the right to take steps; a thread needs one of its own.
//! - [`Countdown::open_next`] opens a piece, and [`Countdown::count`] counts a pair of a piece that the pass was handed. Each
//!   takes 1 from one word. Who leaves 0 is handed the piece. [`Countdown::left`] reads a word.
//! - [`Countdown::split`] lends some of the pieces that were handed out to a new pass, and [`Countdown::join`] takes its lists back.
//!   [`Countdown::is_whole`] tells whether all are back, and then [`Countdown::end`] ends the countdown.
//! - [`hand_out`] does all this with a number of threads, and returns the pieces that each was handed, a [`Share`] each.
//!
//! ```
//! use pac_countdown::hand_out;
//! use pac_plan::Preds;
//!
//! let mut pairs = Vec::new(alloc);
//! pairs.push((0, 2))?; // piece 2 waits for piece 0
//! let shares = hand_out(rt, alloc, 4, &Preds::new(pairs), 3)?; // three pieces, four workers
//! ```
//!
//! What may be rested on: `specs/Counted.antt` is the rule of a countdown. It holds at first, and each step of each thread keeps
//! it, so it holds between any two steps. The clauses of the calls say so: where the rule holds and the deeds of the pass are what
//! they are, it holds again with the new word and the new deeds. [`Countdown::rule_says`] is what follows for the pieces: each goes to
//! one pass, and only after each pair to it was counted by a pass that was handed the earlier piece. The lists of [`hand_out`] have
//! each piece once over all, and in each list no piece stands before one that it waits for.
//!
//! What is not promised: an order between two lists, that a thread gets on, or that two threads ran at all.
//!
//! No command uses this crate. It stands for itself, beside the replay, whose pieces are handed out under a lock.
#![tactic(auto)]

mod countdown;
mod deeds;
mod laters;
mod pass;
mod plays;
mod scoped;
#[cfg(test)]
mod tests;
mod work;
mod worker;
mod workers;

pub use countdown::{Countdown, CountedRule};
pub use deeds::{Agenda, Deeds, PassKind};
pub use pass::{Handed, Pass};
pub use workers::{Share, hand_out};
