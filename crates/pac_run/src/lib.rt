//! One run: it opens a store, executes what is stored there, and serves request lines over it.
//!
//! - [`run`]: the whole run, [`open`] and then [`serve`]. [`RunStop`]: why a run stops before its end.
//! - [`open`]: syncs the devices, loads them, executes the stored transactions, and returns the engine over their
//!   tables.
//! - [`serve`]: executes each line of the input in the engine, and writes the replies of a group once it is durable.
//! - [`MAX_INPUT`]: the most bytes of an input.
//!
//! ```
//! use pac_run::run;
//!
//! run(alloc, 64, 1_000_000, input, output, devices)?; // groups of 64 replies, tables of at most 1,000,000 rows
//! ```
//!
//! What a run is, whatever its result, is `IsRun` of `specs/Run.antt`. About the lines that were handled, the requests
//! that these ask and their session it says
//!
//! - (a) that the output is a prefix of the session's replies, and with Ok all of them;
//! - (b) what the devices hold at the exit: what they held, and then the output took nothing; or the history with what the
//!   session commits, and in the log each transaction that was acknowledged; and a read of a slot gives what it gave,
//!   unless a save was asked for;
//! - (c) what a crash at each moment leaves: what was there, or a prefix of the same history;
//! - (d) after which groups' replies a run stops that stops before its end;
//! - (e) that where the output says `saved N`, some slot has a checkpoint of at least N transactions.
//!
//! `specs/Asked.antt` says what the lines of an input ask, `specs/Acked.antt` what an output acknowledges,
//! `specs/Opening.antt` what an engine over a store begins with, `specs/Stopping.antt` where a run stops, and
//! `specs/Serving.antt` what is kept from one line to the next.
#![tactic(auto)]

mod command;
mod limits;
mod opening;
mod serially;
mod serving;
mod stop;
mod text;

pub use command::run;
pub use limits::MAX_INPUT;
pub use opening::open;
pub use serving::serve;
pub use stop::RunStop;
