//! The work of a piece: apart from all that other pieces do, over its inputs and copies of the rows that it may touch, on the
//! spot, over the tables as they stand, or in place, in the tables themselves.
//!
//! - [`Work`]: a piece, its code, its inputs and its copies of rows.
//! - [`run`]: does the work. It requires that the work is that of a piece of a plan (`IsRunnable`), and fails only where it
//!   is out of memory; then the work comes back.
//! - [`Done`]: work with its value, which it keeps by its type: the rows that it wrote, the variables that it gave values,
//!   and its least note. [`Done::into_parts`] gives these out, and [`Done::into_work`] the work alone.
//! - [`run_on`]: runs a piece over tables as they stand, on the spot. It gives a [`PieceOutcome`]: the rows that it wrote, all
//!   values at its end, and its least note. Its writes are in tables that are there, so that they can be made.
//! - [`InPlace`]: tables with the values of the transaction that runs and the least note so far. [`InPlace::begin`] begins a
//!   transaction, and [`InPlace::run`] runs a piece of it: what it writes stands in the tables at once, with one look-up for a row that
//!   is read or put, and two for one that is set or deleted. Out of memory the piece is undone, and nothing else; undoing takes no
//!   memory, since a row that a piece deletes stands until its end. [`in_place_is_apply`] is the law that this is the piece applied.
//! - [`is_value`] and [`work_means_piece`] are laws: functions that do nothing, whose clauses say what holds of work that is
//!   done, and that its value is what the piece means in its plan. With the law `work` of `pac_commute` this is the piece
//!   applied to the state, once writes and values are put in.
//!
//! [`arguments_run`] is a law too: in a block to which no edge leads, work with the arguments and with copies of rows that
//! [fit](rows_fit) can be run; [`arguments_run_on`] says the same of tables whose rows fit. [`code_means_piece`] says what code
//! leaves over any rows, and that it is the same over the tables and over copies of the rows of its access, whatever values there are
//! of variables that it doesn't use. [`gives_as_meant`] says which variables it gives values, and which values these are.
//!
//! ```
//! let work = Work { piece, code, env, rows };
//! match run(alloc, work) {
//!     Ok(done) => {
//!         let (work, writes, outs, note) = done.into_parts();
//!         finish(work, writes, outs, note)
//!     }
//!     Err((work, NoMemory)) => give_back(work),
//! }
//! ```
//!
//! Operations run in their order, and each sees the rows that those before it wrote. One whose conditions don't all hold does
//! nothing. One that would abort gives its variable the default of its type and leaves a note. The type is plain from the
//! operation, so that no types of variables are at hand: an operator of arithmetic gives an int, any other a bool.
//! `specs/Frames.antt` says what operations leave in these words, `specs/Values.antt` what the value of work is, and
//! `specs/InPlace.antt` what a piece makes of the tables in place.
#![tactic(auto)]

mod changes;
mod effects;
mod failed;
mod frame;
mod ground;
mod in_place;
mod laws;
mod on_tables;
mod rows;
mod run_all;
mod run_here;
mod run_op;
mod source;
mod work;

pub use in_place::InPlace;
pub use laws::{
    arguments_run, arguments_run_on, code_means_piece, gives_as_meant, in_place_is_apply,
    work_means_piece,
};
pub use on_tables::{PieceOutcome, run_on};
pub use rows::rows_fit;
pub use work::{Done, Work, is_value, run};
