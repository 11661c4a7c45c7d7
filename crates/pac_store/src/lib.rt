//! A store on four devices: two for the segments of the log of a catalogue, and two slots for checkpoints. It is made here; a
//! checkpoint and the segment that it begins are written here; and here stands what the devices hold, in definitions that their
//! writers and their readers cite, and laws over them.
//!
//! - [`make_store`] makes one on four empty devices, without a transaction and without a checkpoint, or returns a
//!   [`MakeError`], for instance the first device that isn't empty, a [`DeviceName`].
//! - [`write_checkpoint`] publishes a checkpoint, and begins the segment of the log that comes after it.
//!
//! ```
//! use pac_store::make_store;
//!
//! make_store(alloc, b"table T(key int, v int);", devices)?;
//! ```
//!
//! The text has to have a catalogue within the limits on operations. After Ok a crash leaves exactly the header with
//! the text and a closed gate byte in the log, and the byte 0 in each slot; the second log device isn't written (`made`).
//! `NotEmpty` has the first device with bytes and their number, and nothing was written.
//!
//! The newest slot names the device of the *active* segment: the log that is read and written. The other log device counts for
//! nothing, so a checkpoint begins the next segment there: the slot that isn't the newest is closed, the segment is begun, and
//! the slot is opened with the checkpoint, which names it. The newest slot and the active segment change with the one byte of that
//! slot's gate.
//!
//! - `specs/Made.antt`: a new store, and a device with bytes.
//! - `specs/Stored.antt`: what is *stored*. The catalogue of the active segment; the tables of the newest open slot, and the
//!   number of transactions in them; and the segment's transactions with greater numbers.
//! - `specs/Stands.antt`: which history of transactions the devices *stand for* (represent), and how many of it they
//!   have at least. Each open slot has the tables with which some prefix of the history ends; the active segment has the
//!   transactions of the history after those that came before it.
//! - `specs/Images.antt`: the bytes of the four devices, about which both are stated.
//! - `specs/Saving.antt` and `specs/Writing.antt`: what a save keeps of it at each moment.
//! - `specs/FirstRefusals.antt`: which refusal of the bytes of devices is the first.
//! - `specs/Segments.antt`: how the active segment is told apart from those before it.
//!
//! The laws are functions without code, whose lemmas a proof above cites:
//!
//! - [`what_stands_is_stored`]: devices that stand for a history have something stored. [`what_stands_is_not_refused`]: nothing
//!   of their bytes is refused.
//! - [`stored_goes_on`]: serial execution of what is stored gives the tables of a prefix of the history.
//! - [`one_history`]: devices stand for one segment, and histories that they stand for end with the same tables.
//!   [`fewer_stand`], [`more_stand`]: they stand for a history with a smaller number too, and for its continuations.
//! - [`three_devices_stand`]: a store of three devices, as it was before the log had segments, is one of four.
//! - [`a_save_keeps_the_history`], [`the_published_is_the_newest`]: what a save keeps at each moment, and what is the newest
//!   afterwards. [`a_segment_is_known`]: the active segment's device and base tell whether it is another one.
#![tactic(auto)]

mod device;
mod errors;
mod laws;
mod make;
mod steps;
mod writing;

pub use device::DeviceName;
pub use errors::MakeError;
pub use laws::{
    a_save_keeps_the_history, a_segment_is_known, fewer_stand, more_stand, one_history,
    stored_goes_on, the_published_is_the_newest, three_devices_stand, what_stands_is_not_refused,
    what_stands_is_stored,
};
pub use make::make_store;
pub use writing::write_checkpoint;
