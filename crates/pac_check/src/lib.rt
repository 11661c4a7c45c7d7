//! Checkpoints: the tables after a number of transactions, in two slots, so that a crash in a save leaves the other
//! slot whole.
//!
//! - [`create_slot`] makes a slot without a checkpoint on an empty device.
//! - [`SlotHeads::attach`] reads what two slots begin with: which is the newest and which segment of the log it names, for
//!   which no catalogue is needed. [`Slots::attach`] reads the rest: what is open in each, a [`SlotInfo`], or the first damage.
//!   [`Slots::newest`] is the one with more transactions; of equal ones, slot a.
//! - [`Slots::load_newest`] reads its tables into any [`Rows`](pac_tables::Rows).
//! - [`Slots::prepare`], [`Slots::close_older`] and [`Slots::publish`] write a checkpoint into the slot that isn't the newest, which
//!   names the segment after the active one; [`can_be_saved`] tests that each table has at most [`MAX_SAVED_ROWS`] rows.
//!
//! ```
//! use pac_check::{SlotHeads, Slots, create_slot};
//!
//! create_slot(&mut a)?;
//! create_slot(&mut b)?;
//! let heads = SlotHeads::attach(alloc, &mut a, &mut b)?;
//! let mut slots = Slots::attach(alloc, heads, cat, &mut a, &mut b)?;
//! slots.prepare(alloc, cat, rows, 1, 44)?; // after one transaction, with the next segment's first gate byte at 44
//! slots.close_older(&mut a, &mut b)?;
//! slots.publish(&mut a, &mut b)?;
//! let newest = slots.newest(); // slot a, 1 transaction, 44
//! ```
//!
//! A slot is a gate byte and, where that is 1, a checkpoint: the name `PACMSLT1`; the number of transactions and the
//! offset of the log's gate byte after these, eight bytes each; the number of tables in two bytes; and for each table
//! the number of its rows in eight bytes, and the rows by ascending keys, each its key and the values of its columns.
//! Bytes after that are not looked at. A checkpoint of the later [`SlotForm`] has the name `PACMSLT2`, and one byte more before
//! the number of tables, for the device of its segment: 0 or 1. A slot without a byte is closed. An open one is read in
//! pieces, each byte once after the first few: none is held whole.
//!
//! At each moment of the two calls that write, after an error too, the other slot is as it was, and this one is as it was or
//! closed, and then closed or has the whole checkpoint (`any_moment`, `other`); of a device without a byte nothing is said.
//! `TooLarge` comes exactly where the slot would have more than [`MAX_SLOT_LEN`] bytes. `specs/Checkpoints.antt` and
//! `specs/CheckpointReading.antt` define the bytes and how they are read; `specs/Saved.antt` says which checkpoint
//! tables are, `specs/SlotStates.antt` what a slot holds. [`slots_are_clear`]: bytes hold one checkpoint.
#![tactic(auto)]

mod creation;
mod damage;
mod descent;
mod errors;
mod head;
mod info;
mod items;
mod law;
mod limits;
mod pieces;
mod reading;
mod replacing;
mod rows;
mod savable;
mod slots;
mod state;
mod taker;
mod text;

pub use creation::create_slot;
pub use damage::{SlotDamageKind, SlotFault};
pub use errors::{CreateSlotError, SaveError, SlotError};
pub use head::{Head, SlotForm};
pub use info::{SlotInfo, SlotName};
pub use law::slots_are_clear;
pub use limits::{MAX_SAVED_ROWS, MAX_SLOT_LEN};
pub use savable::can_be_saved;
pub use slots::{ReadyText, SlotHeads, Slots};
pub use state::SlotState;
