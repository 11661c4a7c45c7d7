//! Entries of the log: one transaction as bytes.
//!
//! - [`write_entry`]: appends the bytes of a transaction. [`entry_len`]: how many these are, at most [`MAX_ENTRY_LEN`].
//! - [`read_entry`]: the transaction whose bytes stand at an offset, and the offset after it; or the first fault from
//!   the left, an [`EntryFault`] of one of seven [`EntryFaultKind`]s.
//! - [`put_change`], [`change_at`]: a record of an ad hoc transaction by itself. [`changed_cell_at`]: the cell that it
//!   changes, read no further than its key.
//! - [`row_at`], [`args_at`]: values of the types of some columns, as they stand in entries after their number.
//!
//! ```
//! use pac_entry::{read_entry, write_entry};
//!
//! let mut bytes = Vec::new(alloc);
//! write_entry(txn, &mut bytes)?;
//! let (read, end) = read_entry(alloc, cat, &bytes, 0)?; // the transaction again, and the offset after it
//! ```
//!
//! A call is the byte 1, the procedure's number in two bytes, the number of its arguments in one, and the arguments. An
//! ad hoc transaction is the byte 2, the number of its records in one byte, and the records. A record that puts a row
//! is the byte 1, the table's number in two bytes, the key, the number of columns in one byte, and their values; one
//! that deletes a row is the byte 2, the table's number and the key. Values and numbers are those of `pac_bytes`.
//!
//! Bytes are read against a catalogue, and what is read fits it. `specs/Entries.antt` says what the bytes of a
//! transaction are, `specs/EntryReading.antt` how they are read, line by line with the faults;
//! `proofs/EntryLemmas.antt` shows that they agree. Bytes after an entry are not looked at.
#![tactic(auto)]

mod fault;
mod length;
mod limits;
mod reading;
mod row;
mod writing;

pub use fault::{EntryError, EntryFault, EntryFaultKind};
pub use length::{MAX_ENTRY_LEN, entry_len};
pub use limits::{BODY_HEAD_LEN, MAX_BODY_LEN};
pub use reading::{change_at, changed_cell_at, read_entry};
pub use row::{args_at, row_at};
pub use writing::{put_change, write_entry};
