//! The command log, which makes the database durable: a header with the text of its catalogue, then a gate byte, and
//! after each open gate byte a batch and the next gate byte. A commit is all or nothing, at every moment.
//!
//! - [`create`] makes the log of a catalogue's text on an empty device. [`LogReader::attach`] reads the header of a
//!   log; [`LogReader::next_batch`] returns its batches one after another, and [`LogReader::rewind`] goes back to the first.
//! - [`Log`] stands at the end of a log. [`Log::prepare`] encodes a batch in memory. [`Log::commit`] writes it after
//!   the closed gate byte, syncs, opens the gate byte, and syncs; it takes no memory.
//! - [`Log::plan_next`] makes the log ready that goes on after this one, a [`Segment`]: its [`HeaderForm`] says how many
//!   transactions came before, its base. [`Segment::begin`] writes it over a device.
//! - [`write_body`], [`body_len`]: the body of a batch. [`read_link`]: a body and the gate byte after it, a [`Link`];
//!   or the first fault from the left, a [`LinkFault`] of some [`DamageKind`].
//!
//! ```
//! use pac_log::{Log, LogReader, create};
//!
//! create(alloc, &mut disk, b"table T(key int, v int);")?;
//! let mut reader = LogReader::attach(alloc, &mut disk)?;
//! while let Some(_) = reader.next_batch(&mut disk)? {} // a new log has no batch
//! let mut log = Log::resume(reader);
//! log.prepare(&batch)?;
//! log.commit(&mut disk)?;
//! ```
//!
//! A [`Header`] of the first form is the name `PACMLOG1`, the length of the text in four bytes, and the text; the base is 0.
//! One of the later form has `PACMLOG2` and the base in eight bytes in place of the first name; the base is at most
//! [`MAX_BASE`], so that all numbers of transactions have 64 bits. A gate byte is open where it is 1; any other byte ends the log, whatever follows. A body is the number of
//! transactions in four bytes, the length of their entries in four bytes, and the entries of `pac_entry`. At each
//! moment of a commit, after an error too, a crash leaves the batches before, or these and the new one (`any_moment`);
//! after Ok it leaves the new one (`committed`). After a call of the device that failed the log has failed. `LogFull`
//! comes only where the log would be too long, with its length.
//!
//! `specs/Logs.antt` says which batches an image holds, so the crates above see a log as a list of batches;
//! `specs/Bodies.antt` and `specs/BodyReading.antt` define their bytes and how they are read. [`one_log`]: an image
//! holds one list of batches. [`one_gate`]: an offset has one number of transactions before it.
#![tactic(auto)]

mod body;
mod creation;
mod damage;
mod errors;
mod gate_bytes;
mod header;
mod laws;
mod limits;
mod link;
mod log;
mod position;
mod reader;
mod segment;

pub use body::{body_len, write_body};
pub use creation::create;
pub use damage::{DamageKind, LinkError, LinkFault};
pub use errors::{CreateError, LogError, PrepareError};
pub use header::{Header, HeaderForm};
pub use laws::{one_gate, one_log};
pub use limits::{MAX_BASE, MAX_ENTRIES_LEN, MAX_LOG_LEN};
pub use link::{Link, read_link};
pub use log::{Log, LogParts, Stage};
pub use position::{NextGate, Position};
pub use reader::{LogReader, ReaderParts};
pub use segment::Segment;
