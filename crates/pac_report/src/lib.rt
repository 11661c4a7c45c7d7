//! The texts that commands write.
//!
//! - [`dump`]: the text of all tables, each with its rows by ascending key.
//! - [`explain_text`]: the text of the graph of a catalogue: the slices of its procedures, the blocks of its plan, and
//!   the edges between them.
//! - [`reply_text`]: the line of a reply; [`push_reply`] appends it. [`fault_text`]: the line of a status, a [`StatusLine`];
//!   [`StatusLine::text`]: the same without memory, for a line without a name or number.
//!
//! ```
//! use pac_report::{dump, reply_text};
//! use pac_request::Reply;
//!
//! let line = reply_text(alloc, cat, &Reply::Committed { txn: 3 })?; // committed 3
//! let text = dump(alloc, cat, rows)?; // table T 1, and then its row
//! ```
//!
//! Each text is exactly the one that `specs/Dump.antt`, `specs/Explain.antt`, `specs/Replies.antt` and
//! `specs/Status.antt` define, by the names of the catalogue, the rows, the slices, the plan, the reply and the status
//! alone, but for out of memory.
#![tactic(auto)]

mod blocks;
mod explain;
mod groups;
mod replies;
mod slices;
mod status;
mod tables;
mod words;

pub use explain::explain_text;
pub use replies::{push_reply, reply_text};
pub use status::{StatusLine, fault_text};
pub use tables::dump;
