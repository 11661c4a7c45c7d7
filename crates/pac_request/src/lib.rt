//! Request lines, one request a line.
//!
//! - [`read_line`]: what a line asks of a catalogue, a [`Request`] that fits it; nothing, for white space and a
//!   comment; or its first [`LineFault`], with an offset in the line and one of seven [`LineFaultKind`]s.
//! - [`read_line_with`]: the same, in the room of a list that isn't wanted any more. [`read_script_line`]: the same for a line of a
//!   script, where `show`, `save` and `stop` are refused.
//! - [`Reply`], [`Replies`]: the answers to requests, as data.
//!
//! ```
//! use pac_request::read_line;
//!
//! let request = read_line(alloc, cat, b"adhoc put T[1] = (5)")?; // Some(Request::AdHoc { .. })
//! let blank = read_line(alloc, cat, b"# a comment")?; // None
//! let fault = read_line(alloc, cat, b"call Nobody()"); // UnknownName, at offset 5
//! ```
//!
//! What a line says is defined in `specs/` without a parser: `LineForms` (derivations with the offset of each token),
//! `LineFaults` (the first token that can't follow), `RequestMeaning` (what is asked, with the faults of names, counts
//! and types from left to right), `LineReading` (the line as a whole), `ScriptLines` (the same in a script),
//! `RequestFits` (requests that fit a catalogue) and `LineKinds` (how kinds are printed). What a line says is what is
//! returned, and nothing else, but for out of memory (`says`, `only`).
//!
//! The parser is proved against a machine that takes one token at a time (`specs/LineSteps.antt`); no public clause names it. A
//! call whose arguments are texts and ints without a `-`, as most lines are, is read from its bytes without a list of tokens:
//! `specs/PlainCalls.antt` defines that, and `proofs/PlainLemmas.antt` shows that both readings agree.
#![tactic(auto)]

mod fault;
mod limits;
mod line;
mod meaning;
mod node;
mod parser;
mod plain;
mod request;

pub use fault::{LineFault, LineFaultKind};
pub use limits::MAX_LINE;
pub use line::{read_line, read_line_with, read_script_line};
pub use request::{Replies, RepliesRule, Reply, Request};
