//! The lines of a source, each as soon as it is whole.
//!
//! A [`LineReader`] reads a [`Source`](pac_outside::Source) by chunks of at most 4,096 bytes. A line ends at a line
//! feed, which is not part of it; the last line needs none. A carriage return is an ordinary byte.
//!
//! ```
//! use pac_lines::LineReader;
//!
//! let mut reader = LineReader::new(alloc, 1_024, 80);
//! while reader.next_line(source)? {
//!     let line = reader.line(); // without its line feed
//! }
//! ```
//!
//! - [`LineReader::next_line`] goes to the next line, which [`LineReader::line`] returns; false is the end of the
//!   source. It reads only while no whole line is buffered, so a terminal is answered line by line. It copies no line.
//! - Of a line that is longer than `most` bytes, the second number, it hands out the first `most` + 1, and it doesn't hold the
//!   others: it does what a reader does that leaves nothing out (`call`, `specs/Short.antt`).
//! - A reader takes at most `limit` bytes and one more. If the source gives that one, and no whole line before it is
//!   left, the result is [`LineError::TooLong`]: exactly then (`limit`, `over`).
//! - No error loses a byte but those of a line that is longer: for a reader that leaves nothing out, the buffered bytes and
//!   then what is left of the source are what they were ([`no_byte_is_lost`]).
//! - [`calls_hand_out_lines`]: calls one after another return the lines of the source in order, and then its end.
//! - [`feed_at`]: where the first line feed of bytes stands, for a reader that has all of a text.
//!
//! `specs/Lines.antt` says what the lines of a text are ([`each_text_has_its_lines`], [`lines_come_in_turn`]), and
//! `specs/Calls.antt` what a call of a reader does ([`too_long_is_reported_exactly`]). That each byte is searched once is
//! so in the code and in no clause.
#![tactic(auto)]

mod ahead;
mod feed;
mod laws;
mod limits;
mod line_error;
mod reader;

pub use feed::feed_at;
pub use laws::{
    calls_hand_out_lines, each_text_has_its_lines, lines_come_in_turn, no_byte_is_lost,
    too_long_is_reported_exactly,
};
pub use limits::MAX_READ;
pub use line_error::LineError;
pub use reader::LineReader;
