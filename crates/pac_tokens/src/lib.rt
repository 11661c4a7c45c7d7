//! The tokens of a text with their offsets: of a catalogue's text and of a request line.
//!
//! - [`tokens`]: all tokens of a text, or its first [`Fault`], which has an offset and a kind.
//! - [`lex`]: the tokens up to the end or to the first fault, for a reader that may report an earlier fault.
//! - [`int_or_text`]: the int or text at the head of a list of tokens, a `-` before an int included.
//! - [`gap_len`], [`leading_name`], [`leading_int`], [`leading_text`]: what a text begins with, for a reader that makes no list of
//!   tokens.
//! - [`Token`], [`Keyword`], [`Symbol`], [`Spanned`]: a token, its keywords and symbols, and a token with its offset.
//!   [`KEYWORDS`] and [`SYMBOLS`] are all of them. [`SyntaxError`]: why a text isn't read.
//!
//! ```
//! use pac_tokens::tokens;
//!
//! let list = tokens(alloc, b"read x = T[k].v default 0;")?;
//! let first = list.as_slice().first(); // the keyword `read` at offset 0
//! ```
//!
//! `specs/Tokens.antt` defines the tokens of a text: each is the longest prefix of the rest that spells one. [`tokens`]
//! returns them whenever they exist, and a fault is the text's only first one, but for out of memory (`ok`, `only`,
//! `fault`, `one`). `specs/Spelling.antt` says how keywords and symbols are spelled, `specs/Literals.antt` of `pac_value` how
//! texts are, `specs/Literal.antt` how an int or a text is written in tokens, `specs/Kinds.antt` how kinds of faults are
//! printed. `specs/Lexing.antt` computes
//! the longest token from the first byte, as the lexer does, and no public clause names it: `proofs/Longest.antt` shows
//! that they agree.
#![tactic(auto)]

mod fault;
mod int;
mod lexer;
mod literal;
mod prefix;
mod reading;
mod text;
mod token;

pub use fault::{Fault, FaultKind, SyntaxError};
pub use lexer::{Before, Lexed, gap_len, lex};
pub use literal::int_or_text;
pub use prefix::{leading_int, leading_name, leading_text};
pub use reading::tokens;
pub use token::{KEYWORDS, Keyword, SYMBOLS, Spanned, Symbol, Token, Tokens};
