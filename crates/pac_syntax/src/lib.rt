//! The tree of a catalogue's text.
//!
//! - [`parse_catalogue`]: the [`Tree`] of a text, with one node for each rule of the grammar, or the text's first
//!   [`Fault`], which has an offset and a kind.
//! - [`tokens`] and its types: re-exports of `pac_tokens`.
//! - [`Around`]: in what `specs/Grammar` counts how much stands round a statement, for the limits of nesting and of turns.
//! - [`operator_symbol`], [`precedence_of`]: the operator token of an operator, and its precedence.
//! - [`split_first`], [`name_of`], [`bool_of`], [`is_same_keyword_or_symbol`]: what single tokens are.
//!
//! ```
//! use pac_syntax::parse_catalogue;
//!
//! let tree = parse_catalogue(alloc, b"table T(key int, v int);")?;
//! let tables = tree.tables.as_slice().len(); // 1
//! let fault = parse_catalogue(alloc, b"proc P() { let x = ; }"); // Expected, at offset 19
//! ```
//!
//! What a text is read as is defined in `specs/` without a parser: `Grammar` (derivations with the offset of each
//! token, and the tree of each), `Faults` (a limit is a role of a token in a derivation; a fault is a token that can't
//! follow or one over a limit) and `Reading` (the text as a whole). A text that has a tree is read as it, and no other;
//! a fault is the one with the least offset, and of several there the first kind; but for out of memory (`reads`,
//! `only`, `fault`, `one`). `proofs/Trees.antt` shows what every tree keeps: the limits, and offsets in the order of
//! the text.
//!
//! Two laws, which are functions without code, say what of this isn't plain from the definitions.
//! [`the_first_fault_has_the_least_offset`]: also where a loop has too many turns, which its second bound settles.
//! [`texts_without_loops_stay`]: what was accepted by the grammar as it was before there were loops, which is
//! `specs/WithoutLoops.antt`, is accepted with the same tree.
//!
//! The parser is proved against a machine that takes one token at a time (`specs/Machine.antt`), which no definition of
//! what is read names: `proofs/Words.antt` and `proofs/Ends.antt` show that it accepts exactly the derivations,
//! `proofs/Meets.antt` that it stops at the first fault, and each function of the recursive descent says how far it
//! moves the machine (`proofs/Stepping.antt`).
#![tactic(auto)]

mod laws;
mod limits;
mod operator;
mod parse;
mod single;
mod tree;

pub use laws::{texts_without_loops_stay, the_first_fault_has_the_least_offset};
pub use limits::{Around, MAX_CATALOGUE, MAX_NESTED, MAX_OPERATORS, MAX_PARENS, MAX_TURNS};
pub use operator::{COMPARISONS, operator_symbol, precedence_of};
pub use pac_tokens::{
    Fault, FaultKind, Keyword, Spanned, Symbol, SyntaxError, Token, Tokens, tokens,
};
pub use parse::parse_catalogue;
pub use single::{bool_of, is_same_keyword_or_symbol, name_of, split_first};
pub use tree::{ColumnNode, ExprNode, LiteralNode, NameNode, ProcNode, StmtNode, TableNode, Tree};
