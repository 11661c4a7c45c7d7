//! The canonical text of a catalogue's tree.
//!
//! - [`print`]: lines of its own for each table, procedure and statement, two spaces for each level, and parentheses only where the
//!   grammar's levels need them.
//!
//! ```
//! use pac_print::print;
//! use pac_syntax::parse_catalogue;
//!
//! let tree = parse_catalogue(alloc, b"table T( key int,v int );")?;
//! let text = print(alloc, &tree)?; // table T(key int, v int);
//! ```
//!
//! The text is exactly the canonical one (`text`). If some text reads as the tree, its canonical text, where that has at most
//! 65,536 bytes, reads as the same tree but for offsets (`reads`); any tree that it reads as has this text again (`again`).
//! `specs/Canonical.antt` is the text of a tree by the levels of the grammar, `specs/Unplaced.antt` a tree without its
//! offsets. The proof goes over derivations: from the one by which the tree was read comes one of the canonical text
//! (`proofs/ReadsBack.antt`).
#![tactic(auto)]

mod expression;
mod statement;
mod tree;

pub use tree::print;
