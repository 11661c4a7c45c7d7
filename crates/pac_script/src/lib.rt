//! Scripts: a catalogue and request lines.
//!
//! - [`read_script`]: the [`Script`] that a text is, a catalogue and batches of transactions that fit it; or its first
//!   [`ScriptFault`].
//! - [`find_mark`]: where the line stands that ends the catalogue.
//! - [`stress_txn`]: the transactions of the stress test. [`BANK`]: the text of the catalogue over which it runs; [`bank_text`] returns
//!   it as the one that `specs/BankText.antt` spells.
//!
//! ```
//! use pac_script::read_script;
//!
//! let script = read_script(alloc, b"table T(key int, v int);\n---\nadhoc put T[1] = (5)\n")?;
//! let batches = script.batches; // one, of one transaction with number 1
//! ```
//!
//! What a text says as a script is defined by `Lines` (the lines of a text, and the `---`), `Batches` (between flushes, each
//! batch is the longest prefix that fits) and `Script` (the whole, with its first fault). What it says is what is returned, and
//! nothing else, but for out of memory (`says`, `only`). The reading is proved against a definition that takes one line at a
//! time (`specs/Cutting.antt`, `specs/ScriptReading.antt`); no public clause names these.
#![tactic(auto)]

mod bank;
mod batcher;
mod lines;
mod script;
mod script_fault;
mod step;
mod stress;

pub use bank::{BANK, bank_text};
pub use lines::find_mark;
pub use script::{Script, read_script};
pub use script_fault::{ScriptError, ScriptFault};
pub use stress::stress_txn;
