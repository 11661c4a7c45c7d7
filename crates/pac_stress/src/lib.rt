//! The stress test: transactions over the catalogue of a bank, executed by workers, and the summary of what they leave.
//!
//! - [`stress_summary`]: executes a number of transactions from no rows on, by a number of workers, and returns the text of the
//!   summary: how many they are, how many pieces they have, and how many rows each table ends with.
//! - [`bank_catalogue`]: the catalogue, whose text is `BANK` of `pac_script`. [`stress_batches`]: the transactions, in batches of 64.
//!
//! ```
//! use pac_outside::OpenGate;
//! use pac_stress::stress_summary;
//!
//! let text = stress_summary(rt, alloc, 4, 8, &OpenGate)?; // transactions 8, pieces 29, and a line for each of the four tables
//! ```
//!
//! The summary is exactly the one that `specs/Summary.antt` defines, of the tables with which serial execution of the
//! transactions ends, and of the pieces that the plan of the catalogue makes of them (`specs/Stressed.antt`). A number of
//! transactions has only one ([`one_summary`], [`one_number_of_pieces`]). That the text has this catalogue, and that the
//! transactions fit it, is proved and not tested when the program runs: the text is read and checked by the definitions
//! (`proofs/BankReading.antt`, `proofs/BankTyping.antt`). Up to 100,000 of them, no transaction aborts ([`none_aborts`]).
#![tactic(auto)]

mod batches;
mod catalogue;
mod execution;
mod laws;
mod stress;
mod summary;

pub use batches::stress_batches;
pub use catalogue::bank_catalogue;
pub use laws::{none_aborts, one_number_of_pieces, one_summary};
pub use stress::stress_summary;
