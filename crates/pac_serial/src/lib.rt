//! Serial execution: transactions are executed one after another over any tables, exactly as the serial meaning of
//! `pac_types` says.
//!
//! - [`exec`]: executes a call of a procedure. [`exec_adhoc`]: makes the changes of ad hoc records. Both take an
//!   optional limit on the rows of each table. [`exec_txn`]: either, in a [`RunningTxn`] that serves one transaction after
//!   another. [`exec_listed`]: the same, and it lists the transaction's after-images. [`ExecError`]: why a transaction is refused.
//! - [`exec_all`]: executes the transactions of a batch in order, up to the first that is refused, an [`AllError`].
//! - [`no_rows`]: the tables of a catalogue, without rows. [`first_over`]: the first table with more rows than a limit.
//!
//! ```
//! use pac_flat::test_operations;
//! use pac_serial::{exec, no_rows};
//! use pac_tables::OrderedRows;
//! use pac_types::read_catalogue;
//! use pac_value::Value;
//!
//! let cat = read_catalogue(alloc, b"table T(key int, v int); proc P(v int) { put T[1] = (v); }")?;
//! test_operations(&cat)?; // so that each operation has a number of 16 bits
//! let mut rows: OrderedRows = no_rows(alloc, &cat)?;
//! exec(alloc, &cat, 0, &[Value::Int(5)], Some(1_000_000), &mut rows)?; // T[1] = (5)
//! ```
//!
//! A transaction's changes form a write set until it ends; a read looks there first. Then the limit is tested, by
//! counts that the tables keep and, for a table close to the limit, by its cells that are changed; and the write set is
//! applied, all or none. So whatever refuses a transaction, the tables are unchanged. Unless memory runs out, it is
//! refused for an abort exactly where it means one, with its operation and reason; else as `Full` exactly where some
//! table would be over the limit, with the first such table (`does`).
//!
//! A loop's block is executed where it stands, over values by the numbers of the text. `specs/TextMeaning.antt` says what
//! that does, and `proofs/SameMeaning.antt` shows that it gives the tables and the aborts of the serial meaning.
#![tactic(auto)]

mod commit;
mod execute;
mod limit;
mod opening;
mod operation;
mod over;
mod pending;
mod serial;
mod spare;
mod statement;
mod transaction;
mod write_set;

pub use execute::{ExecError, exec, exec_adhoc, exec_listed, exec_txn};
pub use opening::no_rows;
pub use over::first_over;
pub use serial::{AllError, exec_all};
pub use transaction::RunningTxn;
