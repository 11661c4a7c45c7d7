//! The rows of tables: one trait for every form of tables, two forms, and write sets that are applied all or none.
//!
//! A row stands at a cell: a table's number and a key. Contracts see two things of any [`Rows`]: the number of its
//! tables, which never changes, and one finite map from cells to rows.
//!
//! - [`OrderedRows`]: one ordered map per table. [`HashedRows`]: one map per table behind a hash of the keys, whose keys are
//!   sorted when they are asked for. Both are [`JoinedRows`] over one form of [`TableRows`]: a key is compared with the
//!   keys of its own table alone, and the number of a table's rows is known in constant time.
//! - [`Writes`]: a list of [`Write`]s, each the row to put at a cell, or none to delete it. No cell is written twice,
//!   so their order makes no difference.
//! - [`apply_all`]: makes all writes of a list. Out of memory it makes none and returns them.
//!
//! ```
//! use pac_tables::{OrderedRows, Rows};
//! use pac_value::{Key, Row, Value};
//!
//! let mut rows = OrderedRows::new(alloc, 1)?; // one table
//! rows.put(0, Key::Int(7), Row::of(vec![in alloc; Value::Int(5)]?))?;
//! let row = rows.get(0, &Key::Int(7)); // the row (5)
//! let keys = rows.sorted_keys(0)?; // 7 alone
//! ```
//!
//! Each call requires a table that exists. [`Rows::put`] is out of memory only at a cell without a row, and then
//! nothing is changed. So [`apply_all`] never fails where each row that it puts replaces one (`placed`).
//! `specs/Joined.antt` says which map several tables are, `specs/Written.antt` what writes make of it.
#![tactic(auto)]

mod hashed;
mod joined;
mod ordered;
mod rows;
mod table;
mod writes;

pub use hashed::HashedTable;
pub use joined::{HashedRows, JoinedRows, OrderedRows};
pub use ordered::OrderedTable;
pub use rows::Rows;
pub use table::TableRows;
pub use writes::{Write, Writes, WritesRule, apply_all};
