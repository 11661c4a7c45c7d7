//! Tables that can be undone: their rows as they stand now, and what it takes to know them as they stood at an opening.
//!
//! - [`UndoRows`]: tables of any form, with a before-image for each cell that was changed: the row that stood there first, or none.
//!   [`UndoRows::new`] is an opening, and [`UndoRows::apply`] makes writes, all or none.
//! - [`UndoRows::opening`] copies the tables as they stood at the opening; [`UndoRows::has_opening`] tests whether other tables are
//!   those, with no copy.
//!
//! What is kept grows with the cells that were changed, however often, and not with the tables.
//!
//! ```
//! use pac_base::NoMemory;
//! use pac_tables::{OrderedRows, Rows, Write, Writes};
//! use pac_undo::UndoRows;
//! use pac_value::{Key, Row, Value};
//!
//! let mut tables = UndoRows::new(alloc, OrderedRows::new(alloc, 1)?); // one table, with no rows
//! let row = Row::of(vec![in alloc; Value::Int(5)]?);
//! let write = Write { table: 0, key: Key::Int(7), row: Some(row) };
//! tables.apply(Writes::of(vec![in alloc; write]?)).map_err(|_| NoMemory)?;
//! let now = tables.rows().count(0); // 1
//! let opening = tables.opening()?;
//! let before = opening.count(0); // 0
//! let same = tables.has_opening(&opening)?; // true
//! ```
//!
//! `specs/Undo.antt` says what contracts see of [`UndoRows`]: how many tables there are, the opening, and the rows of now. No clause
//! of a public call names a before-image.
#![tactic(auto)]

mod before_images;
mod compare;
mod noting;
mod undo_rows;

pub use undo_rows::UndoRows;
