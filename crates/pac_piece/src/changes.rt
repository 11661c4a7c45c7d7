// Rows that are to stand at cells: copies, and what a piece wrote.
ghost use Rattle.std.specs.Prelude.{◌≡◌, ◌<◌, length, position, OnErr, OnOk, IfSome};
ghost use Rattle.std.specs.Ordering.{eq_by_cmp};
ghost use Rattle.pac_value.specs.State.{cell_cmp, with_row};
ghost use Rattle.pac_tables.specs.Written.{IsOnce, cell_written, written};
ghost use Rattle.pac_piece.specs.Changes.{is_at, ChangesCell};

use pac_base::NoMemory;
use pac_tables::Write;
use pac_value::{Key, Row};
use std::cmp::Ordering;

// How the cell of a write stands to the one of this table and key. Neither is copied: a key is large.
fn order(write: &Write, table: u16, key: &Key) -> Ordering
    ensures { result ≡ cell_cmp (table, key.now) (cell_written write.now) }
{
    match table.cmp(&write.table) {
        Ordering::Equal => key.cmp(&write.key),
        other => other,
    }
}

// Whether a write is at a cell.
fn is_at(write: &Write, table: u16, key: &Key) -> bool
    ensures { result ≡ is_at (table, key.now) write.now }
{
    order(write, table, key).is_eq()
}

/// Where a cell is written first.
pub(crate) fn find(writes: &[Write], table: u16, key: &Key) -> Option<usize>
    ensures { result ≡ position (is_at (table, key.now)) writes.now }
{
    writes.iter().position(|write| is_at(write, table, key))
}

/// A row is to stand at the cell, or none. The write takes the place of an earlier one at the cell.
pub(crate) fn change(
    writes: &mut Vec<Write>,
    table: u16,
    key: Key,
    row: Option<Row>,
) -> Result<(), NoMemory>
    requires { IsOnce writes.old.items }
    ensures ok { OnOk result (ChangesCell (table, key) row writes.old.items writes.new.items) }
    ensures err { OnErr result (writes.new.items ≡ writes.old.items) }
{
    match find(writes, table, &key) {
        Some(at) => writes[at].row = row,
        None => writes.insert(0, Write { table, key, row })?,
    }
    Ok(())
}
