// Writes the text of a checkpoint.
ghost use Rattle.std.specs.Prelude.{◌≡◌, ◌<◌, ◌≤◌, ◌+◌, ◌*◌, ◌^◌, ◌++◌, ℕ, Some as HasIt, length, map, All, IfOk, IsErrOf, OnOk, flat_map};
ghost use Rattle.std.specs.List.{AllByRecursion};
ghost use Rattle.std.specs.FinMap as tree;
ghost use Rattle.pac_value.specs.Growth.{Grew};
ghost use Rattle.pac_value.specs.State.{keys_of};
ghost use Rattle.pac_value.specs.Values.{key_value};
ghost use Rattle.pac_bytes.specs.Values.{HasBytes};
ghost use Rattle.pac_bytes.specs.Typed.{values_bytes};
ghost use Rattle.pac_bytes.specs.declared.values.TheConstants.{MAX_VALUE_LEN};
ghost use Rattle.pac_value.specs.declared.limits.TheConstants.{MAX_COLUMNS};
ghost use Rattle.pac_types.specs.Fits.{FitsCatalogue};
ghost use Rattle.pac_check.specs.declared.limits.TheConstants.{MAX_SAVED_ROWS, MAX_SLOT_LEN};
ghost use Rattle.pac_check.specs.declared.head.TheConstants.{MAX_HEAD_LEN};
ghost use Rattle.pac_check.specs.declared.text.TheConstants.{MAX_ROW_LEN, MAX_TABLE_LEN};
ghost use Rattle.pac_check.specs.Checkpoints.{IsCheckpoint, RowHasBytes, checkpoint_bytes, keyed_bytes, rows_bytes};
ghost use Rattle.pac_check.specs.Saved.{checkpoint_of, table_rows, rows_of_tables};

use crate::head::{MAX_HEAD_LEN, put_head};
use crate::limits::ITEM_LEN;
use crate::{Head, MAX_SAVED_ROWS, MAX_SLOT_LEN, SaveError};
use pac_base::NoMemory;
use pac_bytes::{key_len, put_key, put_u64, put_value, value_len};
use pac_tables::Rows;
use pac_types::Catalogue;
use pac_value::{Key, Row};
use std::alloc::Global;

// The most bytes of a row with its key, and of a table.
const MAX_ROW_LEN: u64 = ITEM_LEN as u64;

const MAX_TABLE_LEN: u64 = 8 + MAX_SAVED_ROWS * MAX_ROW_LEN;

/// The text of the checkpoint of the rows of tables. It takes memory for the text, table by table, and besides for a list of
/// the rows of one table at a time. These are listed once, and none is looked up. Where the text would be longer than a slot
/// the other bytes are only counted.
///
/// # Errors
///
/// - [`SaveError::TooLarge`] only where the text and a gate byte are more than 268,435,456 bytes.
/// - [`SaveError::NoMemory`] where the text or a list of rows finds no room.
#[tactic(auto, using(crate::proofs::WritingLemmas::checkpoint_long))]
pub(crate) fn checkpoint_text<R: Rows>(
    alloc: Global,
    cat: &Catalogue,
    rows: &R,
    head: Head,
) -> Result<Vec<u8>, SaveError>
    requires fits { FitsCatalogue cat.now (R.tables rows.now) (R.held rows.now) }
    requires few { (table : ℕ) → table < R.tables rows.now → length (keys_of (R.held rows.now) table) ≤ MAX_SAVED_ROWS }
    ensures text { IfOk result (λ text. text.items ≡ checkpoint_bytes (checkpoint_of (length cat.now.tables) head (R.held rows.now))) }
    ensures form { IfOk result (λ _. IsCheckpoint cat.now.tables (checkpoint_of (length cat.now.tables) head (R.held rows.now))) }
    ensures count { IfOk result (λ _. length cat.now.tables < 2 ^ 16) }
    ensures room { IfOk result (λ text. 1 + length text.items ≤ MAX_SLOT_LEN) }
    ensures too_large { (bytes : ℕ) → IsErrOf result (SaveError.TooLarge bytes) → (MAX_SLOT_LEN < bytes) × (bytes ≡ 1 + length (checkpoint_bytes (checkpoint_of (length cat.now.tables) head (R.held rows.now)))) }
    ensures only { ¬ IsErrOf result SaveError.DiskFault }
{
    let tables = cat.tables();
    let count = tables.len() as u16;
    let mut text = Vec::with_capacity(alloc, MAX_HEAD_LEN as usize)?;
    put_head(&mut text, head, count)?;
    put_tables(&mut text, head.form.head_len(), count, rows)?;
    Ok(text)
}

// Appends the first n tables, where they have room after a head of that many bytes in a slot.
fn put_tables<R: Rows>(
    out: &mut Vec<u8>,
    head_len: u64,
    count: u16,
    rows: &R,
) -> Result<(), SaveError>
    requires head { head_len ≤ MAX_HEAD_LEN }
    requires within { count ≤ R.tables rows.now }
    requires few { (table : ℕ) → table < R.tables rows.now → length (keys_of (R.held rows.now) table) ≤ MAX_SAVED_ROWS }
    ensures bytes { OnOk result (Grew out.old.items out.new.items (flat_map rows_bytes (rows_of_tables (R.held rows.now) count))) }
    ensures form { OnOk result ((table : ℕ) → table < count → AllByRecursion RowHasBytes (table_rows (R.held rows.now) table)) }
    ensures room { OnOk result (1 + (head_len + length (flat_map rows_bytes (rows_of_tables (R.held rows.now) count))) ≤ MAX_SLOT_LEN) }
    ensures too_large { (bytes : ℕ) → IsErrOf result (SaveError.TooLarge bytes) → (MAX_SLOT_LEN < bytes) × (bytes ≡ 1 + (head_len + length (flat_map rows_bytes (rows_of_tables (R.held rows.now) count)))) }
    ensures only { ¬ IsErrOf result SaveError.DiskFault }
{
    let len = add_tables(out, head_len, count, rows)?;
    if len >= MAX_SLOT_LEN {
        return Err(SaveError::TooLarge { bytes: len + 1 });
    }
    Ok(())
}

// How many bytes a head of that many and the first n tables have. The tables are appended up to the one with which they have no
// room in a slot.
fn add_tables<R: Rows>(
    out: &mut Vec<u8>,
    head_len: u64,
    count: u16,
    rows: &R,
) -> Result<u64, NoMemory>
    requires head { head_len ≤ MAX_HEAD_LEN }
    requires within { count ≤ R.tables rows.now }
    requires few { (table : ℕ) → table < R.tables rows.now → length (keys_of (R.held rows.now) table) ≤ MAX_SAVED_ROWS }
    ensures exact { IfOk result (λ len. len ≡ head_len + length (flat_map rows_bytes (rows_of_tables (R.held rows.now) count))) }
    ensures few { IfOk result (λ len. len ≤ MAX_HEAD_LEN + MAX_TABLE_LEN * count) }
    ensures bytes { IfOk result (λ len. len < MAX_SLOT_LEN → Grew out.old.items out.new.items (flat_map rows_bytes (rows_of_tables (R.held rows.now) count))) }
    ensures form { IfOk result (λ len. len < MAX_SLOT_LEN → (table : ℕ) → table < count → AllByRecursion RowHasBytes (table_rows (R.held rows.now) table)) }
{
    let mut len = head_len;
    for table in 0..count {
        len = add_table(out, len, table, rows)?;
    }
    Ok(len)
}

// The bytes so far, and those of one table more. It is appended where they have room in a slot.
fn add_table<R: Rows>(out: &mut Vec<u8>, before: u64, table: u16, rows: &R) -> Result<u64, NoMemory>
    requires within { table < R.tables rows.now }
    requires few { length (keys_of (R.held rows.now) table) ≤ MAX_SAVED_ROWS }
    requires so_far { before ≤ MAX_HEAD_LEN + MAX_TABLE_LEN * 65536 }
    ensures exact { IfOk result (λ len. len ≡ before + length (rows_bytes (table_rows (R.held rows.now) table))) }
    ensures few { IfOk result (λ len. len ≤ before + MAX_TABLE_LEN) }
    ensures bytes { IfOk result (λ len. len < MAX_SLOT_LEN → Grew out.old.items out.new.items (rows_bytes (table_rows (R.held rows.now) table))) }
    ensures form { IfOk result (λ len. len < MAX_SLOT_LEN → AllByRecursion RowHasBytes (table_rows (R.held rows.now) table)) }
{
    let found = rows.sorted_rows(table)?;
    let own = rows_len(&found, table, rows);
    let len = before + own;
    if len >= MAX_SLOT_LEN {
        return Ok(len);
    }
    out.reserve(own as usize)?;
    put_rows(out, &found, table, rows)?;
    Ok(len)
}

// How many bytes the rows of a table have, and their number.
fn rows_len<R: Rows>(found: &[(&Key, &Row)], table: u16, rows: &R) -> u64
    requires keys { map (λ e. e.0.now) found.now ≡ keys_of (R.held rows.now) table }
    requires rows { map (λ e. HasIt e.1.now) found.now ≡ map (λ key. tree.get (R.held rows.now) (table, key)) (keys_of (R.held rows.now) table) }
    requires few { length (keys_of (R.held rows.now) table) ≤ MAX_SAVED_ROWS }
    ensures exact { result ≡ length (rows_bytes (table_rows (R.held rows.now) table)) }
    ensures few { result ≤ MAX_TABLE_LEN }
{
    let mut len = 8;
    for entry in found {
        len += keyed_row_len(entry.0, entry.1);
    }
    len
}

// How many bytes a row has, with its key.
fn keyed_row_len(key: &Key, row: &Row) -> u64
    ensures exact { result ≡ length (keyed_bytes (key.now, row.now)) }
    ensures few { result ≤ MAX_ROW_LEN }
{
    key_len(key) as u64 + values_len(row)
}

fn values_len(row: &Row) -> u64
    ensures exact { result ≡ length (values_bytes row.now) }
    ensures few { result ≤ MAX_COLUMNS * MAX_VALUE_LEN }
{
    let mut len = 0;
    for value in row.items() {
        len += value_len(value) as u64;
    }
    len
}

// Appends the number of a table's rows, and they by ascending keys.
fn put_rows<R: Rows>(
    out: &mut Vec<u8>,
    found: &[(&Key, &Row)],
    table: u16,
    rows: &R,
) -> Result<(), NoMemory>
    requires keys { map (λ e. e.0.now) found.now ≡ keys_of (R.held rows.now) table }
    requires rows { map (λ e. HasIt e.1.now) found.now ≡ map (λ key. tree.get (R.held rows.now) (table, key)) (keys_of (R.held rows.now) table) }
    ensures bytes { OnOk result (Grew out.old.items out.new.items (rows_bytes (table_rows (R.held rows.now) table))) }
    ensures form { OnOk result (AllByRecursion RowHasBytes (table_rows (R.held rows.now) table)) }
{
    put_u64(out, found.len() as u64)?;
    for entry in found {
        put_keyed_row(out, entry.0, entry.1)?;
    }
    Ok(())
}

// Appends a key and the values of its row.
fn put_keyed_row(out: &mut Vec<u8>, key: &Key, row: &Row) -> Result<(), NoMemory>
    ensures bytes { OnOk result (Grew out.old.items out.new.items (keyed_bytes (key.now, row.now))) }
    ensures form { OnOk result (RowHasBytes (key.now, row.now)) }
{
    put_key(out, key)?;
    put_values(out, row)
}

fn put_values(out: &mut Vec<u8>, row: &Row) -> Result<(), NoMemory>
    ensures bytes { OnOk result (Grew out.old.items out.new.items (values_bytes row.now)) }
    ensures form { OnOk result (All HasBytes row.now) }
{
    for value in row.items() {
        put_value(out, value)?;
    }
    Ok(())
}
