// Makes the changes of a transaction, all or none.
ghost use Rattle.std.specs.Prelude.{◌≡◌, ◌<◌, T, OnOk, OnErr, map};
ghost use Rattle.std.specs.FinMap.{is_sorted};
ghost use Rattle.pac_value.specs.State.{cell_cmp};
ghost use Rattle.pac_serial.specs.WriteSets.{AreAllUnmade};
ghost use Rattle.pac_serial.specs.Commits.{AreIn, AreThere, IsThere, exchanged, with_put, with_puts, with_deletes, with_restored, restored, cells};

use crate::write_set::CellChange;
use pac_base::NoMemory;
use pac_tables::Rows;

/// Puts the rows of all changes that put one, or none where one finds no room. Such a change keeps the row that it
/// replaces. One look-up a row.
pub(crate) fn put_rows<R: Rows>(rows: &mut R, changes: &mut [CellChange]) -> Result<(), NoMemory>
    requires sorted { T (is_sorted cell_cmp changes.old) }
    requires unmade { AreAllUnmade (R.tables rows.old) changes.old }
    ensures rows { OnOk result (R.held rows.new ≡ with_puts (R.held rows.old) changes.old) }
    ensures changes { OnOk result (changes.new ≡ map (exchanged (R.held rows.old)) changes.old) }
    ensures cells { cells changes.new ≡ cells changes.old }
    ensures err { OnErr result (R.held rows.new ≡ R.held rows.old) }
    ensures tables { R.tables rows.new ≡ R.tables rows.old }
{
    for at in 0..changes.len() {
        match put_row(rows, &mut changes[at]) {
            Ok(()) => {}
            Err(NoMemory) => {
                restore(rows, &mut changes[..at]);
                return Err(NoMemory);
            }
        }
    }
    Ok(())
}

// Puts the row of a change, where it has one, and keeps the one that it replaces.
fn put_row<R: Rows>(rows: &mut R, change: &mut CellChange) -> Result<(), NoMemory>
    requires { change.old.0.0 < R.tables rows.old }
    ensures rows { OnOk result (R.held rows.new ≡ with_put (R.held rows.old) change.old) }
    ensures change { OnOk result (change.new ≡ exchanged (R.held rows.old) change.old) }
    ensures cell { change.new.0 ≡ change.old.0 }
    ensures err { OnErr result (R.held rows.new ≡ R.held rows.old) }
    ensures tables { R.tables rows.new ≡ R.tables rows.old }
{
    let ((table, key), pending) = change;
    let Some(row) = pending.row.take() else {
        return Ok(());
    };
    match rows.insert(*table, *key, row) {
        Ok(old) => {
            pending.row = old;
            Ok(())
        }
        Err(_) => Err(NoMemory),
    }
}

// Brings back what stood where rows were put: the row that was replaced, or none. None takes memory.
fn restore<R: Rows>(rows: &mut R, changes: &mut [CellChange])
    requires within { AreIn (R.tables rows.old) changes.old }
    requires sorted { T (is_sorted cell_cmp changes.old) }
    requires there { AreThere (R.held rows.old) changes.old }
    ensures rows { R.held rows.new ≡ restored (R.held rows.old) changes.old }
    ensures cells { cells changes.new ≡ cells changes.old }
    ensures tables { R.tables rows.new ≡ R.tables rows.old }
{
    for at in 0..changes.len() {
        restore_row(rows, &mut changes[at]);
    }
}

// Brings back what stood where a row was put.
fn restore_row<R: Rows>(rows: &mut R, change: &mut CellChange)
    requires within { change.old.0.0 < R.tables rows.old }
    requires there { IsThere (R.held rows.old) change.old }
    ensures rows { R.held rows.new ≡ with_restored (R.held rows.old) change.old }
    ensures cell { change.new.0 ≡ change.old.0 }
    ensures tables { R.tables rows.new ≡ R.tables rows.old }
{
    let ((table, key), pending) = change;
    if !pending.puts {
        return;
    }
    match pending.row.take() {
        Some(row) => {
            let Ok(()) = rows.put(*table, *key, row) else {
                unreachable!()
            };
        }
        None => rows.delete(*table, key),
    }
}

/// Deletes the rows at the cells of changes that put none. None takes memory.
pub(crate) fn delete_rows<R: Rows>(rows: &mut R, changes: &[CellChange])
    requires { AreIn (R.tables rows.old) changes.now }
    ensures rows { R.held rows.new ≡ with_deletes (R.held rows.old) changes.now }
    ensures tables { R.tables rows.new ≡ R.tables rows.old }
{
    for ((table, key), pending) in changes {
        if !pending.puts {
            rows.delete(*table, key);
        }
    }
}
