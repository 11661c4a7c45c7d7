// Tables beside those that stood before, cell by cell.
ghost use Rattle.std.specs.Prelude.{◌≡◌, ◌↔◌, ◌<◌, IfOk, IsTrue, map};
ghost use Rattle.std.specs.Option.{option_map};
ghost use Rattle.std.specs.FinMap.{get};
ghost use Rattle.pac_tables.specs.Written.{AreWithin, written};
ghost use Rattle.pac_value.specs.State.{keys_of};
ghost use Rattle.pac_undo.specs.Images.{AreSameAt, AreSameWhereChanged};

use crate::before_images::BeforeImages;
use pac_base::{NoMemory, Same};
use pac_tables::Rows;
use pac_value::{Key, Row};

/// Whether tables have the row that stood before at each key of one table that has a row in them or now.
///
/// # Errors
///
/// [`NoMemory`] where a list of rows finds no room.
pub(crate) fn is_same_in<R: Rows>(
    before: &BeforeImages,
    rows: &R,
    other: &R,
    table: u16,
) -> Result<bool, NoMemory>
    requires rows { table < R.tables rows.now }
    requires other { table < R.tables other.now }
    ensures { IfOk result (λ same. IsTrue same
        ↔ AreSameAt (R.held other.now) (written (R.held rows.now) before.now) table (keys_of (R.held rows.now) table)
        × AreSameAt (R.held other.now) (written (R.held rows.now) before.now) table (keys_of (R.held other.now) table)) }
{
    let ours = rows.sorted_rows(table)?;
    if !is_same_at_keys(before, rows, other, table, &ours) {
        return Ok(false);
    }
    let theirs = other.sorted_rows(table)?;
    Ok(is_same_at_keys(before, rows, other, table, &theirs))
}

/// Whether tables have the row that stood before at each cell that has a before-image.
pub(crate) fn is_same_where_changed<R: Rows>(before: &BeforeImages, rows: &R, other: &R) -> bool
    requires rows { AreWithin (R.tables rows.now) before.now }
    requires other { AreWithin (R.tables other.now) before.now }
    ensures { IsTrue result ↔ AreSameWhereChanged (R.held other.now) (written (R.held rows.now) before.now) before.now }
{
    for at in 0..before.len() {
        let (table, key) = before.cell(at);
        if !is_same_at(before, rows, other, *table, key) {
            return false;
        }
    }
    true
}

// The same at each of these keys.
fn is_same_at_keys<R: Rows>(
    before: &BeforeImages,
    rows: &R,
    other: &R,
    table: u16,
    listed: &[(&Key, &Row)],
) -> bool
    requires rows { table < R.tables rows.now }
    requires other { table < R.tables other.now }
    ensures { IsTrue result ↔ AreSameAt (R.held other.now) (written (R.held rows.now) before.now) table (map (λ e. e.0.now) listed.now) }
{
    for (key, _) in listed {
        if !is_same_at(before, rows, other, table, key) {
            return false;
        }
    }
    true
}

// The same at one cell.
fn is_same_at<R: Rows>(before: &BeforeImages, rows: &R, other: &R, table: u16, key: &Key) -> bool
    requires rows { table < R.tables rows.now }
    requires other { table < R.tables other.now }
    ensures { IsTrue result ↔ (get (R.held other.now) (table, key.now) ≡ get (written (R.held rows.now) before.now) (table, key.now)) }
{
    let found = other.get(table, key);
    match before.get(table, key) {
        Some(image) => is_same_row(found, image.as_ref()),
        None => is_same_row(found, rows.get(table, key)),
    }
}

// Whether the two are the same row, or both none.
fn is_same_row(a: Option<&Row>, b: Option<&Row>) -> bool
    ensures { IsTrue result ↔ (option_map (λ row. row.now) a.entry ≡ option_map (λ row. row.now) b.entry) }
{
    match (a, b) {
        (Some(a), Some(b)) => a.same(b),
        (None, None) => true,
        _ => false,
    }
}
