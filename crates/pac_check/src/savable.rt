// Tables that can be saved.
ghost use Rattle.std.specs.Prelude.{◌≡◌, ◌<◌, ◌≤◌, ℕ, false, length, IsTrue};
ghost use Rattle.pac_value.specs.State.{keys_of};
ghost use Rattle.pac_check.specs.declared.limits.TheConstants.{MAX_SAVED_ROWS};

use crate::limits::MAX_SAVED_ROWS;
use pac_tables::Rows;

/// Whether each table has so few rows that it can be saved. It asks each table for its count, and looks at no row.
pub fn can_be_saved<R: Rows>(rows: &R) -> bool
    ensures few { IsTrue result → (table : ℕ) → table < R.tables rows.now → length (keys_of (R.held rows.now) table) ≤ MAX_SAVED_ROWS }
    ensures many { result ≡ false → (table : ℕ) × (table < R.tables rows.now) × (MAX_SAVED_ROWS < length (keys_of (R.held rows.now) table)) }
{
    for table in 0..rows.tables() {
        if rows.count(table) > MAX_SAVED_ROWS {
            return false;
        }
    }
    true
}
