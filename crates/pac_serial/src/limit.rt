// The limit of rows.
ghost use Rattle.std.specs.Prelude.{◌≡◌, ◌<◌, ◌≤◌, ◌+◌, length, nat_lt, IsTrue};
ghost use Rattle.std.specs.Option.{option_map};
ghost use Rattle.pac_value.specs.State.{keys_of};
ghost use Rattle.pac_types.specs.Execution.{first_over};
ghost use Rattle.pac_serial.specs.WriteSets.{as_changed, AreUnmade};

use crate::write_set::WriteSet;
use pac_tables::Rows;

// Whether a table with that many rows stays within the limit even if each change adds a row to it.
fn has_room(limit: u64, count: u64, changes: u64) -> bool
    ensures { IsTrue result → count + changes ≤ limit }
{
    count <= limit && changes <= limit - count
}

// Whether a table would have more rows than the limit once the changes are made. No cell is looked up where there is room
// for them all.
fn is_over<R: Rows>(rows: &R, write_set: &WriteSet, limit: u64, table: u16) -> bool
    requires within { table < R.tables rows.now }
    requires unmade { AreUnmade (R.tables rows.now) write_set.now }
    ensures { result ≡ nat_lt limit (length (keys_of (as_changed (R.held rows.now) write_set.now) table)) }
{
    let count = rows.count(table);
    if has_room(limit, count, write_set.len()) {
        return false;
    }
    let (gained, lost) = write_set.balance(rows, table);
    u128::from(limit) + u128::from(lost) < u128::from(count) + u128::from(gained)
}

/// The first table that would have more rows than the limit once the changes are made. It asks each table for its count,
/// and for a table that isn't further below the limit than there are changes it looks up each of its cells that is changed.
pub(crate) fn over_limit<R: Rows>(rows: &R, write_set: &WriteSet, limit: u64) -> Option<u16>
    requires { AreUnmade (R.tables rows.now) write_set.now }
    ensures { result ≡ option_map (λ found. found.0) (first_over limit (R.tables rows.now) (as_changed (R.held rows.now) write_set.now)) }
{
    for table in 0..rows.tables() {
        if is_over(rows, write_set, limit, table) {
            return Some(table);
        }
    }
    None
}
