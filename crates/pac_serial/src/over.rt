// Tables that are over a limit.
ghost use Rattle.std.specs.Prelude.{◌≡◌};
ghost use Rattle.pac_types.specs.Execution.{first_over};

use pac_tables::Rows;

/// The first table that has more rows than the limit, and how many it has. It asks each table for its count, and looks at
/// no row. Takes no memory.
pub fn first_over<R: Rows>(rows: &R, limit: u64) -> Option<(u16, u64)>
    ensures { result ≡ first_over limit (R.tables rows.now) (R.held rows.now) }
{
    for table in 0..rows.tables() {
        let count = rows.count(table);
        if limit < count {
            return Some((table, count));
        }
    }
    None
}
