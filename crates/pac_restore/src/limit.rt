// The limit of rows, over finished tables.
ghost use Rattle.std.specs.Prelude.{◌≡◌, length, OnOk, IsErrOf, None};
ghost use Rattle.pac_types.specs.Execution.{first_over};
ghost use Rattle.pac_restore.specs.Limits.{IsFirstOver};
ghost use Rattle.pac_restore.specs.declared.limit.TooManyRows.{TooManyRows as Excess};

use pac_serial::first_over;
use pac_tables::Rows;
use pac_types::Catalogue;
use pac_value::Name;
use thiserror::Error;

/// A table has more rows than the limit: its name, how many it has, and the limit.
#[derive(Clone, Copy, Debug, PartialEq, Eq, Error)]
#[error("a table has {rows} rows, over {limit}")]
pub struct TooManyRows {
    pub table: Name,
    pub rows: u64,
    pub limit: u64,
}

/// That no table has more rows than the limit. Asks each table for its count, and takes no memory.
///
/// # Errors
///
/// [`TooManyRows`] exactly where one has: the first such one, in the catalogue's order.
pub fn test_rows<R: Rows>(cat: &Catalogue, rows: &R, limit: u64) -> Result<(), TooManyRows>
    requires { R.tables rows.now ≡ length cat.now.tables }
    ensures within { OnOk result (first_over limit (length cat.now.tables) (R.held rows.now) ≡ None) }
    ensures over { (excess : Excess) → IsErrOf result excess → IsFirstOver limit cat.now.tables (R.held rows.now) excess.table excess.rows × (excess.limit ≡ limit) }
{
    match first_over(rows, limit) {
        None => Ok(()),
        Some((table, rows)) => Err(TooManyRows {
            table: cat.tables()[usize::from(table)].name,
            rows,
            limit,
        }),
    }
}
