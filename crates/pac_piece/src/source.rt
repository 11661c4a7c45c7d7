// Where a piece finds the rows that it didn't write itself.
ghost use Rattle.std.specs.Prelude.{◌≡◌, ◌<◌, ℕ};
ghost use Rattle.std.specs.Option.{option_map};
ghost use Rattle.std.specs.FinMap.{get, empty};
ghost use Rattle.pac_value.specs.State.{Tables};
ghost use Rattle.pac_tables.specs.Written.{written};

use crate::changes::find;
use pac_base::Listed;
use pac_tables::{Rows, Write};
use pac_value::{Key, Row};

/// Rows that a piece finds.
pub(crate) trait RowSource {
    // The rows of all tables, by their cells.
    ghost base: { Self → Tables };

    // The tables that may be asked for.
    ghost There: { Self → ℕ → Type 0 };

    /// The row at a cell. `None`: no row stands there.
    fn row(&self, table: u16, key: &Key) -> Option<&Row>
        requires { There self.now table }
        ensures { option_map (λ row. row.now) result ≡ get (base self.now) (table, key.now) };
}

// Copies: each stands at its cell, and no other row stands. It looks through the list.
impl RowSource for Listed<Write> {
    ghost base = { λ rows. written empty rows };

    ghost There = { λ rows table. Unit {0} };

    fn row(&self, table: u16, key: &Key) -> Option<&Row> {
        row_in(self.as_slice(), table, key)
    }
}

// The row at a cell of copies.
fn row_in<'a>(rows: &'a [Write], table: u16, key: &Key) -> Option<&'a Row>
    ensures { option_map (λ row. row.now) result ≡ get (written empty rows.now) (table, key.now) }
{
    match find(rows, table, key) {
        Some(at) => rows[at].row.as_ref(),
        None => None,
    }
}

/// The rows of tables, as they stand. None is copied.
#[derive(Drop)]
pub(crate) struct Standing<'a, R> {
    pub(crate) rows: &'a R,
}

impl<'a, R: Rows> RowSource for Standing<'a, R> {
    ghost base = { λ source. R.held source.rows.now };

    ghost There = { λ source table. table < R.tables source.rows.now };

    fn row(&self, table: u16, key: &Key) -> Option<&Row> {
        self.rows.get(table, key)
    }
}

/// The row at a cell, once the writes are made over the rows of a source. It looks through the list, and then asks once.
pub(crate) fn row_at<'a, S: RowSource>(
    source: &'a S,
    writes: &'a [Write],
    table: u16,
    key: &Key,
) -> Option<&'a Row>
    requires { S.There source.now table }
    ensures { option_map (λ row. row.now) result ≡ get (written (S.base source.now) writes.now) (table, key.now) }
{
    match find(writes, table, key) {
        Some(at) => writes[at].row.as_ref(),
        None => source.row(table, key),
    }
}
