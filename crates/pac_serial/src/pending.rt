// Changes that are not made yet.
ghost use Rattle.std.specs.Prelude.{◌≡◌, is_some};

use pac_value::Row;

/// A change at a cell: the row that is to stand there, or none, and whether it puts one. Once the row is put, the one that
/// it replaced stands here in its place, until the transaction ends.
#[derive(Drop)]
pub(crate) struct Pending {
    pub(crate) row: Option<Row>,
    pub(crate) puts: bool,
}

impl Pending {
    /// This row is to stand at the cell, or none.
    pub(crate) fn new(row: Option<Row>) -> Pending
        ensures { result ≡ record { row = row; puts = is_some row } }
    {
        let puts = row.is_some();
        Pending { row, puts }
    }

    /// Another row is to stand at the cell, or none.
    pub(crate) fn replace(&mut self, row: Option<Row>)
        ensures { self.new ≡ record { row = row; puts = is_some row } }
    {
        self.puts = row.is_some();
        self.row = row;
    }
}
