// The tables with which an execution can begin.
ghost use Rattle.std.specs.Prelude.{◌≡◌, length, IfOk};
ghost use Rattle.std.specs.FinMap.{empty};
ghost use Rattle.pac_types.specs.Fits.{FitsCatalogue};

use pac_base::NoMemory;
use pac_tables::{JoinedRows, TableRows};
use pac_types::Catalogue;
use std::alloc::Global;

/// The tables of a catalogue, with no rows, in the form that the caller names.
///
/// # Errors
///
/// [`NoMemory`] where the tables find no room.
pub fn no_rows<T: TableRows>(alloc: Global, cat: &Catalogue) -> Result<JoinedRows<T>, NoMemory>
    ensures rows { IfOk result (λ rows. rows ≡ record { tables = length cat.now.tables; rows = empty }) }
    ensures fits { IfOk result (λ rows. FitsCatalogue cat.now rows.tables rows.rows) }
{
    let tables = cat.tables();
    JoinedRows::new(alloc, tables.len() as u16)
}
