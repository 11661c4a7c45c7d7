// Who takes the rows of a checkpoint.
ghost use Rattle.std.specs.Prelude.{◌≡◌, ◌<◌, ◌^◌, ℕ, OnOk};
ghost use Rattle.std.specs.FinMap as map;
ghost use Rattle.pac_value.specs.State.{Tables};

use pac_base::NoMemory;
use pac_tables::Rows;
use pac_value::{Key, Row};

/// Who takes the rows of a checkpoint as they are read: table by table, by ascending keys.
pub(crate) trait Taker {
    // Of how many tables it takes rows.
    ghost tables: { Self → ℕ };

    // It may hold these rows.
    ghost holds: { Self → Tables → Type 0 };

    /// Takes a row.
    ///
    /// # Errors
    ///
    /// [`NoMemory`] where it finds no room.
    fn take(&mut self, table: u16, key: Key, row: Row) -> Result<(), NoMemory>
        requires { table < tables self.old }
        ensures took { OnOk result ((held : Tables) → holds self.old held → holds self.new (map.insert held (table, key) row)) }
        ensures tables { tables self.new ≡ tables self.old };
}

/// Lets the rows go.
#[derive(Drop)]
pub(crate) struct Passer;

impl Taker for Passer {
    ghost tables = { λ _. 2 ^ 16 };

    ghost holds = { λ _ _. Unit {0} };

    fn take(&mut self, _table: u16, _key: Key, _row: Row) -> Result<(), NoMemory> {
        Ok(())
    }
}

impl<R: Rows> Taker for R {
    ghost tables = { λ rows. R.tables rows };

    ghost holds = { λ rows held. R.held rows ≡ held };

    fn take(&mut self, table: u16, key: Key, row: Row) -> Result<(), NoMemory> {
        self.put(table, key, row)
    }
}
