// What every form of tables does.
ghost use Rattle.std.specs.Prelude.{◌≡◌, ◌<◌, ℕ, length, map as list_map, None, Some, IfOk, IfErr, IsOk, IsSome, OnOk, OnErr};
ghost use Rattle.std.specs.Option.{option_map};
ghost use Rattle.std.specs.FinMap as map;
ghost use Rattle.pac_value.specs.State.{Tables, keys_of};

use pac_base::NoMemory;
use pac_value::{Key, Row};

/// The rows of some number of tables: a finite map from cells, a table's number and a key, to rows. Tables are numbered
/// from 0; how many there are never changes.
pub trait Rows: Drop {
    // The rows of all tables, by their cells.
    ghost held: { Self → Tables };

    // How many tables there are.
    ghost tables: { Self → ℕ };

    /// How many tables there are. Takes no memory.
    fn tables(&self) -> u16
        ensures { result ≡ tables self.now };

    /// The row at a cell. `None`: no row stands there. Takes no memory.
    fn get(&self, table: u16, key: &Key) -> Option<&Row>
        requires { table < tables self.now }
        ensures { option_map (λ row. row.now) result ≡ map.get (held self.now) (table, key.now) };

    /// Inserts or replaces the row at a cell, and returns the one that stood there. One look-up.
    ///
    /// # Errors
    ///
    /// The row, only where none stood at the cell and no room was found. Then nothing is changed.
    fn insert(&mut self, table: u16, key: Key, row: Row) -> Result<Option<Row>, Row>
        requires { table < tables self.old }
        ensures old { IfOk result (λ old. old ≡ map.get (held self.old) (table, key)) }
        ensures ok { OnOk result (held self.new ≡ map.insert (held self.old) (table, key) row) }
        ensures back { IfErr result (λ back. back ≡ row) }
        ensures err { OnErr result (held self.new ≡ held self.old) }
        ensures absent { OnErr result (map.get (held self.old) (table, key) ≡ None) }
        ensures tables { tables self.new ≡ tables self.old };

    /// Removes the row at a cell, and returns it, where there is one. Takes no memory. One look-up.
    fn remove(&mut self, table: u16, key: &Key) -> Option<Row>
        requires { table < tables self.old }
        ensures old { result ≡ map.get (held self.old) (table, key.now) }
        ensures rows { held self.new ≡ map.remove (held self.old) (table, key.now) }
        ensures tables { tables self.new ≡ tables self.old };

    /// Inserts or replaces the row at a cell. Where a row stands there already, it is replaced and no memory is taken.
    ///
    /// # Errors
    ///
    /// [`NoMemory`] only where no row stands at the cell. Then nothing is changed.
    fn put(&mut self, table: u16, key: Key, row: Row) -> Result<(), NoMemory>
        requires { table < tables self.old }
        ensures ok { OnOk result (held self.new ≡ map.insert (held self.old) (table, key) row) }
        ensures err { OnErr result (held self.new ≡ held self.old) }
        ensures present { IsSome (map.get (held self.old) (table, key)) → IsOk result }
        ensures tables { tables self.new ≡ tables self.old };

    /// Removes the row at a cell, where there is one. Takes no memory.
    fn delete(&mut self, table: u16, key: &Key)
        requires { table < tables self.old }
        ensures rows { held self.new ≡ map.remove (held self.old) (table, key.now) }
        ensures tables { tables self.new ≡ tables self.old };

    /// How many rows a table has. Takes no memory.
    fn count(&self, table: u16) -> u64
        requires { table < tables self.now }
        ensures { result ≡ length (keys_of (held self.now) table) };

    /// The keys of a table's rows, ascending, each once.
    ///
    /// # Errors
    ///
    /// [`NoMemory`] where the list finds no room.
    fn sorted_keys(&self, table: u16) -> Result<Vec<Key>, NoMemory>
        requires { table < tables self.now }
        ensures { IfOk result (λ keys. keys.items ≡ keys_of (held self.now) table) };

    /// A table's rows with their keys, by ascending keys. No row is looked up.
    ///
    /// # Errors
    ///
    /// [`NoMemory`] where the list finds no room.
    fn sorted_rows(&self, table: u16) -> Result<Vec<(&Key, &Row)>, NoMemory>
        requires { table < tables self.now }
        ensures keys { IfOk result (λ found. list_map (λ e. e.0.now) found.items ≡ keys_of (held self.now) table) }
        ensures rows { IfOk result (λ found. list_map (λ e. Some e.1.now) found.items ≡ list_map (λ key. map.get (held self.now) (table, key)) (keys_of (held self.now) table)) };

    /// The same rows of as many tables.
    ///
    /// # Errors
    ///
    /// [`NoMemory`] where the copy finds no room.
    fn copy(&self) -> Result<Self, NoMemory>
    where
        Self: Sized,
        ensures rows { IfOk result (λ copy. held copy ≡ held self.now) }
        ensures tables { IfOk result (λ copy. tables copy ≡ tables self.now) };
}
