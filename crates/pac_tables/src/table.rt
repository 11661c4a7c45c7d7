// The rows of one table.
ghost use Rattle.std.specs.Prelude.{◌≡◌, IfOk, IfErr, None, OnOk, OnErr, map as list_map};
ghost use Rattle.std.specs.Option.{option_map};
ghost use Rattle.std.specs.FinMap as map;
ghost use Rattle.pac_tables.specs.Joined.{OneTable};

use pac_base::{Exact, NoMemory};
use pac_value::{Key, Row};
use std::alloc::Global;

/// The rows of one table: a finite map from keys to rows. A copy puts each row into a new table.
pub trait TableRows: Exact + Drop {
    // The rows, by their keys.
    ghost rows: { Self → OneTable };

    /// No rows. Takes no memory.
    fn new(alloc: Global) -> Self
        ensures { rows result ≡ map.empty };

    /// The row at a key. `None`: no row stands there. Takes no memory.
    fn get(&self, key: &Key) -> Option<&Row>
        ensures { option_map (λ row. row.now) result ≡ map.get (rows self.now) key.now };

    /// Inserts or replaces the row at a key, and returns the one that stood there.
    ///
    /// # Errors
    ///
    /// The row, only where none stood at the key and no room was found. Then nothing is changed.
    fn insert(&mut self, key: Key, row: Row) -> Result<Option<Row>, Row>
        ensures old { IfOk result (λ old. old ≡ map.get (rows self.old) key) }
        ensures ok { OnOk result (rows self.new ≡ map.insert (rows self.old) key row) }
        ensures back { IfErr result (λ back. back ≡ row) }
        ensures err { OnErr result (rows self.new ≡ rows self.old) }
        ensures absent { OnErr result (map.get (rows self.old) key ≡ None) };

    /// Removes the row at a key, and returns it, where there is one. Takes no memory.
    fn remove(&mut self, key: &Key) -> Option<Row>
        ensures old { result ≡ map.get (rows self.old) key.now }
        ensures rows { rows self.new ≡ map.remove (rows self.old) key.now };

    /// How many rows there are. Takes no memory.
    fn count(&self) -> u64
        ensures { result ≡ map.len (rows self.now) };

    /// The keys, ascending, each once.
    ///
    /// # Errors
    ///
    /// [`NoMemory`] where the list finds no room.
    fn sorted_keys(&self, alloc: Global) -> Result<Vec<Key>, NoMemory>
        ensures { IfOk result (λ keys. keys.items ≡ map.keys (rows self.now)) };

    /// The rows with their keys, by ascending keys. No row is looked up.
    ///
    /// # Errors
    ///
    /// [`NoMemory`] where the list finds no room.
    fn sorted_rows(&self, alloc: Global) -> Result<Vec<(&Key, &Row)>, NoMemory>
        ensures { IfOk result (λ found. list_map (λ e. (e.0.now, e.1.now)) found.items ≡ map.entries (rows self.now)) };
}
