// Several tables as one finite map.
ghost use Rattle.std.specs.Prelude.{◌≡◌, ◌<◌, ◌^◌, length, IfOk};
ghost use Rattle.std.specs.FinMap as map;

use crate::{HashedTable, OrderedTable, Rows, TableRows};
use pac_base::{NoMemory, copy_of};
use pac_value::{Key, Row};
use std::alloc::Global;
use std::marker::Model;

/// The rows of tables that each stand apart. A call costs what it costs in its table.
#[derive(Drop)]
pub struct JoinedRows<T: TableRows> {
    alloc: Global,
    tables: Vec<T>,
}

/// The rows of tables, each table's in the order of their keys: the keys of a table are at hand in order.
pub type OrderedRows = JoinedRows<OrderedTable>;

/// The rows of tables, each table's hashed by their keys: a row is found in constant time, unless many keys have one hash.
pub type HashedRows = JoinedRows<HashedTable>;

impl<T: TableRows> Model for JoinedRows<T> {
    ghost use Rattle.std.specs.Prelude.{length, map, ◌<◌, ◌^◌};
    ghost use Rattle.pac_tables.specs.Joined.{Held, held_code, joined_tables};

    ghost Value = { Held };

    ghost coded = { held_code };

    ghost view = { λ all. record { tables = length all.tables.items; rows = joined_tables (map T.rows all.tables.items) } };

    ghost invariant = { λ all. length all.tables.items < 2 ^ 16 };
}

impl<T: TableRows> JoinedRows<T> {
    /// That many tables, with no rows.
    ///
    /// # Errors
    ///
    /// [`NoMemory`] where the tables find no room.
    pub fn new(alloc: Global, tables: u16) -> Result<JoinedRows<T>, NoMemory>
        ensures { IfOk result (λ all. all ≡ record { tables = tables; rows = map.empty }) }
    {
        let mut all = Vec::with_capacity(alloc, usize::from(tables))?;
        for _ in 0..tables {
            all.push(T::new(alloc))?;
        }
        Ok(JoinedRows { alloc, tables: all })
    }
}

impl<T: TableRows> Rows for JoinedRows<T> {
    ghost held = { λ all. all.rows };

    ghost tables = { λ all. all.tables };

    fn tables(&self) -> u16 {
        self.tables.len() as u16
    }

    fn get(&self, table: u16, key: &Key) -> Option<&Row> {
        self.tables[usize::from(table)].get(key)
    }

    fn insert(&mut self, table: u16, key: Key, row: Row) -> Result<Option<Row>, Row> {
        self.tables[usize::from(table)].insert(key, row)
    }

    fn remove(&mut self, table: u16, key: &Key) -> Option<Row> {
        self.tables[usize::from(table)].remove(key)
    }

    fn put(&mut self, table: u16, key: Key, row: Row) -> Result<(), NoMemory> {
        match self.insert(table, key, row) {
            Ok(_) => Ok(()),
            Err(_) => Err(NoMemory),
        }
    }

    fn delete(&mut self, table: u16, key: &Key) {
        let _ = self.remove(table, key);
    }

    fn count(&self, table: u16) -> u64 {
        self.tables[usize::from(table)].count()
    }

    fn sorted_keys(&self, table: u16) -> Result<Vec<Key>, NoMemory> {
        self.tables[usize::from(table)].sorted_keys(self.alloc)
    }

    fn sorted_rows(&self, table: u16) -> Result<Vec<(&Key, &Row)>, NoMemory> {
        self.tables[usize::from(table)].sorted_rows(self.alloc)
    }

    fn copy(&self) -> Result<JoinedRows<T>, NoMemory> {
        let tables = copy_of(self.alloc, &self.tables)?;
        Ok(JoinedRows {
            alloc: self.alloc,
            tables,
        })
    }
}
