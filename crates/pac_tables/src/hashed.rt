// A table hashed by its keys.
ghost use Rattle.std.specs.Prelude.{◌≡◌, IfOk, OnOk, map as list_map};
ghost use Rattle.std.specs.FinMap as map;
ghost use Rattle.indexmap.specs.IndexMap as indexed;

use crate::TableRows;
use indexmap::IndexMap;
use pac_base::{Exact, NoMemory};
use pac_value::{Key, Row};
use std::alloc::Global;
use std::marker::Model;

/// The rows of one table, hashed by their keys, in no order. A look-up and a change take constant time, unless many
/// keys have one hash; the hash is a fixed function, so that keys chosen for it make this slow and change no answer. The
/// keys are sorted when they are asked for.
#[derive(Drop)]
pub struct HashedTable {
    rows: IndexMap<Key, Row>,
}

impl Model for HashedTable {
    ghost use Rattle.std.specs.FinMap as map;
    ghost use Rattle.pac_tables.specs.Joined.{OneTable, table_code};

    ghost Value = { OneTable };

    ghost coded = { table_code };

    ghost view = { λ table. map.from_entries table.rows.entries };
}

impl HashedTable {
    fn put(&mut self, key: Key, row: Row) -> Result<(), NoMemory>
        ensures { OnOk result (self.new ≡ map.insert self.old key row) }
    {
        self.rows.insert(key, row)?;
        Ok(())
    }
}

impl TableRows for HashedTable {
    ghost rows = { λ table. table };

    fn new(alloc: Global) -> HashedTable {
        HashedTable {
            rows: IndexMap::new(alloc),
        }
    }

    fn get(&self, key: &Key) -> Option<&Row> {
        self.rows.get(key)
    }

    fn insert(&mut self, key: Key, row: Row) -> Result<Option<Row>, Row> {
        let old = match self.rows.insert(key, row) {
            Ok(old) => old,
            Err(refused) => return Err(refused.value.1),
        };
        Ok(old)
    }

    fn remove(&mut self, key: &Key) -> Option<Row> {
        self.rows.swap_remove(key)
    }

    fn count(&self) -> u64 {
        self.rows.len() as u64
    }

    fn sorted_keys(&self, alloc: Global) -> Result<Vec<Key>, NoMemory> {
        let _unique = self.rows.len();
        let mut keys = keys_in(alloc, &self.rows)?;
        keys.sort()?;
        Ok(keys)
    }

    fn sorted_rows(&self, alloc: Global) -> Result<Vec<(&Key, &Row)>, NoMemory> {
        let _unique = self.rows.len();
        let mut rows = rows_in(alloc, &self.rows)?;
        rows.sort_by(|a, b| a.0.cmp(b.0))?;
        Ok(rows)
    }
}

impl Exact for HashedTable {
    // From the last row to the first: each is put before those after it.
    fn copy(&self, alloc: Global) -> Result<HashedTable, NoMemory> {
        let mut copy = HashedTable::new(alloc);
        let mut left = self.rows.iter();
        while let Some((key, row)) = left.next_back() {
            copy.put(*key, row.copy(alloc)?)?;
        }
        Ok(copy)
    }
}

fn keys_in(alloc: Global, rows: &IndexMap<Key, Row>) -> Result<Vec<Key>, NoMemory>
    ensures { IfOk result (λ found. found.items ≡ indexed.keys rows.now) }
{
    let keys = rows.keys().copied().collect(alloc)?;
    Ok(keys)
}

fn rows_in(alloc: Global, rows: &IndexMap<Key, Row>) -> Result<Vec<(&Key, &Row)>, NoMemory>
    ensures { IfOk result (λ found. list_map (λ e. (e.0.now, e.1.now)) found.items ≡ rows.now.entries) }
{
    let found = rows.iter().collect(alloc)?;
    Ok(found)
}
