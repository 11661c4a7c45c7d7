// A table in the order of its keys.
ghost use Rattle.std.specs.Prelude.{◌≡◌, IfOk, OnOk, map as list_map};
ghost use Rattle.std.specs.FinMap as map;
ghost use Rattle.std.specs.BTreeMap as tree;

use crate::TableRows;
use pac_base::{Exact, NoMemory};
use pac_value::{Key, Row};
use std::alloc::Global;
use std::collections::BTreeMap;
use std::marker::Model;

/// The rows of one table, in the order of their keys. A look-up and a change take time logarithmic in the rows, the keys
/// time linear in them.
#[derive(Drop)]
pub struct OrderedTable {
    rows: BTreeMap<Key, Row>,
}

impl Model for OrderedTable {
    ghost use Rattle.std.specs.FinMap as map;
    ghost use Rattle.pac_tables.specs.Joined.{OneTable, table_code};

    ghost Value = { OneTable };

    ghost coded = { table_code };

    ghost view = { λ table. map.from_entries table.rows.entries };
}

impl OrderedTable {
    fn put(&mut self, key: Key, row: Row) -> Result<(), NoMemory>
        ensures { OnOk result (self.new ≡ map.insert self.old key row) }
    {
        self.rows.insert(key, row)?;
        Ok(())
    }
}

impl TableRows for OrderedTable {
    ghost rows = { λ table. table };

    fn new(alloc: Global) -> OrderedTable {
        OrderedTable {
            rows: BTreeMap::new(alloc),
        }
    }

    fn get(&self, key: &Key) -> Option<&Row> {
        self.rows.get(key)
    }

    fn insert(&mut self, key: Key, row: Row) -> Result<Option<Row>, Row> {
        let old = match self.rows.insert(key, row) {
            Ok(old) => old,
            Err(refused) => return Err(refused.value.1),
        };
        Ok(old)
    }

    fn remove(&mut self, key: &Key) -> Option<Row> {
        self.rows.remove(key)
    }

    fn count(&self) -> u64 {
        self.rows.len() as u64
    }

    fn sorted_keys(&self, alloc: Global) -> Result<Vec<Key>, NoMemory> {
        let _ordered = self.rows.len();
        keys_in(alloc, &self.rows)
    }

    fn sorted_rows(&self, alloc: Global) -> Result<Vec<(&Key, &Row)>, NoMemory> {
        let _ordered = self.rows.len();
        rows_in(alloc, &self.rows)
    }
}

impl Exact for OrderedTable {
    // From the last row to the first: each is put before those after it.
    fn copy(&self, alloc: Global) -> Result<OrderedTable, NoMemory> {
        let mut copy = OrderedTable::new(alloc);
        let mut left = self.rows.iter();
        while let Some((key, row)) = left.next_back() {
            copy.put(*key, row.copy(alloc)?)?;
        }
        Ok(copy)
    }
}

fn keys_in(alloc: Global, rows: &BTreeMap<Key, Row>) -> Result<Vec<Key>, NoMemory>
    ensures { IfOk result (λ found. found.items ≡ tree.keys rows.now) }
{
    let keys = rows.keys().copied().collect(alloc)?;
    Ok(keys)
}

fn rows_in(alloc: Global, rows: &BTreeMap<Key, Row>) -> Result<Vec<(&Key, &Row)>, NoMemory>
    ensures { IfOk result (λ found. list_map (λ e. (e.0.now, e.1.now)) found.items ≡ rows.now.entries) }
{
    let found = rows.iter().collect(alloc)?;
    Ok(found)
}
