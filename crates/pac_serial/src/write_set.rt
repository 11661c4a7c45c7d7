// The changes of a transaction that has not ended.
ghost use Rattle.std.specs.Prelude.{◌≡◌, ◌<◌, ◌≤◌, ◌∷◌, ℕ, T, [], length, map as each, vec_len, IfOk, IfErr, OnOk, OnErr};
ghost use Rattle.std.specs.List.{insert};
ghost use Rattle.std.specs.Option.{option_map};
ghost use Rattle.std.specs.FinMap as map;
ghost use Rattle.std.specs.FinMap.{is_sorted};
ghost use Rattle.pac_value.specs.State.{Tables, cell_cmp, with_row};
ghost use Rattle.pac_value.specs.Sorted.{IsOffsetOf, IsGapFor};
ghost use Rattle.pac_serial.specs.Writes.{shown};
ghost use Rattle.pac_serial.specs.WriteSets.{as_changed, AreUnmade, ChangesAt, image_left, gains, loses, gained, lost};

use crate::commit::{delete_rows, put_rows};
use crate::pending::Pending;
use pac_base::{Exact, Listed, NoMemory, push};
use pac_ops::Change;
use pac_tables::Rows;
use pac_value::{Key, Row};
use std::alloc::Global;
use std::cmp::Ordering;
use std::marker::Model;

// The most rows that are kept for their room.
const MAX_SPARE: usize = 64;

/// A change, and the cell that is changed.
pub(crate) type CellChange = ((u16, Key), Pending);

/// The changes of a transaction, in the order of their cells: the tables stay as they are until it ends.
#[derive(Drop)]
pub(crate) struct WriteSet {
    changes: Vec<CellChange>,
}

impl Model for WriteSet {
    ghost use Rattle.std.specs.Prelude.{T};
    ghost use Rattle.std.specs.FinMap as map;
    ghost use Rattle.std.specs.FinMap.{is_sorted};
    ghost use Rattle.std.specs.Coded.{coded×, coded_ℕ};
    ghost use Rattle.pac_value.specs.State.{cell_cmp};
    ghost use Rattle.pac_value.specs.contracts.values.Key as key_type;
    ghost use Rattle.pac_serial.specs.contracts.pending.Pending as pending_type;
    ghost use Rattle.pac_serial.specs.WriteSets.{Changes};

    ghost Value = { Changes };

    ghost coded = { map.code (coded× coded_ℕ key_type.the_row.coded) pending_type.the_row.coded };

    ghost view = { λ write_set. map.from_sorted write_set.changes.items };

    ghost invariant = { λ write_set. T (is_sorted cell_cmp write_set.changes.items) };
}

// Where a cell is changed, or else where its change would stand. The last change comes first: most cells are changed in order.
fn search(changes: &[CellChange], table: u16, key: &Key) -> Result<usize, usize>
    requires { T (is_sorted cell_cmp changes.now) }
    ensures found { IfOk result (IsOffsetOf changes.now (table, key.now)) }
    ensures absent { IfErr result (IsGapFor cell_cmp changes.now (table, key.now)) }
{
    let count = changes.len();
    if count == 0 {
        return Err(0);
    }
    match order(&changes[count - 1].0, table, key) {
        Ordering::Less => Err(count),
        Ordering::Equal => Ok(count - 1),
        Ordering::Greater => changes.binary_search_by(|change| order(&change.0, table, key)),
    }
}

// How a cell stands to the one of this table and key. Neither is copied: a key is large.
fn order(cell: &(u16, Key), table: u16, key: &Key) -> Ordering
    ensures { result ≡ cell_cmp cell.now (table, key.now) }
{
    match cell.0.cmp(&table) {
        Ordering::Equal => cell.1.cmp(key),
        other => other,
    }
}

// Adds a change at an offset. After all others, none of these is moved.
fn add_at(changes: &mut Vec<CellChange>, at: usize, change: CellChange) -> Result<(), NoMemory>
    requires { at ≤ vec_len changes.old }
    ensures ok { OnOk result (changes.new.items ≡ insert changes.old.items at change) }
    ensures err { OnErr result (changes.new.items ≡ changes.old.items) }
{
    if at == changes.len() {
        push(changes, change)?;
    } else {
        changes.insert(at, change)?;
    }
    Ok(())
}

// Takes the rows of changes away: up to `MAX_SPARE` rows are kept, the others are dropped.
fn take_rows(changes: &mut [CellChange], spare: &mut Listed<Row>) {
    for at in 0..changes.len() {
        if let Some(row) = changes[at].1.row.take()
            && spare.len() < MAX_SPARE
        {
            let _ = spare.push(row);
        }
    }
}

impl WriteSet {
    /// Nothing is changed yet. Takes no memory.
    pub(crate) fn new(alloc: Global) -> WriteSet
        ensures { result ≡ map.empty }
    {
        WriteSet {
            changes: Vec::new(alloc),
        }
    }

    /// Forgets all changes, and keeps their room. Their rows become spare ones.
    pub(crate) fn clear(&mut self, spare: &mut Listed<Row>)
        ensures { self.new ≡ map.empty }
    {
        take_rows(&mut self.changes, spare);
        self.changes.clear();
    }

    /// The row at a cell, as the transaction sees it. It looks up the cell among the changes, and then in the tables.
    pub(crate) fn get<'a, R: Rows>(&'a self, rows: &'a R, table: u16, key: &Key) -> Option<&'a Row>
        requires { table < R.tables rows.now }
        ensures { option_map (λ row. row.now) result ≡ map.get (as_changed (R.held rows.now) self.now) (table, key.now) }
    {
        match search(&self.changes, table, key) {
            Ok(at) => self.changes[at].1.row.as_ref(),
            Err(_) => rows.get(table, key),
        }
    }

    /// A row is to stand at the cell, or none. The tables are not looked up.
    pub(crate) fn change(&mut self, table: u16, key: Key, row: Option<Row>) -> Result<(), NoMemory>
        ensures ok { (held : Tables) → OnOk result (as_changed held self.new ≡ with_row (as_changed held self.old) (table, key) row) }
        ensures err { OnErr result (self.new ≡ self.old) }
        ensures unmade { (number : ℕ) → table < number → AreUnmade number self.old → AreUnmade number self.new }
        ensures cells { OnOk result (ChangesAt ((table, key) ∷ []) self.old self.new) }
    {
        match search(&self.changes, table, &key) {
            Ok(at) => self.changes[at].1.replace(row),
            Err(at) => add_at(&mut self.changes, at, ((table, key), Pending::new(row)))?,
        }
        Ok(())
    }

    /// How many cells are changed.
    pub(crate) fn len(&self) -> u64
        ensures { result ≡ length (map.entries self.now) }
    {
        self.changes.len() as u64
    }

    /// The after-images that the changes leave, ascending by their cells. The rows are copies.
    pub(crate) fn images(&self, alloc: Global) -> Result<Vec<Change>, NoMemory>
        ensures { IfOk result (λ images. images.items ≡ each image_left (map.entries self.now)) }
    {
        let mut images = Vec::with_capacity(alloc, self.changes.len())?;
        for change in &self.changes {
            images.push(image_of(alloc, change)?)?;
        }
        Ok(images)
    }

    /// How many rows the changes add to a table, and how many they take away.
    pub(crate) fn balance<R: Rows>(&self, rows: &R, table: u16) -> (u64, u64)
        requires { table < R.tables rows.now }
        ensures gained { result.0 ≡ gained (R.held rows.now) table (map.entries self.now) }
        ensures lost { result.1 ≡ lost (R.held rows.now) table (map.entries self.now) }
    {
        let mut gained = 0;
        let mut lost = 0;
        for change in &self.changes {
            gained += gain(rows, table, change);
            lost += loss(rows, table, change);
        }
        (gained, lost)
    }

    /// Makes the changes, or none where a row finds no room. Rows are moved, and none is copied. One look-up a change.
    pub(crate) fn commit<R: Rows>(&mut self, rows: &mut R) -> Result<(), NoMemory>
        requires { AreUnmade (R.tables rows.old) self.old }
        ensures ok { OnOk result (R.held rows.new ≡ as_changed (R.held rows.old) self.old) }
        ensures err { OnErr result (R.held rows.new ≡ R.held rows.old) }
        ensures tables { R.tables rows.new ≡ R.tables rows.old }
    {
        put_rows(rows, &mut self.changes)?;
        delete_rows(rows, &self.changes);
        Ok(())
    }
}

// The after-image that a change leaves: a copy of the row that is to stand at the cell, or none.
fn image_of(alloc: Global, change: &CellChange) -> Result<Change, NoMemory>
    ensures { IfOk result (λ image. image ≡ shown change.now.0 change.now.1.row) }
{
    let ((table, key), pending) = change;
    let (table, key) = (*table, *key);
    match &pending.row {
        Some(row) => {
            let row = row.copy(alloc)?;
            Ok(Change::Put { table, key, row })
        }
        None => Ok(Change::Delete { table, key }),
    }
}

// One where the change adds a row to the table.
fn gain<R: Rows>(rows: &R, table: u16, change: &CellChange) -> u64
    requires { table < R.tables rows.now }
    ensures value { result ≡ gains (R.held rows.now) table change.now }
    ensures few { result ≤ 1 }
{
    let ((changed, key), pending) = change;
    u64::from(*changed == table && (pending.row.is_some() && rows.get(table, key).is_none()))
}

// One where the change takes a row away from the table.
fn loss<R: Rows>(rows: &R, table: u16, change: &CellChange) -> u64
    requires { table < R.tables rows.now }
    ensures value { result ≡ loses (R.held rows.now) table change.now }
    ensures few { result ≤ 1 }
{
    let ((changed, key), pending) = change;
    u64::from(*changed == table && (pending.row.is_none() && rows.get(table, key).is_some()))
}
