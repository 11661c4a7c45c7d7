// Writes, and applying several of them.
ghost use Rattle.std.specs.Prelude.{◌≡◌, ◌<◌, ◌∷◌, [], IfErr, IsOk, IsSome, OnOk, OnErr};
ghost use Rattle.std.specs.List.{All, AllByRecursion};
ghost use Rattle.std.specs.FinMap as map;
ghost use Rattle.pac_tables.specs.Written.{AreWithin, HasRow, IsOnce, written, cell_written};
ghost use Rattle.pac_value.specs.State.{with_row};
ghost use Rattle.pac_tables.specs.Room.{Grows, IsReady, without_cells};

use crate::Rows;
use pac_base::{Exact, NoMemory, Rule, Ruled};
use pac_value::{Key, Row};
use std::alloc::Global;

/// The row that is to stand at a cell, or `None`: no row is to stand there.
#[derive(Drop)]
pub struct Write {
    pub table: u16,
    pub key: Key,
    pub row: Option<Row>,
}

/// Writes at cells of which none is written twice.
pub type Writes = Ruled<WritesRule>;

/// What [`Writes`] keep.
pub struct WritesRule;

impl Rule for WritesRule {
    type Item = Write;

    ghost use Rattle.pac_tables.specs.Written.{IsOnce};

    ghost holds = { IsOnce };
}

/// Makes all of the writes, or none of them.
///
/// Room is made first: at each cell that is to have a row and has none, a copy of its row is put. If one finds no room,
/// those that were put are deleted again, which takes no memory. Then each write is made in place, and none can fail.
///
/// A write costs a look-up, a put or a delete, and where its row stands at a cell that had none also a copy of the row
/// and one more put. No table is copied.
///
/// # Errors
///
/// [`NoMemory`] with the writes, only where one of them puts a row at a cell that has none. Then the rows are as they
/// were.
pub fn apply_all<R: Rows>(
    alloc: Global,
    rows: &mut R,
    writes: Writes,
) -> Result<(), (Writes, NoMemory)>
    requires { AreWithin (R.tables rows.old) writes }
    ensures ok { OnOk result (R.held rows.new ≡ written (R.held rows.old) writes) }
    ensures err { OnErr result (R.held rows.new ≡ R.held rows.old) }
    ensures writes { IfErr result (λ refused. refused.0 ≡ writes) }
    ensures placed { All (HasRow (R.held rows.old)) writes → IsOk result }
    ensures tables { R.tables rows.new ≡ R.tables rows.old }
{
    match make_room(alloc, rows, writes.items()) {
        Ok(()) => {
            make_all(rows, writes.into_items());
            Ok(())
        }
        Err(NoMemory) => Err((writes, NoMemory)),
    }
}

// Sees that a row stands wherever one is put.
fn make_room<R: Rows>(alloc: Global, rows: &mut R, writes: &[Write]) -> Result<(), NoMemory>
    requires { AreWithin (R.tables rows.old) writes.now }
    ensures ready { OnOk result (All (IsReady (R.tables rows.old) (R.held rows.new)) writes.now) }
    ensures grows { OnOk result (Grows writes.now (R.held rows.old) (R.held rows.new)) }
    ensures err { OnErr result (R.held rows.new ≡ R.held rows.old) }
    ensures placed { All (HasRow (R.held rows.old)) writes.now → IsOk result }
    ensures tables { R.tables rows.new ≡ R.tables rows.old }
{
    let mut made = Vec::new(alloc);
    for write in writes {
        if let Err(NoMemory) = make_cell(alloc, rows, write, &mut made) {
            roll_back(rows, made);
            return Err(NoMemory);
        }
    }
    Ok(())
}

// Where the write puts a row at a cell that has none, puts a copy there and adds the cell to those that were made.
fn make_cell<R: Rows>(
    alloc: Global,
    rows: &mut R,
    write: &Write,
    made: &mut Vec<(u16, Key)>,
) -> Result<(), NoMemory>
    requires within { write.now.table < R.tables rows.old }
    requires made { All (λ cell. cell.0 < R.tables rows.old) made.old.items }
    ensures offset { OnOk result (HasRow (R.held rows.new) write.now) }
    ensures placed { HasRow (R.held rows.old) write.now → IsOk result }
    ensures grows { Grows (write.now ∷ []) (R.held rows.old) (R.held rows.new) }
    ensures back { without_cells (R.held rows.new) made.new.items ≡ without_cells (R.held rows.old) made.old.items }
    ensures made { All (λ cell. cell.0 < R.tables rows.old) made.new.items }
    ensures tables { R.tables rows.new ≡ R.tables rows.old }
{
    let Some(row) = &write.row else {
        return Ok(());
    };
    if rows.get(write.table, &write.key).is_some() {
        return Ok(());
    }
    let copy = row.copy(alloc)?;
    made.push((write.table, write.key))?;
    rows.put(write.table, write.key, copy)
}

// Takes out the rows at the cells, the last of them first.
fn roll_back<R: Rows>(rows: &mut R, mut cells: Vec<(u16, Key)>)
    requires { All (λ cell. cell.0 < R.tables rows.old) cells.items }
    ensures rows { R.held rows.new ≡ without_cells (R.held rows.old) cells.items }
    ensures tables { R.tables rows.new ≡ R.tables rows.old }
{
    while let Some((table, key)) = cells.pop() {
        rows.delete(table, &key);
    }
}

// Makes writes that take no memory, the last of them first.
fn make_all<R: Rows>(rows: &mut R, mut writes: Vec<Write>)
    requires ready { All (IsReady (R.tables rows.old) (R.held rows.old)) writes.items }
    requires once { IsOnce writes.items }
    ensures rows { R.held rows.new ≡ written (R.held rows.old) writes.items }
    ensures tables { R.tables rows.new ≡ R.tables rows.old }
{
    while let Some(write) = writes.pop() {
        make(rows, write);
    }
}

// Makes a write that takes no memory.
fn make<R: Rows>(rows: &mut R, write: Write)
    requires { IsReady (R.tables rows.old) (R.held rows.old) write }
    ensures rows { R.held rows.new ≡ with_row (R.held rows.old) (cell_written write) write.row }
    ensures tables { R.tables rows.new ≡ R.tables rows.old }
{
    let Write { table, key, row } = write;
    match row {
        Some(row) => {
            let Ok(()) = rows.put(table, key, row) else {
                unreachable!()
            };
        }
        None => rows.delete(table, &key),
    }
}
