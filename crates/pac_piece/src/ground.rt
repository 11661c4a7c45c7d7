// What pieces run over in place, and what it takes to undo one of them.
ghost use Rattle.std.specs.Prelude.{◌≡◌, ◌<◌, [], IfOk, OnErr, OnOk};
ghost use Rattle.std.specs.FinMap.{get, insert};
ghost use Rattle.pac_tables.specs.Room.{IsReady};
ghost use Rattle.pac_tables.specs.Written.{cell_written, written};
ghost use Rattle.pac_piece.specs.InPlace.{HaveCellRoom, IsAtRest, IsLeft, KeepsGround, Stands, tables_before, tables_seen};
ghost use Rattle.pac_value.specs.State.{with_row};

use crate::changes::{change, find};
use crate::frame::{Frame, NotKept};
use pac_base::NoMemory;
use pac_tables::{Rows, Write};
use pac_value::{Key, Row};

/// Tables, the values of the transaction that runs, and the least note so far. While a piece runs, they hold what it has done,
/// but for the rows that it deleted: these stand until its end, so that each finds room again.
#[derive(Drop)]
pub(crate) struct Ground<R> {
    pub(crate) rows: R,
    /// The values and the note; and its writes are what is to stand at the cells whose rows the piece deleted.
    pub(crate) frame: Frame<NotKept>,
    /// What stood where the piece put rows, the first put first.
    pub(crate) olds: Vec<Write>,
}

/// A row is to stand at the cell, or none. One that is put where the piece deleted none is put at once, with one look-up. The key
/// is copied only where it is kept.
pub(crate) fn leave<R: Rows>(
    ground: &mut Ground<R>,
    table: u16,
    key: &Key,
    row: Option<Row>,
) -> Result<(), NoMemory>
    requires there { table < R.tables ground.old.rows }
    requires stands { Stands R.held R.tables ground.old }
    ensures keeps { KeepsGround R.held R.tables ground.old ground.new }
    ensures left { OnOk result (IsLeft R.held (table, key.now) row ground.old ground.new) }
    ensures values { ground.new.frame.env ≡ ground.old.frame.env }
    ensures note { ground.new.frame.note ≡ ground.old.frame.note }
{
    if find(&ground.frame.writes, table, key).is_some() {
        return change(&mut ground.frame.writes, table, *key, row);
    }
    match row {
        Some(row) => put(&mut ground.rows, &mut ground.olds, table, key, row),
        None if ground.rows.get(table, key).is_some() => {
            change(&mut ground.frame.writes, table, *key, None)
        }
        None => Ok(()),
    }
}

// Puts a row, and keeps the one that it replaces. One look-up.
fn put<R: Rows>(
    rows: &mut R,
    olds: &mut Vec<Write>,
    table: u16,
    key: &Key,
    row: Row,
) -> Result<(), NoMemory>
    requires there { table < R.tables rows.old }
    ensures ok { OnOk result (R.held rows.new ≡ insert (R.held rows.old) (table, key.now) row) }
    ensures err { OnErr result (R.held rows.new ≡ R.held rows.old) }
    ensures before { written (R.held rows.new) olds.new.items ≡ written (R.held rows.old) olds.old.items }
    ensures room { HaveCellRoom (R.tables rows.old) (R.held rows.old) olds.old.items → HaveCellRoom (R.tables rows.new) (R.held rows.new) olds.new.items }
    ensures tables { R.tables rows.new ≡ R.tables rows.old }
{
    olds.reserve(1)?;
    let old = exchange(rows, table, key, row)?;
    olds.push_reserved(old);
    Ok(())
}

// Puts a row, and answers what puts back the one that it replaces.
fn exchange<R: Rows>(rows: &mut R, table: u16, key: &Key, row: Row) -> Result<Write, NoMemory>
    requires { table < R.tables rows.old }
    ensures ok { OnOk result (R.held rows.new ≡ insert (R.held rows.old) (table, key.now) row) }
    ensures old { IfOk result (λ old. old ≡ record { table = table; key = key.now; row = get (R.held rows.old) (table, key.now) }) }
    ensures err { OnErr result (R.held rows.new ≡ R.held rows.old) }
    ensures tables { R.tables rows.new ≡ R.tables rows.old }
{
    match rows.insert(table, *key, row) {
        Ok(old) => Ok(Write {
            table,
            key: *key,
            row: old,
        }),
        Err(_) => Err(NoMemory),
    }
}

/// The piece ended: the rows that it deleted go. Takes no memory.
pub(crate) fn settle<R: Rows>(ground: &mut Ground<R>)
    requires { Stands R.held R.tables ground.old }
    ensures rows { R.held ground.new.rows ≡ tables_seen R.held ground.old }
    ensures rest { IsAtRest ground.new }
    ensures values { ground.new.frame.env ≡ ground.old.frame.env }
    ensures note { ground.new.frame.note ≡ ground.old.frame.note }
    ensures tables { R.tables ground.new.rows ≡ R.tables ground.old.rows }
{
    let Ground { rows, frame, olds } = ground;
    make_all(rows, &mut frame.writes);
    olds.clear();
}

/// The piece is undone: what stood where it put rows is put back. Takes no memory.
pub(crate) fn undo<R: Rows>(ground: &mut Ground<R>)
    requires { Stands R.held R.tables ground.old }
    ensures rows { R.held ground.new.rows ≡ tables_before R.held ground.old }
    ensures rest { IsAtRest ground.new }
    ensures values { ground.new.frame.env ≡ ground.old.frame.env }
    ensures tables { R.tables ground.new.rows ≡ R.tables ground.old.rows }
{
    let Ground { rows, frame, olds } = ground;
    make_all(rows, olds);
    frame.writes.clear();
}

// Makes writes that take no memory, the last of them first.
fn make_all<R: Rows>(rows: &mut R, writes: &mut Vec<Write>)
    requires { HaveCellRoom (R.tables rows.old) (R.held rows.old) writes.old.items }
    ensures rows { R.held rows.new ≡ written (R.held rows.old) writes.old.items }
    ensures writes { writes.new.items ≡ [] }
    ensures tables { R.tables rows.new ≡ R.tables rows.old }
{
    while let Some(write) = writes.pop() {
        make(rows, write);
    }
}

// Makes a write that takes no memory.
fn make<R: Rows>(rows: &mut R, write: Write)
    requires { IsReady (R.tables rows.old) (R.held rows.old) write }
    ensures rows { R.held rows.new ≡ with_row (R.held rows.old) (cell_written write) write.row }
    ensures tables { R.tables rows.new ≡ R.tables rows.old }
{
    let Write { table, key, row } = write;
    match row {
        Some(row) => {
            let Ok(()) = rows.put(table, key, row) else {
                unreachable!()
            };
        }
        None => rows.delete(table, &key),
    }
}
