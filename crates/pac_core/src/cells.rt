// The cells at which a piece may touch rows, and copies of the rows there.
ghost use Rattle.std.specs.Prelude.{◌≡◌, ◌↔◌, ◌<◌, AllPairs, Contains, IfOk, IsTrue};
ghost use Rattle.std.specs.declared.cmp.Ordering.TheVariants.{Less};
ghost use Rattle.std.specs.List.{All};
ghost use Rattle.std.specs.Option.{option_map};
ghost use Rattle.pac_value.specs.State.{Cell, cell_cmp};
ghost use Rattle.pac_plan.specs.declared.access.Access.TheVariants.{Keys};
ghost use Rattle.pac_core.specs.Cells.{AreCellsOf, AreOf, copies_at, copy_at};

use pac_base::{Exact, NoMemory, Same};
use pac_plan::{Access, Touch};
use pac_tables::{Rows, Write};
use pac_value::{Key, Row};
use std::alloc::Global;

/// The cells at which a piece may touch rows.
#[derive(Drop)]
pub(crate) enum PieceCells {
    /// Each once, ascending.
    Keys(Vec<(u16, Key)>),
    /// Any cell of its block.
    Whole,
}

/// The cells of an access.
pub(crate) fn cells_of(alloc: Global, access: &Access) -> Result<PieceCells, NoMemory>
    ensures { IfOk result (AreOf access.now) }
{
    match access {
        Access::Keys(touches) => Ok(PieceCells::Keys(touched(alloc, touches.as_slice())?)),
        Access::Whole => Ok(PieceCells::Whole),
    }
}

// The cells that touches name.
fn touched(alloc: Global, touches: &[Touch]) -> Result<Vec<(u16, Key)>, NoMemory>
    ensures { IfOk result (λ cells. AreCellsOf (Keys touches.now) cells.items) }
{
    let mut cells = Vec::with_capacity(alloc, touches.len())?;
    for touch in touches {
        cells.push((touch.table, touch.key))?;
    }
    order(&mut cells);
    Ok(cells)
}

// Sorts cells, and keeps each once.
fn order(cells: &mut Vec<(u16, Key)>)
    ensures ascending { AllPairs (λ a b. cell_cmp a b ≡ Less) cells.new.items }
    ensures same { (a : Cell) → Contains cells.new.items a ↔ Contains cells.old.items a }
{
    cells.sort_unstable();
    cells.dedup();
}

/// Copies of what stands at cells.
pub(crate) fn copies<R: Rows>(
    alloc: Global,
    cells: &[(u16, Key)],
    rows: &R,
) -> Result<Vec<Write>, NoMemory>
    requires { All (λ a. a.0 < R.tables rows.now) cells.now }
    ensures { IfOk result (λ copies. copies.items ≡ copies_at (R.held rows.now) cells.now) }
{
    let mut copies = Vec::with_capacity(alloc, cells.len())?;
    for cell in cells {
        copies.push(copy_at(alloc, cell, rows)?)?;
    }
    Ok(copies)
}

// A copy of what stands at a cell.
fn copy_at<R: Rows>(alloc: Global, cell: &(u16, Key), rows: &R) -> Result<Write, NoMemory>
    requires { cell.now.0 < R.tables rows.now }
    ensures { IfOk result (λ copy. copy ≡ copy_at (R.held rows.now) cell.now) }
{
    let row = match rows.get(cell.0, &cell.1) {
        Some(row) => Some(row.copy(alloc)?),
        None => None,
    };
    Ok(Write {
        table: cell.0,
        key: cell.1,
        row,
    })
}

/// Whether writes are copies of what stands at cells. Takes no memory.
pub(crate) fn are_copies<R: Rows>(cells: &[(u16, Key)], rows: &R, writes: &[Write]) -> bool
    requires { All (λ a. a.0 < R.tables rows.now) cells.now }
    ensures { IsTrue result ↔ (writes.now ≡ copies_at (R.held rows.now) cells.now) }
{
    if writes.len() != cells.len() {
        return false;
    }
    for i in 0..cells.len() {
        if !is_copy(&cells[i], rows, &writes[i]) {
            return false;
        }
    }
    true
}

// Whether a write is a copy of what stands at a cell.
fn is_copy<R: Rows>(cell: &(u16, Key), rows: &R, write: &Write) -> bool
    requires { cell.now.0 < R.tables rows.now }
    ensures { IsTrue result ↔ (write.now ≡ copy_at (R.held rows.now) cell.now) }
{
    write.table == cell.0
        && write.key == cell.1
        && is_row(rows.get(cell.0, &cell.1), write.row.as_ref())
}

// Whether the two are the same row, or both none.
fn is_row(one: Option<&Row>, other: Option<&Row>) -> bool
    ensures { IsTrue result ↔ (option_map (λ row. row.now) other.entry ≡ option_map (λ row. row.now) one.entry) }
{
    match (one, other) {
        (Some(one), Some(other)) => one.same(other),
        (None, None) => true,
        _ => false,
    }
}
