// Copies of rows: their copies, and comparing them.
ghost use Rattle.std.specs.Prelude.{◌≡◌, ◌↔◌, ◌<◌, length, IsTrue, IfOk};
ghost use Rattle.std.specs.List.{AllByRecursion};
ghost use Rattle.std.specs.FinMap.{empty};
ghost use Rattle.pac_ops.specs.Shapes.{RowsFit};
ghost use Rattle.pac_tables.specs.Written.{written};
ghost use Rattle.pac_piece.specs.Copies.{CopyFits};

use pac_base::{Exact, Listed, NoMemory, Same, listed};
use pac_plan::Plan;
use pac_tables::Write;
use std::alloc::Global;

/// Whether each copy of a row fits its table. Takes no memory.
pub fn rows_fit(plan: &Plan, rows: &[Write]) -> bool
    ensures each { IsTrue result ↔ AllByRecursion (CopyFits plan.now.tables) rows.now }
    ensures tables { IsTrue result → RowsFit plan.now.tables (written empty rows.now) }
{
    all_fit(plan, rows)
}

fn all_fit(plan: &Plan, rows: &[Write]) -> bool
    ensures { IsTrue result ↔ AllByRecursion (CopyFits plan.now.tables) rows.now }
{
    for row in rows {
        if !copy_fits(plan, row) {
            return false;
        }
    }
    true
}

fn copy_fits(plan: &Plan, copy: &Write) -> bool
    ensures { IsTrue result ↔ CopyFits plan.now.tables copy.now }
{
    match &copy.row {
        Some(row) => plan.row_fits(copy.table, &copy.key, row.items()),
        None => true,
    }
}

/// An equal list.
pub(crate) fn copy_rows(alloc: Global, rows: &[Write]) -> Result<Listed<Write>, NoMemory>
    ensures { IfOk result (λ copy. copy ≡ rows.now) }
{
    let mut copy = Vec::with_capacity(alloc, rows.len())?;
    for row in rows {
        copy.push(copy_row(alloc, row)?)?;
    }
    Ok(listed(copy))
}

fn copy_row(alloc: Global, row: &Write) -> Result<Write, NoMemory>
    ensures { IfOk result (λ copy. copy ≡ row.now) }
{
    Ok(Write {
        table: row.table,
        key: row.key,
        row: row.row.copy(alloc)?,
    })
}

/// Whether the lists are equal.
pub(crate) fn same_rows(one: &[Write], other: &[Write]) -> bool
    ensures { IsTrue result ↔ (one.now ≡ other.now) }
{
    if one.len() != other.len() {
        return false;
    }
    for i in 0..one.len() {
        if !same_row(&one[i], &other[i]) {
            return false;
        }
    }
    true
}

fn same_row(one: &Write, other: &Write) -> bool
    ensures { IsTrue result ↔ (one.now ≡ other.now) }
{
    one.table == other.table && one.key == other.key && one.row.same(&other.row)
}
