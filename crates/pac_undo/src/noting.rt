// Before-images of the cells that writes are about to change.
ghost use Rattle.std.specs.Prelude.{◌≡◌, ◌<◌, true, IfOk, IsOk, OnOk};
ghost use Rattle.std.specs.List.{All};
ghost use Rattle.std.specs.Option.{option_map};
ghost use Rattle.pac_tables.specs.Written.{AreWithin, cell_written, is_written, written};
ghost use Rattle.pac_undo.specs.Images.{AreKept, HaveBeforeImages};

use crate::before_images::BeforeImages;
use pac_base::{Exact, NoMemory};
use pac_tables::{Rows, Write};
use pac_value::Row;
use std::alloc::Global;

/// Notes what stands at each cell of the writes that has no before-image yet. What the before-images put back stays.
///
/// # Errors
///
/// [`NoMemory`] where a before-image finds no room, only where a cell has none. Some may be noted then.
pub(crate) fn note_all<R: Rows>(
    alloc: Global,
    rows: &R,
    before: &mut BeforeImages,
    writes: &[Write],
) -> Result<(), NoMemory>
    requires images { AreWithin (R.tables rows.now) before.old }
    requires writes { AreWithin (R.tables rows.now) writes.now }
    ensures opening { written (R.held rows.now) before.new ≡ written (R.held rows.now) before.old }
    ensures within { AreWithin (R.tables rows.now) before.new }
    ensures noted { OnOk result (HaveBeforeImages before.new writes.now) }
    ensures placed { HaveBeforeImages before.old writes.now → IsOk result }
{
    for write in writes {
        note(alloc, rows, before, write)?;
    }
    Ok(())
}

// Notes what stands at the cell of a write, where it has no before-image yet.
fn note<R: Rows>(
    alloc: Global,
    rows: &R,
    before: &mut BeforeImages,
    write: &Write,
) -> Result<(), NoMemory>
    requires images { AreWithin (R.tables rows.now) before.old }
    requires write { write.now.table < R.tables rows.now }
    ensures opening { written (R.held rows.now) before.new ≡ written (R.held rows.now) before.old }
    ensures within { AreWithin (R.tables rows.now) before.new }
    ensures noted { OnOk result (is_written before.new (cell_written write.now) ≡ true) }
    ensures kept { AreKept before.old before.new }
    ensures placed { is_written before.old (cell_written write.now) ≡ true → IsOk result }
{
    if before.get(write.table, &write.key).is_some() {
        return Ok(());
    }
    let image = copy_of_row(alloc, rows.get(write.table, &write.key))?;
    before.note(write.table, write.key, image)
}

// A copy of a row, where there is one.
fn copy_of_row(alloc: Global, row: Option<&Row>) -> Result<Option<Row>, NoMemory>
    ensures { IfOk result (λ copy. copy ≡ option_map (λ row. row.now) row.entry) }
{
    match row {
        Some(row) => Ok(Some(row.copy(alloc)?)),
        None => Ok(None),
    }
}
