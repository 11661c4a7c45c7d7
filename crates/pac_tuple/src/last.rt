// The last images at the cells of a share.
ghost use Rattle.std.specs.Prelude.{◌≡◌, ◌<◌, OnOk, IfOk};
ghost use Rattle.std.specs.Option.{option_or, unwrap_or};
ghost use Rattle.std.specs.FinMap.{get, empty};
ghost use Rattle.pac_value.specs.State.{Cell, with_row};
ghost use Rattle.pac_tuple.specs.Images.{image_row};
ghost use Rattle.pac_tuple.specs.Shares.{image_left_at, last_at, in_share, AreLastOf, AreRowsWithin};

use crate::images::Images;
use crate::reading::cell_of;
use crate::share::CellShare;
use indexmap::IndexMap;
use pac_base::{Exact, NoMemory};
use pac_ops::Change;
use pac_tables::Rows;
use pac_value::{Key, Row};
use std::alloc::Global;
use std::marker::Model;

/// The last after-images at cells: for each of them the row that stays there, or none.
#[derive(Drop)]
pub(crate) struct LastImages {
    rows: IndexMap<(u16, Key), Option<Row>>,
}

impl Model for LastImages {
    ghost use Rattle.std.specs.FinMap.{from_entries};
    ghost use Rattle.pac_tuple.specs.Shares.{LastRows, last_code};

    ghost Value = { LastRows };

    ghost coded = { last_code };

    ghost view = { λ last. from_entries last.rows.entries };
}

impl LastImages {
    /// The last images at the cells of a share of lists. It looks at each image once, the last one first; what is copied
    /// stays.
    ///
    /// # Errors
    ///
    /// [`NoMemory`] where an allocation is refused.
    pub(crate) fn of_share(
        alloc: Global,
        share: &CellShare,
        images: &Images,
    ) -> Result<LastImages, NoMemory>
        requires { 0 < share.now.count }
        ensures { IfOk result (AreLastOf share.now images.now) }
    {
        let lists = images.as_slice();
        let mut last = LastImages::new(alloc);
        let mut at = lists.len();
        while at > 0 {
            at -= 1;
            last.add_all(alloc, share, lists[at].items())?;
        }
        Ok(last)
    }

    // No image yet. Takes no memory.
    fn new(alloc: Global) -> LastImages
        ensures { result ≡ empty }
    {
        LastImages {
            rows: IndexMap::new(alloc),
        }
    }

    // Looks at the images of a list that stands before all that were looked at, the last one first.
    fn add_all(
        &mut self,
        alloc: Global,
        share: &CellShare,
        images: &[Change],
    ) -> Result<(), NoMemory>
        requires { 0 < share.now.count }
        ensures { OnOk result ((cell : Cell) → get self.new cell ≡ option_or (get self.old cell) (in_share share.now cell (last_at cell images.now))) }
    {
        let mut at = images.len();
        while at > 0 {
            at -= 1;
            self.add(alloc, share, &images[at])?;
        }
        Ok(())
    }

    // Looks at an image that stands before all that were looked at. It is kept where its cell is in the share and has none.
    fn add(&mut self, alloc: Global, share: &CellShare, image: &Change) -> Result<(), NoMemory>
        requires { 0 < share.now.count }
        ensures { OnOk result ((cell : Cell) → get self.new cell ≡ option_or (get self.old cell) (in_share share.now cell (image_left_at cell image.now))) }
    {
        let cell = cell_of(image);
        if !share.has(&cell) {
            return Ok(());
        }
        if self.rows.contains_key(&cell) {
            return Ok(());
        }
        self.rows.insert(cell, row_left(alloc, image)?)?;
        Ok(())
    }

    /// Makes tables have what stays at these cells.
    ///
    /// # Errors
    ///
    /// [`NoMemory`] where a row finds no room. Then some rows are put.
    pub(crate) fn make<R: Rows>(self, rows: &mut R) -> Result<(), NoMemory>
        requires { AreRowsWithin (R.tables rows.old) self }
        ensures rows { OnOk result ((cell : Cell) → get (R.held rows.new) cell ≡ unwrap_or (get self cell) (get (R.held rows.old) cell)) }
        ensures tables { R.tables rows.new ≡ R.tables rows.old }
    {
        let LastImages { rows: mut left } = self;
        while let Some((cell, row)) = left.pop() {
            set_row(rows, cell, row)?;
        }
        Ok(())
    }
}

// The row that an image leaves, as a copy, or none.
fn row_left(alloc: Global, image: &Change) -> Result<Option<Row>, NoMemory>
    ensures { IfOk result (λ row. row ≡ image_row image.now) }
{
    match image {
        Change::Put { row, .. } => Ok(Some(row.copy(alloc)?)),
        Change::Delete { .. } => Ok(None),
    }
}

// Makes a row stand at a cell, or none.
fn set_row<R: Rows>(rows: &mut R, cell: (u16, Key), row: Option<Row>) -> Result<(), NoMemory>
    requires { cell.0 < R.tables rows.old }
    ensures rows { OnOk result (R.held rows.new ≡ with_row (R.held rows.old) cell row) }
    ensures tables { R.tables rows.new ≡ R.tables rows.old }
{
    match row {
        Some(row) => rows.put(cell.0, cell.1, row),
        None => {
            rows.delete(cell.0, &cell.1);
            Ok(())
        }
    }
}
