// What stood first at the cells that were changed.
ghost use Rattle.std.specs.Prelude.{◌≡◌, ◌<◌, ◌++◌, ◌∷◌, [], false, length, slice_get, Some, OnOk, OnErr};
ghost use Rattle.std.specs.Option.{option_map};
ghost use Rattle.pac_tables.specs.Written.{AreWithin, cell_written, is_written, written};
ghost use Rattle.pac_undo.specs.Images.{before_image_at};
ghost use Rattle.pac_value.specs.State.{with_row};

use indexmap::IndexMap;
use pac_base::{Exact, NoMemory};
use pac_tables::Rows;
use pac_value::{Key, Row};
use std::alloc::Global;
use std::marker::Model;

/// The row that stood first at each cell that was changed, or none: one before-image a cell, in the order of the first changes.
/// Contracts see them as the writes that put them back.
#[derive(Drop)]
pub(crate) struct BeforeImages {
    images: IndexMap<(u16, Key), Option<Row>>,
}

impl Model for BeforeImages {
    ghost use Rattle.std.specs.Prelude.{List};
    ghost use Rattle.pac_tables.specs.declared.writes.Write.{Write};
    ghost use Rattle.pac_undo.specs.Images.{as_writes};

    ghost Value = { List Write };

    ghost view = { λ before. as_writes before.images.entries };
}

impl BeforeImages {
    /// No before-images. Takes no memory.
    pub(crate) fn new(alloc: Global) -> BeforeImages
        ensures { result ≡ [] }
    {
        BeforeImages {
            images: IndexMap::new(alloc),
        }
    }

    /// The before-image of a cell. `None`: the cell has none. Takes no memory.
    pub(crate) fn get(&self, table: u16, key: &Key) -> Option<&Option<Row>>
        ensures { option_map (λ image. image.now) result ≡ before_image_at self.now (table, key.now) }
    {
        self.images.get(&(table, *key))
    }

    /// How many before-images there are.
    pub(crate) fn len(&self) -> usize
        ensures { result ≡ length self.now }
    {
        self.images.len()
    }

    /// The cell of a before-image.
    pub(crate) fn cell(&self, at: usize) -> &(u16, Key)
        requires { at < length self.now }
        ensures { option_map cell_written (slice_get self.now at) ≡ Some result.now }
    {
        let Some((cell, _)) = self.images.get_index(at) else {
            unreachable!()
        };
        cell
    }

    /// One more before-image, of a cell that has none.
    ///
    /// # Errors
    ///
    /// [`NoMemory`] where it finds no room. Then nothing is changed.
    pub(crate) fn note(&mut self, table: u16, key: Key, image: Option<Row>) -> Result<(), NoMemory>
        requires { is_written self.old (table, key) ≡ false }
        ensures ok { OnOk result (self.new ≡ self.old ++ (record { table = table; key = key; row = image }) ∷ []) }
        ensures err { OnErr result (self.new ≡ self.old) }
    {
        self.images.insert((table, key), image)?;
        Ok(())
    }

    /// Puts each before-image back into tables, the last of them first.
    ///
    /// # Errors
    ///
    /// [`NoMemory`] where a row finds no room. Then some of them are put back.
    pub(crate) fn put_back<R: Rows>(&self, alloc: Global, rows: &mut R) -> Result<(), NoMemory>
        requires { AreWithin (R.tables rows.old) self.now }
        ensures rows { OnOk result (R.held rows.new ≡ written (R.held rows.old) self.now) }
        ensures tables { R.tables rows.new ≡ R.tables rows.old }
    {
        let mut left = self.images.iter();
        while let Some((cell, image)) = left.next_back() {
            put_image(alloc, rows, cell, image)?;
        }
        Ok(())
    }
}

// Puts one before-image back.
fn put_image<R: Rows>(
    alloc: Global,
    rows: &mut R,
    cell: &(u16, Key),
    image: &Option<Row>,
) -> Result<(), NoMemory>
    requires { cell.now.0 < R.tables rows.old }
    ensures rows { OnOk result (R.held rows.new ≡ with_row (R.held rows.old) cell.now image.now) }
    ensures tables { R.tables rows.new ≡ R.tables rows.old }
{
    match image {
        Some(row) => rows.put(cell.0, cell.1, row.copy(alloc)?),
        None => {
            rows.delete(cell.0, &cell.1);
            Ok(())
        }
    }
}
