// Tables as they stand now, and as they stood at an opening.
ghost use Rattle.std.specs.Prelude.{◌≡◌, ◌↔◌, ◌<◌, IfOk, IfErr, IsOk, IsTrue, OnOk, OnErr};
ghost use Rattle.std.specs.List.{All};
ghost use Rattle.pac_tables.specs.Written.{AreWithin, HasRow, written};
ghost use Rattle.pac_undo.specs.Undo.{HasOpening, HasRowsIn, IsChanged, IsOpening};

use crate::before_images::BeforeImages;
use crate::compare::{is_same_in, is_same_where_changed};
use crate::noting::note_all;
use pac_base::NoMemory;
use pac_tables::{Rows, Writes, apply_all};
use std::alloc::Global;
use std::marker::Model;

/// Tables that know how they stood at an opening. They keep a before-image for each cell that was changed since: the row that
/// stood there at the opening, or none.
#[derive(Drop)]
pub struct UndoRows<R: Rows> {
    alloc: Global,
    rows: R,
    before: BeforeImages,
}

impl<R: Rows> Model for UndoRows<R> {
    ghost use Rattle.pac_tables.specs.Written.{AreWithin, written};
    ghost use Rattle.pac_undo.specs.Undo.{Undoable, undoable_code};

    ghost Value = { Undoable };

    ghost coded = { undoable_code };

    ghost view = { λ all. record { tables = R.tables all.rows; opening = written (R.held all.rows) all.before; current = R.held all.rows } };

    ghost invariant = { λ all. AreWithin (R.tables all.rows) all.before };
}

impl<R: Rows> UndoRows<R> {
    /// An opening: the tables as they are. Takes no memory.
    pub fn new(alloc: Global, rows: R) -> UndoRows<R>
        ensures { result ≡ record { tables = R.tables rows; opening = R.held rows; current = R.held rows } }
    {
        UndoRows {
            alloc,
            rows,
            before: BeforeImages::new(alloc),
        }
    }

    /// The tables as they stand now.
    pub fn rows(&self) -> &R
        ensures rows { R.held result.now ≡ self.now.current }
        ensures tables { R.tables result.now ≡ self.now.tables }
    {
        &self.rows
    }

    /// The tables as they stand now. How they stood at the opening is given up.
    pub fn into_rows(self) -> R
        ensures rows { R.held result ≡ self.current }
        ensures tables { R.tables result ≡ self.tables }
    {
        let UndoRows {
            alloc: _,
            rows,
            before: _,
        } = self;
        rows
    }

    /// Makes all of the writes, or none of them. The opening stays.
    ///
    /// A write costs what it costs in [`apply_all`], and a look-up of its cell's image; the first at a cell also a look-up and a
    /// copy of the row that stands there. No table is copied.
    ///
    /// # Errors
    ///
    /// [`NoMemory`] with the writes, only where one of them puts a row at a cell that has none, or is at a cell that has the row of
    /// the opening. Then the tables are as they were.
    pub fn apply(&mut self, writes: Writes) -> Result<(), (Writes, NoMemory)>
        requires { AreWithin self.old.tables writes }
        ensures ok { OnOk result (self.new ≡ record self.old { current = written self.old.current writes }) }
        ensures err { OnErr result (self.new ≡ self.old) }
        ensures writes { IfErr result (λ refused. refused.0 ≡ writes) }
        ensures placed { All (HasRow self.old.current) writes → All (IsChanged self.old) writes → IsOk result }
    {
        match note_all(self.alloc, &self.rows, &mut self.before, writes.items()) {
            Ok(()) => apply_all(self.alloc, &mut self.rows, writes),
            Err(NoMemory) => Err((writes, NoMemory)),
        }
    }

    /// A copy of the tables as they stood at the opening: a copy of those of now, in which each before-image is put back.
    ///
    /// # Errors
    ///
    /// [`NoMemory`] where the copy finds no room.
    pub fn opening(&self) -> Result<R, NoMemory>
        ensures rows { IfOk result (λ opening. R.held opening ≡ self.now.opening) }
        ensures tables { IfOk result (λ opening. R.tables opening ≡ self.now.tables) }
    {
        let mut rows = self.rows.copy()?;
        self.before.put_back(self.alloc, &mut rows)?;
        Ok(rows)
    }

    /// Whether other tables are as many and have the rows of the opening.
    ///
    /// It lists the rows of one table after another, those of now and the others, and then goes through the cells of the
    /// before-images. Each time it meets a key it looks it up three times at most: among the before-images, in the tables of now
    /// and in the others. No row is copied. Where a row differs it goes no further.
    ///
    /// # Errors
    ///
    /// [`NoMemory`] where a list of a table's rows finds no room.
    pub fn has_opening(&self, other: &R) -> Result<bool, NoMemory>
        ensures each { IfOk result (λ same. IsTrue same ↔ HasOpening self.now (R.tables other.now) (R.held other.now)) }
        ensures whole { HasRowsIn self.now.tables self.now.opening → HasRowsIn (R.tables other.now) (R.held other.now)
            → IfOk result (λ same. IsTrue same ↔ IsOpening self.now (R.tables other.now) (R.held other.now)) }
    {
        let tables = self.rows.tables();
        if other.tables() != tables {
            return Ok(false);
        }
        for table in 0..tables {
            if !is_same_in(&self.before, &self.rows, other, table)? {
                return Ok(false);
            }
        }
        Ok(is_same_where_changed(&self.before, &self.rows, other))
    }
}
