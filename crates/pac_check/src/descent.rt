// Reads a checkpoint from a device, and hands its rows out one by one.
ghost use Rattle.std.specs.Prelude.{◌≡◌, ◌<◌, ◌≤◌, ◌^◌, List, length, All, IfOk, IsErrOf, OnOk, None as NoKey};
ghost use Rattle.pac_outside.specs.Causes.{one_more};
ghost use Rattle.pac_outside.specs.Disk.{IfKnown};
ghost use Rattle.pac_bytes.specs.Reading.{along};
ghost use Rattle.pac_types.specs.Typing.{IsWellFormedTable};
ghost use Rattle.pac_check.specs.declared.damage.SlotFault.{SlotFault as AFault};
ghost use Rattle.pac_check.specs.Checkpoints.{KeyedRow};
ghost use Rattle.pac_check.specs.CheckpointReading.{next_checkpoint, next_rows, next_table};
ghost use Rattle.pac_check.specs.PieceStates.{AreOfImage, KnownFault, KnownRead};
ghost use Rattle.pac_check.specs.Taking.{TookRows, TookTables};

use crate::Head;
use crate::damage::CheckpointError;
use crate::items::{head_from, keyed_row_from, number_from};
use crate::pieces::Pieces;
use crate::taker::Taker;
use pac_outside::Disk;
use pac_types::Table;
use pac_value::Key;
use std::alloc::Global;

/// The head of the checkpoint that stands there. Its rows are taken, in one descent over the tables and their rows; one is
/// held at a time. After an error those before it were taken.
///
/// # Errors
///
/// The first fault from the left, a fault of the device, or `NoMemory`.
#[tactic(auto, unfolding(crate::specs::CheckpointReading::next_checkpoint))]
pub(crate) fn checkpoint_from<D: Disk, T: Taker>(
    alloc: Global,
    tables: &[Table],
    pieces: &mut Pieces,
    disk: &mut D,
    taker: &mut T,
) -> Result<Head, CheckpointError>
    requires well_formed { All IsWellFormedTable tables.now }
    requires few { length tables.now < 2 ^ 16 }
    requires within { length tables.now ≤ T.tables taker.old }
    requires of { IfKnown (λ old. AreOfImage old.now.seen pieces.old) (D.known disk.old) }
    ensures read { IfOk result (λ head. (rows : List (List KeyedRow)) × TookTables (T.holds taker.old) (T.holds taker.new) tables.now (length tables.now) rows × KnownRead (D.known disk.old) pieces.old pieces.new (record { head = head; tables = rows }) (next_checkpoint tables.now)) }
    ensures fault { (fault : AFault) → IsErrOf result (CheckpointError.Fault fault) → KnownFault (D.known disk.old) pieces.old fault (next_checkpoint tables.now) }
    ensures tables { T.tables taker.new ≡ T.tables taker.old }
    ensures same { D.known disk.new ≡ D.known disk.old }
    ensures counted { IsErrOf result CheckpointError.DiskFault → D.faults disk.new ≡ one_more (D.faults disk.old) }
    ensures quiet { ¬ IsErrOf result CheckpointError.DiskFault → D.faults disk.new ≡ D.faults disk.old }
{
    let head = head_from(tables.len(), pieces, disk)?;
    tables_from(alloc, tables, pieces, disk, taker)?;
    Ok(head)
}

// Takes the rows of all tables.
fn tables_from<D: Disk, T: Taker>(
    alloc: Global,
    tables: &[Table],
    pieces: &mut Pieces,
    disk: &mut D,
    taker: &mut T,
) -> Result<(), CheckpointError>
    requires well_formed { All IsWellFormedTable tables.now }
    requires few { length tables.now < 2 ^ 16 }
    requires within { length tables.now ≤ T.tables taker.old }
    requires of { IfKnown (λ old. AreOfImage old.now.seen pieces.old) (D.known disk.old) }
    ensures read { OnOk result ((rows : List (List KeyedRow)) × TookTables (T.holds taker.old) (T.holds taker.new) tables.now (length tables.now) rows × KnownRead (D.known disk.old) pieces.old pieces.new rows (along next_table tables.now)) }
    ensures fault { (fault : AFault) → IsErrOf result (CheckpointError.Fault fault) → KnownFault (D.known disk.old) pieces.old fault (along next_table tables.now) }
    ensures tables { T.tables taker.new ≡ T.tables taker.old }
    ensures same { D.known disk.new ≡ D.known disk.old }
    ensures counted { IsErrOf result CheckpointError.DiskFault → D.faults disk.new ≡ one_more (D.faults disk.old) }
    ensures quiet { ¬ IsErrOf result CheckpointError.DiskFault → D.faults disk.new ≡ D.faults disk.old }
{
    for (i, table) in tables.iter().enumerate() {
        table_from(alloc, table, i as u16, pieces, disk, taker)?;
    }
    Ok(())
}

// Takes the rows of one table, whose number comes first.
#[tactic(auto, unfolding(crate::specs::CheckpointReading::next_table))]
fn table_from<D: Disk, T: Taker>(
    alloc: Global,
    table: &Table,
    number: u16,
    pieces: &mut Pieces,
    disk: &mut D,
    taker: &mut T,
) -> Result<(), CheckpointError>
    requires well_formed { IsWellFormedTable table.now }
    requires within { number < T.tables taker.old }
    requires of { IfKnown (λ old. AreOfImage old.now.seen pieces.old) (D.known disk.old) }
    ensures read { OnOk result ((rows : List KeyedRow) × TookRows (T.holds taker.old) (T.holds taker.new) table.now number rows × KnownRead (D.known disk.old) pieces.old pieces.new rows (next_table table.now)) }
    ensures fault { (fault : AFault) → IsErrOf result (CheckpointError.Fault fault) → KnownFault (D.known disk.old) pieces.old fault (next_table table.now) }
    ensures tables { T.tables taker.new ≡ T.tables taker.old }
    ensures same { D.known disk.new ≡ D.known disk.old }
    ensures counted { IsErrOf result CheckpointError.DiskFault → D.faults disk.new ≡ one_more (D.faults disk.old) }
    ensures quiet { ¬ IsErrOf result CheckpointError.DiskFault → D.faults disk.new ≡ D.faults disk.old }
{
    let count = number_from(pieces, disk)?;
    rows_from(alloc, table, number, count, pieces, disk, taker)
}

// Takes that many rows of one table.
fn rows_from<D: Disk, T: Taker>(
    alloc: Global,
    table: &Table,
    number: u16,
    count: u64,
    pieces: &mut Pieces,
    disk: &mut D,
    taker: &mut T,
) -> Result<(), CheckpointError>
    requires well_formed { IsWellFormedTable table.now }
    requires within { number < T.tables taker.old }
    requires of { IfKnown (λ old. AreOfImage old.now.seen pieces.old) (D.known disk.old) }
    ensures read { OnOk result ((rows : List KeyedRow) × TookRows (T.holds taker.old) (T.holds taker.new) table.now number rows × KnownRead (D.known disk.old) pieces.old pieces.new rows (next_rows table.now count NoKey)) }
    ensures fault { (fault : AFault) → IsErrOf result (CheckpointError.Fault fault) → KnownFault (D.known disk.old) pieces.old fault (next_rows table.now count NoKey) }
    ensures tables { T.tables taker.new ≡ T.tables taker.old }
    ensures same { D.known disk.new ≡ D.known disk.old }
    ensures counted { IsErrOf result CheckpointError.DiskFault → D.faults disk.new ≡ one_more (D.faults disk.old) }
    ensures quiet { ¬ IsErrOf result CheckpointError.DiskFault → D.faults disk.new ≡ D.faults disk.old }
{
    let mut before: Option<Key> = None;
    for _ in 0..count {
        let (key, row) = keyed_row_from(alloc, table, before.as_ref(), pieces, disk)?;
        before = Some(copied(&key));
        taker.take(number, key, row)?;
    }
    Ok(())
}

// A key may be taken and stand in a variable.
fn copied(key: &Key) -> Key
    ensures { result ≡ key.now }
{
    *key
}
