// Reads the items of a checkpoint from a device.
ghost use Rattle.std.specs.Prelude.{◌≡◌, IfOk, IsErrOf};
ghost use Rattle.std.specs.Int.{w64};
ghost use Rattle.std.specs.Option.{option_map};
ghost use Rattle.pac_outside.specs.Causes.{one_more};
ghost use Rattle.pac_outside.specs.Disk.{IfKnown};
ghost use Rattle.pac_types.specs.Typing.{IsWellFormedTable};
ghost use Rattle.pac_check.specs.declared.damage.SlotFault.{SlotFault as AFault};
ghost use Rattle.pac_check.specs.Checkpoints.{IsRowAfter};
ghost use Rattle.pac_check.specs.CheckpointReading.{next_head, next_row, slot_number};
ghost use Rattle.pac_check.specs.PieceStates.{AreOfImage, KnownFault, KnownRead};

use crate::Head;
use crate::damage::CheckpointError;
use crate::head::{head_at, number_at};
use crate::pieces::Pieces;
use crate::rows::keyed_row_at;
use pac_base::Refusal;
use pac_outside::Disk;
use pac_types::Table;
use pac_value::{Key, Row};
use std::alloc::Global;

/// The head of a checkpoint of that many tables.
///
/// # Errors
///
/// Those of [`head_at`], and of the device.
pub(crate) fn head_from<D: Disk>(
    tables: usize,
    pieces: &mut Pieces,
    disk: &mut D,
) -> Result<Head, CheckpointError>
    requires { IfKnown (λ old. AreOfImage old.now.seen pieces.old) (D.known disk.old) }
    ensures read { IfOk result (λ head. KnownRead (D.known disk.old) pieces.old pieces.new head (next_head tables)) }
    ensures fault { (fault : AFault) → IsErrOf result (CheckpointError.Fault fault) → KnownFault (D.known disk.old) pieces.old fault (next_head tables) }
    ensures same { D.known disk.new ≡ D.known disk.old }
    ensures counted { IsErrOf result CheckpointError.DiskFault → D.faults disk.new ≡ one_more (D.faults disk.old) }
    ensures quiet { ¬ IsErrOf result CheckpointError.DiskFault → D.faults disk.new ≡ D.faults disk.old }
{
    pieces.fill(disk)?;
    match head_at(tables, pieces.held(), 0) {
        Ok((head, end)) => {
            pieces.pass(end);
            Ok(head)
        }
        Err(fault) => Err(CheckpointError::Fault(pieces.fault(fault))),
    }
}

/// A number of eight bytes.
///
/// # Errors
///
/// Those of [`number_at`], and of the device.
pub(crate) fn number_from<D: Disk>(
    pieces: &mut Pieces,
    disk: &mut D,
) -> Result<u64, CheckpointError>
    requires { IfKnown (λ old. AreOfImage old.now.seen pieces.old) (D.known disk.old) }
    ensures read { IfOk result (λ number. KnownRead (D.known disk.old) pieces.old pieces.new number (slot_number w64)) }
    ensures fault { (fault : AFault) → IsErrOf result (CheckpointError.Fault fault) → KnownFault (D.known disk.old) pieces.old fault (slot_number w64) }
    ensures same { D.known disk.new ≡ D.known disk.old }
    ensures counted { IsErrOf result CheckpointError.DiskFault → D.faults disk.new ≡ one_more (D.faults disk.old) }
    ensures quiet { ¬ IsErrOf result CheckpointError.DiskFault → D.faults disk.new ≡ D.faults disk.old }
{
    pieces.fill(disk)?;
    match number_at(pieces.held(), 0) {
        Ok((number, end)) => {
            pieces.pass(end);
            Ok(number)
        }
        Err(fault) => Err(CheckpointError::Fault(pieces.fault(fault))),
    }
}

/// A row of a table, with its key.
///
/// # Errors
///
/// Those of [`keyed_row_at`], and of the device.
pub(crate) fn keyed_row_from<D: Disk>(
    alloc: Global,
    table: &Table,
    before: Option<&Key>,
    pieces: &mut Pieces,
    disk: &mut D,
) -> Result<(Key, Row), CheckpointError>
    requires well_formed { IsWellFormedTable table.now }
    requires of { IfKnown (λ old. AreOfImage old.now.seen pieces.old) (D.known disk.old) }
    ensures row { IfOk result (λ row. IsRowAfter table.now (option_map (λ key. key.now) before.entry) (row.0, row.1)) }
    ensures read { IfOk result (λ row. KnownRead (D.known disk.old) pieces.old pieces.new (row.0, row.1) (next_row table.now (option_map (λ key. key.now) before.entry))) }
    ensures fault { (fault : AFault) → IsErrOf result (CheckpointError.Fault fault) → KnownFault (D.known disk.old) pieces.old fault (next_row table.now (option_map (λ key. key.now) before.entry)) }
    ensures same { D.known disk.new ≡ D.known disk.old }
    ensures counted { IsErrOf result CheckpointError.DiskFault → D.faults disk.new ≡ one_more (D.faults disk.old) }
    ensures quiet { ¬ IsErrOf result CheckpointError.DiskFault → D.faults disk.new ≡ D.faults disk.old }
{
    pieces.fill(disk)?;
    match keyed_row_at(alloc, table, before, pieces.held(), 0) {
        Ok((row, end)) => {
            pieces.pass(end);
            Ok(row)
        }
        Err(Refusal::Fault(fault)) => Err(CheckpointError::Fault(pieces.fault(fault))),
        Err(Refusal::NoMemory) => Err(CheckpointError::NoMemory),
    }
}
