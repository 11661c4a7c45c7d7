// Why a store isn't read.
ghost use Rattle.std.specs.Prelude.{◌≡◌, None as NoInfo, Some as HasInfo};
ghost use Rattle.pac_check.specs.declared.info.SlotInfo.{SlotInfo as ASlotInfo};
ghost use Rattle.pac_restore.specs.declared.errors.Damage.TheVariants.{Slot as InSlot};
ghost use Rattle.pac_restore.specs.Causes.{log_not_loaded};

use crate::TooManyRows;
use pac_base::NoMemory;
use pac_check::{SlotDamageKind, SlotError, SlotInfo, SlotName};
use pac_log::{DamageKind, LogError};
use pac_ops::Note;
use pac_outside::LogName;
use pac_value::Name;
use std::alloc::{AllocError, AllocFailed};
use thiserror::Error;

// Where the number of transactions and the offset stand in a slot.
const PLACE: u64 = 9;

/// What is wrong on a device, at an offset, from 0.
#[derive(Clone, Copy, Debug, PartialEq, Eq, Error)]
pub enum Damage {
    /// In the active segment of the log, on this device.
    #[error("log: {kind} at byte {at}")]
    Log {
        name: LogName,
        at: u64,
        kind: DamageKind,
    },
    /// In a slot. Where the number of transactions and the offset of the newest don't fit the segment, it is `Place` at 9.
    #[error("slot: {kind} at byte {at}")]
    Slot {
        slot: SlotName,
        at: u64,
        kind: SlotDamageKind,
    },
}

/// Why nothing is loaded.
#[derive(Clone, Copy, Debug, PartialEq, Eq, Error)]
pub enum LoadError {
    /// The device of the active segment doesn't begin as a log does.
    #[error("no store")]
    NoStore,
    /// This is the first damage.
    #[error("damaged {0}")]
    Damaged(Damage),
    /// A call of a device failed.
    #[error("a device failed")]
    DiskFault,
    /// There was no memory for what is read.
    #[error("out of memory")]
    NoMemory,
}

/// Why the tables aren't restored.
#[derive(Clone, Copy, Debug, PartialEq, Eq, Error)]
pub enum RecoverError {
    /// The store isn't read, or there was no memory for what is read or for the tables.
    #[error("{0}")]
    Load(LoadError),
    /// A stored transaction aborts.
    #[error("transaction {} aborts", .0.txn)]
    AbortInLog(Note),
    /// In the end a table has more rows than the limit: the first such one, by its name.
    #[error("a table has {rows} rows, over {limit}")]
    RowsOver { table: Name, rows: u64, limit: u64 },
}

/// Why the segment on a device isn't read.
pub fn in_log(name: LogName, cause: LogError) -> LoadError
    ensures { result ≡ log_not_loaded name cause }
{
    match cause {
        LogError::NoStore => LoadError::NoStore,
        LogError::Damaged { at, kind } => LoadError::Damaged(Damage::Log { name, at, kind }),
        LogError::DiskFault => LoadError::DiskFault,
        LogError::NoMemory => LoadError::NoMemory,
    }
}

/// That the newest slot is at no gate of the active segment.
pub(crate) fn misplaced(newest: Option<SlotInfo>) -> LoadError
    requires { ¬ (newest ≡ NoInfo) }
    ensures { (info : ASlotInfo) → newest ≡ HasInfo info → result ≡ LoadError.Damaged (InSlot info.slot 9 SlotDamageKind.Place) }
{
    let Some(info) = newest else {
        unreachable!();
    };
    LoadError::Damaged(Damage::Slot {
        slot: info.slot,
        at: PLACE,
        kind: SlotDamageKind::Place,
    })
}

impl From<SlotError> for LoadError {
    ghost use Rattle.pac_restore.specs.Causes.{slot_not_loaded};

    ghost from_gives = { λ cause error. error ≡ slot_not_loaded cause };

    fn from(cause: SlotError) -> Self {
        match cause {
            SlotError::DiskFault => LoadError::DiskFault,
            SlotError::Damaged { slot, at, kind } => {
                LoadError::Damaged(Damage::Slot { slot, at, kind })
            }
            SlotError::NoMemory => LoadError::NoMemory,
        }
    }
}

impl From<NoMemory> for LoadError {
    ghost use Rattle.pac_restore.specs.declared.errors.LoadError.{LoadError};

    ghost from_gives = { λ _ error. error ≡ LoadError.NoMemory };

    fn from(_: NoMemory) -> Self {
        LoadError::NoMemory
    }
}

impl From<AllocError> for LoadError {
    ghost use Rattle.pac_restore.specs.declared.errors.LoadError.{LoadError};

    ghost from_gives = { λ _ error. error ≡ LoadError.NoMemory };

    fn from(_: AllocError) -> Self {
        LoadError::NoMemory
    }
}

impl From<LoadError> for RecoverError {
    ghost use Rattle.pac_restore.specs.declared.errors.RecoverError.{RecoverError};

    ghost from_gives = { λ cause error. error ≡ RecoverError.Load cause };

    fn from(cause: LoadError) -> Self {
        RecoverError::Load(cause)
    }
}

impl From<TooManyRows> for RecoverError {
    ghost use Rattle.pac_restore.specs.declared.errors.RecoverError.{RecoverError};

    ghost from_gives = { λ excess error. error ≡ RecoverError.RowsOver excess.table excess.rows excess.limit };

    fn from(excess: TooManyRows) -> Self {
        let TooManyRows { table, rows, limit } = excess;
        RecoverError::RowsOver { table, rows, limit }
    }
}
