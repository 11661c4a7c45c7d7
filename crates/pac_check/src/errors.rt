// Why a slot isn't made, read or written.
ghost use Rattle.std.specs.Prelude.{◌≡◌};

use crate::{SlotDamageKind, SlotName};
use pac_base::NoMemory;
use pac_outside::{Failed, ReadError};
use std::alloc::{AllocError, AllocFailed};
use thiserror::Error;

/// Why a slot isn't made.
#[derive(Clone, Copy, Debug, PartialEq, Eq, Error)]
pub enum CreateSlotError {
    /// The device has that many bytes already.
    #[error("the device has {length} bytes")]
    NotEmpty { length: u64 },
    /// A call of the device failed.
    #[error("a device failed")]
    DiskFault,
}

/// Why slots aren't read.
#[derive(Clone, Copy, Debug, PartialEq, Eq, Error)]
pub enum SlotError {
    /// A call of a device failed.
    #[error("a device failed")]
    DiskFault,
    /// An open gate of this slot isn't followed by a checkpoint of the catalogue: the first fault, at this offset.
    #[error("slot: {kind} at byte {at}")]
    Damaged {
        slot: SlotName,
        at: u64,
        kind: SlotDamageKind,
    },
    /// There was no memory for what is read.
    #[error("out of memory")]
    NoMemory,
}

/// Why a checkpoint isn't saved.
#[derive(Clone, Copy, Debug, PartialEq, Eq, Error)]
pub enum SaveError {
    /// The slot would have that many bytes, its gate byte included.
    #[error("the slot would have {bytes} bytes")]
    TooLarge { bytes: u64 },
    /// A call of a device failed.
    #[error("a device failed")]
    DiskFault,
    /// There was no memory for the text.
    #[error("out of memory")]
    NoMemory,
}

impl From<Failed> for CreateSlotError {
    ghost use Rattle.pac_check.specs.declared.errors.CreateSlotError.{CreateSlotError};

    ghost from_gives = { λ _ error. error ≡ CreateSlotError.DiskFault };

    fn from(_: Failed) -> Self {
        CreateSlotError::DiskFault
    }
}

impl From<Failed> for SlotError {
    ghost use Rattle.pac_check.specs.declared.errors.SlotError.{SlotError};

    ghost from_gives = { λ _ error. error ≡ SlotError.DiskFault };

    fn from(_: Failed) -> Self {
        SlotError::DiskFault
    }
}

impl From<ReadError> for SlotError {
    ghost use Rattle.pac_check.specs.Kinds.{as_slot_error};

    ghost from_gives = { λ cause error. error ≡ as_slot_error cause };

    fn from(error: ReadError) -> Self {
        match error {
            ReadError::Failed => SlotError::DiskFault,
            ReadError::NoMemory => SlotError::NoMemory,
        }
    }
}

impl From<Failed> for SaveError {
    ghost use Rattle.pac_check.specs.declared.errors.SaveError.{SaveError};

    ghost from_gives = { λ _ error. error ≡ SaveError.DiskFault };

    fn from(_: Failed) -> Self {
        SaveError::DiskFault
    }
}

impl From<NoMemory> for SaveError {
    ghost use Rattle.pac_check.specs.declared.errors.SaveError.{SaveError};

    ghost from_gives = { λ _ error. error ≡ SaveError.NoMemory };

    fn from(_: NoMemory) -> Self {
        SaveError::NoMemory
    }
}

impl From<AllocError> for SaveError {
    ghost use Rattle.pac_check.specs.declared.errors.SaveError.{SaveError};

    ghost from_gives = { λ _ error. error ≡ SaveError.NoMemory };

    fn from(_: AllocError) -> Self {
        SaveError::NoMemory
    }
}

impl<T: Drop> From<AllocFailed<T>> for SaveError {
    ghost use Rattle.pac_check.specs.declared.errors.SaveError.{SaveError};

    ghost from_gives = { λ _ error. error ≡ SaveError.NoMemory };

    fn from(_: AllocFailed<T>) -> Self {
        SaveError::NoMemory
    }
}
