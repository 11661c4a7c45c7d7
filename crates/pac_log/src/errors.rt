// Why a log isn't made, read or written.
ghost use Rattle.std.specs.Prelude.{◌≡◌};

use crate::DamageKind;
use pac_base::NoMemory;
use pac_outside::Failed;
use std::alloc::{AllocError, AllocFailed};
use thiserror::Error;

/// Why a log isn't made.
#[derive(Clone, Copy, Debug, PartialEq, Eq, Error)]
pub enum CreateError {
    /// The device has that many bytes already.
    #[error("the device has {length} bytes")]
    NotEmpty { length: u64 },
    /// A call of the device failed.
    #[error("a device failed")]
    DiskFault,
    /// There was no memory for the header.
    #[error("out of memory")]
    NoMemory,
}

/// Why a log isn't read.
#[derive(Clone, Copy, Debug, PartialEq, Eq, Error)]
pub enum LogError {
    /// The device doesn't begin as a log does.
    #[error("no log")]
    NoStore,
    /// An open gate isn't followed by a batch and a gate: the first fault, at this offset.
    #[error("{kind} at byte {at}")]
    Damaged { at: u64, kind: DamageKind },
    /// A call of the device failed.
    #[error("a device failed")]
    DiskFault,
    /// There was no memory for what is read.
    #[error("out of memory")]
    NoMemory,
}

/// Why a batch isn't made ready.
#[derive(Clone, Copy, Debug, PartialEq, Eq, Error)]
pub enum PrepareError {
    /// The log would have that many bytes.
    #[error("the log would have {need} bytes")]
    LogFull { need: u64 },
    /// An earlier commit failed.
    #[error("the log has failed")]
    Failed,
    /// There was no memory for the body.
    #[error("out of memory")]
    NoMemory,
}

impl From<Failed> for CreateError {
    ghost use Rattle.pac_log.specs.declared.errors.CreateError.{CreateError};

    ghost from_gives = { λ _ error. error ≡ CreateError.DiskFault };

    fn from(_: Failed) -> Self {
        CreateError::DiskFault
    }
}

impl From<NoMemory> for CreateError {
    ghost use Rattle.pac_log.specs.declared.errors.CreateError.{CreateError};

    ghost from_gives = { λ _ error. error ≡ CreateError.NoMemory };

    fn from(_: NoMemory) -> Self {
        CreateError::NoMemory
    }
}

impl From<AllocError> for CreateError {
    ghost use Rattle.pac_log.specs.declared.errors.CreateError.{CreateError};

    ghost from_gives = { λ _ error. error ≡ CreateError.NoMemory };

    fn from(_: AllocError) -> Self {
        CreateError::NoMemory
    }
}

impl<T: Drop> From<AllocFailed<T>> for CreateError {
    ghost use Rattle.pac_log.specs.declared.errors.CreateError.{CreateError};

    ghost from_gives = { λ _ error. error ≡ CreateError.NoMemory };

    fn from(_: AllocFailed<T>) -> Self {
        CreateError::NoMemory
    }
}

impl From<Failed> for LogError {
    ghost use Rattle.pac_log.specs.declared.errors.LogError.{LogError};

    ghost from_gives = { λ _ error. error ≡ LogError.DiskFault };

    fn from(_: Failed) -> Self {
        LogError::DiskFault
    }
}

impl From<pac_outside::ReadError> for LogError {
    ghost use Rattle.pac_log.specs.LogErrors.{as_read_error};

    ghost from_gives = { λ cause error. error ≡ as_read_error cause };

    fn from(error: pac_outside::ReadError) -> Self {
        match error {
            pac_outside::ReadError::Failed => LogError::DiskFault,
            pac_outside::ReadError::NoMemory => LogError::NoMemory,
        }
    }
}

impl From<NoMemory> for PrepareError {
    ghost use Rattle.pac_log.specs.declared.errors.PrepareError.{PrepareError};

    ghost from_gives = { λ _ error. error ≡ PrepareError.NoMemory };

    fn from(_: NoMemory) -> Self {
        PrepareError::NoMemory
    }
}

impl From<AllocError> for PrepareError {
    ghost use Rattle.pac_log.specs.declared.errors.PrepareError.{PrepareError};

    ghost from_gives = { λ _ error. error ≡ PrepareError.NoMemory };

    fn from(_: AllocError) -> Self {
        PrepareError::NoMemory
    }
}

impl<T: Drop> From<AllocFailed<T>> for PrepareError {
    ghost use Rattle.pac_log.specs.declared.errors.PrepareError.{PrepareError};

    ghost from_gives = { λ _ error. error ≡ PrepareError.NoMemory };

    fn from(_: AllocFailed<T>) -> Self {
        PrepareError::NoMemory
    }
}
