// The errors of the outside.
ghost use Rattle.std.specs.Prelude.{◌≡◌};
ghost use Rattle.pac_outside.specs.declared.failed.ReadError.TheVariants.{Failed as ReadFailed, NoMemory};

use std::alloc::AllocError;
use thiserror::Error;

/// A call of a source, a sink or a disk failed. Its count of faults rose in that call.
#[derive(Clone, Copy, Debug, PartialEq, Eq, Error)]
#[error("a read, a write or a device failed")]
pub struct Failed;

/// Why bytes of a source or a disk weren't read.
#[derive(Clone, Copy, Debug, PartialEq, Eq, Error)]
pub enum ReadError {
    /// The source or the disk failed.
    #[error("a read failed")]
    Failed,
    /// There was no memory for the bytes.
    #[error("out of memory")]
    NoMemory,
}

impl From<AllocError> for ReadError {
    ghost from_gives = { λ _ error. error ≡ NoMemory };

    fn from(_: AllocError) -> Self {
        ReadError::NoMemory
    }
}

impl From<Failed> for ReadError {
    ghost from_gives = { λ _ error. error ≡ ReadFailed };

    fn from(_: Failed) -> Self {
        ReadError::Failed
    }
}
