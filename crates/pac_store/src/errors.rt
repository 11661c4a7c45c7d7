// Why a store isn't made.
ghost use Rattle.std.specs.Prelude.{◌≡◌};
ghost use Rattle.pac_store.specs.Made.{log_not_made};
ghost use Rattle.pac_store.specs.declared.errors.MakeError.TheVariants.{DiskFault as AFault};

use crate::DeviceName;
use pac_log::CreateError;
use pac_outside::Failed;

/// Why a store isn't made.
#[derive(Clone, Copy, Debug, PartialEq, Eq)]
pub enum MakeError {
    /// This device has that many bytes already.
    NotEmpty { device: DeviceName, length: u64 },
    /// A call of a device failed.
    DiskFault,
    /// There was no memory for the log's header.
    NoMemory,
}

impl From<Failed> for MakeError {
    ghost from_gives = { λ _ error. error ≡ AFault };

    fn from(_: Failed) -> Self {
        MakeError::DiskFault
    }
}

impl From<CreateError> for MakeError {
    ghost from_gives = { λ cause error. error ≡ log_not_made cause };

    fn from(cause: CreateError) -> Self {
        match cause {
            CreateError::NotEmpty { length } => MakeError::NotEmpty {
                device: DeviceName::Log,
                length,
            },
            CreateError::DiskFault => MakeError::DiskFault,
            CreateError::NoMemory => MakeError::NoMemory,
        }
    }
}
