// Why no line was read.
ghost use Rattle.std.specs.Prelude.{◌≡◌};
ghost use Rattle.pac_lines.specs.declared.line_error.LineError.TheVariants.{Failed as ReadFailed, NoMemory};

use pac_outside::Failed;
use std::alloc::AllocError;
use thiserror::Error;

/// Why no line was read. No byte is lost by it but those of a line that is too long to be handed out whole.
#[derive(Clone, Copy, Debug, PartialEq, Eq, Error)]
pub enum LineError {
    /// The source failed.
    #[error("a read failed")]
    Failed,
    /// The source gave one byte more than the limit, and no whole line is left before it.
    #[error("the input is too long")]
    TooLong,
    /// There was no memory for more bytes.
    #[error("out of memory")]
    NoMemory,
}

impl From<AllocError> for LineError {
    ghost from_gives = { λ _ error. error ≡ NoMemory };

    fn from(_: AllocError) -> Self {
        LineError::NoMemory
    }
}

impl From<Failed> for LineError {
    ghost from_gives = { λ _ error. error ≡ ReadFailed };

    fn from(_: Failed) -> Self {
        LineError::Failed
    }
}
