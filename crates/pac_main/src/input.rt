// Why a command gets nothing from its input.
ghost use Rattle.std.specs.Prelude.{◌≡◌};
ghost use Rattle.pac_main.specs.Inputs.{input_of_accept, input_of_read, input_of_script};

use pac_base::Refusal;
use pac_flat::AcceptError;
use pac_outside::ReadError;
use pac_script::{ScriptError, ScriptFault};
use thiserror::Error;

/// Why a command gets nothing from its input.
#[derive(Clone, Copy, Debug, PartialEq, Eq, Error)]
pub(crate) enum InputError {
    /// It could not be read.
    #[error("the input failed")]
    Failed,
    /// It has more than 67,108,864 bytes, where a script is wanted.
    #[error("the input is too long")]
    TooLong,
    /// What was read is no script, or isn't accepted as a catalogue where that alone is wanted.
    #[error("{0}")]
    Script(ScriptFault),
    /// An allocation was refused.
    #[error("out of memory")]
    NoMemory,
}

impl From<ReadError> for InputError {
    ghost from_gives = { λ error input. input ≡ input_of_read error };

    fn from(error: ReadError) -> Self {
        match error {
            ReadError::Failed => InputError::Failed,
            ReadError::NoMemory => InputError::NoMemory,
        }
    }
}

impl From<AcceptError> for InputError {
    ghost from_gives = { λ error input. input ≡ input_of_accept error };

    fn from(error: AcceptError) -> Self {
        match error {
            Refusal::Fault(fault) => InputError::Script(ScriptFault::Unaccepted(fault)),
            Refusal::NoMemory => InputError::NoMemory,
        }
    }
}

impl From<ScriptError> for InputError {
    ghost from_gives = { λ error input. input ≡ input_of_script error };

    fn from(error: ScriptError) -> Self {
        match error {
            Refusal::Fault(fault) => InputError::Script(fault),
            Refusal::NoMemory => InputError::NoMemory,
        }
    }
}
