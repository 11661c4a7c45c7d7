// Why a run stops before its end.
ghost use Rattle.std.specs.Prelude.{◌≡◌};
ghost use Rattle.pac_engine.specs.declared.fault.EngineCause.TheVariants.{Ended};
ghost use Rattle.pac_run.specs.Causes.{stop_of_engine, stop_of_read};
ghost use Rattle.pac_run.specs.declared.stop.RunStop.TheVariants.{NoMemory as OutOfMemory, Opening};

use pac_base::NoMemory;
use pac_engine::EngineCause;
use pac_lines::LineError;
use pac_restore::RecoverError;
use thiserror::Error;

/// Why a run stops before its end.
#[derive(Clone, Copy, Debug, PartialEq, Eq, Error)]
pub enum RunStop {
    /// The store isn't opened.
    #[error("{0}")]
    Opening(RecoverError),
    /// The input failed.
    #[error("the input failed")]
    InputFault,
    /// The output failed.
    #[error("the output failed")]
    OutputFault,
    /// A call of a device failed once the store was open.
    #[error("a device failed")]
    DiskFault,
    /// An allocation was refused then.
    #[error("out of memory")]
    NoMemory,
    /// The log would have that many bytes.
    #[error("the log would have {need} bytes")]
    LogFull { need: u64 },
    /// The input has a byte more than a run handles.
    #[error("the input is too long")]
    TooLong,
    /// A checkpoint's slot would have that many bytes.
    #[error("the slot would have {bytes} bytes")]
    TooLarge { bytes: u64 },
}

impl From<NoMemory> for RunStop {
    ghost from_gives = { λ _ stop. stop ≡ OutOfMemory };

    fn from(_: NoMemory) -> Self {
        RunStop::NoMemory
    }
}

impl From<RecoverError> for RunStop {
    ghost from_gives = { λ error stop. stop ≡ Opening error };

    fn from(error: RecoverError) -> Self {
        RunStop::Opening(error)
    }
}

/// The next line isn't read.
pub(crate) fn stop_of_read(error: LineError) -> RunStop
    ensures { result ≡ stop_of_read error }
{
    match error {
        LineError::Failed => RunStop::InputFault,
        LineError::TooLong => RunStop::TooLong,
        LineError::NoMemory => RunStop::NoMemory,
    }
}

/// A request isn't answered by an engine that goes on.
pub(crate) fn stop_of_engine(cause: EngineCause) -> RunStop
    requires { ¬ (cause ≡ Ended) }
    ensures { result ≡ stop_of_engine cause }
{
    match cause {
        EngineCause::DiskFault => RunStop::DiskFault,
        EngineCause::LogFull { need } => RunStop::LogFull { need },
        EngineCause::TooLarge { bytes } => RunStop::TooLarge { bytes },
        EngineCause::Ended => unreachable!(),
        EngineCause::NoMemory => RunStop::NoMemory,
    }
}
