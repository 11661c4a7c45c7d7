// Why a step of the engine fails.
ghost use Rattle.std.specs.Prelude.{◌≡◌};

use pac_base::NoMemory;
use pac_outside::Failed;
use pac_request::Replies;
use std::fmt;
use thiserror::Error;

/// Why a step fails.
#[derive(Clone, Copy, Debug, PartialEq, Eq, Error)]
pub enum EngineCause {
    /// A call of a device failed.
    #[error("a device failed")]
    DiskFault,
    /// The log would have that many bytes.
    #[error("the log would have {need} bytes")]
    LogFull { need: u64 },
    /// A checkpoint's slot would have that many bytes.
    #[error("the slot would have {bytes} bytes")]
    TooLarge { bytes: u64 },
    /// An earlier step failed, or stopped the engine.
    #[error("the engine has ended")]
    Ended,
    /// An allocation was refused.
    #[error("out of memory")]
    NoMemory,
}

/// A step failed. The replies are those that became durable in it before. It is printed as its cause.
#[derive(Drop, Error)]
#[error("{cause}")]
pub struct EngineFault {
    pub replies: Replies,
    pub cause: EngineCause,
}

impl fmt::Debug for EngineFault {
    fn fmt<W: fmt::Write>(&self, f: &mut fmt::Formatter<W>) -> fmt::Result {
        fmt::Debug::fmt(&self.cause, f)
    }
}

impl From<NoMemory> for EngineCause {
    ghost use Rattle.pac_engine.specs.declared.fault.EngineCause.{EngineCause};

    ghost from_gives = { λ _ cause. cause ≡ EngineCause.NoMemory };

    fn from(_: NoMemory) -> Self {
        EngineCause::NoMemory
    }
}

// A device failed.
impl From<Failed> for EngineCause {
    ghost use Rattle.pac_engine.specs.declared.fault.EngineCause.{EngineCause};

    ghost from_gives = { λ _ cause. cause ≡ EngineCause.DiskFault };

    fn from(_: Failed) -> Self {
        EngineCause::DiskFault
    }
}
