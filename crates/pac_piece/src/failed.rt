// Why an operation has no effect.
use pac_base::NoMemory;
use pac_ops::Reason;
use pac_value::Trap;
use std::alloc::{AllocError, AllocFailed};

/// Why an operation has no effect.
#[derive(Clone, Copy, Debug, PartialEq, Eq)]
pub(crate) enum OpFailed {
    /// It would abort.
    Abort(Reason),
    /// An allocation was refused.
    NoMemory,
}

impl From<NoMemory> for OpFailed {
    ghost use Rattle.std.specs.Prelude.{◌≡◌};
    ghost use Rattle.pac_piece.specs.declared.failed.OpFailed.TheVariants.{NoMemory};

    ghost from_gives = { λ _ failed. failed ≡ NoMemory };

    fn from(_: NoMemory) -> Self {
        OpFailed::NoMemory
    }
}

impl From<AllocError> for OpFailed {
    ghost use Rattle.std.specs.Prelude.{◌≡◌};
    ghost use Rattle.pac_piece.specs.declared.failed.OpFailed.TheVariants.{NoMemory};

    ghost from_gives = { λ _ failed. failed ≡ NoMemory };

    fn from(_: AllocError) -> Self {
        OpFailed::NoMemory
    }
}

impl<T: Drop> From<AllocFailed<T>> for OpFailed {
    ghost use Rattle.std.specs.Prelude.{◌≡◌};
    ghost use Rattle.pac_piece.specs.declared.failed.OpFailed.TheVariants.{NoMemory};

    ghost from_gives = { λ _ failed. failed ≡ NoMemory };

    fn from(_: AllocFailed<T>) -> Self {
        OpFailed::NoMemory
    }
}

impl From<Trap> for OpFailed {
    ghost use Rattle.std.specs.Prelude.{◌≡◌};
    ghost use Rattle.pac_ops.specs.Reasons.{reason_of};
    ghost use Rattle.pac_piece.specs.declared.failed.OpFailed.TheVariants.{Abort};

    ghost from_gives = { λ trap failed. failed ≡ Abort (reason_of trap) };

    fn from(trap: Trap) -> Self {
        OpFailed::Abort(Reason::from(trap))
    }
}
