// Why a call is refused.
ghost use Rattle.std.specs.Prelude.{◌≡◌};
ghost use Rattle.pac_base.specs.declared.refusal.Refusal.TheVariants.{NoMemory as OutOfMemory};

use crate::NoMemory;
use std::alloc::{AllocError, AllocFailed};
use std::fmt::Display;
use thiserror::Error;

/// Why a call is refused: a fault of its input, or running out of memory. Each layer's error is this type over the layer's own
/// fault, so its `From`s stand here once. `specs/Refusals.antt` has the predicates that contracts use for such results.
#[derive(Clone, Copy, Debug, PartialEq, Eq, Error)]
#[error_bound(F: Display)]
pub enum Refusal<F> {
    /// What was given has this fault.
    #[error("{0}")]
    Fault(F),
    /// An allocation was refused.
    #[error("out of memory")]
    NoMemory,
}

impl<F> From<NoMemory> for Refusal<F> {
    ghost from_gives = { λ _ refusal. refusal ≡ OutOfMemory };

    fn from(_: NoMemory) -> Self {
        Refusal::NoMemory
    }
}

impl<F> From<AllocError> for Refusal<F> {
    ghost from_gives = { λ _ refusal. refusal ≡ OutOfMemory };

    fn from(_: AllocError) -> Self {
        Refusal::NoMemory
    }
}

impl<F, T: Drop> From<AllocFailed<T>> for Refusal<F> {
    ghost from_gives = { λ _ refusal. refusal ≡ OutOfMemory };

    fn from(_: AllocFailed<T>) -> Self {
        Refusal::NoMemory
    }
}
