// What is wrong with the bytes of a field.
ghost use Rattle.std.specs.Prelude.{◌≡◌};
ghost use Rattle.pac_base.specs.declared.refusal.Refusal.TheVariants.{Fault as AFault};
ghost use Rattle.pac_bytes.specs.Values.{as_value_fault};
ghost use Rattle.pac_bytes.specs.Typed.{as_typed_fault};

use pac_base::Refusal;
use thiserror::Error;

/// Too few bytes are left for the field at this offset.
#[derive(Clone, Copy, Debug, PartialEq, Eq, Error)]
#[error("bytes end inside the field at {at}")]
pub struct Short {
    /// The offset of the field's first byte, from 0.
    pub at: usize,
}

/// Why no value stands at an offset: the first fault from the left, with its offset, from 0.
#[derive(Clone, Copy, Debug, PartialEq, Eq, Error)]
pub enum ValueFault {
    /// Too few bytes are left for the field at this offset. A text's length and its bytes are one field.
    #[error("bytes end inside the field at {at}")]
    Short { at: usize },
    /// The byte at this offset is no tag of a value.
    #[error("no value has the tag at {at}")]
    Tag { at: usize },
    /// The value whose tag stands at this offset is a text that is too long or has a byte that isn't printable.
    #[error("no text is what stands at {at}")]
    Bad { at: usize },
}

impl From<Short> for ValueFault {
    ghost from_gives = { λ short fault. fault ≡ as_value_fault short };

    fn from(short: Short) -> ValueFault {
        ValueFault::Short { at: short.at }
    }
}

/// Why no value of the type that is wanted stands at an offset: the first fault from the left, with its offset, from 0.
#[derive(Clone, Copy, Debug, PartialEq, Eq, Error)]
pub enum TypedFault {
    /// Too few bytes are left for the field at this offset. A text's length and its bytes are one field.
    #[error("bytes end inside the field at {at}")]
    Short { at: usize },
    /// The byte at this offset is no tag of a value.
    #[error("no value has the tag at {at}")]
    Tag { at: usize },
    /// The value whose tag stands at this offset is of another type, or a text that is too long or has a byte that isn't
    /// printable.
    #[error("another value is wanted at {at}")]
    Wrong { at: usize },
}

impl From<ValueFault> for TypedFault {
    ghost from_gives = { λ value fault. fault ≡ as_typed_fault value };

    fn from(fault: ValueFault) -> TypedFault {
        match fault {
            ValueFault::Short { at } => TypedFault::Short { at },
            ValueFault::Tag { at } => TypedFault::Tag { at },
            ValueFault::Bad { at } => TypedFault::Wrong { at },
        }
    }
}

impl From<TypedFault> for Refusal<TypedFault> {
    ghost from_gives = { λ fault refusal. refusal ≡ AFault fault };

    fn from(fault: TypedFault) -> Self {
        Refusal::Fault(fault)
    }
}
